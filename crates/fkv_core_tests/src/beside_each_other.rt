//! Calls that are moved by hand in the middle of others.
use crate::lines::Line::{Add, Commit, Finish, Get, Poll, Refresh, Turn, Up};
use crate::lines::Says::{At, Begun, Done, Found, Kept, LateDone, Leaves, Nothing, Sees, Waits};
use crate::lines::{Line, Says, actor, beginning};
use crate::stores::{Store, begin, is_said, whole};
use fkv_base::Phase::{InProgress, Prepare};
use fkv_ops::Reason::Contended;
use std::process::Abort;

/// One step of the scene.
#[derive(Clone, Copy)]
enum Step {
    /// The line's call begins, and stops in the middle of it, behind so many of its steps.
    Stops(u64, Line),
    /// The line's call, which is in hand, is moved to its end.
    Ends(Line, Says),
    /// The line's call is made whole.
    Whole(Line, Says),
}

/// Whether the step is answered as it says.
fn goes(store: &mut Store, step: Step) -> bool {
    let (line, says, came) = match step {
        Step::Stops(count, line) => (line, Nothing, begin(store, beginning(line), count)),
        Step::Ends(line, says) => (line, says, store.finish(actor(beginning(line)))),
        Step::Whole(line, says) => (line, says, whole(store, line)),
    };
    is_said(store, line, says, came)
}

/// An update has reserved its address, and another session publishes a record of the same key before it does: it has lost, and waits for a
/// poll. A refresh has loaded the epoch before a commit raises it, so it shows prepare and is still in the old epoch. A turn has loaded the
/// old epoch of a session that refreshes then: the commit goes on in the turn behind it.
const STEPS: [Step; 19] = [
    Step::Stops(4, Up(0, 1, 10)),
    Step::Whole(Up(1, 1, 20), Done(1)),
    Step::Stops(1, Refresh(1)),
    Step::Whole(Commit, Begun(1)),
    Step::Ends(Refresh(1), Sees(Prepare, 1)),
    Step::Ends(Up(0, 1, 10), Waits(1, Contended)),
    Step::Whole(Refresh(0), Sees(Prepare, 1)),
    Step::Whole(Turn, At(Prepare, 1)),
    Step::Stops(3, Turn),
    Step::Whole(Get(0, 1), Found(20)),
    Step::Whole(Poll(0), LateDone(1)),
    Step::Whole(Refresh(1), Sees(Prepare, 1)),
    Step::Ends(Turn, At(Prepare, 1)),
    Step::Whole(Turn, At(InProgress, 2)),
    Step::Whole(Add(1, 1, 5), Leaves(2, 15)),
    Step::Whole(Refresh(0), Sees(InProgress, 2)),
    Step::Whole(Add(0, 1, 100), Leaves(2, 115)),
    Step::Whole(Get(1, 1), Found(115)),
    Step::Whole(Finish, Kept(1, 1, 2)),
];

/// Two sessions and the keeper meet in the middle of calls.
pub(crate) fn all_go(rt: &impl Abort, store: &mut Store) {
    for (at, step) in STEPS.iter().enumerate() {
        assert!(rt; goes(store, *step), "at step {at}");
    }
}
