//! A session that is stopped behind each ask of a call, while another session and the keeper go through a commit. Then it goes on.
use crate::lines::Line::{Add, Commit, Finish, Poll, Refresh, Sleep, Turn, Up, Wake};
use crate::lines::{Line, actor, beginning};
use crate::stores::{
    NARROW_FOR_TWO, Sizes, Store, WIDE_FOR_TWO, begin, crash, hold, new_store, play,
};
use fkv_base::{DRAIN_SLOTS, Fault, Key, Serial, Value};
use fkv_disk::MemDisk;
use fkv_opening::recover;
use fkv_pairs::content;
use fkv_plane::drain_place;
use std::alloc::Global;
use std::process::Abort;
use std::test::Fail;

/// More asks than the calls of these tests have.
const ENOUGH: u64 = 200;

/// The rounds of the other session and the keeper while the call is stopped, more than a commit takes.
const ROUNDS: u64 = 8;

/// The word of a drain slot that an actor holds.
const HELD: u64 = 1;

/// What a crash leaves behind the commit: its points, and the pairs that are recovered.
#[derive(Clone, Copy)]
struct Kept<'a> {
    points: [Serial; 2],
    pairs: &'a [(Key, Value)],
}

/// A call of session 0 that is stopped, with the lines before it and those behind its end, whether it holds a drain slot at some stop,
/// and what may be kept then.
#[derive(Clone, Copy)]
struct Stopped<'a> {
    sizes: Sizes,
    before: &'a [Line],
    call: Line,
    behind: &'a [Line],
    holds_a_slot: bool,
    kept: &'a [Kept<'a>],
}

/// The append of a home's first record. The commit waits for the session, so it keeps the update.
const APPEND: Stopped = Stopped {
    sizes: WIDE_FOR_TWO,
    before: &[Up(1, 2, 20)],
    call: Up(0, 1, 10),
    behind: &[],
    holds_a_slot: false,
    kept: &[Kept {
        points: [Serial(1), Serial(1)],
        pairs: &[(Key(1), Value(10)), (Key(2), Value(20))],
    }],
};

/// A wake. If the session has loaded the phase before the commit began, the commit waits for it, and keeps its update behind the wake.
const WAKING: Stopped = Stopped {
    sizes: WIDE_FOR_TWO,
    before: &[Up(0, 1, 10), Sleep(0), Up(1, 2, 20)],
    call: Wake(0),
    behind: &[Add(0, 1, 5)],
    holds_a_slot: false,
    kept: &[
        Kept {
            points: [Serial(1), Serial(1)],
            pairs: &[(Key(1), Value(10)), (Key(2), Value(20))],
        },
        Kept {
            points: [Serial(2), Serial(1)],
            pairs: &[(Key(1), Value(15)), (Key(2), Value(20))],
        },
    ],
};

/// An update that finds no room, and the turn that the session makes for it, in which it holds a drain slot.
const OWN_TURN: Stopped = Stopped {
    sizes: NARROW_FOR_TWO,
    before: &[
        Up(0, 1, 10),
        Up(0, 2, 20),
        Up(0, 3, 30),
        Up(0, 4, 40),
        Up(0, 5, 50),
        Up(0, 6, 60),
        Up(0, 7, 70),
    ],
    call: Up(0, 8, 80),
    behind: &[],
    holds_a_slot: true,
    kept: &[Kept {
        points: [Serial(8), Serial(0)],
        pairs: &[
            (Key(1), Value(10)),
            (Key(2), Value(20)),
            (Key(3), Value(30)),
            (Key(4), Value(40)),
            (Key(5), Value(50)),
            (Key(6), Value(60)),
            (Key(7), Value(70)),
            (Key(8), Value(80)),
        ],
    }],
};

/// Whether some actor holds a drain slot.
fn is_a_slot_held(store: &Store) -> bool {
    for slot in 0..DRAIN_SLOTS {
        if store.word(drain_place(slot)) == HELD {
            return true;
        }
    }
    false
}

/// A commit begins, and all but session 0 go on with it.
fn commits_beside(store: &mut Store) {
    play(store, &[Commit]);
    for _ in 0..ROUNDS {
        play(store, &[Refresh(1), Poll(1), Turn]);
    }
}

/// The call goes on behind the commit. Whether it ends.
fn goes_on(store: &mut Store, stopped: &Stopped) -> bool {
    commits_beside(store);
    let told = store.finish(actor(beginning(stopped.call)));
    play(store, stopped.behind);
    play(store, &[Finish]);
    told.is_some()
}

/// Stops the call behind so many of its asks, up to the commit's end. Whether a drain slot is held at the stop; none where the call ends
/// before.
fn stops(rt: &impl Abort, store: &mut Store, stopped: &Stopped, asks: u64) -> Option<bool> {
    play(store, stopped.before);
    if begin(store, beginning(stopped.call), asks).is_some() {
        return None;
    }
    let is_held = is_a_slot_held(store);
    hold!(rt; goes_on(store, stopped));
    Some(is_held)
}

/// Whether these points and pairs are one of what may be kept.
fn are_kept(points: &[Serial], pairs: &[(Key, Value)], all: &[Kept]) -> bool {
    for kept in all {
        if points == kept.points.as_slice() && pairs == kept.pairs {
            return true;
        }
    }
    false
}

/// Whether the image holds the first commit, and one of these.
fn is_kept(alloc: Global, image: &mut MemDisk, stopped: &Stopped) -> Result<bool, Fault> {
    let opened = recover(alloc, image)?;
    let pairs = content(alloc, &opened, image)?;
    let points = opened.points.as_slice();
    Ok(opened.number.0 == 1 && are_kept(points, pairs.as_slice(), stopped.kept))
}

/// Stops the call behind so many of its asks in a new store, which ends then.
fn stops_once(
    rt: &impl Abort,
    alloc: Global,
    stopped: &Stopped,
    asks: u64,
) -> Result<Option<bool>, Fault> {
    let mut store = new_store(alloc, stopped.sizes)?;
    let is_held = stops(rt, &mut store, stopped, asks);
    let mut image = crash(store, 0)?;
    hold!(rt; is_held.is_none() || is_kept(alloc, &mut image, stopped)?);
    Ok(is_held)
}

/// Stops the call behind each of its asks in turn, and gives how many it has. A slot is held at some stop just where that is said of it.
fn stop_at_each(rt: &impl Abort, alloc: Global, stopped: &Stopped) -> Result<u64, Fault> {
    let mut has_held = false;
    for asks in 0..ENOUGH {
        match stops_once(rt, alloc, stopped, asks)? {
            None => {
                hold!(rt; has_held == stopped.holds_a_slot);
                return Ok(asks);
            }
            Some(is_held) => has_held = has_held || is_held,
        }
    }
    Ok(ENOUGH)
}

#[test]
fn a_call_goes_on_behind_a_commit(rt: HostRuntime) -> Result<(), Fail> {
    for stopped in [&APPEND, &WAKING, &OWN_TURN] {
        let asks = stop_at_each(&rt, rt.alloc(), stopped)?;
        hold!(&rt; 0 < asks && asks < ENOUGH);
    }
    Ok(())
}
