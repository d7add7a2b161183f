//! Commits moved by hand over plain words, of stores with up to two sessions, whose blocks begin at places 24 and 40.
use crate::words::{make, new_words, store};
use fkv_base::{Addr, CommitKind, Fault, LAST_EPOCH, Phase, Serial, StoreClass, Version};
use fkv_commit::{
    Commit, EnterAnswer, EnterWaitPending, FinishAnswer, FinishCommit, SeekAnswer, SeekPoints,
    StartAnswer, StartAsked, StartCommit, WaitAnswer, WaitFlush, law_of_phases, law_of_points,
};
use fkv_plane::{Action, Ask, PlainWords};
use std::alloc::Global;
use std::process::Abort;
use std::test::Fail;

/// One of a version.
const ONE: u64 = 1 << 48;

const EPOCH: usize = 0;

const PHASE: usize = 2;

const TAIL: usize = 3;

const READ_ONLY: usize = 5;
/// The first of eight drain slots.
const DRAIN: usize = 16;

/// A commit that starts over these words, with so many ranges of lost records, its asks, and words that stand there in the end.
struct Start<'a> {
    words: &'a [(usize, u64)],
    kind: CommitKind,
    lost: usize,
    asks: &'a [Ask<StartAnswer>],
    left: &'a [(usize, u64)],
}

/// Prepare is stored before the tail is loaded, and in-progress waits for epoch 1; also in the last drain slot, of the last version
/// but one.
const BEGUN: [Start<'static>; 2] = [
    Start {
        words: &[(EPOCH, 1), (PHASE, 1), (TAIL, 5)],
        kind: CommitKind::Full,
        lost: 0,
        asks: &[
            Ask::Load(PHASE),
            Ask::Load(EPOCH),
            Ask::Load(DRAIN),
            Ask::Cas(DRAIN, 0, 1),
            Ask::Store(PHASE, 65537),
            Ask::Load(TAIL),
            Ask::Add(EPOCH, 1),
            Ask::Put(0, Action::Phase(Phase::InProgress, Version(2))),
            Ask::Store(DRAIN, 3),
            Ask::Done(StartAnswer::Begun(Version(1), Addr(5))),
        ],
        left: &[(EPOCH, 2), (DRAIN, 3)],
    },
    Start {
        words: &[
            (EPOCH, 7),
            (PHASE, 8190),
            (TAIL, 5),
            (DRAIN, 1),
            (DRAIN + 1, 1),
            (DRAIN + 2, 1),
            (DRAIN + 3, 1),
            (DRAIN + 4, 1),
            (DRAIN + 5, 1),
            (DRAIN + 6, 1),
        ],
        kind: CommitKind::Log,
        lost: 8,
        asks: &[
            Ask::Load(PHASE),
            Ask::Load(EPOCH),
            Ask::Load(DRAIN),
            Ask::Load(DRAIN + 1),
            Ask::Load(DRAIN + 2),
            Ask::Load(DRAIN + 3),
            Ask::Load(DRAIN + 4),
            Ask::Load(DRAIN + 5),
            Ask::Load(DRAIN + 6),
            Ask::Load(DRAIN + 7),
            Ask::Cas(DRAIN + 7, 0, 1),
            Ask::Store(PHASE, 65536 + 8190),
            Ask::Load(TAIL),
            Ask::Add(EPOCH, 1),
            Ask::Put(7, Action::Phase(Phase::InProgress, Version(8191))),
            Ask::Store(DRAIN + 7, 9),
            Ask::Done(StartAnswer::Begun(Version(8190), Addr(5))),
        ],
        left: &[(EPOCH, 8), (DRAIN + 7, 9)],
    },
];

/// A start that is refused, and why; it ends without a change, after so many asks.
#[derive(Clone, Copy)]
struct Refusal<'a> {
    words: &'a [(usize, u64)],
    kind: CommitKind,
    lost: usize,
    after: usize,
    why: Fault,
}

/// A commit runs, no more ranges have room, and the epochs are spent.
const RUNNING: Refusal<'static> = Refusal {
    words: &[(EPOCH, LAST_EPOCH), (PHASE, 65537)],
    kind: CommitKind::Log,
    lost: 9,
    after: 1,
    why: Fault::CommitRunning,
};

/// The epochs are spent, and the last version but one is attempted.
const SPENT: &[(usize, u64)] = &[(EPOCH, LAST_EPOCH), (PHASE, 8190)];

/// In the order in which they are tested: each is also one by the tests that come later.
const REFUSED: [Refusal<'static>; 7] = [
    RUNNING,
    Refusal {
        words: &[(EPOCH, LAST_EPOCH), (PHASE, 1 << 51)],
        ..RUNNING
    },
    Refusal {
        words: &[(EPOCH, LAST_EPOCH), (PHASE, 8191)],
        why: Fault::VersionsSpent,
        ..RUNNING
    },
    Refusal {
        words: SPENT,
        why: Fault::LostFull,
        ..RUNNING
    },
    Refusal {
        words: SPENT,
        kind: CommitKind::Full,
        after: 2,
        why: Fault::EpochsSpent,
        ..RUNNING
    },
    Refusal {
        words: SPENT,
        lost: 8,
        after: 2,
        why: Fault::EpochsSpent,
        ..RUNNING
    },
    Refusal {
        words: &[
            (EPOCH, 7),
            (PHASE, 8190),
            (DRAIN, 1),
            (DRAIN + 1, 1),
            (DRAIN + 2, 1),
            (DRAIN + 3, 1),
            (DRAIN + 4, 1),
            (DRAIN + 5, 1),
            (DRAIN + 6, 1),
            (DRAIN + 7, 1),
        ],
        kind: CommitKind::Full,
        lost: 0,
        after: 10,
        why: Fault::DrainFull,
    },
];

/// Of a specified store, whose log commits are all in the window.
fn specified(kind: CommitKind, lost: usize) -> StartAsked {
    StartAsked {
        class: StoreClass::Specified,
        kind,
        lost,
        checkpoint: Version(0),
    }
}

/// One of what a version has above its low thirteen bits.
const ONE_MORE: u64 = 1 << 19;

/// A commit of a living store: the phase word, its kind, the number of the checkpoint in force, and why it is refused, if it is.
struct Living {
    phase: u64,
    kind: CommitKind,
    checkpoint: u64,
    refused: Option<Fault>,
}

/// The last log commit of its window, the next one, and a full commit of that version.
const LIVING: [Living; 3] = [
    Living {
        phase: 97 + ONE_MORE,
        kind: CommitKind::Log,
        checkpoint: 100,
        refused: None,
    },
    Living {
        phase: 98 + ONE_MORE,
        kind: CommitKind::Log,
        checkpoint: 100,
        refused: Some(Fault::LostFull),
    },
    Living {
        phase: 98 + ONE_MORE,
        kind: CommitKind::Full,
        checkpoint: 100,
        refused: None,
    },
];

/// Looks at the words at these places.
fn has_words(rt: &impl Abort, plane: &PlainWords, words: &[(usize, u64)]) {
    for (place, word) in words {
        assert!(rt; plane.word(*place) == *word, "at place {place}");
    }
}

fn is_begun(rt: &impl Abort, plane: &mut PlainWords, start: &Start<'_>) {
    let mut machine = StartCommit::new(StoreClass::Specified);
    let mut ask = machine.start(specified(start.kind, start.lost));
    for (number, wanted) in start.asks.iter().enumerate() {
        assert!(rt; ask == *wanted, "at ask {number}");
        assert!(rt; machine.ask() == *wanted);
        ask = machine.drive(make(plane, ask));
    }
    assert!(rt; machine.kind() == start.kind);
}

fn begins(rt: &impl Abort, alloc: Global, start: &Start<'_>) -> Result<(), Fault> {
    let mut plane = new_words(alloc, 64, start.words, &[])?;
    is_begun(rt, &mut plane, start);
    has_words(rt, &plane, start.left);
    Ok(())
}

fn is_stopped(rt: &impl Abort, plane: &mut PlainWords, refusal: &Refusal<'_>) {
    let mut machine = StartCommit::new(StoreClass::Specified);
    assert!(rt; machine.ask() == Ask::Done(StartAnswer::Idle));
    let mut ask = machine.start(specified(refusal.kind, refusal.lost));
    for _ in 0..refusal.after {
        assert!(rt; matches!(ask, Ask::Load(_)), "before {:?}", refusal.why);
        ask = machine.drive(make(plane, ask));
    }
    assert!(rt; ask == Ask::Done(StartAnswer::Refused(refusal.why)));
}

fn is_refused(rt: &impl Abort, alloc: Global, refusal: &Refusal<'_>) -> Result<(), Fault> {
    let mut plane = new_words(alloc, 64, refusal.words, &[])?;
    is_stopped(rt, &mut plane, refusal);
    has_words(rt, &plane, refusal.words);
    Ok(())
}

/// A start that isn't refused at the phase loads the epoch next.
fn starts_or_stops(rt: &impl Abort, alloc: Global, living: &Living) -> Result<(), Fault> {
    let mut plane = new_words(alloc, 64, &[(EPOCH, 7), (PHASE, living.phase)], &[])?;
    let mut machine = StartCommit::new(StoreClass::Living);
    let ask = machine.start(StartAsked {
        class: machine.class(),
        kind: living.kind,
        lost: 0,
        checkpoint: Version(living.checkpoint),
    });
    let next = machine.drive(make(&mut plane, ask));
    let wanted = match living.refused {
        Some(why) => Ask::Done(StartAnswer::Refused(why)),
        None => Ask::Load(EPOCH),
    };
    assert!(rt; next == wanted, "over phase {}", living.phase);
    Ok(())
}

/// A log commit needs no copy.
fn has_its_copy(rt: &impl Abort) {
    let commit = Commit::begun(Version(1), CommitKind::Log, Addr(1), Addr(5));
    assert!(rt; commit.is_copied);
}

#[test]
fn a_commit_starts_or_is_refused(rt: HostRuntime) -> Result<(), Fail> {
    for start in &BEGUN {
        begins(&rt, rt.alloc(), start)?;
    }
    for refusal in &REFUSED {
        is_refused(&rt, rt.alloc(), refusal)?;
    }
    for living in &LIVING {
        starts_or_stops(&rt, rt.alloc(), living)?;
    }
    has_its_copy(&rt);
    law_of_phases();
    Ok(())
}

/// A search for the points of a commit, over the words of so many sessions.
struct Search<'a> {
    words: &'a [(usize, u64)],
    sessions: usize,
    number: Version,
    /// The points of the newest finished commit.
    floor: &'a [Serial],
    /// The words that others store before the ask of this number.
    between: (usize, &'a [(usize, u64)]),
    asks: &'a [Ask<SeekAnswer>],
    points: &'a [Serial],
    left: &'a [(usize, u64)],
}

/// One session has left version 3, and another has slept through it, and its newer word says how far it came; a session wakes between
/// the loads of its two words, of which the first is loaded again; one owes an update still; and of one the words show less than its last point.
const SEARCHES: [Search<'static>; 4] = [
    Search {
        words: &[
            (EPOCH, 4),
            (PHASE, 196612),
            (TAIL, 12),
            (25, 9 + 4 * ONE),
            (26, 7 + 3 * ONE),
            (41, 6 + 2 * ONE),
            (42, 4 + ONE),
        ],
        sessions: 2,
        number: Version(3),
        floor: &[Serial(5), Serial(6)],
        between: (0, &[]),
        asks: &[
            Ask::Load(27),
            Ask::Load(43),
            Ask::Load(EPOCH),
            Ask::Load(DRAIN),
            Ask::Cas(DRAIN, 0, 1),
            Ask::Load(26),
            Ask::Load(42),
            Ask::Load(41),
            Ask::Store(PHASE, 262148),
            Ask::Load(TAIL),
            Ask::Max(READ_ONLY, 12),
            Ask::Add(EPOCH, 1),
            Ask::Put(0, Action::SafeReadOnly(Addr(12))),
            Ask::Store(DRAIN, 6),
            Ask::Done(SeekAnswer::Taken(Addr(12), 4)),
        ],
        points: &[Serial(7), Serial(6)],
        left: &[(EPOCH, 5), (PHASE, 262148), (READ_ONLY, 12), (DRAIN, 6)],
    },
    Search {
        words: &[(EPOCH, 4), (PHASE, 196610), (TAIL, 12)],
        sessions: 1,
        number: Version(1),
        floor: &[],
        between: (5, &[(26, 8 + ONE), (25, 9 + 2 * ONE)]),
        asks: &[
            Ask::Load(27),
            Ask::Load(EPOCH),
            Ask::Load(DRAIN),
            Ask::Cas(DRAIN, 0, 1),
            Ask::Load(26),
            Ask::Load(25),
            Ask::Load(26),
            Ask::Store(PHASE, 262146),
        ],
        points: &[Serial(8)],
        left: &[],
    },
    Search {
        words: &[(EPOCH, 4), (PHASE, 196610), (TAIL, 12), (43, 1)],
        sessions: 2,
        number: Version(1),
        floor: &[],
        between: (0, &[]),
        asks: &[Ask::Load(27), Ask::Load(43), Ask::Done(SeekAnswer::Owing)],
        points: &[],
        left: &[(EPOCH, 4), (DRAIN, 0)],
    },
    Search {
        words: &[(EPOCH, 4), (PHASE, 196612), (TAIL, 12), (25, 4 + 2 * ONE)],
        sessions: 1,
        number: Version(3),
        floor: &[Serial(5)],
        between: (0, &[]),
        asks: &[
            Ask::Load(27),
            Ask::Load(EPOCH),
            Ask::Load(DRAIN),
            Ask::Cas(DRAIN, 0, 1),
            Ask::Load(26),
            Ask::Load(25),
            Ask::Store(PHASE, 262148),
        ],
        points: &[Serial(5)],
        left: &[],
    },
];

fn is_made(rt: &impl Abort, plane: &mut PlainWords, search: &Search<'_>) {
    assert!(rt; search.sessions <= 2 && search.floor.len() <= 2);
    let mut machine = SeekPoints::new(search.sessions);
    let mut ask = machine.start(search.number, search.floor);
    for (number, wanted) in search.asks.iter().enumerate() {
        let (before, words) = search.between;
        if before == number {
            store(plane, words);
        }
        assert!(rt; ask == *wanted, "at ask {number}");
        assert!(rt; machine.ask() == *wanted);
        ask = machine.drive(make(plane, ask));
    }
    assert!(rt; machine.points() == search.points);
}

fn searches(rt: &impl Abort, alloc: Global, search: &Search<'_>) -> Result<(), Fault> {
    let mut plane = new_words(alloc, 64, search.words, &[])?;
    is_made(rt, &mut plane, search);
    has_words(rt, &plane, search.left);
    Ok(())
}

#[test]
fn points_are_sought(rt: HostRuntime) -> Result<(), Fail> {
    for search in &SEARCHES {
        searches(&rt, rt.alloc(), search)?;
    }
    law_of_points();
    Ok(())
}

/// Wait-pending waits for the epoch that was raised for it.
const ENTERED: [Ask<EnterAnswer>; 8] = [
    Ask::Load(EPOCH),
    Ask::Load(DRAIN),
    Ask::Load(DRAIN + 1),
    Ask::Cas(DRAIN + 1, 0, 1),
    Ask::Add(EPOCH, 1),
    Ask::Put(1, Action::Phase(Phase::WaitPending, Version(2))),
    Ask::Store(DRAIN + 1, 6),
    Ask::Done(EnterAnswer::Entered),
];

const IN_PROGRESS: [(usize, u64); 4] = [(EPOCH, 4), (PHASE, 131074), (TAIL, 9), (DRAIN, 3)];

fn enters(rt: &impl Abort, plane: &mut PlainWords) {
    let mut machine = EnterWaitPending::new();
    let mut ask = machine.start(Version(1));
    for (number, wanted) in ENTERED.iter().enumerate() {
        assert!(rt; ask == *wanted, "at ask {number}");
        assert!(rt; machine.ask() == *wanted);
        ask = machine.drive(make(plane, ask));
    }
}

/// The manifest may be written once epoch 6 is safe and the log is flushed up to 12.
fn waits(rt: &impl Abort) {
    for (safe, flushed, answer) in [
        (5, 12, WaitAnswer::NotYet),
        (6, 11, WaitAnswer::NotYet),
        (7, 12, WaitAnswer::Flushed),
    ] {
        let mut machine = WaitFlush::new();
        assert!(rt; machine.start(Addr(12), 6) == Ask::Load(1));
        if machine.drive(safe) == Ask::Load(7) {
            machine.drive(flushed);
        }
        assert!(rt;
            machine.ask() == Ask::Done(answer),
            "at {safe} and {flushed}"
        );
    }
}

/// The durable words come first, and rest behind them.
fn finishes(rt: &impl Abort) {
    let points = [Serial(7), Serial(0)];
    let mut machine = FinishCommit::new(2);
    let mut ask = machine.start(&points, Version(1));
    for wanted in [
        Ask::Store(28, 7),
        Ask::Store(44, 0),
        Ask::Store(PHASE, 2),
        Ask::Done(FinishAnswer::Finished),
    ] {
        assert!(rt; ask == wanted);
        assert!(rt; machine.ask(&points) == wanted);
        ask = machine.drive(&points, 0);
    }
}

#[test]
fn a_commit_goes_on_to_its_end(rt: HostRuntime) -> Result<(), Fail> {
    enters(&rt, &mut new_words(rt.alloc(), 64, &IN_PROGRESS, &[])?);
    waits(&rt);
    finishes(&rt);
    Ok(())
}
