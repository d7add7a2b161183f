//! Tries that take the latch of their bucket.
use super::*;

/// An update takes the latch for itself alone, finds no room in the log, and gives it back.
const LATCHED_IN_VAIN: Case<'static> = Case {
    op: Op::Upsert(FOURTH, Value(11)),
    phase: Phase::WaitPending,
    skips: 2,
    asks: &[
        Ask::Load(47),
        Ask::Cas(47, 0, EXCLUSIVE),
        Ask::Load(4),
        Ask::Load(3),
        Ask::Add(47, EXCLUSIVE),
    ],
    ..USUAL
};

/// The latch for one alone.
pub const ALONE: &[Case<'static>] = &[
    Case {
        op: Op::Add(KEY, 5),
        phase: Phase::InProgress,
        words: OF_LOWER,
        skips: 3,
        asks: &[
            Ask::Load(47),
            Ask::Cas(47, 0, EXCLUSIVE),
            Ask::Load(81),
            Ask::Load(4),
            Ask::Load(3),
            Ask::Cas(3, 6, 7),
            Ask::Store(84, 15),
            Ask::Store(83, 3),
            Ask::Store(82, HEADER),
            Ask::Cas(40, ENTRY, NEW_ENTRY),
            Ask::Add(47, EXCLUSIVE),
            Ask::Done(TryAnswer::Done(Reply::Number(Value(15)))),
        ],
        ..USUAL
    },
    Case {
        words: AT_LIMIT,
        answer: Some(TryAnswer::Wait(Reason::NoRoom)),
        ..LATCHED_IN_VAIN
    },
    Case {
        words: LOG_ENDED,
        answer: Some(TryAnswer::LogFull),
        ..LATCHED_IN_VAIN
    },
    Case {
        occasion: Occasion::Poll,
        words: LOG_ENDED,
        answer: Some(TryAnswer::Wait(Reason::Full)),
        ..LATCHED_IN_VAIN
    },
    Case {
        op: Op::Upsert(FOURTH, Value(11)),
        phase: Phase::WaitPending,
        words: &[(47, EXCLUSIVE)],
        skips: 2,
        asks: &[Ask::Load(47), Ask::Done(TryAnswer::Wait(Reason::Latch))],
        ..USUAL
    },
    Case {
        op: Op::Upsert(FOURTH, Value(11)),
        phase: Phase::WaitPending,
        words: &[(47, ONE)],
        skips: 2,
        asks: &[Ask::Load(47), Ask::Done(TryAnswer::Wait(Reason::Latch))],
        ..USUAL
    },
];

/// Others come in between while the latch is sought, or held.
pub const LATE_AT_LATCH: &[Case<'static>] = &[
    // one of the version before keeps a share, as its record lies in the fuzzy region
    Case {
        op: Op::Upsert(FOURTH, Value(11)),
        phase: Phase::InProgress,
        read_only: 6,
        rival: Some((3, Op::Delete(KEY), Phase::Prepare)),
        skips: 3,
        asks: &[
            Ask::Cas(47, 0, EXCLUSIVE),
            Ask::Done(TryAnswer::Wait(Reason::Latch)),
        ],
        ..USUAL
    },
    // one that needs no latch copies its record, and takes the tail
    Case {
        op: Op::Upsert(FOURTH, Value(11)),
        phase: Phase::InProgress,
        read_only: 6,
        words: SAFE,
        rival: Some((6, Op::Delete(KEY), Phase::InProgress)),
        skips: 6,
        asks: &[
            Ask::Cas(3, 6, 7),
            Ask::Add(47, EXCLUSIVE),
            Ask::Done(TryAnswer::Wait(Reason::Contended)),
        ],
        ..USUAL
    },
    // or publishes that first
    Case {
        op: Op::Upsert(LACKING, Value(11)),
        phase: Phase::InProgress,
        read_only: 6,
        words: SAFE,
        rival: Some((13, Op::Delete(KEY), Phase::InProgress)),
        skips: 13,
        asks: &[
            Ask::Cas(40, ENTRY, NEW_ENTRY),
            Ask::Store(82, HEADER + INVALID),
            Ask::Add(47, EXCLUSIVE),
            Ask::Done(TryAnswer::Wait(Reason::Contended)),
        ],
        ..USUAL
    },
];

/// A share of the latch.
pub const SHARED: &[Case<'static>] = &[
    Case {
        op: Op::Upsert(KEY, Value(11)),
        phase: Phase::Prepare,
        asks: &[
            Ask::Add(47, ONE),
            Ask::Load(40),
            Ask::Load(79),
            Ask::Load(80),
            Ask::Swap(81, 11),
            Ask::Add(47, ONE_LESS),
            Ask::Done(TryAnswer::Done(Reply::Nothing)),
        ],
        ..USUAL
    },
    // one that was met alone is of the next version
    Case {
        op: Op::Upsert(KEY, Value(11)),
        phase: Phase::Prepare,
        words: &[(47, EXCLUSIVE)],
        asks: &[
            Ask::Add(47, ONE),
            Ask::Add(47, ONE_LESS),
            Ask::Done(TryAnswer::Shift),
        ],
        ..USUAL
    },
    // so is one who has published, also where the walk goes on behind
    Case {
        op: Op::Upsert(KEY, Value(11)),
        phase: Phase::Prepare,
        words: OF_HIGHER,
        skips: 4,
        asks: &[Ask::Add(47, ONE_LESS), Ask::Done(TryAnswer::Shift)],
        ..USUAL
    },
    Case {
        op: Op::Delete(OLDER),
        phase: Phase::Prepare,
        words: OF_HIGHER,
        skips: 6,
        asks: &[Ask::Add(47, ONE_LESS), Ask::Done(TryAnswer::Shift)],
        ..USUAL
    },
    // refused
    Case {
        op: Op::Delete(FOURTH),
        phase: Phase::Prepare,
        words: LOG_ENDED,
        skips: 5,
        asks: &[Ask::Add(47, ONE_LESS), Ask::Done(TryAnswer::LogFull)],
        ..USUAL
    },
    // where it waits it keeps its share
    Case {
        op: Op::Upsert(KEY, Value(11)),
        phase: Phase::Prepare,
        read_only: 6,
        skips: 4,
        has_shared: true,
        asks: &[Ask::Load(6), Ask::Done(TryAnswer::Wait(Reason::Fuzzy))],
        ..USUAL
    },
    Case {
        op: Op::Add(KEY, 5),
        phase: Phase::Prepare,
        read_only: 6,
        head: 6,
        skips: 2,
        has_shared: true,
        asks: &[Ask::Done(TryAnswer::AwaitsDisk(DiskRecord {
            entry: ENTRY,
            addr: Addr(5),
        }))],
        ..USUAL
    },
];

/// Requests that share the latch already.
pub const KEPT: &[Case<'static>] = &[
    Case {
        op: Op::Delete(FOURTH),
        has_latch: true,
        occasion: Occasion::Poll,
        phase: Phase::Prepare,
        words: LOG_ENDED,
        has_shared: true,
        asks: &[
            Ask::Load(40),
            Ask::Load(41),
            Ask::Load(4),
            Ask::Load(3),
            Ask::Done(TryAnswer::Wait(Reason::Full)),
        ],
        ..USUAL
    },
    // of the version before the session's: changed in place, and copied without the latch for one alone
    Case {
        op: Op::Upsert(KEY, Value(11)),
        is_behind: true,
        has_latch: true,
        occasion: Occasion::Poll,
        phase: Phase::InProgress,
        words: &[(47, ONE), (79, 2 + ONE), (6, 6)],
        skips: 3,
        asks: &[
            Ask::Swap(81, 11),
            Ask::Add(47, ONE_LESS),
            Ask::Done(TryAnswer::Done(Reply::Nothing)),
        ],
        ..USUAL
    },
    Case {
        op: Op::Upsert(KEY, Value(11)),
        is_behind: true,
        has_latch: true,
        occasion: Occasion::Poll,
        phase: Phase::InProgress,
        read_only: 6,
        words: &[(47, ONE), (79, 2 + ONE), (6, 6)],
        skips: 4,
        asks: &[
            Ask::Load(4),
            Ask::Load(3),
            Ask::Cas(3, 6, 7),
            Ask::Store(84, 11),
            Ask::Store(83, 3),
            Ask::Store(82, 5 + ONE),
            Ask::Cas(40, ENTRY, NEW_ENTRY),
            Ask::Add(47, ONE_LESS),
            Ask::Done(TryAnswer::Done(Reply::Nothing)),
        ],
        ..USUAL
    },
];
