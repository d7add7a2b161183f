//! What tries ask, case by case.
use super::*;

/// Values that are changed in place.
pub const IN_PLACE: &[Case<'static>] = &[
    Case {
        op: Op::Upsert(KEY, Value(11)),
        asks: &[
            Ask::Load(40),
            Ask::Load(79),
            Ask::Load(80),
            Ask::Swap(81, 11),
            Ask::Done(TryAnswer::Done(Reply::Nothing)),
        ],
        ..USUAL
    },
    Case {
        op: Op::Add(KEY, 5),
        asks: &[
            Ask::Load(40),
            Ask::Load(79),
            Ask::Load(80),
            Ask::Load(81),
            Ask::Cas(81, 10, 15),
            Ask::Done(TryAnswer::Done(Reply::Number(Value(15)))),
        ],
        ..USUAL
    },
    Case {
        op: Op::Delete(KEY),
        phase: Phase::InProgress,
        skips: 3,
        asks: &[
            Ask::Swap(81, Value::ABSENT),
            Ask::Done(TryAnswer::Done(Reply::Nothing)),
        ],
        ..USUAL
    },
    Case {
        op: Op::Merge(KEY, Merge::Sub, 3),
        skips: 3,
        asks: &[
            Ask::Load(81),
            Ask::Cas(81, 10, 7),
            Ask::Done(TryAnswer::Done(Reply::Number(Value(7)))),
        ],
        ..USUAL
    },
    // its number is not looked at
    Case {
        op: Op::Merge(KEY, Merge::Keep, 3),
        skips: 3,
        asks: &[
            Ask::Load(81),
            Ask::Cas(81, 10, 10),
            Ask::Done(TryAnswer::Done(Reply::Found(Value(10)))),
        ],
        ..USUAL
    },
    // another one changes the value between the load and the Cas, of a keep too
    Case {
        op: Op::Merge(KEY, Merge::Keep, 0),
        rival: Some((4, Op::Upsert(KEY, Value(20)), Phase::Rest)),
        skips: 4,
        asks: &[
            Ask::Cas(81, 10, 10),
            Ask::Done(TryAnswer::Wait(Reason::Contended)),
        ],
        ..USUAL
    },
    Case {
        op: Op::Max(KEY, 12),
        rival: Some((4, Op::Upsert(KEY, Value(20)), Phase::Rest)),
        skips: 4,
        asks: &[
            Ask::Cas(81, 10, 12),
            Ask::Done(TryAnswer::Wait(Reason::Contended)),
        ],
        ..USUAL
    },
];

/// Records that are copied.
pub const COPIED: &[Case<'static>] = &[
    Case {
        op: Op::Add(KEY, 5),
        read_only: 6,
        words: SAFE,
        asks: &[
            Ask::Load(40),
            Ask::Load(79),
            Ask::Load(80),
            Ask::Load(6),
            Ask::Load(81),
            Ask::Load(4),
            Ask::Load(3),
            Ask::Cas(3, 6, 7),
            Ask::Store(84, 15),
            Ask::Store(83, 3),
            Ask::Store(82, HEADER),
            Ask::Cas(40, ENTRY, NEW_ENTRY),
            Ask::Done(TryAnswer::Done(Reply::Number(Value(15)))),
        ],
        ..USUAL
    },
    // a keep brings its record to the tail
    Case {
        op: Op::Merge(KEY, Merge::Keep, 3),
        read_only: 6,
        words: SAFE,
        skips: 3,
        asks: &[
            Ask::Load(6),
            Ask::Load(81),
            Ask::Load(4),
            Ask::Load(3),
            Ask::Cas(3, 6, 7),
            Ask::Store(84, 10),
            Ask::Store(83, 3),
            Ask::Store(82, HEADER),
            Ask::Cas(40, ENTRY, NEW_ENTRY),
            Ask::Done(TryAnswer::Done(Reply::Found(Value(10)))),
        ],
        ..USUAL
    },
    // of a version of its own, in the read-only region, without a latch, and without the old value
    Case {
        op: Op::Delete(KEY),
        phase: Phase::InProgress,
        read_only: 6,
        words: SAFE,
        skips: 3,
        asks: &[
            Ask::Load(6),
            Ask::Load(4),
            Ask::Load(3),
            Ask::Cas(3, 6, 7),
            Ask::Store(84, Value::ABSENT),
        ],
        ..USUAL
    },
    // of a lower version, in the mutable region
    Case {
        op: Op::Max(KEY, 5),
        words: OF_LOWER,
        skips: 3,
        asks: &[
            Ask::Load(81),
            Ask::Load(4),
            Ask::Load(3),
            Ask::Cas(3, 6, 7),
            Ask::Store(84, 10),
        ],
        ..USUAL
    },
    Case {
        op: Op::Upsert(KEY, Value(11)),
        read_only: 6,
        skips: 3,
        asks: &[Ask::Load(6), Ask::Done(TryAnswer::Wait(Reason::Fuzzy))],
        ..USUAL
    },
];

/// Records of keys that have none in memory.
pub const MADE: &[Case<'static>] = &[
    Case {
        op: Op::Add(FOURTH, 5),
        asks: &[
            Ask::Load(40),
            Ask::Load(41),
            Ask::Load(4),
            Ask::Load(3),
            Ask::Cas(3, 6, 7),
            Ask::Store(84, 5),
            Ask::Store(83, 4),
            Ask::Store(82, 2 * ONE),
            Ask::Cas(41, 0, 6 + 4 * ONE),
            Ask::Done(TryAnswer::Done(Reply::Number(Value(5)))),
        ],
        ..USUAL
    },
    // a keep of a key without a value leaves it without
    Case {
        op: Op::Merge(FOURTH, Merge::Keep, 5),
        asks: &[
            Ask::Load(40),
            Ask::Load(41),
            Ask::Load(4),
            Ask::Load(3),
            Ask::Cas(3, 6, 7),
            Ask::Store(84, Value::ABSENT),
            Ask::Store(83, 4),
            Ask::Store(82, 2 * ONE),
            Ask::Cas(41, 0, 6 + 4 * ONE),
            Ask::Done(TryAnswer::Done(Reply::Absent)),
        ],
        ..USUAL
    },
    // the entry is there, and the key has no record
    Case {
        op: Op::Max(LACKING, 9),
        asks: &[
            Ask::Load(40),
            Ask::Load(79),
            Ask::Load(80),
            Ask::Load(70),
            Ask::Load(71),
            Ask::Load(4),
            Ask::Load(3),
            Ask::Cas(3, 6, 7),
            Ask::Store(84, 9),
            Ask::Store(83, 65539),
            Ask::Store(82, HEADER),
            Ask::Cas(40, ENTRY, NEW_ENTRY),
            Ask::Done(TryAnswer::Done(Reply::Number(Value(9)))),
        ],
        ..USUAL
    },
    // the chain leaves memory, and the old value doesn't count
    Case {
        op: Op::Upsert(KEY, Value(11)),
        read_only: 6,
        head: 6,
        asks: &[
            Ask::Load(40),
            Ask::Load(4),
            Ask::Load(3),
            Ask::Cas(3, 6, 7),
            Ask::Store(84, 11),
            Ask::Store(83, 3),
            Ask::Store(82, HEADER),
            Ask::Cas(40, ENTRY, NEW_ENTRY),
            Ask::Done(TryAnswer::Done(Reply::Nothing)),
        ],
        ..USUAL
    },
];

/// Adds whose chain leaves memory at address 5, by a record that they hold.
pub const HOLDING: &[Case<'static>] = &[
    Case {
        op: Op::Add(KEY, 5),
        held: Some(HELD),
        read_only: 6,
        head: 6,
        skips: 1,
        asks: &[
            Ask::Load(4),
            Ask::Load(3),
            Ask::Cas(3, 6, 7),
            Ask::Store(84, 75),
        ],
        ..USUAL
    },
    // the chain has ended without a record of the key
    Case {
        op: Op::Add(KEY, 5),
        held: Some(HeldRecord {
            previous: Addr(0),
            key: LACKING,
            ..HELD
        }),
        read_only: 6,
        head: 6,
        skips: 1,
        asks: &[
            Ask::Load(4),
            Ask::Load(3),
            Ask::Cas(3, 6, 7),
            Ask::Store(84, 5),
        ],
        ..USUAL
    },
    // under the latch for one alone
    Case {
        op: Op::Add(KEY, 5),
        held: Some(HELD),
        phase: Phase::WaitPending,
        read_only: 6,
        head: 6,
        skips: 1,
        asks: &[Ask::Load(47), Ask::Cas(47, 0, EXCLUSIVE), Ask::Load(4)],
        ..USUAL
    },
    // it is of no use: of another key, met by another entry, lacking, or of a read
    Case {
        op: Op::Add(KEY, 5),
        held: Some(HeldRecord {
            key: LACKING,
            ..HELD
        }),
        read_only: 6,
        head: 6,
        skips: 1,
        asks: &[Ask::Done(TryAnswer::AwaitsDisk(DiskRecord {
            entry: ENTRY,
            addr: Addr(2),
        }))],
        ..USUAL
    },
    Case {
        op: Op::Add(KEY, 5),
        held: Some(HeldRecord {
            entry: ENTRY - 1,
            ..HELD
        }),
        read_only: 6,
        head: 6,
        skips: 1,
        asks: &[Ask::Done(TryAnswer::AwaitsDisk(DiskRecord {
            entry: ENTRY,
            addr: Addr(5),
        }))],
        ..USUAL
    },
    Case {
        op: Op::Add(KEY, 5),
        held: Some(HeldRecord {
            entry: ENTRY + 1,
            ..HELD
        }),
        phase: Phase::InProgress,
        read_only: 6,
        head: 6,
        skips: 1,
        asks: &[Ask::Done(TryAnswer::AwaitsDisk(DiskRecord {
            entry: ENTRY,
            addr: Addr(5),
        }))],
        ..USUAL
    },
    Case {
        op: Op::Add(KEY, 5),
        read_only: 6,
        head: 6,
        skips: 1,
        asks: &[Ask::Done(TryAnswer::AwaitsDisk(DiskRecord {
            entry: ENTRY,
            addr: Addr(5),
        }))],
        ..USUAL
    },
    Case {
        op: Op::Read(KEY),
        held: Some(HELD),
        read_only: 6,
        head: 6,
        skips: 1,
        asks: &[Ask::Done(TryAnswer::AwaitsDisk(DiskRecord {
            entry: ENTRY,
            addr: Addr(5),
        }))],
        ..USUAL
    },
];

/// Chains that lead below the floor.
pub const BELOW: &[Case<'static>] = &[
    // they have ended there: no record of the key
    Case {
        op: Op::Read(KEY),
        read_only: 6,
        head: 6,
        floor: 6,
        skips: 1,
        asks: &[Ask::Done(TryAnswer::Absent)],
        ..USUAL
    },
    Case {
        op: Op::Add(KEY, 5),
        read_only: 6,
        head: 6,
        floor: 6,
        skips: 1,
        asks: &[
            Ask::Load(4),
            Ask::Load(3),
            Ask::Cas(3, 6, 7),
            Ask::Store(84, 5),
        ],
        ..USUAL
    },
    // of an upsert the old value doesn't count
    Case {
        op: Op::Upsert(KEY, Value(11)),
        read_only: 6,
        head: 6,
        floor: 6,
        skips: 1,
        asks: &[Ask::Load(4)],
        ..USUAL
    },
    // behind a record in memory too
    Case {
        op: Op::Read(OLDER),
        read_only: 5,
        head: 5,
        floor: 3,
        skips: 3,
        asks: &[Ask::Done(TryAnswer::Absent)],
        ..USUAL
    },
    // and behind one that was held
    Case {
        op: Op::Add(KEY, 5),
        held: Some(HeldRecord {
            key: LACKING,
            ..HELD
        }),
        read_only: 6,
        head: 6,
        floor: 3,
        skips: 1,
        asks: &[
            Ask::Load(4),
            Ask::Load(3),
            Ask::Cas(3, 6, 7),
            Ask::Store(84, 5),
        ],
        ..USUAL
    },
    // at the floor there is a record
    Case {
        op: Op::Read(KEY),
        read_only: 6,
        head: 6,
        floor: 5,
        skips: 1,
        asks: &[Ask::Done(TryAnswer::AwaitsDisk(DiskRecord {
            entry: ENTRY,
            addr: Addr(5),
        }))],
        ..USUAL
    },
    // what lies in memory is met, wherever the floor is
    Case {
        op: Op::Read(KEY),
        floor: 6,
        skips: 3,
        asks: &[Ask::Load(81), Ask::Done(TryAnswer::Found(Value(10)))],
        ..USUAL
    },
];

/// Reads.
pub const READS: &[Case<'static>] = &[
    // in prepare and in the fuzzy region too, without a latch
    Case {
        op: Op::Read(KEY),
        phase: Phase::Prepare,
        read_only: 6,
        asks: &[
            Ask::Load(40),
            Ask::Load(79),
            Ask::Load(80),
            Ask::Load(81),
            Ask::Done(TryAnswer::Found(Value(10))),
        ],
        ..USUAL
    },
    Case {
        op: Op::Read(KEY),
        words: &[(81, Value::ABSENT)],
        skips: 4,
        asks: &[Ask::Done(TryAnswer::Absent)],
        ..USUAL
    },
    Case {
        op: Op::Read(LACKING),
        skips: 5,
        asks: &[Ask::Done(TryAnswer::Absent)],
        ..USUAL
    },
    Case {
        op: Op::Read(FOURTH),
        skips: 2,
        asks: &[Ask::Done(TryAnswer::Absent)],
        ..USUAL
    },
];

/// Others come first at the log.
pub const LATE: &[Case<'static>] = &[
    // at the tail
    Case {
        op: Op::Upsert(FOURTH, Value(11)),
        rival: Some((4, Op::Delete(FIFTH), Phase::Rest)),
        skips: 4,
        asks: &[
            Ask::Cas(3, 6, 7),
            Ask::Done(TryAnswer::Wait(Reason::Contended)),
        ],
        ..USUAL
    },
    // at the slot
    Case {
        op: Op::Upsert(FOURTH, Value(11)),
        rival: Some((8, Op::Delete(FIFTH), Phase::Rest)),
        skips: 8,
        asks: &[
            Ask::Cas(41, 0, 6 + 4 * ONE),
            Ask::Store(82, 2 * ONE + INVALID),
            Ask::Done(TryAnswer::Wait(Reason::Contended)),
        ],
        ..USUAL
    },
];

/// Buckets that are full.
pub const OVERFLOW: &[Case<'static>] = &[
    Case {
        op: Op::Upsert(FOURTH, Value(11)),
        words: &FILLED,
        skips: 7,
        asks: &[
            Ask::Load(47),
            Ask::Load(10),
            Ask::Cas(10, 0, 1),
            Ask::Cas(47, 0, 1),
            Ask::Load(48),
            Ask::Load(4),
            Ask::Load(3),
            Ask::Cas(3, 6, 7),
            Ask::Store(84, 11),
            Ask::Store(83, 4),
            Ask::Store(82, 2 * ONE),
            Ask::Cas(48, 0, 6 + 4 * ONE),
            Ask::Done(TryAnswer::Done(Reply::Nothing)),
        ],
        ..USUAL
    },
    // another one takes a bucket first, or links one first
    Case {
        op: Op::Upsert(FOURTH, Value(11)),
        words: &FILLED,
        rival: Some((9, Op::Delete(FIFTH), Phase::Rest)),
        skips: 9,
        asks: &[
            Ask::Cas(10, 0, 1),
            Ask::Done(TryAnswer::Wait(Reason::Contended)),
        ],
        ..USUAL
    },
    Case {
        op: Op::Upsert(FOURTH, Value(11)),
        words: &FILLED,
        rival: Some((10, Op::Delete(FIFTH), Phase::Rest)),
        skips: 10,
        spare: 1,
        asks: &[
            Ask::Cas(47, 0, 1),
            Ask::Done(TryAnswer::Wait(Reason::Contended)),
        ],
        ..USUAL
    },
    // none is left
    Case {
        op: Op::Upsert(FOURTH, Value(11)),
        words: &FILLED_UP,
        skips: 7,
        asks: &[
            Ask::Load(47),
            Ask::Load(10),
            Ask::Done(TryAnswer::IndexFull),
        ],
        ..USUAL
    },
    Case {
        op: Op::Upsert(FOURTH, Value(11)),
        occasion: Occasion::Poll,
        words: &FILLED_UP,
        skips: 7,
        asks: &[
            Ask::Load(47),
            Ask::Load(10),
            Ask::Done(TryAnswer::Wait(Reason::Full)),
        ],
        ..USUAL
    },
];

/// A slot without an address, a header without a version, a previous address that doesn't fall, an address that is a ring above the head:
/// no store writes these.
pub const SPOILED: &[Case<'static>] = &[
    Case {
        op: Op::Read(KEY),
        words: &[(40, 3 * ONE)],
        skips: 1,
        asks: &[Ask::Done(TryAnswer::Wait(Reason::Contended))],
        ..USUAL
    },
    Case {
        op: Op::Delete(KEY),
        words: &[(40, 3 * ONE)],
        skips: 1,
        asks: &[Ask::Done(TryAnswer::Wait(Reason::Contended))],
        ..USUAL
    },
    Case {
        op: Op::Read(KEY),
        words: &[(79, 2)],
        skips: 3,
        asks: &[Ask::Done(TryAnswer::Wait(Reason::Contended))],
        ..USUAL
    },
    Case {
        op: Op::Delete(KEY),
        words: &[(79, 2)],
        skips: 3,
        asks: &[Ask::Done(TryAnswer::Wait(Reason::Contended))],
        ..USUAL
    },
    Case {
        op: Op::Read(KEY),
        words: &[(79, 5 + ONE)],
        skips: 3,
        asks: &[Ask::Done(TryAnswer::Wait(Reason::Contended))],
        ..USUAL
    },
    Case {
        op: Op::Delete(KEY),
        words: &[(79, 5 + ONE)],
        skips: 3,
        asks: &[Ask::Done(TryAnswer::Wait(Reason::Contended))],
        ..USUAL
    },
    Case {
        op: Op::Read(KEY),
        words: &[(40, 9 + 3 * ONE)],
        skips: 1,
        asks: &[Ask::Done(TryAnswer::Wait(Reason::Contended))],
        ..USUAL
    },
    Case {
        op: Op::Delete(KEY),
        words: &[(40, 9 + 3 * ONE)],
        skips: 1,
        asks: &[Ask::Done(TryAnswer::Wait(Reason::Contended))],
        ..USUAL
    },
];
