//! Calls that leave the last addresses and overflow buckets to polls.
use super::*;

/// A call may come to one overflow bucket, and to the address 6 with the tail.
const NARROW: Occasion = Occasion::Call(Some(Bounds { taken: 1, tail: 7 }));
/// It may take nothing.
const CLOSED: Occasion = Occasion::Call(Some(Bounds { taken: 0, tail: 0 }));
/// The bucket's slots have other tags, and one overflow bucket is taken: nobody's; or the bucket's own, and empty.
const ONE_TAKEN: [(usize, u64); 7] = [
    (41, 1 + 11 * ONE),
    (42, 1 + 12 * ONE),
    (43, 1 + 13 * ONE),
    (44, 1 + 14 * ONE),
    (45, 1 + 15 * ONE),
    (46, 1 + 16 * ONE),
    (10, 1),
];

const ONE_LINKED: [(usize, u64); 8] = [
    (41, 1 + 11 * ONE),
    (42, 1 + 12 * ONE),
    (43, 1 + 13 * ONE),
    (44, 1 + 14 * ONE),
    (45, 1 + 15 * ONE),
    (46, 1 + 16 * ONE),
    (47, 1),
    (10, 1),
];
/// The same, before it is counted.
const NONE_COUNTED: [(usize, u64); 7] = [
    (41, 1 + 11 * ONE),
    (42, 1 + 12 * ONE),
    (43, 1 + 13 * ONE),
    (44, 1 + 14 * ONE),
    (45, 1 + 15 * ONE),
    (46, 1 + 16 * ONE),
    (47, 1),
];

/// The entry of the first three keys stands in the overflow bucket that is taken and linked; and so that the tail is at the limit besides.
const ENTRY_BEHIND: [(usize, u64); 10] = [
    (40, 1 + 17 * ONE),
    (41, 1 + 11 * ONE),
    (42, 1 + 12 * ONE),
    (43, 1 + 13 * ONE),
    (44, 1 + 14 * ONE),
    (45, 1 + 15 * ONE),
    (46, 1 + 16 * ONE),
    (47, 1),
    (48, ENTRY),
    (10, 1),
];

const AT_LIMIT_BEHIND: [(usize, u64); 11] = [
    (40, 1 + 17 * ONE),
    (41, 1 + 11 * ONE),
    (42, 1 + 12 * ONE),
    (43, 1 + 13 * ONE),
    (44, 1 + 14 * ONE),
    (45, 1 + 15 * ONE),
    (46, 1 + 16 * ONE),
    (47, 1),
    (48, ENTRY),
    (10, 1),
    (3, 8),
];

/// A new key, whose search comes to the link of its bucket.
const NEW: Case<'static> = Case {
    op: Op::Upsert(FOURTH, Value(11)),
    occasion: NARROW,
    skips: 8,
    ..USUAL
};

/// Overflow buckets within the bound and past it.
pub const BUCKETS: &[Case<'static>] = &[
    // it takes the last one that calls may take
    Case {
        words: &FILLED,
        asks: &[
            Ask::Load(10),
            Ask::Cas(10, 0, 1),
            Ask::Cas(47, 0, 1),
            Ask::Load(48),
            Ask::Load(4),
            Ask::Load(3),
            Ask::Cas(3, 6, 7),
        ],
        ..NEW
    },
    // that one is taken
    Case {
        words: &ONE_TAKEN,
        asks: &[Ask::Load(10), Ask::Done(TryAnswer::IndexFull)],
        ..NEW
    },
    // a poll takes the one behind it
    Case {
        occasion: Occasion::Poll,
        words: &ONE_TAKEN,
        asks: &[Ask::Load(10), Ask::Cas(10, 1, 2), Ask::Cas(47, 0, 2)],
        spare: 0,
        ..NEW
    },
    // an empty slot behind a link that another has set
    Case {
        words: &ONE_LINKED,
        asks: &[
            Ask::Load(48),
            Ask::Load(10),
            Ask::Done(TryAnswer::IndexFull),
        ],
        ..NEW
    },
    Case {
        words: &NONE_COUNTED,
        asks: &[
            Ask::Load(48),
            Ask::Load(10),
            Ask::Load(4),
            Ask::Load(3),
            Ask::Cas(3, 6, 7),
            Ask::Store(84, 11),
            Ask::Store(83, 4),
            Ask::Store(82, 2 * ONE),
            Ask::Cas(48, 0, 6 + 4 * ONE),
            Ask::Done(TryAnswer::Done(Reply::Nothing)),
        ],
        ..NEW
    },
    // a poll, and a read, count nothing there
    Case {
        occasion: Occasion::Poll,
        words: &ONE_LINKED,
        asks: &[Ask::Load(48), Ask::Load(4)],
        skips: 8,
        ..NEW
    },
    Case {
        op: Op::Read(FOURTH),
        occasion: CLOSED,
        words: &ONE_LINKED,
        asks: &[Ask::Load(48), Ask::Done(TryAnswer::Absent)],
        ..NEW
    },
    // an empty slot of its own bucket needs no room
    Case {
        occasion: Occasion::Call(Some(Bounds { taken: 0, tail: 7 })),
        skips: 1,
        asks: &[Ask::Load(41), Ask::Load(4), Ask::Load(3), Ask::Cas(3, 6, 7)],
        ..NEW
    },
];

/// A key without a record whose home has an entry, in an overflow bucket.
const LATER: Case<'static> = Case {
    op: Op::Upsert(LACKING, Value(11)),
    occasion: NARROW,
    words: &ENTRY_BEHIND,
    skips: 8,
    ..USUAL
};

/// Where another key of its home has the entry, an update takes no slot. So it goes on past the bound, also behind a link.
pub const ENTRIES: &[Case<'static>] = &[
    Case {
        asks: &[
            Ask::Load(48),
            Ask::Load(79),
            Ask::Load(80),
            Ask::Load(70),
            Ask::Load(71),
            Ask::Load(4),
            Ask::Load(3),
            Ask::Cas(3, 6, 7),
            Ask::Store(84, 11),
            Ask::Store(83, 65539),
            Ask::Store(82, HEADER),
            Ask::Cas(48, ENTRY, NEW_ENTRY),
            Ask::Done(TryAnswer::Done(Reply::Nothing)),
        ],
        ..LATER
    },
    // its chain leaves memory
    Case {
        head: 6,
        read_only: 6,
        asks: &[Ask::Load(48), Ask::Load(4), Ask::Load(3), Ask::Cas(3, 6, 7)],
        ..LATER
    },
    // it waits, and the buckets don't count
    Case {
        occasion: Occasion::Call(Some(Bounds { taken: 1, tail: 9 })),
        words: &AT_LIMIT_BEHIND,
        skips: 13,
        asks: &[
            Ask::Load(4),
            Ask::Load(3),
            Ask::Load(3),
            Ask::Done(TryAnswer::Wait(Reason::NoRoom)),
        ],
        ..LATER
    },
    Case {
        op: Op::Add(LACKING, 5),
        head: 6,
        read_only: 6,
        asks: &[
            Ask::Load(48),
            Ask::Load(3),
            Ask::Done(TryAnswer::AwaitsDisk(DiskRecord {
                entry: ENTRY,
                addr: Addr(5),
            })),
        ],
        ..LATER
    },
    // one whose home has none stays refused there
    Case {
        op: Op::Upsert(FOURTH, Value(11)),
        asks: &[
            Ask::Load(48),
            Ask::Load(49),
            Ask::Load(10),
            Ask::Done(TryAnswer::IndexFull),
        ],
        ..LATER
    },
];

/// Addresses within the bound and past it.
pub const ADDRESSES: &[Case<'static>] = &[
    // the limit counts up to the bound
    Case {
        op: Op::Upsert(FOURTH, Value(11)),
        occasion: Occasion::Call(Some(Bounds { taken: 1, tail: 6 })),
        skips: 2,
        asks: &[
            Ask::Load(4),
            Ask::Load(3),
            Ask::Load(3),
            Ask::Done(TryAnswer::LogFull),
        ],
        ..USUAL
    },
    // and a poll's up to the end
    Case {
        op: Op::Upsert(FOURTH, Value(11)),
        occasion: Occasion::Poll,
        skips: 2,
        asks: &[Ask::Load(4), Ask::Load(3), Ask::Cas(3, 6, 7)],
        ..USUAL
    },
    // a change in place takes none
    Case {
        op: Op::Upsert(KEY, Value(11)),
        occasion: CLOSED,
        skips: 3,
        asks: &[
            Ask::Swap(81, 11),
            Ask::Done(TryAnswer::Done(Reply::Nothing)),
        ],
        ..USUAL
    },
];

/// An update that would wait looks for room first.
pub const WAITING: &[Case<'static>] = &[
    // its key has an entry
    Case {
        op: Op::Upsert(KEY, Value(11)),
        occasion: NARROW,
        read_only: 6,
        skips: 3,
        asks: &[
            Ask::Load(6),
            Ask::Load(3),
            Ask::Done(TryAnswer::Wait(Reason::Fuzzy)),
        ],
        ..USUAL
    },
    Case {
        op: Op::Upsert(KEY, Value(11)),
        occasion: CLOSED,
        read_only: 6,
        skips: 3,
        asks: &[Ask::Load(6), Ask::Load(3), Ask::Done(TryAnswer::LogFull)],
        ..USUAL
    },
    // it has none: the buckets count too
    Case {
        op: Op::Upsert(FOURTH, Value(11)),
        occasion: Occasion::Call(Some(Bounds { taken: 1, tail: 9 })),
        words: AT_LIMIT,
        skips: 2,
        asks: &[
            Ask::Load(4),
            Ask::Load(3),
            Ask::Load(3),
            Ask::Load(10),
            Ask::Done(TryAnswer::Wait(Reason::NoRoom)),
        ],
        ..USUAL
    },
    Case {
        op: Op::Upsert(FOURTH, Value(11)),
        occasion: Occasion::Call(Some(Bounds { taken: 0, tail: 9 })),
        words: AT_LIMIT,
        skips: 2,
        asks: &[
            Ask::Load(4),
            Ask::Load(3),
            Ask::Load(3),
            Ask::Load(10),
            Ask::Done(TryAnswer::IndexFull),
        ],
        ..USUAL
    },
    // one that waits for the device
    Case {
        op: Op::Add(KEY, 5),
        occasion: NARROW,
        read_only: 6,
        head: 6,
        skips: 1,
        asks: &[
            Ask::Load(3),
            Ask::Done(TryAnswer::AwaitsDisk(DiskRecord {
                entry: ENTRY,
                addr: Addr(5),
            })),
        ],
        ..USUAL
    },
    Case {
        op: Op::Add(KEY, 5),
        occasion: CLOSED,
        read_only: 6,
        head: 6,
        skips: 1,
        asks: &[Ask::Load(3), Ask::Done(TryAnswer::LogFull)],
        ..USUAL
    },
    // a read, and a poll, wait as ever
    Case {
        op: Op::Read(KEY),
        occasion: CLOSED,
        read_only: 6,
        head: 6,
        skips: 1,
        asks: &[Ask::Done(TryAnswer::AwaitsDisk(DiskRecord {
            entry: ENTRY,
            addr: Addr(5),
        }))],
        ..USUAL
    },
    Case {
        op: Op::Upsert(KEY, Value(11)),
        occasion: Occasion::Poll,
        read_only: 6,
        skips: 3,
        asks: &[Ask::Load(6), Ask::Done(TryAnswer::Wait(Reason::Fuzzy))],
        ..USUAL
    },
    // a call that is refused gives its share back, and one that waits keeps it
    Case {
        op: Op::Upsert(KEY, Value(11)),
        occasion: CLOSED,
        phase: Phase::Prepare,
        read_only: 6,
        skips: 4,
        asks: &[
            Ask::Load(6),
            Ask::Load(3),
            Ask::Add(47, ONE_LESS),
            Ask::Done(TryAnswer::LogFull),
        ],
        ..USUAL
    },
    Case {
        op: Op::Upsert(KEY, Value(11)),
        occasion: NARROW,
        phase: Phase::Prepare,
        read_only: 6,
        skips: 4,
        asks: &[
            Ask::Load(6),
            Ask::Load(3),
            Ask::Done(TryAnswer::Wait(Reason::Fuzzy)),
        ],
        has_shared: true,
        ..USUAL
    },
    // one that holds the latch alone gives it back behind its looks
    Case {
        op: Op::Upsert(FOURTH, Value(11)),
        occasion: Occasion::Call(Some(Bounds { taken: 1, tail: 9 })),
        phase: Phase::WaitPending,
        words: AT_LIMIT,
        skips: 4,
        asks: &[
            Ask::Load(4),
            Ask::Load(3),
            Ask::Load(3),
            Ask::Load(10),
            Ask::Add(47, EXCLUSIVE),
            Ask::Done(TryAnswer::Wait(Reason::NoRoom)),
        ],
        ..USUAL
    },
];
