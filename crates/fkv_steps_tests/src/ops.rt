//! Tries moved by hand over plain words. The store has one bucket at places 40 to 47, two overflow buckets from 48 and 56 on, and
//! eight places of records, three words each, from 64 on.
use crate::words::new_words;
use fkv_base::{Addr, Fault, Key, Phase, Shape, Value, Version};
use fkv_index::Purpose;
use fkv_log::{RecordWords, SeenOffsets};
use fkv_map::{Merge, Op, Reply};
use fkv_ops::{
    Append, AppendAnswer, Bounds, DiskRecord, FoundSlot, HeaderSaid, HeldRecord, Occasion, Reason,
    Request, Seen, Try, TryAnswer, Walk, WalkAnswer, header_said, law_reasons, told_value,
    value_of_word, word_of_value,
};
use fkv_plane::{Ask, Places, PlainWords};
use fkv_words::Header;
use std::alloc::Global;
use std::process::Abort;
use std::test::Fail;

mod bounds;
mod cases;
mod latches;

/// One of a version, of a tag, or of those that share a latch.
const ONE: u64 = 1 << 48;

const EXCLUSIVE: u64 = 1 << 63;
/// One share less, modulo 2^64.
const ONE_LESS: u64 = u64::MAX - (ONE - 1);

const INVALID: u64 = 1 << 62;

/// The key of the newest record, at address 5; another one of its home, whose record is at address 2; one of its home that has no
/// record; and two of other homes.
const KEY: Key = Key(3);

const OLDER: Key = Key(32771);

const LACKING: Key = Key(65539);

const FOURTH: Key = Key(4);

const FIFTH: Key = Key(5);
/// The word of the entry of the first three.
const ENTRY: u64 = 5 + 3 * ONE;
/// The header of a record of version 2 after the newest one, and the entry of that record.
const HEADER: u64 = 5 + 2 * ONE;

const NEW_ENTRY: u64 = 6 + 3 * ONE;
/// Two records of one home, of versions 1 and 2, in the first slot; the tail at 6, the limit at 8, the safe read-only offset at 1.
const USUAL_WORDS: [(usize, u64); 10] = [
    (3, 6),
    (4, 8),
    (6, 1),
    (40, ENTRY),
    (70, ONE),
    (71, 32771),
    (72, 7),
    (79, 2 + 2 * ONE),
    (80, 3),
    (81, 10),
];
/// The six slots behind the first, with entries of other tags; and so that no overflow bucket is left.
const FILLED: [(usize, u64); 6] = [
    (41, 1 + 11 * ONE),
    (42, 1 + 12 * ONE),
    (43, 1 + 13 * ONE),
    (44, 1 + 14 * ONE),
    (45, 1 + 15 * ONE),
    (46, 1 + 16 * ONE),
];

const FILLED_UP: [(usize, u64); 7] = [
    (41, 1 + 11 * ONE),
    (42, 1 + 12 * ONE),
    (43, 1 + 13 * ONE),
    (44, 1 + 14 * ONE),
    (45, 1 + 15 * ONE),
    (46, 1 + 16 * ONE),
    (10, 2),
];
/// The newest record is of version 1, or of version 3.
const OF_LOWER: &[(usize, u64)] = &[(79, 2 + ONE)];

const OF_HIGHER: &[(usize, u64)] = &[(79, 2 + 3 * ONE)];
/// The newest record lies below the safe read-only offset.
const SAFE: &[(usize, u64)] = &[(6, 6)];
/// The log is at its end; and it isn't, but at the limit.
const LOG_ENDED: &[(usize, u64)] = &[(3, 16), (4, 16)];

const AT_LIMIT: &[(usize, u64)] = &[(3, 8)];
/// The newest record, as it was read from the device.
const HELD: HeldRecord = HeldRecord {
    entry: ENTRY,
    previous: Addr(2),
    key: KEY,
    value: 70,
};

/// A try, what it finds, and what it asks.
struct Case<'a> {
    op: Op,
    /// Whether the request is of the version before the session's.
    is_behind: bool,
    has_latch: bool,
    held: Option<HeldRecord>,
    occasion: Occasion,
    phase: Phase,
    read_only: u64,
    head: u64,
    /// An address of a chain below it counts as 0.
    floor: u64,
    /// The words that are not as usual.
    words: &'a [(usize, u64)],
    /// Another try, of the same session's sight but for the phase, which is made before the ask of this number.
    rival: Option<(usize, Op, Phase)>,
    /// How many asks are made before those that are looked at.
    skips: usize,
    asks: &'a [Ask<TryAnswer>],
    /// What it answers behind these, where they don't say it.
    answer: Option<TryAnswer>,
    /// Whether it shares the latch in the end, and what it has to spare then.
    has_shared: bool,
    spare: u64,
}

/// At rest in version 2, with all records in the mutable region.
const USUAL: Case<'static> = Case {
    op: Op::Read(KEY),
    is_behind: false,
    has_latch: false,
    held: None,
    occasion: Occasion::Call(None),
    phase: Phase::Rest,
    read_only: 1,
    head: 1,
    floor: 1,
    words: &[],
    rival: None,
    skips: 0,
    asks: &[],
    answer: None,
    has_shared: false,
    spare: 0,
};

const CASES: [(&str, &[Case<'static>]); 17] = [
    ("in place", cases::IN_PLACE),
    ("copied", cases::COPIED),
    ("made", cases::MADE),
    ("holding", cases::HOLDING),
    ("below the floor", cases::BELOW),
    ("reads", cases::READS),
    ("late", cases::LATE),
    ("overflow", cases::OVERFLOW),
    ("spoiled", cases::SPOILED),
    ("alone", latches::ALONE),
    ("late at the latch", latches::LATE_AT_LATCH),
    ("shared", latches::SHARED),
    ("kept", latches::KEPT),
    ("bounded by buckets", bounds::BUCKETS),
    ("of homes with entries", bounds::ENTRIES),
    ("bounded by addresses", bounds::ADDRESSES),
    ("looking for room", bounds::WAITING),
];

fn start(machine: &mut Try, case: &Case<'_>, op: Op, phase: Phase) -> Ask<TryAnswer> {
    let request = Request {
        op,
        version: Version(if case.is_behind { 1 } else { 2 }),
        has_latch: case.has_latch,
        held: case.held,
        floor: Addr(case.floor),
    };
    let seen = Seen {
        phase,
        version: Version(2),
        offsets: SeenOffsets {
            head: Addr(case.head),
            read_only: Addr(case.read_only),
        },
    };
    machine.start(request, seen, case.occasion, 0)
}

/// Moves the other try to its end, where it is made before the ask of this number.
fn rival(plane: &mut PlainWords, shape: &Shape, case: &Case<'_>, number: usize) {
    if let Some((before, op, phase)) = case.rival
        && before == number
    {
        let mut machine = Try::new(shape);
        let mut ask = start(&mut machine, case, op, phase);
        for _ in 0..32 {
            ask = machine.drive(plane.perform(&ask));
        }
    }
}

/// An effect is made by a Swap, or by a won Cas of a value's word or of a slot.
fn makes_effect(ask: &Ask<TryAnswer>, reply: u64) -> bool {
    match ask {
        Ask::Swap(_, _) => true,
        Ask::Cas(place, old, _) => *old == reply && !matches!(*place, 3 | 10 | 47),
        _ => false,
    }
}

/// Makes the next ask, and looks at the step of its effect.
fn goes_on(rt: &impl Abort, plane: &mut PlainWords, machine: &mut Try, told: &mut Option<Reply>) {
    let ask = machine.ask();
    let reply = plane.perform(&ask);
    if let Ask::Done(TryAnswer::Done(reply)) = ask {
        assert!(rt; *told == Some(reply));
    }
    machine.drive(reply);
    assert!(rt; machine.effect().is_some() == makes_effect(&ask, reply));
    *told = machine.effect().or(*told);
}

/// The ask of this number is as it has to be, if it is looked at.
fn asks(rt: &impl Abort, machine: &Try, case: &Case<'_>, number: usize) {
    if let Some(wanted) = case.asks.get(number.wrapping_sub(case.skips)) {
        assert!(rt; machine.ask() == *wanted, "at ask {number}");
    }
}

/// What the try has in the end.
fn ends(rt: &impl Abort, machine: &Try, case: &Case<'_>) {
    if let Some(answer) = case.answer {
        assert!(rt; machine.ask() == Ask::Done(answer));
    }
    assert!(rt; machine.has_shared() == case.has_shared);
    assert!(rt; machine.spare() == case.spare);
}

/// Moves a try to its end, and looks at its asks, and at what it has then.
fn moves(rt: &impl Abort, plane: &mut PlainWords, shape: &Shape, case: &Case<'_>) {
    let mut machine = Try::new(shape);
    assert!(rt; machine.places() == Places::of(shape));
    start(&mut machine, case, case.op, case.phase);
    let mut told = None;
    for number in 0..case.skips.saturating_add(case.asks.len()) {
        rival(plane, shape, case, number);
        asks(rt, &machine, case, number);
        goes_on(rt, plane, &mut machine, &mut told);
    }
    ends(rt, &machine, case);
}

fn all_move(
    rt: &impl Abort,
    alloc: Global,
    shape: &Shape,
    cases: &[Case<'_>],
) -> Result<(), Fault> {
    for case in cases {
        let mut plane = new_words(alloc, 88, &USUAL_WORDS, case.words)?;
        moves(rt, &mut plane, shape, case);
    }
    Ok(())
}

#[test]
fn tries_make_their_asks(rt: HostRuntime) -> Result<(), Fail> {
    let shape = Shape::new(0, 4, 2, 1, 1, 2, 4)?;
    for (_, cases) in &CASES {
        all_move(&rt, rt.alloc(), &shape, cases)?;
    }
    Ok(())
}

/// The slot, the entry and the versions that a walk has met, and the load of its value.
fn has_found(rt: &impl Abort, machine: &Walk) {
    assert!(rt; machine.ask() == Ask::Done(WalkAnswer::Found(Addr(2), Version(1))));
    assert!(rt; (machine.place(), machine.entry()) == (40, ENTRY));
    assert!(rt; (machine.first(), machine.spare()) == (Some(Version(2)), 2));
}

fn walks(rt: &impl Abort, plane: &mut PlainWords, shape: &Shape) {
    let mut machine = Walk::new(Places::of(shape), shape.bucket_bits);
    let mut ask = machine.start(OLDER, Purpose::Read, Addr(1), 2);
    for _ in 0..5 {
        ask = machine.drive(plane.perform(&ask));
    }
    assert!(rt; machine.ask() == ask);
    has_found(rt, &machine);
    assert!(rt; machine.load_value() == Ask::Load(72));
    assert!(rt; machine.drive(7) == Ask::Done(WalkAnswer::Value(7)));
}

const APPENDED: RecordWords = RecordWords {
    header: Header {
        previous: Addr(5),
        version: Version(2),
        invalid: false,
    },
    key: KEY,
    value: 11,
};

fn appends(rt: &impl Abort, plane: &mut PlainWords, shape: &Shape) {
    let slot = FoundSlot {
        place: 40,
        entry: ENTRY,
        tag: 3,
    };
    let mut machine = Append::new(Places::of(shape), shape);
    let mut ask = machine.start(slot, APPENDED, None);
    for _ in 0..7 {
        ask = machine.drive(plane.perform(&ask));
    }
    assert!(rt; ask == Ask::Done(AppendAnswer::Published));
    assert!(rt; machine.ask() == ask);
    let words = [plane.word(82), plane.word(84), plane.word(40)];
    assert!(rt; words == [HEADER, 11, NEW_ENTRY]);
}

fn words_and_values(rt: &impl Abort) {
    assert!(rt; word_of_value(value_of_word(11)) == 11);
    assert!(rt; value_of_word(word_of_value(None)).is_none());
    assert!(rt; told_value(Some(Value(7))) == TryAnswer::Found(Value(7)));
    assert!(rt; matches!(header_said(HEADER), HeaderSaid::Says(Addr(5), Version(2))));
}

#[test]
fn a_record_is_sought_and_appended(rt: HostRuntime) -> Result<(), Fail> {
    let shape = Shape::new(0, 4, 2, 1, 1, 2, 4)?;
    walks(
        &rt,
        &mut new_words(rt.alloc(), 88, &USUAL_WORDS, &[])?,
        &shape,
    );
    appends(
        &rt,
        &mut new_words(rt.alloc(), 88, &USUAL_WORDS, &[])?,
        &shape,
    );
    words_and_values(&rt);
    law_reasons();
    Ok(())
}
