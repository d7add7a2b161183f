//! Addresses, records and regions of the log.
use fkv_base::{Addr, Key, Shape, Version};
use fkv_log::Region::{Disk, Fuzzy, Mutable, ReadOnly};
use fkv_log::ReserveAnswer::{Contended, Full, NoRoom, Reserved};
use fkv_log::{
    Fill, Invalidate, LoadAnswer, LoadRecord, RecordWords, Reserve, ReserveAnswer, SeenOffsets,
    region, seen_region,
};
use fkv_plane::{Ask, Places, PlainWords, RecordWord, SharedWord};
use fkv_words::Header;
use std::process::Abort;
use std::test::Fail;

/// Sets the tail and the limit.
pub(crate) fn offsets(plane: &mut PlainWords, tail: u64, limit: u64) {
    plane.perform::<()>(&Ask::Store(SharedWord::Tail.place(), tail));
    plane.perform::<()>(&Ask::Store(SharedWord::Limit.place(), limit));
}

/// Moves a reservation to its end.
fn go_on(plane: &mut PlainWords, machine: &mut Reserve) -> Option<ReserveAnswer> {
    for _ in 0..4 {
        let reply = plane.perform(&machine.ask());
        if let Ask::Done(answer) = machine.drive(reply) {
            return Some(answer);
        }
    }
    None
}

fn reserve(plane: &mut PlainWords, shape: &Shape, bound: Option<u64>) -> Option<ReserveAnswer> {
    let mut machine = Reserve::new(shape);
    machine.start(bound);
    go_on(plane, &mut machine)
}

/// By tail, limit and bound: the address that is taken, and the tail behind it.
fn reservations(rt: &impl Abort, plane: &mut PlainWords, shape: &Shape) {
    for (tail, limit, bound, answer, after) in [
        (6, 8, None, Reserved(Addr(6)), 7),
        (7, 8, None, Reserved(Addr(7)), 8),
        (8, 8, None, Full, 8),
        (4, 4, None, NoRoom, 4),
        (5, 8, Some(6), Reserved(Addr(5)), 6),
        (6, 8, Some(6), NoRoom, 6),
        (7, 8, Some(6), NoRoom, 7),
        (4, 4, Some(6), NoRoom, 4),
    ] {
        offsets(plane, tail, limit);
        let came = (reserve(plane, shape, bound), plane.word(3));
        assert!(rt; came == (Some(answer), after));
    }
}

/// Of two that load the same tail, the one whose Cas comes second is given nothing.
fn two_take_one_tail(rt: &impl Abort, plane: &mut PlainWords, shape: &Shape) {
    offsets(plane, 1, 8);
    let mut slow = Reserve::new(shape);
    let mut ask = slow.start(None);
    for wanted in [Ask::Load(4), Ask::Load(3)] {
        assert!(rt; ask == wanted);
        ask = slow.drive(plane.perform(&ask));
    }
    assert!(rt; ask == Ask::Cas(3, 1, 2));
    assert!(rt; reserve(plane, shape, None) == Some(Reserved(Addr(1))));
    assert!(rt; go_on(plane, &mut slow) == Some(Contended));
    assert!(rt; plane.word(3) == 2);
}

#[test]
fn addresses_are_taken_one_after_another(rt: HostRuntime) -> Result<(), Fail> {
    let shape = Shape::new(0, 4, 2, 1, 1, 0, 2)?;
    let mut plane = PlainWords::new(rt.alloc(), 128)?;
    reservations(&rt, &mut plane, &shape);
    two_take_one_tail(&rt, &mut plane, &shape);
    Ok(())
}

/// The words of a record, in the order of their loads.
fn load(plane: &mut PlainWords, places: Places, addr: Addr) -> Option<LoadAnswer> {
    let mut machine = LoadRecord::new(places);
    let mut ask = machine.start(addr);
    for _ in 0..8 {
        ask = match ask {
            Ask::Done(LoadAnswer::Met(_, _)) => machine.load_value(),
            Ask::Done(answer) => return Some(answer),
            other => machine.drive(plane.perform(&other)),
        };
    }
    None
}

/// The header of version 1 behind the record at address 2, and its word.
const HEADER: u64 = 281474976710658;

const INVALID_HEADER: u64 = 4611967493404098562;

fn header() -> Header {
    Header {
        previous: Addr(2),
        version: Version(1),
        invalid: false,
    }
}

/// A record is written value first and header last.
fn fill(rt: &impl Abort, plane: &mut PlainWords, places: Places) {
    let its_words = RecordWords {
        header: header(),
        key: Key(5),
        value: 50,
    };
    let mut machine = Fill::new(places);
    let mut ask = machine.start(Addr(9), its_words);
    for (word, number) in [
        (RecordWord::Value, 50),
        (RecordWord::Key, 5),
        (RecordWord::Header, HEADER),
    ] {
        assert!(rt; ask == Ask::Store(places.record(Addr(1), word), number));
        ask = machine.drive(plane.perform(&ask));
    }
    assert!(rt; ask == Ask::Done(()));
}

fn invalidate(rt: &impl Abort, plane: &mut PlainWords, places: Places) {
    let mut machine = Invalidate::new(places);
    let ask = machine.start(Addr(9), header());
    assert!(rt; machine.drive(plane.perform(&ask)) == Ask::Done(()));
}

/// A record is loaded as it was written, and is invalidated by its header alone.
fn has_header(rt: &impl Abort, plane: &mut PlainWords, places: Places, header: u64) {
    let whole = LoadAnswer::Whole(header, Key(5), 50);
    assert!(rt; load(plane, places, Addr(9)) == Some(whole));
}

#[test]
fn a_record_is_written_and_given_up(rt: HostRuntime) -> Result<(), Fail> {
    let places = Places::of(&Shape::new(0, 4, 2, 1, 1, 0, 2)?);
    let mut plane = PlainWords::new(rt.alloc(), 128)?;
    fill(&rt, &mut plane, places);
    has_header(&rt, &mut plane, places, HEADER);
    invalidate(&rt, &mut plane, places);
    has_header(&rt, &mut plane, places, INVALID_HEADER);
    Ok(())
}

/// By head, read-only offset and address: what a session knows by these, and what with the safe read-only offset 8.
#[test]
fn regions_follow_each_other(rt: HostRuntime) {
    for (head, read_only, addr, known, whole) in [
        (4, 12, 3, Some(Disk), Disk),
        (4, 12, 4, None, ReadOnly),
        (4, 12, 8, None, Fuzzy),
        (4, 12, 11, None, Fuzzy),
        (4, 12, 12, Some(Mutable), Mutable),
        (12, 4, 8, Some(Disk), Disk),
    ] {
        let seen = SeenOffsets {
            head: Addr(head),
            read_only: Addr(read_only),
        };
        let its = (
            seen_region(Addr(addr), seen),
            region(Addr(addr), seen, Addr(8)),
        );
        assert!(rt; its == (known, whole));
    }
}
