//! The index's copy: two buckets, at places 40 and 48, and one overflow bucket, at 56.
use crate::words::{make, new_words};
use fkv_base::{Fault, Shape};
use fkv_checkpoint::{CopyRoom, IndexCopy, law_copied, law_fuzzy_copy, law_of_a_fuzzy_copy};
use fkv_plane::{Ask, Places, PlainWords};
use std::alloc::Global;
use std::process::Abort;
use std::test::Fail;

const ONE: u64 = 1 << 48;

/// Two entries in bucket 0, with a latch beside the link, one in the overflow bucket that follows it, and one in bucket 1.
const WORDS: [(usize, u64); 5] = [
    (40, 3 * ONE + 5),
    (46, 32767 * ONE + 0x0102_0304_0506),
    (47, ONE + 1),
    (58, 9 * ONE + 300),
    (53, ONE + 7),
];

/// What no store has in its index is passed over: slots' words that are no entries, an overflow bucket that leads to itself, and a link
/// to one that there isn't.
const SPOILED: [(usize, u64); 4] = [(41, 1 << 63 | 5), (42, ONE), (63, 1), (55, 2)];

const BYTES: [u8; 64] = [
    0, 0, 0, 0, 3, 0, 0, 0, 5, 0, 0, 0, 0, 0, 0, 0, //
    0, 0, 0, 0, 0xff, 0x7f, 0, 0, 6, 5, 4, 3, 2, 1, 0, 0, //
    0, 0, 0, 0, 9, 0, 0, 0, 0x2c, 1, 0, 0, 0, 0, 0, 0, //
    1, 0, 0, 0, 1, 0, 0, 0, 7, 0, 0, 0, 0, 0, 0, 0,
];

/// Begins a copy. Where memory is refused for it, it can be asked for again.
fn begin(rt: &impl Abort, alloc: Global) -> Result<IndexCopy, Fault> {
    let places = Places::of(&Shape::new(1, 4, 2, 1, 1, 1, 64)?);
    let room = match CopyRoom::ask(alloc, places) {
        Ok(room) => room,
        Err(fault) => {
            assert!(rt; fault == Fault::Memory);
            CopyRoom::ask(alloc, places)?
        }
    };
    Ok(IndexCopy::begin(room))
}

fn is_begun(rt: &impl Abort, copy: &IndexCopy) {
    assert!(rt; copy.ask() == Ask::Load(40));
    assert!(rt; copy.triples() == 0);
}

fn goes_on(rt: &impl Abort, plane: &mut PlainWords, copy: &mut IndexCopy) {
    for ask in 0..24 {
        assert!(rt; copy.ask() != Ask::Done(()), "after {ask} asks");
        assert!(rt; !copy.rests(), "after {ask} asks");
        let ask = copy.ask();
        copy.drive(make(plane, ask));
    }
    assert!(rt; copy.drive(7) == Ask::Done(()));
}

fn is_made(rt: &impl Abort, copy: IndexCopy) {
    assert!(rt; copy.triples() == 4);
    assert!(rt; copy.bytes() == BYTES.as_slice());
    assert!(rt; copy.into_bytes().as_slice() == BYTES.as_slice());
}

fn copies(rt: &impl Abort, alloc: Global, spoiled: &[(usize, u64)]) -> Result<(), Fault> {
    let mut plane = new_words(alloc, 88, &WORDS, spoiled)?;
    let mut copy = begin(rt, alloc)?;
    is_begun(rt, &copy);
    goes_on(rt, &mut plane, &mut copy);
    is_made(rt, copy);
    Ok(())
}

/// 2,048 buckets: the copy rests where it has begun, and in the middle.
fn rests(rt: &impl Abort, alloc: Global) -> Result<(), Fault> {
    let places = Places::of(&Shape::large(11, 4, 2, 1, 1, 0, 64)?);
    let mut copy = IndexCopy::begin(CopyRoom::ask(alloc, places)?);
    for ask in 0..8 * 2048 {
        assert!(rt; copy.rests() == (ask % (8 * 1024) == 0), "after {ask} asks");
        copy.drive(0);
    }
    assert!(rt; copy.ask() == Ask::Done(()));
    assert!(rt; !copy.rests());
    Ok(())
}

#[test]
fn entries_are_copied_bucket_by_bucket(rt: HostRuntime) -> Result<(), Fail> {
    copies(&rt, rt.alloc(), &[])?;
    copies(&rt, rt.alloc(), &SPOILED)?;
    rests(&rt, rt.alloc())?;
    law_copied();
    law_fuzzy_copy();
    law_of_a_fuzzy_copy();
    Ok(())
}
