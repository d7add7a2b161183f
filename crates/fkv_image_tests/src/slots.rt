//! Bytes of slots in each format, written by hand.
use crate::places::bytes_with;
use arrayvec::ArrayVec;
use fkv_base::{Addr, Serial, Version};
use fkv_record::{
    Format, LostRange, LostRanges, ManifestSlot, Points, Slot, open_number, read_manifest_slot,
    read_slot, write_manifest_slot, write_newest_slot, write_slot,
};
use std::process::Abort;

/// The slot of the first commit of a store with one session that has made one update.
fn sample_slot() -> Slot {
    let mut serials = ArrayVec::new();
    serials.push(Serial(1));
    Slot {
        number: 1,
        first: Addr(2),
        end: Addr(2),
        triples: 1,
        area: 1,
        points: Points { serials },
    }
}

/// And its numbers.
const SLOT: [(usize, u64); 8] = [
    (0, 0xa5),
    (8, 1),
    (16, 2),
    (24, 2),
    (32, 1),
    (40, 1),
    (48, 1),
    (56, 1),
];

#[test]
fn a_slot_has_its_bytes(rt: HostRuntime) {
    let slot = sample_slot();
    let bytes = bytes_with(&rt, &SLOT);
    assert!(rt; write_slot(&slot) == bytes);
    assert!(rt; read_slot(&bytes) == Some(slot));
}

/// The slot of a second commit that uses the first one's checkpoint, with a range of records that were lost between them.
fn sample_manifest() -> ManifestSlot {
    let mut serials = ArrayVec::new();
    serials.push(Serial(3));
    let mut ranges = ArrayVec::new();
    ranges.push(LostRange {
        to: Addr(5),
        version: Version(2),
    });
    ManifestSlot {
        number: 2,
        first: Addr(3),
        end: Addr(6),
        triples: 1,
        area: 1,
        points: Points { serials },
        checkpoint: 1,
        lost: LostRanges { ranges },
        begin: Addr(1),
    }
}

/// What every format has of it.
const FRONT: [(usize, u64); 8] = [
    (0, 0xa5),
    (8, 2),
    (16, 3),
    (24, 6),
    (32, 1),
    (40, 1),
    (48, 1),
    (56, 3),
];

/// What the second format and the third have of it besides.
const SECOND: [(usize, u64); 5] = [(120, 1), (128, 1), (136, 5), (144, 2), (504, 2)];

const THIRD: [(usize, u64); 5] = [(312, 1), (320, 1), (328, 5), (336, 2), (504, 3)];

// The slot is written so in this format, and read back.
fn has_its_bytes(rt: &impl Abort, more: &[(usize, u64); 5], format: Format) {
    let mut numbers = [(0, 0); 13];
    numbers[..8].copy_from_slice(&FRONT);
    numbers[8..].copy_from_slice(more);
    let bytes = bytes_with(rt, &numbers);
    assert!(rt; write_manifest_slot(&sample_manifest(), format) == Some(bytes));
    let read = read_manifest_slot(&bytes);
    assert!(rt;
        read.map(|(found, read)| (found, read == sample_manifest())) == Some((format, true))
    );
}

// The first format has no place for another commit's checkpoint, nor for a range.
fn has_no_first_format(rt: &impl Abort) {
    let slot = sample_manifest();
    assert!(rt; write_manifest_slot(&slot, Format::First).is_none());
    let newest = write_newest_slot(&slot);
    assert!(rt; write_manifest_slot(&slot, Format::Third) == Some(newest));
}

#[test]
fn later_formats_have_their_bytes(rt: HostRuntime) {
    has_its_bytes(&rt, &SECOND, Format::Second);
    has_its_bytes(&rt, &THIRD, Format::Third);
    has_no_first_format(&rt);
}

/// The fourth format has the begin besides, and is written where that isn't 1.
const FOURTH: [(usize, u64); 6] = [(312, 1), (320, 1), (328, 5), (336, 2), (456, 2), (504, 4)];

#[test]
fn a_slot_with_a_begin_has_its_bytes(rt: HostRuntime) {
    let mut slot = sample_manifest();
    slot.begin = Addr(2);
    let mut numbers = [(0, 0); 14];
    numbers[..8].copy_from_slice(&FRONT);
    numbers[8..].copy_from_slice(&FOURTH);
    let bytes = bytes_with(&rt, &numbers);
    assert!(rt; write_newest_slot(&slot) == bytes);
    assert!(rt; write_manifest_slot(&slot, Format::Fourth) == Some(bytes));
    assert!(rt; write_manifest_slot(&slot, Format::Third).is_none());
    assert!(rt; write_manifest_slot(&slot, Format::Second).is_none());
    let read = read_manifest_slot(&bytes);
    assert!(rt; read.map(|(found, read)| (found, read == slot)) == Some((Format::Fourth, true)));
}

// Behind the begin stand zeros alone, and the third format has none.
#[test]
fn a_begin_has_its_place_alone(rt: HostRuntime) {
    let mut slot = sample_manifest();
    slot.begin = Addr(2);
    let bytes = write_newest_slot(&slot);
    let mut longer = bytes;
    longer[464] = 1;
    assert!(rt; read_manifest_slot(&longer).is_none());
    let mut last = bytes;
    last[503] = 1;
    assert!(rt; read_manifest_slot(&last).is_none());
    let mut third = bytes;
    third[504] = 3;
    assert!(rt; read_manifest_slot(&third).is_none());
}

#[test]
fn a_slot_of_the_first_format_is_its_own_checkpoint(rt: HostRuntime) {
    let bytes = bytes_with(&rt, &SLOT);
    let read = read_manifest_slot(&bytes);
    let said = read.map(|(format, slot)| (
        format,
        slot.number,
        slot.checkpoint,
        slot.lost.ranges.len(),
    ));
    assert!(rt; said == Some((Format::First, 1, 1, 0)));
    assert!(rt; open_number(&bytes) == Some(1));
    assert!(rt; open_number(&[0xff; 512]).is_none());
}
