//! A log of five records on the device, which is swept up to the fifth. There is one bucket, so a key's tag is the key.
use fkv_base::{Addr, Fault, Key, Shape, Value};
use fkv_disk::{Device, MemDisk};
use fkv_plane::{Ask, Places, PlainWords, RecordWord, SharedWord};
use fkv_sweep::{Sweep, SweepAnswer};
use std::process::Abort;
use std::test::Fail;

/// The header of a record of version 1 that is the first of its home.
const FIRST: u64 = 281474976710656;

/// That of one that was given up.
const INVALID: u64 = 4611967493404098560;

/// Where the record at address 1 lies.
const LOG_PLACE: u64 = 1784;

/// Header, key and value of each: key 1 stands again at address 5, key 3 was deleted, key 2 given up, and key 4 stands nowhere else.
const RECORDS: [(u64, u64, u64); 5] = [
    (FIRST, 1, 10),
    (FIRST, 3, Value::ABSENT),
    (INVALID, 2, 20),
    (FIRST, 4, 40),
    (FIRST + 1, 1, 11),
];

/// Entries of two tags that lead to addresses 5 and 6.
const FIRST_ENTRY: u64 = FIRST + 5;

const FOURTH_ENTRY: u64 = 4 * FIRST + 6;

/// More steps than a turn has here.
const MANY: usize = 64;

/// The records lie on the device.
fn write_records(disk: &mut MemDisk) -> Result<(), Fault> {
    let mut at = LOG_PLACE;
    for (header, key, value) in RECORDS {
        for number in [header, key, value] {
            disk.write(at, &number.to_le_bytes())?;
            at = at.saturating_add(8);
        }
    }
    Ok(())
}

fn store(plane: &mut PlainWords, place: usize, number: u64) {
    plane.perform::<()>(&Ask::Store(place, number));
}

/// One turn, to its end, and how many reads it made.
fn turn(sweep: &mut Sweep, plane: &mut PlainWords, disk: &mut MemDisk) -> Result<usize, Fault> {
    let mut reads: usize = 0;
    let mut ask = sweep.start();
    for _ in 0..MANY {
        ask = match ask {
            Ask::Done(SweepAnswer::Through) => return Ok(reads),
            Ask::Done(SweepAnswer::Device) => {
                reads = reads.saturating_add(1);
                sweep.device_step(disk)?
            }
            word => {
                let reply = plane.perform(&word);
                sweep.drive(reply)
            }
        };
    }
    Ok(reads)
}

/// The first turn passes what it may, and wants key 4. Once that stands in memory further on, the second one comes to the end.
/// Another sweep goes over the fifth record, whose key stands nowhere above.
#[test]
fn wanted_keys_are_probed_again(rt: HostRuntime) -> Result<(), Fail> {
    let shape = Shape::new(0, 4, 2, 1, 1, 0, 8)?;
    let places = Places::of(&shape);
    let mut plane = PlainWords::new(rt.alloc(), places.word_count())?;
    let mut disk = MemDisk::new(rt.alloc());
    write_records(&mut disk)?;
    store(&mut plane, SharedWord::Head.place(), 6);
    store(&mut plane, places.bucket(0, 0), FIRST_ENTRY);
    let mut sweep = Sweep::new(shape, places, Addr(1), Addr(5));
    assert_eq!(rt; turn(&mut sweep, &mut plane, &mut disk)?, 2);
    assert_eq!(rt; sweep.at(), Addr(4));
    assert!(rt; sweep.is_sweeping());
    assert!(rt; sweep.wanted() == [Key(4)].as_slice());
    store(&mut plane, places.bucket(0, 1), FOURTH_ENTRY);
    store(&mut plane, places.record(Addr(6), RecordWord::Key), 4);
    assert_eq!(rt; turn(&mut sweep, &mut plane, &mut disk)?, 0);
    assert_eq!(rt; sweep.at(), Addr(5));
    assert!(rt; !sweep.is_sweeping());
    assert!(rt; sweep.wanted().is_empty());
    sweep.restart(Addr(5), Addr(6));
    assert_eq!(rt; turn(&mut sweep, &mut plane, &mut disk)?, 1);
    assert_eq!(rt; sweep.from(), Addr(5));
    assert_eq!(rt; sweep.at(), Addr(5));
    assert!(rt; sweep.wanted() == [Key(1)].as_slice());
    Ok(())
}
