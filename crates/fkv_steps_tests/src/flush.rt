//! What flushes the log and serves mailboxes, by plain words: a ring of two frames of four records each, a log of eight pages, and one
//! session, whose block begins at place 24.
use crate::words::store;
use fkv_base::{Addr, Fault, Key, Shape, Version};
use fkv_disk::{Device, Fuse, MemDisk};
use fkv_flush::{
    DeviceAnswer, Flush, Serve, law_finds_slots, law_flushed_is_synced, law_guarded, law_mail,
    law_nothing_falls, law_of_the_ring, law_records_in_hand, law_seen,
};
use fkv_plane::{Ask, Places, PlainWords, RecordWord};
use fkv_record::{Record, record_place, write_record};
use fkv_words::Header;
use std::alloc::Global;
use std::process::Abort;
use std::test::Fail;

const ONE: u64 = 1 << 48;

const SAFE_READ_ONLY: usize = 6;

const FLUSHED: usize = 7;

const MAIL_STATE: usize = 29;

const MAIL_ADDRESS: usize = 30;

fn small_shape() -> Result<Shape, Fault> {
    Shape::new(0, 4, 2, 1, 1, 0, 8)
}

/// The value of the record at an address; its key is the address, its version 1.
fn value_at(addr: u64) -> u64 {
    u64::MAX - addr
}

/// Seven records, of two pages, of which six may be flushed.
fn seven_records(alloc: Global, places: &Places) -> Result<PlainWords, Fault> {
    let mut plane = PlainWords::new(alloc, places.word_count())?;
    store(&mut plane, &[(FLUSHED, 1), (SAFE_READ_ONLY, 7)]);
    for addr in 1..8 {
        let words = [
            (places.record(Addr(addr), RecordWord::Header), ONE),
            (places.record(Addr(addr), RecordWord::Key), addr),
            (places.record(Addr(addr), RecordWord::Value), value_at(addr)),
        ];
        store(&mut plane, &words);
    }
    Ok(plane)
}

/// Flushes, and tells how many calls of the device it took.
fn flush<D: Device>(
    plane: &mut PlainWords,
    machine: &mut Flush,
    disk: &mut D,
) -> Result<u8, Fault> {
    let mut calls = 0u8;
    machine.start();
    for _ in 0..128 {
        match machine.ask() {
            Ask::Done(DeviceAnswer::Device) => {
                calls = calls.saturating_add(1);
                machine.device_step(disk)?;
            }
            Ask::Done(DeviceAnswer::Through) => return Ok(calls),
            other => {
                machine.drive(plane.perform(&other));
            }
        }
    }
    Ok(calls)
}

/// Serves the mailbox once, of a log that begins at this address.
fn serve<D: Device>(
    plane: &mut PlainWords,
    shape: Shape,
    begin: u64,
    disk: &mut D,
) -> Result<(), Fault> {
    let mut machine = Serve::new(shape, Addr(begin));
    machine.start();
    for _ in 0..16 {
        match machine.ask() {
            Ask::Done(DeviceAnswer::Device) => {
                machine.device_step(disk)?;
            }
            Ask::Done(DeviceAnswer::Through) => return Ok(()),
            other => {
                machine.drive(plane.perform(&other));
            }
        }
    }
    Ok(())
}

/// Whether the bytes hold the record of each address from 1 up to this one, and zeros before the first.
fn holds_records(bytes: &[u8], shape: Shape, end: u64) -> bool {
    let start = record_place(shape, Addr(1)) as usize;
    if bytes.len() < start || bytes[..start].iter().any(|byte| *byte != 0) {
        return false;
    }
    for addr in 1..end.min(1024) {
        let header = Header {
            previous: Addr(0),
            version: Version(1),
            invalid: false,
        };
        let record = Record {
            header,
            key: Key(addr),
            value: value_at(addr),
        };
        let place = record_place(shape, Addr(addr)) as usize;
        if place > bytes.len() || !bytes[place..].starts_with(&write_record(record)) {
            return false;
        }
    }
    true
}

/// A write or a sync that fails ends the flush, and nothing is raised.
fn fails(rt: &impl Abort, alloc: Global, plane: &mut PlainWords, machine: &mut Flush) {
    for passes in 0..3 {
        let mut disk = Fuse::new(MemDisk::new(alloc));
        disk.arm(passes);
        assert!(rt; flush(plane, machine, &mut disk) == Err(Fault::Device));
        assert!(rt; disk.failures() == 1);
        assert!(rt; plane.word(FLUSHED) == 1);
    }
}

/// There is a write for each page, and a sync. Then there is nothing to flush.
fn flushes(
    rt: &impl Abort,
    shape: Shape,
    plane: &mut PlainWords,
    machine: &mut Flush,
    disk: &mut MemDisk,
) -> Result<(), Fail> {
    assert!(rt; flush(plane, machine, disk)? == 3);
    assert!(rt; plane.word(FLUSHED) == 7);
    assert!(rt; disk.bytes().len() == 1928);
    assert!(rt; holds_records(disk.bytes(), shape, 7));
    assert!(rt; flush(plane, machine, disk)? == 0);
    Ok(())
}

/// A session gets the record that it asks for, and one that asks for none gets none.
fn serves(
    rt: &impl Abort,
    shape: Shape,
    plane: &mut PlainWords,
    disk: &mut MemDisk,
) -> Result<(), Fail> {
    for (state, mail) in [(0, [0; 4]), (1, [2, ONE, 5, 18446744073709551610])] {
        store(plane, &[(MAIL_STATE, state), (MAIL_ADDRESS, 5)]);
        serve(plane, shape, 1, disk)?;
        assert!(rt; mail_words(plane) == mail);
    }
    Ok(())
}

/// The state of the mailbox, and the three words in it.
fn mail_words(plane: &PlainWords) -> [u64; 4] {
    [
        plane.word(MAIL_STATE),
        plane.word(31),
        plane.word(32),
        plane.word(33),
    ]
}

/// Below the begin nothing is read: the device would fail. A session is told that the record is gone, and where the log begins.
fn tells_gone(rt: &impl Abort, alloc: Global, shape: Shape) -> Result<(), Fail> {
    let mut plane = seven_records(alloc, &Places::of(&shape))?;
    let mut disk = Fuse::new(MemDisk::new(alloc));
    disk.arm(0);
    store(&mut plane, &[(MAIL_STATE, 1), (MAIL_ADDRESS, 5)]);
    serve(&mut plane, shape, 6, &mut disk)?;
    assert!(rt; mail_words(&plane) == [2, 0, 6, 0]);
    assert!(rt; disk.failures() == 0);
    store(&mut plane, &[(MAIL_STATE, 1)]);
    assert!(rt; serve(&mut plane, shape, 5, &mut disk) == Err(Fault::Device));
    Ok(())
}

#[test]
fn records_are_flushed_and_served(rt: HostRuntime) -> Result<(), Fail> {
    let shape = small_shape()?;
    let places = Places::of(&shape);
    let mut plane = seven_records(rt.alloc(), &places)?;
    let mut machine = Flush::new(rt.alloc(), shape, places)?;
    let mut disk = MemDisk::new(rt.alloc());
    fails(&rt, rt.alloc(), &mut plane, &mut machine);
    flushes(&rt, shape, &mut plane, &mut machine, &mut disk)?;
    serves(&rt, shape, &mut plane, &mut disk)?;
    tells_gone(&rt, rt.alloc(), shape)?;
    law_mail();
    Ok(())
}

#[test]
fn what_flushes_keeps_its_laws(_rt: HostRuntime) -> Result<(), Fail> {
    law_guarded();
    law_seen();
    law_flushed_is_synced();
    law_of_the_ring();
    law_records_in_hand();
    law_nothing_falls();
    law_finds_slots();
    Ok(())
}
