use fkv_base::{Addr, Fault, Shape, Version};
use fkv_creating::{create, create_opened};
use fkv_disk::{Device, MemDisk};
use fkv_newest::{Newest, read_newest};
use fkv_opening::{Opened, recover};
use std::alloc::Global;
use std::process::Abort;
use std::test::Fail;

// A store of 16 buckets, pages of 16 records, four frames, two of them mutable, one session, no overflow bucket and 64 pages.
const BLOCK: [u64; 8] = [3553990279542754118, 4, 16, 4, 2, 1, 0, 64];

fn shape() -> Result<Shape, Fault> {
    Shape::new(4, 16, 4, 2, 1, 0, 64)
}

// A device that has these many bytes of another use.
fn used(alloc: Global, bytes: usize) -> Result<MemDisk, Fault> {
    let bytes = vec![in alloc; 165u8; bytes]?;
    MemDisk::from_bytes(alloc, bytes)
}

// The image of a new store over such a device: the block, slot 0 with its gate, the first address and the end 1, one session
// and the format 3, and zeros up to byte 1536.
fn image(alloc: Global, len: usize) -> Result<Vec<u8>, Fault> {
    let mut bytes = Vec::new(alloc);
    for number in BLOCK {
        bytes.extend_from_slice(&number.to_le_bytes())?;
    }
    bytes.resize(1536, 0)?;
    bytes[512] = 165;
    bytes[528] = 1;
    bytes[536] = 1;
    bytes[560] = 1;
    bytes[1016] = 3;
    bytes.resize(len, 165)?;
    Ok(bytes)
}

// What is told of a store that is created, and what is read of it then.
fn created<D: Device>(d: &mut D) -> Result<(Newest, Newest), Fault> {
    let told = create(d, shape()?)?;
    Ok((told, read_newest(d)?))
}

// What is read is what was told, and no other slot is open.
fn is_read(rt: &impl Abort, (told, newest): (Newest, Newest)) {
    assert!(rt; newest.slot == told.slot);
    assert!(rt; newest.index == 0);
    assert!(rt; newest.open_numbers == (Some(0), None));
}

// Over so many bytes, which are so many behind it.
fn is_laid(rt: &impl Abort, alloc: Global, len: usize, end: usize) -> Result<(), Fault> {
    let mut disk = used(alloc, len)?;
    is_read(rt, created(&mut disk)?);
    assert!(rt; disk.bytes() == image(alloc, end)?.as_slice());
    Ok(())
}

#[test]
fn a_new_store_is_laid_and_read(rt: HostRuntime) -> Result<(), Fail> {
    for (len, end) in [(0, 1536), (700, 1536), (1600, 1600)] {
        is_laid(&rt, rt.alloc(), len, end)?;
    }
    Ok(())
}

fn recovered(alloc: Global, disk: &mut MemDisk) -> Result<Opened, Fault> {
    match recover(alloc, disk) {
        Err(Fault::Memory) => recover(alloc, disk),
        // the device in memory asks for memory too
        Err(Fault::Device) if disk.failures() == 1 => recover(alloc, disk),
        answer => answer,
    }
}

// It is made at once, or once more where memory was refused.
fn is_made(rt: &impl Abort, alloc: Global, disk: &mut MemDisk) -> Result<(), Fault> {
    match create_opened(alloc, disk, shape()?) {
        Ok(store) => {
            assert!(rt; (store.number, store.tail) == (Version(0), Addr(1)));
            assert!(rt; store.gates == (true, false));
            Ok(())
        }
        Err(Fault::Memory) => Ok(()),
        Err(Fault::Device) if disk.failures() == 1 => {
            create(disk, shape()?)?;
            Ok(())
        }
        Err(fault) => Err(fault),
    }
}

fn is_recovered(rt: &impl Abort, alloc: Global, disk: &mut MemDisk) -> Result<(), Fault> {
    let store = recovered(alloc, disk)?;
    assert!(rt; (store.number, store.tail) == (Version(0), Addr(1)));
    assert!(rt; (store.points.len(), store.entries.len()) == (1, 0));
    Ok(())
}

// What is created is open at once, and recovered the same. A tool outside lets each request for memory fail in turn and runs
// this test.
#[test]
fn a_store_is_made_where_memory_is_refused(rt: HostRuntime) -> Result<(), Fail> {
    let alloc = rt.alloc();
    let (Ok(mut disk), Ok(made)) = (used(alloc, 1600), image(alloc, 1600)) else {
        return Ok(());
    };
    is_made(&rt, alloc, &mut disk)?;
    assert!(rt; disk.bytes() == made.as_slice());
    is_recovered(&rt, alloc, &mut disk)?;
    Ok(())
}
