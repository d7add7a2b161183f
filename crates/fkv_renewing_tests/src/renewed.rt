use fkv_base::{Fault, Key, Serial, Shape, Value};
use fkv_creating::create;
use fkv_disk::MemDisk;
use fkv_opening::{Opened, recover};
use fkv_pairs::content;
use fkv_renewing::renew;
use std::alloc::Global;
use std::process::Abort;
use std::test::Fail;

// Four buckets, or one, with so many overflow buckets and pages of four records.
fn shape(bits: u64, overflow: u64, pages: u64) -> Result<Shape, Fault> {
    Shape::new(bits, 4, 2, 1, 2, overflow, pages)
}

// A device that has these many bytes of another use.
fn used(alloc: Global, bytes: usize) -> Result<MemDisk, Fault> {
    let bytes = vec![in alloc; 165u8; bytes]?;
    MemDisk::from_bytes(alloc, bytes)
}

// A store whose second session has taken nine serials: the point stands at byte 576.
fn opened(alloc: Global) -> Result<Opened, Fault> {
    let mut disk = MemDisk::new(alloc);
    create(&mut disk, shape(2, 0, 1)?)?;
    let mut bytes = disk.into_bytes();
    if bytes.len() > 576 {
        bytes[576] = 9;
    }
    let mut disk = MemDisk::from_bytes(alloc, bytes)?;
    recover(alloc, &mut disk)
}

// Ten pairs, of which the last two share the homes of the first two where there is one bucket.
fn pairs(alloc: Global) -> Result<Vec<(Key, Value)>, Fault> {
    let mut pairs = Vec::new(alloc);
    for i in 0..10u64 {
        pairs.push((Key(i * 4096), Value(i + 100)))?;
    }
    Ok(pairs)
}

// What is recovered of the renewed store.
fn is_renewed(rt: &impl Abort, alloc: Global, new: Shape) -> Result<(), Fault> {
    let old = opened(alloc)?;
    let pairs = pairs(alloc)?;
    let mut disk = used(alloc, 4000)?;
    renew(alloc, &old, &pairs, new, &mut disk)?;
    let store = recover(alloc, &mut disk)?;
    assert!(rt; store.number.0 == 1);
    assert!(rt; store.tail.0 == 11);
    assert!(rt; store.points.as_slice() == [Serial(0), Serial(9)].as_slice());
    assert!(rt; store.gates == (false, true));
    assert!(rt; store.lost.is_empty());
    let found = content(alloc, &store, &mut disk)?;
    assert!(rt; found.as_slice() == pairs.as_slice());
    Ok(())
}

#[test]
fn renewed_stores_are_recovered(rt: HostRuntime) -> Result<(), Fail> {
    is_renewed(&rt, rt.alloc(), shape(0, 1, 3)?)?;
    is_renewed(&rt, rt.alloc(), shape(10, 1, 3)?)?;
    Ok(())
}

// The refusal of a renewal, by which the device isn't written.
fn is_refused(rt: &impl Abort, alloc: Global, new: Shape, fault: Fault) -> Result<(), Fault> {
    let old = opened(alloc)?;
    let pairs = pairs(alloc)?;
    let mut disk = used(alloc, 40)?;
    assert!(rt; renew(alloc, &old, &pairs, new, &mut disk) == Err(fault));
    assert!(rt; disk.bytes().len() == 40);
    Ok(())
}

#[test]
fn what_has_no_room_is_refused(rt: HostRuntime) -> Result<(), Fail> {
    is_refused(&rt, rt.alloc(), shape(0, 0, 3)?, Fault::IndexFull)?;
    is_refused(&rt, rt.alloc(), shape(0, 1, 2)?, Fault::LogFull)?;
    is_refused(
        &rt,
        rt.alloc(),
        Shape::new(2, 4, 2, 1, 1, 0, 4)?,
        Fault::NoSession,
    )?;
    Ok(())
}
