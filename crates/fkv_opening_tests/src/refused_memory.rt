//! Calls whose memory is refused, once: a tool outside lets each request fail in turn and runs this test.
use crate::stores::{crowd, logged};
use fkv_base::{Fault, Key, Shape, Value};
use fkv_creating::create;
use fkv_disk::{Device, MemDisk};
use fkv_opening::{Opened, recover};
use fkv_pairs::content;
use std::alloc::Global;
use std::process::Abort;
use std::test::Fail;

fn recovered(alloc: Global, disk: &mut MemDisk) -> Result<Opened, Fault> {
    match recover(alloc, disk) {
        Err(Fault::Memory) => recover(alloc, disk),
        // the device in memory asks for memory too
        Err(Fault::Device) if disk.failures() == 1 => recover(alloc, disk),
        answer => answer,
    }
}

fn pairs(alloc: Global, opened: &Opened, disk: &mut MemDisk) -> Result<Vec<(Key, Value)>, Fault> {
    match content(alloc, opened, disk) {
        Err(Fault::Memory) => content(alloc, opened, disk),
        answer => answer,
    }
}

fn created(disk: &mut MemDisk, shape: Shape) -> Result<(), Fault> {
    let answer = create(disk, shape);
    if answer.is_err() && disk.failures() == 1 {
        create(disk, shape)?;
        return Ok(());
    }
    answer?;
    Ok(())
}

// The store of an image; none where memory for the image itself was refused.
fn store_of(alloc: Global, image: Result<Vec<u8>, Fault>) -> Option<MemDisk> {
    MemDisk::from_bytes(alloc, image.ok()?).ok()
}

fn compare_logged(rt: &impl Abort, opened: &Opened) {
    assert_eq!(rt; (opened.number.0, opened.tail.0), (2, 6));
    assert_eq!(rt; opened.entries.len(), 1);
    assert_eq!(rt; opened.lost.len(), 1);
    assert_eq!(rt; opened.points.len(), 1);
}

fn compare_pairs(rt: &impl Abort, shown: &[(Key, Value)]) {
    let wanted = [(Key(1), Value(13)), (Key(524289), Value(20))];
    assert_eq!(rt; shown, wanted.as_slice());
}

fn open_logged(rt: &impl Abort, alloc: Global) -> Result<(), Fail> {
    let Some(mut disk) = store_of(alloc, logged(alloc)) else {
        return Ok(());
    };
    let opened = recovered(alloc, &mut disk)?;
    compare_logged(rt, &opened);
    compare_pairs(rt, &pairs(alloc, &opened, &mut disk)?);
    Ok(())
}

fn open_crowd(rt: &impl Abort, alloc: Global) -> Result<(), Fail> {
    let Some(mut disk) = store_of(alloc, crowd(alloc)) else {
        return Ok(());
    };
    let opened = recovered(alloc, &mut disk)?;
    assert_eq!(rt; opened.entries.len(), 8);
    assert_eq!(rt; pairs(alloc, &opened, &mut disk)?.len(), 8);
    Ok(())
}

fn open_new(rt: &impl Abort, alloc: Global) -> Result<(), Fail> {
    let mut disk = MemDisk::new(alloc);
    created(&mut disk, Shape::new(4, 16, 4, 2, 1, 0, 64)?)?;
    assert_eq!(rt; recovered(alloc, &mut disk)?.number.0, 0);
    Ok(())
}

#[test]
fn a_refused_call_harms_no_later_one(rt: HostRuntime) -> Result<(), Fail> {
    open_logged(&rt, rt.alloc())?;
    open_crowd(&rt, rt.alloc())?;
    open_new(&rt, rt.alloc())
}
