//! A store is opened from bytes in memory, and from then on each call is told.
use fkv_base::{Fault, Shape};
use fkv_creating::create;
use fkv_disk::{Device, MemDisk};
use fkv_opening::recover;
use fkv_posted::{Posted, Told};
use std::alloc::Global;
use std::process::Abort;
use std::rt::HostRuntime;
use std::test::Fail;

/// A store of no commit is recovered from its bytes. Those past the end read as 0.
fn is_opened(rt: &impl Abort, alloc: Global, posted: &mut Posted<'_>) -> Result<(), Fault> {
    let opened = recover(alloc, posted)?;
    assert!(rt; opened.number.0 == 0);
    let mut two = [7; 2];
    assert!(rt; posted.read(1, &mut two).is_ok());
    assert!(rt; two == [75, 86]);
    assert!(rt; posted.read(4096, &mut two).is_ok());
    assert!(rt; two == [0; 2]);
    Ok(())
}

/// A call is answered as it was told, and refused where nothing was told; from then on each is refused.
fn is_told(rt: &impl Abort, posted: &mut Posted<'_>) {
    posted.tell(Told::Written);
    assert!(rt; posted.write(2048, &[1; 24]).is_ok());
    posted.tell(Told::Synced);
    assert!(rt; posted.sync().is_ok());
    posted.tell(Told::Read(2048, [1; 24]));
    let mut record = [0; 24];
    assert!(rt; posted.read(2048, &mut record).is_ok());
    assert!(rt; record == [1; 24]);
    assert!(rt; posted.sync().is_err());
    posted.tell(Told::Written);
    assert!(rt; posted.write(2048, &[1; 24]).is_err());
    assert!(rt; posted.failures() == 2);
}

fn opens(rt: &impl Abort, alloc: Global) -> Result<(), Fault> {
    let mut disk = MemDisk::new(alloc);
    create(&mut disk, Shape::new(0, 4, 2, 1, 1, 0, 8)?)?;
    let mut posted = Posted::new(disk.bytes());
    is_opened(rt, alloc, &mut posted)?;
    is_told(rt, &mut posted.into_posted());
    Ok(())
}

#[test]
fn a_store_is_opened_and_posted(rt: HostRuntime) -> Result<(), Fail> {
    assert!(rt; opens(&rt, rt.alloc()).is_ok());
    Ok(())
}
