//! Calls of the device that fail, and crashes there.
use crate::answers::answer;
use crate::stores::logged;
use fkv_base::{Fault, Shape};
use fkv_creating::create;
use fkv_disk::{Device, Fuse, MemDisk, Once};
use std::alloc::Global;
use std::process::Abort;
use std::test::Fail;

const LOGGED: &str =
    "commit 2 tail 6 points 3, checkpoint 1 from 3 triples 1 area 1, lost 5:2, entries 1.0:5, pairs 1=13 524289=20";

// The store on a device whose call behind so many fails.
fn stored(alloc: Global, passing: u64) -> Result<Once<MemDisk>, Fault> {
    let disk = MemDisk::from_bytes(alloc, logged(alloc)?)?;
    Ok(Once::new(disk, passing))
}

// Asserts what is answered, where so many calls passed before.
fn compare(
    rt: &impl Abort,
    alloc: Global,
    once: &mut Once<MemDisk>,
    passing: u64,
    wanted: &str,
) -> Result<(), Fail> {
    let found = answer(alloc, once)?;
    assert_eq!(rt; found.as_str(), wanted, "call {passing}");
    Ok(())
}

// The failure of the call behind so many is answered, and then the store.
fn open_twice(rt: &impl Abort, alloc: Global, passing: u64) -> Result<(), Fail> {
    let mut once = stored(alloc, passing)?;
    compare(rt, alloc, &mut once, passing, "Device")?;
    compare(rt, alloc, &mut once, passing, LOGGED)
}

// Recovery of this image makes ten calls: a sync, and reads of the front, of the triple, of three records, of the one that a
// lost record leads to, of the one that the triple leads to, and of two below the scan. Its pairs are read in three more, one
// for each record of its chain.
#[test]
fn each_call_of_an_opening_fails(rt: HostRuntime) -> Result<(), Fail> {
    for passing in 0..13 {
        open_twice(&rt, rt.alloc(), passing)?;
    }
    let mut once = stored(rt.alloc(), 13)?;
    compare(&rt, rt.alloc(), &mut once, 13, LOGGED)
}

const NEW: &str =
    "commit 0 tail 1 points 0, checkpoint 0 from 1 triples 0 area 0, lost, entries, pairs";

fn shape() -> Result<Shape, Fault> {
    Shape::new(4, 16, 4, 2, 1, 0, 64)
}

fn made(once: &mut Once<MemDisk>) -> Result<(), Fault> {
    create(once, shape()?)?;
    Ok(())
}

// The call of creation behind so many fails, and then it is made again.
fn create_twice(rt: &impl Abort, alloc: Global, passing: u64, wanted: &str) -> Result<(), Fail> {
    let mut once = Once::new(MemDisk::new(alloc), passing);
    assert!(rt; matches!(made(&mut once), Err(Fault::Device)));
    compare(rt, alloc, &mut once, passing, wanted)?;
    made(&mut once)?;
    compare(rt, alloc, &mut once, passing, NEW)
}

// The call behind the refused one would be refused too. How many were refused.
fn refused(alloc: Global, passing: u64) -> Result<u64, Fault> {
    let first = Once::new(MemDisk::new(alloc), passing);
    let mut both = Once::new(first, passing.saturating_add(1));
    let _ = create(&mut both, shape()?);
    Ok(both.failures())
}

// The last of the eight calls is the sync behind the gate. None is made behind a refused one.
#[test]
fn each_call_of_creation_fails(rt: HostRuntime) -> Result<(), Fail> {
    for passing in 0..8 {
        let wanted = if passing < 7 { "NotAStore" } else { NEW };
        create_twice(&rt, rt.alloc(), passing, wanted)?;
        assert_eq!(rt; refused(rt.alloc(), passing)?, 1, "call {passing}");
    }
    assert_eq!(rt; refused(rt.alloc(), 8)?, 0);
    Ok(())
}

// What is answered after a crash in the creation of a store over these bytes, where so many calls pass.
fn created(alloc: Global, old: &[u8], passing: u64, torn: u8) -> Result<String, Fault> {
    let mut fuse = Fuse::new(MemDisk::from_bytes(alloc, old.to_vec(alloc)?)?);
    fuse.arm(passing);
    let _ = create(&mut fuse, shape()?);
    let mut left = fuse.crash(torn)?;
    Ok(answer(alloc, &mut left)?)
}

fn crash(rt: &impl Abort, alloc: Global, old: &[u8], passing: u64) -> Result<(), Fail> {
    for torn in [0, 165, 255] {
        let is_new = passing == 8 || (passing >= 6 && torn == 165);
        let wanted = if is_new { NEW } else { "NotAStore" };
        let found = created(alloc, old, passing, torn)?;
        assert_eq!(rt; found.as_str(), wanted, "call {passing} torn {torn}");
    }
    Ok(())
}

// Each call in turn is the one at which the power is cut, over an empty device and over another store. From the write of
// the gate on its own byte may be left, and before that no store is; behind the last call nothing is torn.
#[test]
fn a_crash_leaves_no_store_or_the_new_one(rt: HostRuntime) -> Result<(), Fail> {
    let store = logged(rt.alloc())?;
    for passing in 0..9 {
        crash(&rt, rt.alloc(), &[], passing)?;
        crash(&rt, rt.alloc(), &store, passing)?;
    }
    Ok(())
}
