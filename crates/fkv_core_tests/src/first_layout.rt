//! A commit over one of the first layout, which stops at each call of the device. A script can't say so: it opens an image in a file
//! alone, where no call can be made to fail.
use crate::lines::Line;
use crate::lines::Line::{Commit, Finish, LogCommit, Up};
use crate::stores::{Store, WIDE, crash, hold, new_store, play, store_of};
use fkv_base::{Fault, Serial};
use fkv_disk::MemDisk;
use fkv_opening::recover;
use std::alloc::Global;
use std::ops::Range;
use std::process::Abort;
use std::test::Fail;

/// Where the slot of commits of odd numbers lies in an image.
const ODD_SLOT: Range<usize> = 1024..1536;

/// A store's first commit as the first layout spells it: without a checkpoint of its own, lost ranges and a format.
fn in_first_layout(alloc: Global, store: Store) -> Result<Store, Fault> {
    let mut bytes = crash(store, 0)?.into_bytes();
    for (at, byte) in bytes.iter_mut().enumerate() {
        if at >= ODD_SLOT.start + 312 && at < ODD_SLOT.end {
            *byte = 0;
        }
    }
    store_of(alloc, MemDisk::from_bytes(alloc, bytes)?)
}

/// A store with one commit of the first layout, and an update behind it.
fn over_first_layout(alloc: Global) -> Result<Store, Fault> {
    let mut store = new_store(alloc, WIDE)?;
    play(&mut store, &[Up(0, 1, 1), Commit, Finish]);
    in_first_layout(alloc, store)
}

/// The image that is left where so many calls of the device pass in the second commit.
fn left(alloc: Global, kind: Line, passing: u64, torn: u8) -> Result<MemDisk, Fault> {
    let mut store = over_first_layout(alloc)?;
    play(&mut store, &[Up(0, 1, 2)]);
    store.arm(passing);
    play(&mut store, &[kind, Finish]);
    crash(store, torn)
}

/// Whether the commit of this number is recovered of it, with the point of the same number.
fn keeps(alloc: Global, mut image: MemDisk, number: u64) -> Result<bool, Fault> {
    let opened = recover(alloc, &mut image)?;
    Ok(opened.number.0 == number && opened.points.as_slice() == [Serial(number)].as_slice())
}

/// The number of the commit that stands where so many calls pass, out of those that the second one makes.
fn standing(calls: u64, passing: u64, torn: u8) -> u64 {
    let is_open = passing == calls || (torn == 165 && passing.saturating_add(2) >= calls);
    if is_open { 2 } else { 1 }
}

/// A second commit of so many calls stops where so many of them pass.
fn stops(
    rt: &impl Abort,
    alloc: Global,
    kind: Line,
    calls: u64,
    passing: u64,
) -> Result<(), Fault> {
    for torn in [0, 165, 255] {
        let image = left(alloc, kind, passing, torn)?;
        hold!(rt; keeps(alloc, image, standing(calls, passing, torn))?);
    }
    Ok(())
}

/// The first commit stands until the gate of the second one, of the newest layout, is open: a torn byte may have opened it two calls
/// before the last one, which syncs it. A full commit makes ten calls, and a log commit nine, since it copies no index.
#[test]
fn a_commit_over_the_first_layout_stops_at_each_call(rt: HostRuntime) -> Result<(), Fail> {
    for passing in 0..11 {
        stops(&rt, rt.alloc(), Commit, 10, passing)?;
    }
    for passing in 0..10 {
        stops(&rt, rt.alloc(), LogCommit, 9, passing)?;
    }
    Ok(())
}
