//! Lives of one store.
use crate::begins::move_begin;
use crate::draws::Draws;
use crate::scripts::lines_of;
use crate::shapes::{begins_later, first_of, shape_of};
use crate::verdicts::{Told, Wrong, judge};
use fkv_base::{Fault, Key, Value, Version};
use fkv_creating::create;
use fkv_disk::{Device, Fuse, FuseState, MemDisk};
use fkv_lines::Line;
use fkv_opening::{Opened, recover};
use fkv_pairs::content;
use fkv_threading::{Open, Played, play};
use std::alloc::Global;
use std::sync::Wait;
use std::thread::Threads;

/// So many lives of a store of this shape, one behind the other.
pub(crate) fn hammer<R: Threads + Wait + Sync>(
    rt: &R,
    alloc: Global,
    draws: &mut Draws,
    number: u64,
    lives: u64,
) -> Result<(), Wrong> {
    let mut disk = MemDisk::new(alloc);
    create(&mut disk, shape_of(number)?)?;
    let is_later = begins_later(number);
    let end = if is_later { draws.below(100) } else { 0 };
    begin_at(&mut disk, first_of(number), end.saturating_add(1))?;
    let mut found = found_on(alloc, disk)?;
    for _ in 0..lives {
        if is_later {
            found = begun_later(alloc, draws, found)?;
        }
        found = live(rt, alloc, draws, found)?;
    }
    Ok(())
}

/// Where the first slot of a new store tells its commit, and that of its checkpoint.
const NUMBER_PLACES: [u64; 2] = [520, 824];

/// Where it tells at which address its scan starts, and where its log ends.
const END_PLACES: [u64; 2] = [528, 536];

/// Makes the commit of a new store one of this number, which is even: an odd one stands in the second slot. Its log ends at this address.
fn begin_at(disk: &mut MemDisk, number: u64, end: u64) -> Result<(), Fault> {
    for place in &NUMBER_PLACES {
        disk.write(*place, &number.to_le_bytes())?;
    }
    for place in &END_PLACES {
        disk.write(*place, &end.to_le_bytes())?;
    }
    disk.sync()
}

/// A store as it lies on a device.
#[derive(Drop)]
struct Found {
    disk: MemDisk,
    opened: Opened,
    pairs: Vec<(Key, Value)>,
}

fn found_on(alloc: Global, disk: MemDisk) -> Result<Found, Fault> {
    let mut disk = disk;
    let opened = recover(alloc, &mut disk)?;
    let pairs = content(alloc, &opened, &mut disk)?;
    Ok(Found {
        disk,
        opened,
        pairs,
    })
}

/// The store with its begin moved. Its log begins there, and it has no pair that it had not.
fn begun_later(alloc: Global, draws: &mut Draws, found: Found) -> Result<Found, Wrong> {
    let Found {
        disk,
        opened,
        pairs,
    } = found;
    let mut disk = disk;
    let begin = move_begin(&mut disk, draws, &opened)?;
    let after = found_on(alloc, disk)?;
    if after.opened.begin != begin {
        return Err(Wrong::Begin);
    }
    for pair in &after.pairs {
        if !pairs.contains(pair) {
            return Err(Wrong::Pairs);
        }
    }
    Ok(after)
}

/// One life, and what a crash then leaves. The device fails from a call on that is drawn from all that the life would make, or behind the last.
fn live<R: Threads + Wait + Sync>(
    rt: &R,
    alloc: Global,
    draws: &mut Draws,
    found: Found,
) -> Result<Found, Wrong> {
    let Found {
        disk,
        opened,
        pairs,
    } = found;
    let (number, begin) = (opened.number, opened.begin);
    let lines = lines_of(alloc, draws)?;
    let whole = count_calls(rt, alloc, &disk, &lines)?;
    let calls = draws.below(whole.saturating_add(1));
    let Played { logs, keeper, .. } = played(rt, alloc, disk, calls, &lines)?;
    if let Some(fault) = keeper.fault {
        if fault != Fault::Device {
            return Err(Wrong::Refused(fault));
        }
    }
    let torn = match draws.below(3) {
        0 => 0,
        1 => 165,
        _ => 255,
    };
    let after = found_on(alloc, keeper.device.crash(torn)?)?;
    let told = Told {
        number,
        begin,
        begun: keeper.begun,
        finished: &keeper.finished,
        logs: &logs,
        before: &pairs,
    };
    judge(alloc, &told, &after.opened, &after.pairs)?;
    Ok(after)
}

/// How many calls of the device these lines make, as they are played over a copy of the store. On threads it may be another number each time.
fn count_calls<R: Threads + Wait + Sync>(
    rt: &R,
    alloc: Global,
    disk: &MemDisk,
    lines: &[Line],
) -> Result<u64, Wrong> {
    let Played { keeper, .. } = played(rt, alloc, copy_of(alloc, disk)?, u64::MAX, lines)?;
    if let Some(fault) = keeper.fault {
        return Err(Wrong::Refused(fault));
    }
    match keeper.device.state() {
        FuseState::Armed(left) => Ok(u64::MAX - left),
        _ => Ok(0),
    }
}

fn copy_of(alloc: Global, disk: &MemDisk) -> Result<MemDisk, Fault> {
    MemDisk::from_bytes(alloc, disk.bytes().to_vec(alloc)?)
}

/// Plays lines over the store that this device holds, of whose calls so many pass.
fn played<R: Threads + Wait + Sync>(
    rt: &R,
    alloc: Global,
    disk: MemDisk,
    calls: u64,
    lines: &[Line],
) -> Result<Played<Fuse<MemDisk>>, Fault> {
    let mut disk = disk;
    let opened = recover(alloc, &mut disk)?;
    let mut device = Fuse::new(disk);
    device.arm(calls);
    play(rt, alloc, opened, device, lines, &Open)
}
