//! The scan of a living store behind commit 8200, where the marks of versions have begun anew. No whole store has such a number as yet.
use fkv_base::{Addr, Damage, Fault, Shape};
use fkv_disk::{Device, MemDisk};
use fkv_record::{read_manifest_slot, record_place};
use fkv_scan::{Scanned, scan};
use std::alloc::Global;
use std::process::Abort;
use std::test::Fail;

/// The home of key 1 where there are 16 buckets: bucket 1 and tag 0.
const HOME: u64 = 32768;

// The slot of commit 8200 over the checkpoint of commit 8190, which has no triples. The scan begins at address 1, and the log ends here.
// The records of version 8192 are lost below address 3.
fn slot(end: u64) -> [u8; 512] {
    let mut numbers = [0u64; 64];
    numbers[0] = 165;
    numbers[1] = 8200;
    numbers[2] = 1;
    numbers[3] = end;
    numbers[6] = 1;
    numbers[39] = 8190;
    numbers[40] = 1;
    numbers[41] = 3;
    numbers[42] = 8192;
    numbers[63] = 3;
    let mut bytes = [0; 512];
    for i in 0..64usize {
        bytes[8 * i..8 * i + 8].copy_from_slice(&numbers[i].to_le_bytes());
    }
    bytes
}

// What the scan finds behind it, where the records of key 1 have these headers.
fn scanned(alloc: Global, headers: &[u64]) -> Result<Scanned, Fault> {
    let shape = Shape::large(4, 16, 4, 2, 1, 0, 64)?;
    let mut disk = MemDisk::from_bytes(alloc, vec![in alloc; 0u8; 5144]?)?;
    let mut end = 1;
    for header in headers {
        if end > 8 {
            break;
        }
        let mut record = [0; 24];
        record[0..8].copy_from_slice(&header.to_le_bytes());
        record[8] = 1;
        disk.write(record_place(shape, Addr(end)), &record)?;
        end += 1;
    }
    let Some((_, slot)) = read_manifest_slot(&slot(end)) else {
        return Err(Fault::NotAStore);
    };
    if slot.first.0 > slot.end.0 || slot.end.0 > 9 || slot.number > 8200 {
        return Err(Fault::NotAStore);
    }
    scan(alloc, &mut disk, shape, &slot, &[])
}

// The newest record of key 1 that counts, and whether one is newer than the commit.
fn newest(alloc: Global, headers: &[u64]) -> Result<(Option<Addr>, bool), Fault> {
    let found = scanned(alloc, headers)?;
    let home = match found.homes.get(&HOME) {
        Some(home) => home.newest,
        None => None,
    };
    Ok((home, found.newer))
}

// Versions 8190 and 8191, and then 8192 and 8201, whose marks are 1 and 10.
fn is_read_past_the_turn(rt: &impl Abort, alloc: Global) -> Result<(), Fault> {
    let versions = [8190 << 48, (8191 << 48) + 1, (1 << 48) + 2, (10 << 48) + 3];
    assert!(rt; newest(alloc, &versions)? == (Some(Addr(3)), true));
    // that at address 2 is lost, so the next one leads past it
    let lost = [8190 << 48, (1 << 48) + 1, (1 << 48) + 1];
    assert!(rt; newest(alloc, &lost)? == (Some(Addr(3)), false));
    Ok(())
}

// No version from 8190 to 8201 has the mark 8189 or the mark 11; and none leads to a later one.
fn is_refused(rt: &impl Abort, alloc: Global) {
    let older = newest(alloc, &[8190 << 48, (8189 << 48) + 1]);
    assert!(rt; older == Err(Fault::Damaged(Damage::Record, 2)));
    let newer = newest(alloc, &[8190 << 48, (11 << 48) + 1]);
    assert!(rt; newer == Err(Fault::Damaged(Damage::Record, 2)));
    let falling = newest(alloc, &[2 << 48, (8191 << 48) + 1]);
    assert!(rt; falling == Err(Fault::Damaged(Damage::Link, 2)));
}

#[test]
fn marks_are_read_in_the_window_of_the_checkpoint(rt: HostRuntime) -> Result<(), Fail> {
    is_read_past_the_turn(&rt, rt.alloc())?;
    is_refused(&rt, rt.alloc());
    Ok(())
}
