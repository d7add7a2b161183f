//! Images of stores, with all their numbers written by hand. Both have a block of 16 buckets, pages of 16 records, four frames, one
//! session, no overflow bucket and 64 pages: its areas are at 1536 and 3328, and its records begin at 5144.
use fkv_base::Fault;
use fkv_disk::{Device, MemDisk};
use std::alloc::Global;

// Places, each with the number that stands there.
const BLOCK: [(u64, u64); 7] = [
    (0, 3553990279542754118),
    (8, 4),
    (16, 16),
    (24, 4),
    (32, 2),
    (40, 1),
    (56, 64),
];

// Commit 1 in slot 1, whose checkpoint was copied once two newer records were there, with its triple; and commit 2 in slot 0, a log
// commit over this checkpoint, whose log ends at address 6, with one lost range: version 2 up to address 5.
const LOGGED: [(u64, u64); 25] = [
    (1024, 165),
    (1032, 1),
    (1040, 3),
    (1048, 5),
    (1056, 1),
    (1064, 1),
    (1072, 1),
    (1080, 2),
    (1336, 1),
    (1528, 3),
    (3328, 1),
    (3336, 4),
    (512, 165),
    (520, 2),
    (528, 3),
    (536, 6),
    (544, 1),
    (552, 1),
    (560, 1),
    (568, 3),
    (824, 1),
    (832, 1),
    (840, 5),
    (848, 2),
    (1016, 3),
];

const FIRST: u64 = 1 << 48; // the header of a record of version 1

const SECOND: u64 = 2 << 48;

// Two records of version 1, two of version 2 that commit 1 leaves out, and one of key 1 from the life behind them. Both keys
// have one home, bucket 1 and tag 0.
const KEPT: [(u64, u64, u64); 5] = [
    (FIRST, 1, 10),
    (FIRST + 1, 524289, 20),
    (SECOND + 2, 1, 12),
    (SECOND + 3, 524289, 21),
    (SECOND + 2, 1, 13),
];

// Commit 1 in slot 1 over the checkpoint of commit 0: its log is scanned from address 1 on.
const FROM_1: [(u64, u64); 7] = [
    (1024, 165),
    (1032, 1),
    (1040, 1),
    (1048, 9),
    (1072, 1),
    (1080, 8),
    (1528, 3),
];

// Records of version 1: seven homes of bucket 1, as many as it has slots for, and one of bucket 2.
const EIGHT: [(u64, u64, u64); 8] = [
    (FIRST, 1, 10),
    (FIRST, 17, 10),
    (FIRST, 33, 10),
    (FIRST, 49, 10),
    (FIRST, 65, 10),
    (FIRST, 81, 10),
    (FIRST, 97, 10),
    (FIRST, 2, 10),
];

fn put(disk: &mut MemDisk, places: &[(u64, u64)]) -> Result<(), Fault> {
    for (at, number) in places {
        disk.write(*at, &number.to_le_bytes())?;
    }
    Ok(())
}

fn put_records(bytes: &mut Vec<u8>, records: &[(u64, u64, u64)]) -> Result<(), Fault> {
    bytes.resize(5144, 0)?;
    for (header, key, value) in records {
        bytes.extend_from_slice(&header.to_le_bytes())?;
        bytes.extend_from_slice(&key.to_le_bytes())?;
        bytes.extend_from_slice(&value.to_le_bytes())?;
    }
    Ok(())
}

// The image with the numbers of its block and these at their places, and with these records.
fn image(
    alloc: Global,
    places: &[(u64, u64)],
    records: &[(u64, u64, u64)],
) -> Result<Vec<u8>, Fault> {
    let mut disk = MemDisk::new(alloc);
    put(&mut disk, &BLOCK)?;
    put(&mut disk, places)?;
    let mut bytes = disk.into_bytes();
    put_records(&mut bytes, records)?;
    Ok(bytes)
}

/// The store of a log commit in the life behind the one that left records out.
pub(crate) fn logged(alloc: Global) -> Result<Vec<u8>, Fault> {
    image(alloc, &LOGGED, &KEPT)
}

/// A store with eight homes.
pub(crate) fn crowd(alloc: Global) -> Result<Vec<u8>, Fault> {
    image(alloc, &FROM_1, &EIGHT)
}
