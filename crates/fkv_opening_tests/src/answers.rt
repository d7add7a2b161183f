//! What is answered of a store, in one line of text.
use fkv_base::{Fault, Key, Value};
use fkv_disk::{Device, MemDisk};
use fkv_opening::{Opened, recover};
use fkv_pairs::content;
use std::alloc::{AllocError, Global};
use std::fmt::Write;

// The commit, the begin of its log where that isn't its first record, the log's end and its points; its checkpoint; the lost ranges, each its end and version; and the entries,
// each bucket, tag and address.
fn line_of(alloc: Global, opened: &Opened) -> Result<String, AllocError> {
    let mut line = format!(in alloc; "commit {}", opened.number.0)?;
    if opened.begin.0 != 1 {
        write!(line, " begin {}", opened.begin.0)?;
    }
    write!(line, " tail {} points", opened.tail.0)?;
    for point in opened.points.iter() {
        write!(line, " {}", point.0)?;
    }
    let checkpoint = opened.checkpoint;
    write!(
        line,
        ", checkpoint {} from {} triples {} area {}, lost",
        checkpoint.number.0, checkpoint.first.0, checkpoint.triples, checkpoint.area
    )?;
    for range in opened.lost.iter() {
        write!(line, " {}:{}", range.to.0, range.version.0)?;
    }
    write!(line, ", entries")?;
    for home in opened.entries.iter() {
        write!(
            line,
            " {}.{}:{}",
            home.bucket, home.entry.tag, home.entry.addr.0
        )?;
    }
    Ok(line)
}

// The pairs, each key and value.
fn pairs_of(alloc: Global, pairs: &[(Key, Value)]) -> Result<String, AllocError> {
    let mut line = format!(in alloc; ", pairs")?;
    for pair in pairs {
        write!(line, " {}={}", pair.0.0, pair.1.0)?;
    }
    Ok(line)
}

// The name of a fault, and the damaged part's place.
fn name_of(alloc: Global, fault: Fault) -> Result<String, AllocError> {
    match fault {
        Fault::Damaged(part, place) => format!(in alloc; "{} {place}", part.name()),
        fault => format!(in alloc; "{}", fault.name()),
    }
}

/// What recovery answers over a device: the store, or its fault.
pub(crate) fn recovered<D: Device>(alloc: Global, d: &mut D) -> Result<String, AllocError> {
    match recover(alloc, d) {
        Ok(opened) => line_of(alloc, &opened),
        Err(fault) => name_of(alloc, fault),
    }
}

/// And with the store its pairs, or their fault alone.
pub(crate) fn answer<D: Device>(alloc: Global, d: &mut D) -> Result<String, AllocError> {
    let opened = match recover(alloc, d) {
        Ok(opened) => opened,
        Err(fault) => return name_of(alloc, fault),
    };
    match content(alloc, &opened, d) {
        Ok(pairs) => {
            let mut line = line_of(alloc, &opened)?;
            line.push_str(pairs_of(alloc, &pairs)?.as_str())?;
            Ok(line)
        }
        Err(fault) => name_of(alloc, fault),
    }
}

/// What is answered of an image.
pub(crate) fn told(alloc: Global, image: &[u8]) -> Result<String, Fault> {
    let mut disk = MemDisk::from_bytes(alloc, image.to_vec(alloc)?)?;
    Ok(answer(alloc, &mut disk)?)
}
