//! The file of a store: one process alone has it open, and no other file is written over.
ghost use Rattle.std.specs.Prelude.{◌<◌};

use crate::troubles::Trouble;
use fkv_disk::{Device, FileDisk};
use std::fs::{File, Metadata, OpenFile, OpenOptions, TryLockError};
use std::rt::Files;

// Both are copies: `fkv_record` has them in its own code alone, and isn't opened for this.
/// The bytes of a store before its first area: the shape's block and two slots.
const FRONT: usize = 1536;

/// What the first bytes of a store are, of a specified one and of a living one.
const STORE_TEXTS: [&[u8]; 2] = [b"FKVSTOR1", b"FKVSTOR2"];

/// A file that one open handle can have alone.
pub trait Lockable {
    /// Locks the whole file for this handle, and doesn't wait for it. The lock ends as the handle is closed, so with its process.
    fn lock_alone(&self) -> Result<(), TryLockError>;
}

impl Lockable for File {
    fn lock_alone(&self) -> Result<(), TryLockError> {
        self.try_lock()
    }
}

/// Opens the file of a store that is there, for this process alone, and tells how many bytes it has. That is known of a regular file
/// alone: the system says 0 of a block device.
pub fn open_alone<H: Files>(rt: &H, path: &str) -> Result<(FileDisk<H::File>, Option<u64>), Trouble>
where
    H::File: Lockable,
{
    let file = open_locked(rt, OpenOptions::new().read(true).write(true), path)?;
    let length = match file.metadata() {
        Ok(known) => length_of(&known),
        Err(error) => return Err(Trouble::Refused(error)),
    };
    Ok((FileDisk::new(file), length))
}

/// How many bytes a regular file has.
fn length_of(known: &Metadata) -> Option<u64> {
    if known.is_file() {
        Some(known.len())
    } else {
        None
    }
}

/// At most so many pages of 4 KiB are kept while a file is read: 32 MiB.
const MOST_PAGES: usize = 8192;

/// How many pages of 4 KiB to keep while a file of so many bytes is read: all of them, if they aren't too many, since a chain's walk
/// meets the log's pages in any order. Where its length isn't known, the most.
pub fn pages_to_keep(length: Option<u64>) -> usize
    ensures { 0 < result }
{
    let Some(length) = length else {
        return MOST_PAGES;
    };
    let pages = length / 4096 + 1;
    if pages < MOST_PAGES as u64 {
        pages as usize
    } else {
        MOST_PAGES
    }
}

/// Opens a file that a new store is to lie in, for this process alone, and makes it where there is none. The bytes of one that is
/// there stay as they are; it is refused unless it is empty, its front is all zeros, or it begins as a store does. Behind this call
/// the folder of a new file is synced. Tells how many bytes a regular file has.
pub fn make_alone<H: Files>(rt: &H, path: &str) -> Result<(FileDisk<H::File>, Option<u64>), Trouble>
where
    H::File: Lockable,
{
    let file = open_locked(
        rt,
        OpenOptions::new().read(true).write(true).create(true),
        path,
    )?;
    let known = match file.metadata() {
        Ok(known) => known,
        Err(error) => return Err(Trouble::Refused(error)),
    };
    let length = length_of(&known);
    // Nobody has written to it, so nobody may have synced its folder.
    if length == Some(0) {
        sync_folder_of(rt, path)?;
    }
    let mut disk = FileDisk::new(file);
    if !may_hold_store(&mut disk)? {
        return Err(Trouble::Foreign);
    }
    Ok((disk, length))
}

fn open_locked<H: Files>(rt: &H, how: &OpenOptions, path: &str) -> Result<H::File, Trouble>
where
    H::File: Lockable,
{
    // A new handle of the same open file, since the first may have the number of a standard stream that is closed: what is written
    // to that stream is not to come into the store.
    let file = match how.open(rt, path).and_then(|file| file.try_clone()) {
        Ok(file) => file,
        Err(error) => return Err(Trouble::Refused(error)),
    };
    match file.lock_alone() {
        Ok(()) => Ok(file),
        Err(TryLockError::WouldBlock) => Err(Trouble::InUse),
        Err(TryLockError::Error(error)) => Err(Trouble::Unlocked(error)),
    }
}

/// The folder that a file of this path lies in.
fn folder_of(path: &str) -> &str {
    match path.rsplit_once('/') {
        Some(("", _)) => "/",
        Some((folder, _)) => folder,
        None => ".",
    }
}

/// Makes the name of a file durable: syncs the folder that it lies in.
pub(crate) fn sync_folder_of<H: Files>(rt: &H, path: &str) -> Result<(), Trouble> {
    let synced = match OpenOptions::new().read(true).open(rt, folder_of(path)) {
        Ok(folder) => folder.sync_all(),
        Err(error) => Err(error),
    };
    match synced {
        Ok(()) => Ok(()),
        Err(error) => Err(Trouble::Folder(error)),
    }
}

/// Whether nothing but a store is lost where one is made here. What is past the end reads as zeros.
fn may_hold_store<D: Device>(disk: &mut D) -> Result<bool, Trouble> {
    let mut front = [0; FRONT];
    match disk.read(0, &mut front) {
        Ok(()) => Ok(begins_store(&front) || front.iter().all(|byte| *byte == 0)),
        Err(fault) => Err(Trouble::Fault(fault)),
    }
}

fn begins_store(front: &[u8]) -> bool {
    front.starts_with(STORE_TEXTS[0]) || front.starts_with(STORE_TEXTS[1])
}
