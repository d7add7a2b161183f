//! The file of a store, opened to be read alone.
use fkv_disk::FileDisk;
use fkv_files::Trouble;
use std::fs::{File, OpenOptions, TryLockError};

/// Opens a file for reading alone, and locks it so that others may read it too, but nobody has the store open. The lock ends with the
/// process. Tells how many bytes a regular file has.
pub(crate) fn open_shared(
    rt: &HostRuntime,
    path: &str,
) -> Result<(FileDisk<File>, Option<u64>), Trouble> {
    let file = match OpenOptions::new().read(true).open(rt, path) {
        Ok(file) => file,
        Err(error) => return Err(Trouble::Refused(error)),
    };
    match file.try_lock_shared() {
        Ok(()) => {}
        Err(TryLockError::WouldBlock) => return Err(Trouble::InUse),
        Err(TryLockError::Error(error)) => return Err(Trouble::Unlocked(error)),
    }
    let length = match file.metadata() {
        Ok(known) if known.is_file() => Some(known.len()),
        Ok(_) => None,
        Err(error) => return Err(Trouble::Refused(error)),
    };
    Ok((FileDisk::new(file), length))
}
