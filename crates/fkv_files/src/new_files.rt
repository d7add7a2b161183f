//! New files that have another name until they are whole.
use crate::store_files::{Lockable, open_alone, sync_folder_of};
use crate::troubles::Trouble;
use fkv_disk::FileDisk;
use std::fs::{self, OpenOptions};
use std::io::ErrorKind;
use std::rt::Files;

/// Refuses a path that names something, with `Taken`.
pub fn expect_none<H: Files>(rt: &H, path: &str) -> Result<(), Trouble> {
    match fs::symlink_metadata(rt, path) {
        Ok(_) => Err(Trouble::Taken),
        Err(error) if error.kind() == ErrorKind::NotFound => Ok(()),
        Err(error) => Err(Trouble::Refused(error)),
    }
}

/// Makes a file for this process alone, with the permissions of the file `like`. Where something has its name, that stays as it is
/// (`Taken`); where it is refused for another reason, no new file is left.
pub fn make_new<H: Files>(rt: &H, path: &str, like: &str) -> Result<FileDisk<H::File>, Trouble>
where
    H::File: Lockable,
{
    match OpenOptions::new()
        .write(true)
        .create_new(true)
        .open(rt, path)
    {
        Ok(_) => {}
        Err(error) if error.kind() == ErrorKind::AlreadyExists => return Err(Trouble::Taken),
        Err(error) => return Err(Trouble::Refused(error)),
    }
    match open_like(rt, path, like) {
        Ok(device) => Ok(device),
        Err(trouble) => {
            discard(rt, path);
            Err(trouble)
        }
    }
}

/// Opens a new file, and gives it the permissions of the file `like`.
fn open_like<H: Files>(rt: &H, path: &str, like: &str) -> Result<FileDisk<H::File>, Trouble>
where
    H::File: Lockable,
{
    let (device, _) = open_alone(rt, path)?;
    let given = match fs::metadata(rt, like) {
        Ok(known) => fs::set_permissions(rt, path, known.permissions()),
        Err(error) => Err(error),
    };
    match given {
        Ok(()) => Ok(device),
        Err(error) => Err(Trouble::Refused(error)),
    }
}

/// Gives a whole file its name in place of its first one, and syncs their folder. It replaces no file: so it links the file, and then
/// removes the first name. Where it is refused the file has neither name.
pub fn give_name<H: Files>(rt: &H, first: &str, name: &str) -> Result<(), Trouble> {
    match fs::hard_link(rt, first, name) {
        Ok(()) => {}
        Err(error) => {
            discard(rt, first);
            return Err(match error.kind() {
                ErrorKind::AlreadyExists => Trouble::Taken,
                _ => Trouble::Unnamed(error),
            });
        }
    }
    match settle(rt, first, name) {
        Ok(()) => Ok(()),
        Err(trouble) => {
            discard(rt, first);
            discard(rt, name);
            Err(trouble)
        }
    }
}

/// Removes the first name of a file, and syncs the folder.
fn settle<H: Files>(rt: &H, first: &str, name: &str) -> Result<(), Trouble> {
    match fs::remove_file(rt, first) {
        Ok(()) => sync_folder_of(rt, name),
        Err(error) => Err(Trouble::Unnamed(error)),
    }
}

/// Removes a file that this process has made. One that can't be removed stays.
pub fn discard<H: Files>(rt: &H, path: &str) {
    let _left = fs::remove_file(rt, path);
}
