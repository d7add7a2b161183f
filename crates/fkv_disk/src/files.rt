//! A real file as a device.
ghost use Rattle.std.specs.Prelude.{◌≡◌, [], false, IfOk, IfErr};
ghost use Rattle.fkv_disk.specs.File.{file_failures};
ghost use Rattle.fkv_disk.specs.Kinds.{nothing};

use crate::Device;
use crate::refusals::refuse;
use fkv_base::Fault;
use std::fs::{OpenFile, OpenOptions};
use std::io;
use std::io::{ErrorKind, Read, Seek, SeekFrom, Write};
use std::rt::Files;

/// A file of the system. It claims no honesty: what a file holds after a crash is the premise of whoever
/// uses it. Bytes past its end read as 0. Each call that the system refuses counts as a failure.
#[derive(Drop)]
pub struct FileDisk<F> {
    file: F,
    failures: u64,
}

impl<F: Read + Write + Seek + OpenFile> FileDisk<F> {
    /// A file that was opened for reading and writing.
    pub fn new(file: F) -> FileDisk<F>
        ensures { file_failures result ≡ 0 }
    {
        FileDisk { file, failures: 0 }
    }
}

/// Opens a file that is there, and leaves its bytes as they are. `Fault::Device` where the system refuses.
pub fn open_file<R: Files>(rt: &R, path: &str) -> Result<FileDisk<R::File>, Fault>
    ensures failures { IfOk result (λ disk. file_failures disk ≡ 0) }
    ensures device { IfErr result (λ fault. fault ≡ Fault.Device) }
{
    open_with(rt, OpenOptions::new().read(true).write(true), path)
}

/// Opens a file, and makes it where there is none. The bytes of one that is there stay as they are.
/// `Fault::Device` where the system refuses.
pub fn make_file<R: Files>(rt: &R, path: &str) -> Result<FileDisk<R::File>, Fault>
    ensures failures { IfOk result (λ disk. file_failures disk ≡ 0) }
    ensures device { IfErr result (λ fault. fault ≡ Fault.Device) }
{
    open_with(
        rt,
        OpenOptions::new().read(true).write(true).create(true),
        path,
    )
}

fn open_with<R: Files>(rt: &R, how: &OpenOptions, path: &str) -> Result<FileDisk<R::File>, Fault>
    ensures failures { IfOk result (λ disk. file_failures disk ≡ 0) }
    ensures device { IfErr result (λ fault. fault ≡ Fault.Device) }
{
    match how.open(rt, path) {
        Ok(file) => Ok(FileDisk::new(file)),
        Err(_) => Err(Fault::Device),
    }
}

// Reads from an offset on, and past the end of the file zeros.
fn read_from<F: Read + Seek>(file: &mut F, at: u64, into: &mut [u8]) -> io::Result<()> {
    file.seek(SeekFrom::Start(at))?;
    let mut done = 0;
    for _ in 0..u64::MAX {
        if done >= into.len() {
            return Ok(());
        }
        match file.read(&mut into[done..]) {
            Ok(0) => {
                into[done..].fill(0);
                return Ok(());
            }
            Ok(n) => done += n,
            Err(error) if error.kind() == ErrorKind::Interrupted => {}
            Err(error) => return Err(error),
        }
    }
    Err(ErrorKind::Other.into())
}

fn write_to<F: Write + Seek>(file: &mut F, at: u64, bytes: &[u8]) -> io::Result<()> {
    file.seek(SeekFrom::Start(at))?;
    file.write_all(bytes)?;
    file.flush()
}

impl<F: Read + Write + Seek + OpenFile> Device for FileDisk<F> {
    ghost honest = { λ _. ⊥ };

    ghost seen = { λ _. [] };

    ghost may_leave = { λ _ _. ⊥ };

    ghost moment = { λ _. 0 };

    ghost left_since = { λ _ _ _. ⊥ };

    ghost failed = { λ disk. disk.failures };

    ghost refuses = { λ _ _. false };

    ghost expects = { λ _ _. nothing };

    ghost counts_now = { λ disk t image claim le left. absurd claim };

    ghost only_now = { λ disk image claim left. absurd claim };

    ghost leaves_seen = { λ disk claim. absurd claim };

    ghost leaves_bytes = { λ disk image claim left. absurd claim };

    fn read(&mut self, at: u64, into: &mut [u8]) -> Result<(), Fault> {
        match read_from(&mut self.file, at, into) {
            Ok(()) => Ok(()),
            Err(_) => Err(refuse(&mut self.failures)),
        }
    }

    fn write(&mut self, at: u64, bytes: &[u8]) -> Result<(), Fault> {
        match write_to(&mut self.file, at, bytes) {
            Ok(()) => Ok(()),
            Err(_) => Err(refuse(&mut self.failures)),
        }
    }

    fn sync(&mut self) -> Result<(), Fault> {
        match self.file.sync_all() {
            Ok(()) => Ok(()),
            Err(_) => Err(refuse(&mut self.failures)),
        }
    }

    fn failures(&self) -> u64 {
        self.failures
    }
}
