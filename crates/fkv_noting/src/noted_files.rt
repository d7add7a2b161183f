//! A file whose refused calls are noted, and a store in it that is written over.
ghost use Rattle.std.specs.Prelude.{◌≡◌};

use crate::notes::Notes;
use fkv_files::Lockable;
use fkv_record::{SHAPE_PLACE, SLOT_PLACES, read_manifest_slot};
use std::fs::{Metadata, OpenFile, Permissions, TryLockError};
use std::io::{self, ErrorKind, Read, Seek, SeekFrom, Write};

/// A file whose refused calls are noted. Where the block of a store's shape is written, so is the store that the file held before.
#[derive(Drop)]
pub struct NotedFile<'a, F> {
    file: F,
    notes: &'a Notes,
    /// Where the next bytes come to lie.
    place: u64,
    /// The number of the last commit of the store that it held before its first seek, or 0. Not before that: nobody else has it locked then.
    commits: Option<u64>,
}

impl<'a, F: Read + Write + Seek + OpenFile> NotedFile<'a, F> {
    /// A file that was just opened.
    pub(crate) fn new(file: F, notes: &'a Notes) -> NotedFile<'a, F> {
        NotedFile {
            file,
            notes,
            place: 0,
            commits: None,
        }
    }

    /// Looks once which store it holds.
    fn look(&mut self) {
        if self.commits.is_none() {
            let commits = commits_in(&mut self.file).unwrap_or(0);
            self.commits = Some(commits);
        }
    }

    /// Passes an answer on, and notes a refusal. Those of a folder are told otherwise.
    fn noted<T>(&self, answer: io::Result<T>) -> io::Result<T>
        ensures { result ≡ answer }
    {
        if let Err(error) = &answer {
            if error.kind() != ErrorKind::Interrupted && !is_folder(&self.file) {
                self.notes.note_refusal(error);
            }
        }
        answer
    }
}

fn is_folder<F: OpenFile>(file: &F) -> bool {
    match file.metadata() {
        Ok(known) => known.is_dir(),
        Err(_) => false,
    }
}

/// The number of the last commit of the store in a file, or 0.
fn commits_in<F: Read + Seek>(file: &mut F) -> io::Result<u64> {
    let mut last = 0;
    for place in SLOT_PLACES {
        let mut slot = [0; 512];
        file.seek(SeekFrom::Start(place))?;
        fill(file, &mut slot)?;
        if let Some((_, slot)) = read_manifest_slot(&slot) {
            last = slot.number.max(last);
        }
    }
    Ok(last)
}

/// Reads as many bytes as there are.
fn fill<F: Read>(file: &mut F, into: &mut [u8]) -> io::Result<()> {
    let mut done = 0;
    for _ in 0..into.len() {
        if done >= into.len() {
            return Ok(());
        }
        match file.read(&mut into[done..]) {
            Ok(0) => return Ok(()),
            Ok(count) => done += count,
            Err(error) if error.kind() == ErrorKind::Interrupted => {}
            Err(error) => return Err(error),
        }
    }
    Ok(())
}

impl<F: Read + Write + Seek + OpenFile> Read for NotedFile<'_, F> {
    fn read(&mut self, buf: &mut [u8]) -> io::Result<usize> {
        let answer = self.file.read(buf);
        self.noted(answer)
    }
}

impl<F: Read + Write + Seek + OpenFile> Write for NotedFile<'_, F> {
    fn write(&mut self, buf: &[u8]) -> io::Result<usize> {
        if self.place == SHAPE_PLACE {
            self.notes.note_wiped(self.commits.unwrap_or(0));
        }
        let answer = self.file.write(buf);
        if let Ok(count) = &answer {
            self.place = self.place.saturating_add(*count as u64);
        }
        self.noted(answer)
    }

    fn flush(&mut self) -> io::Result<()> {
        let answer = self.file.flush();
        self.noted(answer)
    }
}

impl<F: Read + Write + Seek + OpenFile> Seek for NotedFile<'_, F> {
    fn seek(&mut self, to: SeekFrom) -> io::Result<u64> {
        self.look();
        let answer = self.file.seek(to);
        if let Ok(place) = &answer {
            self.place = *place;
        }
        self.noted(answer)
    }
}

impl<F: Read + Write + Seek + OpenFile> OpenFile for NotedFile<'_, F> {
    fn metadata(&self) -> io::Result<Metadata> {
        self.file.metadata()
    }

    fn set_len(&self, size: u64) -> io::Result<()> {
        self.noted(self.file.set_len(size))
    }

    fn sync_all(&self) -> io::Result<()> {
        self.noted(self.file.sync_all())
    }

    fn sync_data(&self) -> io::Result<()> {
        self.noted(self.file.sync_data())
    }

    fn set_permissions(&self, perm: Permissions) -> io::Result<()> {
        self.file.set_permissions(perm)
    }

    fn try_clone(&self) -> io::Result<Self> {
        Ok(NotedFile {
            file: self.file.try_clone()?,
            notes: self.notes,
            place: self.place,
            commits: self.commits,
        })
    }
}

impl<F: Lockable> Lockable for NotedFile<'_, F> {
    fn lock_alone(&self) -> Result<(), TryLockError> {
        self.file.lock_alone()
    }
}
