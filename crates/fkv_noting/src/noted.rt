//! A file system whose files are noted.
use crate::noted_files::NotedFile;
use crate::notes::Notes;
use std::alloc::Allocator;
use std::fs::{Metadata, OpenOptions, Permissions};
use std::io;
use std::path::PathBuf;
use std::rt::Files;

/// A file system whose files note what comes of their calls. All else it passes on.
#[derive(Drop)]
pub struct Noted<'a, H> {
    files: &'a H,
    notes: &'a Notes,
}

impl<'a, H: Files> Noted<'a, H> {
    /// These files, with these notes.
    pub fn new(files: &'a H, notes: &'a Notes) -> Noted<'a, H> {
        Noted { files, notes }
    }
}

impl<'a, H: Files> Files for Noted<'a, H> {
    type File = NotedFile<'a, H::File>;

    type Dir = H::Dir;

    fn open_file(&self, how: &OpenOptions, path: &str) -> io::Result<NotedFile<'a, H::File>> {
        let file = self.files.open_file(how, path)?;
        Ok(NotedFile::new(file, self.notes))
    }

    fn open_dir(&self, path: &str) -> io::Result<H::Dir> {
        self.files.open_dir(path)
    }

    fn metadata(&self, path: &str) -> io::Result<Metadata> {
        self.files.metadata(path)
    }

    fn symlink_metadata(&self, path: &str) -> io::Result<Metadata> {
        self.files.symlink_metadata(path)
    }

    fn copy(&self, from: &str, to: &str) -> io::Result<u64> {
        self.files.copy(from, to)
    }

    fn rename(&self, from: &str, to: &str) -> io::Result<()> {
        self.files.rename(from, to)
    }

    fn remove_file(&self, path: &str) -> io::Result<()> {
        self.files.remove_file(path)
    }

    fn create_dir(&self, path: &str) -> io::Result<()> {
        self.files.create_dir(path)
    }

    fn remove_dir(&self, path: &str) -> io::Result<()> {
        self.files.remove_dir(path)
    }

    fn remove_dir_all<B: Allocator>(&self, alloc: B, path: &str) -> io::Result<()> {
        self.files.remove_dir_all(alloc, path)
    }

    fn canonicalize<B: Allocator>(&self, alloc: B, path: &str) -> io::Result<PathBuf<B>> {
        self.files.canonicalize(alloc, path)
    }

    fn read_link<B: Allocator>(&self, alloc: B, path: &str) -> io::Result<PathBuf<B>> {
        self.files.read_link(alloc, path)
    }

    fn hard_link(&self, original: &str, link: &str) -> io::Result<()> {
        self.files.hard_link(original, link)
    }

    fn set_permissions(&self, path: &str, perm: Permissions) -> io::Result<()> {
        self.files.set_permissions(path, perm)
    }

    fn symlink(&self, original: &str, link: &str) -> io::Result<()> {
        self.files.symlink(original, link)
    }
}
