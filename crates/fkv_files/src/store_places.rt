//! Where stores lie, as a program sees it: what opens their files, and gives them names.
ghost use Rattle.std.specs.Prelude.{◌≡◌, ℕ, List, length, ⊤, IfOk, IfSome, OnOk};

use crate::new_files::{discard, expect_none, give_name, make_new};
use crate::store_files::{Lockable, make_alone, open_alone};
use crate::troubles::Trouble;
use fkv_disk::{Device, FileDisk};
use std::rt::Files;

/// Where stores lie. What opens the file of a store gives a device, which has the file alone.
///
/// A program takes any such place, so what it ensures of its files it ensures of all whose devices keep what `Device` says. A run over a file is
/// the run over a device that gives the same answers: if these are an honest device's, all that is ensured of an honest device holds of that run.
/// Of the system's own files nothing is claimed.
pub trait StorePlaces {
    /// What reads and writes a file.
    type Disk: Device + Drop;

    /// This device is the file of this path, as it was opened.
    ghost is_opened: { Self → List ℕ → Self.Disk → Type 0 };

    /// This device is the file that a new store may lie in, as it was opened.
    ghost is_made: { Self → List ℕ → Self.Disk → Type 0 };

    /// This device, as it now is, has got this name.
    ghost is_named: { Self → List ℕ → Self.Disk → Type 0 };

    /// Opens the file of a store that is there, for this process alone, and tells how many bytes it has, where that is known.
    fn open_alone(&self, path: &str) -> Result<(Self::Disk, Option<u64>), Trouble>
        ensures opened { IfOk result (λ found. is_opened self.now path.now found.0) }
        ensures long { IfOk result (λ found. Self.Disk.honest found.0 → IfSome found.1 (λ count. length (Self.Disk.seen found.0) ≡ count)) };

    /// Opens a file that a new store is to lie in, for this process alone, and makes it where there is none.
    fn make_alone(&self, path: &str) -> Result<(Self::Disk, Option<u64>), Trouble>
        ensures made { IfOk result (λ found. is_made self.now path.now found.0) }
        ensures long { IfOk result (λ found. Self.Disk.honest found.0 → IfSome found.1 (λ count. length (Self.Disk.seen found.0) ≡ count)) };

    /// Refuses a path that names something.
    fn expect_none(&self, path: &str) -> Result<(), Trouble>;

    /// Makes a file where nothing has its name, with the permissions of the file `like`.
    fn make_new(&self, path: &str, like: &str) -> Result<Self::Disk, Trouble>;

    /// Gives a whole file its name in place of its first one, and replaces no file. Where it is refused the file has neither name.
    fn give_name(&self, disk: &Self::Disk, first: &str, name: &str) -> Result<(), Trouble>
        ensures { OnOk result (is_named self.now name.now disk.now) };

    /// Removes a file that this process has made.
    fn discard(&self, path: &str);
}

impl<H: Files> StorePlaces for H
where
    H::File: Lockable,
{
    type Disk = FileDisk<H::File>;

    ghost is_opened = { λ _ _ _. ⊤ };

    ghost is_made = { λ _ _ _. ⊤ };

    ghost is_named = { λ _ _ _. ⊤ };

    fn open_alone(&self, path: &str) -> Result<(FileDisk<H::File>, Option<u64>), Trouble> {
        open_alone(self, path)
    }

    fn make_alone(&self, path: &str) -> Result<(FileDisk<H::File>, Option<u64>), Trouble> {
        make_alone(self, path)
    }

    fn expect_none(&self, path: &str) -> Result<(), Trouble> {
        expect_none(self, path)
    }

    fn make_new(&self, path: &str, like: &str) -> Result<FileDisk<H::File>, Trouble> {
        make_new(self, path, like)
    }

    fn give_name(&self, _disk: &FileDisk<H::File>, first: &str, name: &str) -> Result<(), Trouble> {
        give_name(self, first, name)
    }

    fn discard(&self, path: &str) {
        discard(self, path);
    }
}
