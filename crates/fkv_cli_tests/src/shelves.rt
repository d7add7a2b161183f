//! A place of stores in memory.
ghost use Rattle.std.specs.Prelude.{◌≡◌, ◌≢◌, [], OnOk};
ghost use Rattle.fkv_cli_tests.specs.Shelves.{shelf_image, shelf_name};
ghost use Rattle.fkv_disk.specs.Fuses.{fuse_device};
ghost use Rattle.fkv_disk.specs.Memory.{disk_bytes};

use fkv_disk::{Fuse, MemDisk};
use fkv_files::{StorePlaces, Trouble};
use std::alloc::Global;
use std::io::ErrorKind;

/// A place where one store lies in memory, under a name. Whoever opens it gets a device with a copy of its bytes, so it stays as it is.
#[derive(Drop)]
pub struct Shelf<'a> {
    alloc: Global,
    name: &'a str,
    image: &'a [u8],
}

impl<'a> Shelf<'a> {
    /// A place where a store of these bytes lies.
    pub fn new(alloc: Global, name: &'a str, image: &'a [u8]) -> Shelf<'a>
        ensures name { shelf_name result ≡ name.now }
        ensures image { shelf_image result ≡ image.now }
    {
        Shelf { alloc, name, image }
    }

    /// Refuses the store's name.
    fn expect_free(&self, path: &str) -> Result<(), Trouble>
        ensures { OnOk result (path.now ≢ shelf_name self.now) }
    {
        if path == self.name {
            return Err(Trouble::Taken);
        }
        Ok(())
    }
}

impl StorePlaces for Shelf<'_> {
    type Disk = Fuse<MemDisk>;

    ghost is_opened = { λ shelf path disk. (path ≡ shelf.name.now) × (disk_bytes (fuse_device disk) ≡ shelf.image.now) };

    ghost is_made = { λ shelf path disk. disk_bytes (fuse_device disk) ≡ [] };

    ghost is_named = { λ shelf path disk. path ≢ shelf.name.now };

    fn open_alone(&self, path: &str) -> Result<(Fuse<MemDisk>, Option<u64>), Trouble> {
        if path == self.name {
            let disk = MemDisk::from_bytes(self.alloc, self.image.to_vec(self.alloc)?)?;
            let length = disk.bytes().len() as u64;
            return Ok((Fuse::new(disk), Some(length)));
        }
        Err(Trouble::Refused(ErrorKind::NotFound.into()))
    }

    fn make_alone(&self, path: &str) -> Result<(Fuse<MemDisk>, Option<u64>), Trouble> {
        self.expect_free(path)?;
        Ok((Fuse::new(MemDisk::new(self.alloc)), Some(0)))
    }

    fn expect_none(&self, path: &str) -> Result<(), Trouble> {
        self.expect_free(path)
    }

    fn make_new(&self, path: &str, _like: &str) -> Result<Fuse<MemDisk>, Trouble> {
        self.expect_free(path)?;
        Ok(Fuse::new(MemDisk::new(self.alloc)))
    }

    fn give_name(&self, _disk: &Fuse<MemDisk>, _first: &str, name: &str) -> Result<(), Trouble> {
        self.expect_free(name)
    }

    fn discard(&self, _path: &str) {}
}
