//! Devices that tell whether they have failed for good.
ghost use Rattle.std.specs.Prelude.{◌≡◌, Bool, false};
ghost use Rattle.fkv_disk.specs.Fuse.{is_blown};
ghost use Rattle.fkv_disk.specs.Fuses.{fuse_state};

use fkv_core::World;
use fkv_disk::{Device, FileDisk, Fuse, FuseState};
use std::fs::OpenFile;
use std::io::{Read, Seek, Write};

/// A device of which can be told whether it has failed for good, so that each call of it fails.
pub trait Breaks: Device {
    ghost broken: { Self → Bool };

    /// Whether the device of this world has failed for good.
    fn is_broken(world: &World<Self>) -> bool
        ensures { result ≡ broken world.now.device };
}

impl<D: Device> Breaks for Fuse<D> {
    ghost broken = { λ fuse. is_blown (fuse_state fuse) };

    fn is_broken(world: &World<Fuse<D>>) -> bool {
        match world.fuse() {
            FuseState::Blown | FuseState::BlownAt(_, _) => true,
            FuseState::Sound | FuseState::Armed(_) => false,
        }
    }
}

/// A file never tells so.
impl<F: Read + Write + Seek + OpenFile> Breaks for FileDisk<F> {
    ghost broken = { λ _. false };

    fn is_broken(_world: &World<FileDisk<F>>) -> bool {
        false
    }
}
