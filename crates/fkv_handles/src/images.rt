//! The image of a new store.
ghost use Rattle.std.specs.Prelude.{◌≡◌, []};
ghost use Rattle.fkv_handles.specs.Said as said;

use fkv_base::{Fault, Shape};
use fkv_creating::create;
use fkv_disk::MemDisk;
use std::alloc::Global;

/// The bytes of a new store of this shape, 1,536 of them, for a file that the caller makes. `Memory` where memory was refused.
pub fn image_of(alloc: Global, shape: Shape) -> Result<Vec<u8>, Fault>
    ensures bytes { said.IfOk result (λ bytes. bytes.items ≡ said.created_bytes [] shape) }
    ensures memory { said.OnErr result (result ≡ said.Err said.Memory) }
{
    let mut disk = MemDisk::new(alloc);
    match create(&mut disk, shape) {
        Ok(_) => Ok(disk.into_bytes()),
        Err(_) => Err(Fault::Memory),
    }
}
