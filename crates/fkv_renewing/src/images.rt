//! A store renewed from bytes to bytes.
ghost use Rattle.std.specs.Prelude.{◌≡◌, IfErr, IfOk};
ghost use Rattle.fkv_renewing.specs.Bytes.{IsHeldIn, IsRefusedFrom, IsRenewedFrom, IsUnopened, in_memory};

use crate::laid::lay;
use crate::renewing::renew;
use fkv_base::{Fault, Key, Shape, Value};
use fkv_disk::MemDisk;
use fkv_opening::{Opened, recover};
use fkv_pairs::content;
use fkv_posted::Posted;
use fkv_spread::Keys;
use std::alloc::Global;

/// The fault that is told of bytes in memory. A device that they are fails for want of memory, if at all.
fn fault_in_memory(fault: Fault) -> Fault
    ensures { result ≡ in_memory fault }
{
    match fault {
        Fault::Device => Fault::Memory,
        _ => fault,
    }
}

/// The store that these bytes hold, with its pairs.
fn held_in(alloc: Global, bytes: &[u8]) -> Result<(Opened, Vec<(Key, Value)>), Fault>
    ensures held { IfOk result (λ found. IsHeldIn bytes.now found.0 found.1.items) }
    ensures refused { IfErr result (IsUnopened bytes.now) }
{
    let mut shown = Posted::new(bytes);
    let opened = match recover(alloc, &mut shown) {
        Ok(opened) => opened,
        Err(fault) => return Err(fault_in_memory(fault)),
    };
    match content(alloc, &opened, &mut shown) {
        Ok(pairs) => Ok((opened, pairs)),
        Err(fault) => Err(fault_in_memory(fault)),
    }
}

/// The bytes of a new store, renewed from the store that these bytes hold: all bytes of its file, which were synced. It has the shape that
/// is wanted, or else the old one's; the old one's points, and just its pairs, their keys laid so.
///
/// It is refused as `recover` refuses the bytes, and as `renew` refuses the shape. `Memory` where memory is refused; `Device` never.
pub fn renewed_image(
    alloc: Global,
    bytes: &[u8],
    wanted: Option<Shape>,
    keys: Keys,
) -> Result<Vec<u8>, Fault>
    ensures renewed { IfOk result (λ image. IsRenewedFrom bytes.now wanted keys image.items) }
    ensures refused { IfErr result (IsRefusedFrom bytes.now wanted keys) }
{
    let (opened, mut pairs) = match held_in(alloc, bytes) {
        Ok(found) => found,
        Err(fault) => return Err(fault),
    };
    lay(keys, &mut pairs);
    let shape = wanted.unwrap_or(opened.shape);
    let mut disk = MemDisk::new(alloc);
    match renew(alloc, &opened, &pairs, shape, &mut disk) {
        Ok(()) => Ok(disk.into_bytes()),
        Err(fault) => Err(fault_in_memory(fault)),
    }
}
