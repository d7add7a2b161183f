//! Recovery, with the newest records for memory.
ghost use Rattle.std.specs.Prelude.{◌≡◌, IfOk, OnOk, IfErr};
ghost use Rattle.fkv_disk.specs.Device.{LeavesOnly};
ghost use Rattle.fkv_disk.specs.Kinds.{OneSyncThenReads};
ghost use Rattle.fkv_disk.specs.Quiet.{IsQuiet};
ghost use Rattle.fkv_opening.specs.Faults.{IsFaultOf, IsRefused};
ghost use Rattle.fkv_opening.specs.Opened.{IsStoreOf};
ghost use Rattle.fkv_warming.specs.Warmed.{warm_from};

use crate::warming::warm;
use fkv_base::Fault;
use fkv_disk::Device;
use fkv_opening::{Opened, recover};
use std::alloc::Global;

/// Opens the store with this image as `recover` does, and gives memory its newest records as `warm` does, at most so many: 0 for none.
///
/// It is refused as `recover` is. `Device` comes only where the device failed in this call, `Memory` where memory was refused.
pub fn recover_warm<D: Device>(alloc: Global, most: u64, d: &mut D) -> Result<Opened, Fault>
    ensures ok { D.honest d.old → IfOk result (IsStoreOf (D.seen d.old)) }
    ensures warm { IfOk result (λ opened. opened.warm.0 ≡ warm_from opened most) }
    ensures err { IfErr result (IsRefused (D.failed d.old) (D.failed d.new) (D.honest d.old) (IsFaultOf (D.seen d.old))) }
    ensures synced { D.honest d.old → OnOk result (LeavesOnly (D.seen d.old) (D.may_leave d.new)) }
    ensures quiet { IsQuiet D.honest D.seen D.may_leave D.moment D.left_since D.failed d.old d.new }
    ensures asked { OneSyncThenReads D.refuses D.expects d.old d.new }
{
    let opened = match recover(alloc, d) {
        Ok(opened) => opened,
        Err(fault) => return Err(fault),
    };
    match warm(alloc, opened, most, d) {
        Ok(warmed) => Ok(warmed),
        Err(fault) => Err(fault),
    }
}
