//! Recovery over a device that is read ahead: the contract of `recover` says of that device, seen through the pages, what it says of
//! one alone.
ghost use Rattle.std.specs.Prelude.{◌≡◌, IfOk, OnOk, IfErr};
ghost use Rattle.fkv_base.specs.declared.faults.Fault.{Fault};
ghost use Rattle.fkv_disk.specs.Device.{LeavesOnly};
ghost use Rattle.fkv_disk.specs.Quiet.{IsQuiet};
ghost use Rattle.fkv_opening.specs.Faults.{IsFaultOf, IsRefused};
ghost use Rattle.fkv_opening.specs.Opened.{IsStoreOf};

use fkv_base::Fault;
use fkv_disk::{Device, Pages, ReadAhead};
use fkv_opening::{Opened, recover};
use std::alloc::Global;

/// Recovers the store of a device by these pages, and gives the device back.
pub fn recover_by_pages<D: Device>(
    alloc: Global,
    device: D,
    pages: Pages,
) -> (D, Result<Opened, Fault>)
    ensures ok { D.honest device → IfOk result.1 (IsStoreOf (D.seen device)) }
    ensures exact { D.honest device → OnOk result.1 ((fault : Fault) → IsFaultOf (D.seen device) fault → ⊥) }
    ensures err { IfErr result.1 (IsRefused (D.failed device) (D.failed result.0) (D.honest device) (IsFaultOf (D.seen device))) }
    ensures synced { D.honest device → OnOk result.1 (LeavesOnly (D.seen device) (D.may_leave result.0)) }
    ensures quiet { IsQuiet D.honest D.seen D.may_leave D.moment D.left_since D.failed device result.0 }
{
    let mut ahead = ReadAhead::new(device, pages);
    let opened = recover(alloc, &mut ahead);
    (ahead.into_device(), opened)
}
