//! A look at what a device holds.
ghost use Rattle.std.specs.Prelude.{◌≡◌, ◌↔◌, IfOk, IfErr};
ghost use Rattle.fkv_disk.specs.Kinds.{OnlyReads, OneSyncThenReads};
ghost use Rattle.fkv_disk.specs.Quiet.{IsQuiet, IsHindrance};
ghost use Rattle.fkv_opening.specs.Opened.{IsStoreOf};
ghost use Rattle.fkv_looking.specs.Damages.{area_in_force};
ghost use Rattle.fkv_looking.specs.Looks.{HasPartBytes, IsFound, IsLookOf, IsStoreLook};
ghost use Rattle.fkv_looking.specs.Recovered.{IsRecovered};

use crate::damages::damage_look;
use crate::fronts::{Front, read_front};
use crate::index_looks::index_look;
use crate::looks::{Found, Look, StoreLook};
use crate::page_looks::page_looks;
use crate::recovered::{Recovered, find_store};
use crate::uses::uses_of;
use fkv_base::Fault;
use fkv_disk::Device;
use fkv_opening::Opened;
use std::alloc::Global;

/// A look at an opened store.
fn store_look<D: Device>(alloc: Global, d: &mut D, opened: Opened) -> Result<StoreLook, Fault>
    ensures ok { D.honest d.old → IsStoreOf (D.seen d.old) opened → IfOk result (IsStoreLook (D.seen d.old)) }
    ensures err { IfErr result (IsHindrance (D.failed d.old) (D.failed d.new)) }
    ensures quiet { IsQuiet D.honest D.seen D.may_leave D.moment D.left_since D.failed d.old d.new }
    ensures reads { OnlyReads D.refuses D.expects d.old d.new }
{
    let pages = page_looks(alloc, d, &opened)?;
    let index = index_look(alloc, &opened)?;
    let uses = uses_of(&opened);
    Ok(StoreLook {
        opened,
        pages,
        index,
        uses,
    })
}

/// What recovery found, with what else there is to show of it.
fn found_look<D: Device>(
    alloc: Global,
    d: &mut D,
    front: &Front,
    recovered: Recovered,
) -> Result<Found, Fault>
    ensures ok { D.honest d.old → IsRecovered (D.seen d.old) recovered → IfOk result (λ found. IsFound (D.seen d.old) found × HasPartBytes (D.seen d.old) front.now.shape (area_in_force front.now.in_force front.now.slots.0 front.now.slots.1) found) }
    ensures err { IfErr result (IsHindrance (D.failed d.old) (D.failed d.new)) }
    ensures quiet { IsQuiet D.honest D.seen D.may_leave D.moment D.left_since D.failed d.old d.new }
    ensures reads { OnlyReads D.refuses D.expects d.old d.new }
{
    match recovered {
        Recovered::NoStore => Ok(Found::NoStore),
        Recovered::Damaged(part, place) => {
            let damage = damage_look(alloc, d, front, part, place)?;
            Ok(Found::Damaged(damage))
        }
        Recovered::Store(opened) => {
            let store = store_look(alloc, d, opened)?;
            Ok(Found::Store(store))
        }
    }
}

/// What a device holds: a store, a damaged one, or none. Each field is what its bytes say; those past the device's end count as 0.
///
/// It makes one sync first, as `recover` does, then reads alone. `Device` comes only where the device failed in this call, `Memory`
/// where memory was refused. The log is read once more than by `recover`, each record by a read of its own.
pub fn look<D: Device>(alloc: Global, d: &mut D) -> Result<Look, Fault>
    ensures ok { D.honest d.old → IfOk result (IsLookOf (D.seen d.old)) }
    ensures err { IfErr result (IsHindrance (D.failed d.old) (D.failed d.new)) }
    ensures quiet { IsQuiet D.honest D.seen D.may_leave D.moment D.left_since D.failed d.old d.new }
    ensures asked { OneSyncThenReads D.refuses D.expects d.old d.new }
{
    let recovered = find_store(alloc, d)?;
    let front = read_front(d)?;
    let found = found_look(alloc, d, &front, recovered)?;
    Ok(Look {
        shape: front.shape,
        slots: front.slots,
        in_force: front.in_force,
        found,
    })
}
