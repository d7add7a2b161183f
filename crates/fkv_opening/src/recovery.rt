//! Recovery of a store from any bytes.
ghost use Rattle.std.specs.Prelude.{◌≡◌, ◌↔◌, IfOk, OnOk, IfErr};
ghost use Rattle.fkv_base.specs.declared.faults.Fault.{Fault};
ghost use Rattle.fkv_disk.specs.Device.{LeavesOnly};
ghost use Rattle.fkv_disk.specs.Kinds.{OnlyReads, OneSyncThenReads};
ghost use Rattle.fkv_newest.specs.Newest.{IsNewestOf};
ghost use Rattle.fkv_disk.specs.Quiet.{IsQuiet};
ghost use Rattle.fkv_opening.specs.Calls.{EndsAtFirst, EndsAtFront};
ghost use Rattle.fkv_opening.specs.Faults.{IsFaultOf, IsRefused};
ghost use Rattle.fkv_opening.specs.Opened.{IsStoreOf};

use crate::checking::check;
use crate::making::make;
use crate::opened_store::Opened;
use fkv_base::Fault;
use fkv_disk::Device;
use fkv_newest::{Newest, read_newest};
use fkv_record::{law_formats_apart, law_spellings_apart};
use fkv_scan::read_triples;
use std::alloc::Global;

/// Opens the store with this newest slot: the last four stages, one after another.
fn open<D: Device>(alloc: Global, d: &mut D, newest: Newest) -> Result<Opened, Fault>
    ensures ok { D.honest d.old → IsNewestOf (D.seen d.old) newest → IfOk result (IsStoreOf (D.seen d.old)) }
    ensures cold { IfOk result (λ opened. opened.warm ≡ opened.tail) }
    ensures err { IfErr result (IsRefused (D.failed d.old) (D.failed d.new) (D.honest d.old × IsNewestOf (D.seen d.old) newest) (IsFaultOf (D.seen d.old))) }
    ensures quiet { IsQuiet D.honest D.seen D.may_leave D.moment D.left_since D.failed d.old d.new }
    ensures reads { OnlyReads D.refuses D.expects d.old d.new }
{
    let triples = match read_triples(alloc, d, newest.shape, &newest.slot) {
        Ok(triples) => triples,
        Err(fault) => return Err(fault),
    };
    let scanned = match check(alloc, d, newest.shape, &newest.slot, &triples) {
        Ok(scanned) => scanned,
        Err(fault) => return Err(fault),
    };
    let opened = make(alloc, newest, &scanned)?;
    Ok(opened)
}

/// Opens the store whose image these bytes are, in whichever of the four formats, whatever bytes they are: those past the
/// device's end count as 0. It makes one sync first, and no write; where that sync is refused, it makes no other call, and
/// one read behind it tells whether the image is a store's and what its newest slot says.
///
/// The answer is what the image defines: `NotAStore`, the damage that the first of its six stages finds, or the store. Memory
/// has no record of it.
/// `Device` comes only where the device failed in this call, `Memory` where memory was refused. It may be stopped at any
/// moment: what a crash leaves then it may have left before.
pub fn recover<D: Device>(alloc: Global, d: &mut D) -> Result<Opened, Fault>
    ensures ok { D.honest d.old → IfOk result (IsStoreOf (D.seen d.old)) }
    ensures cold { IfOk result (λ opened. opened.warm ≡ opened.tail) }
    ensures exact { D.honest d.old → OnOk result ((fault : Fault) → IsFaultOf (D.seen d.old) fault → ⊥) }
    ensures err { IfErr result (IsRefused (D.failed d.old) (D.failed d.new) (D.honest d.old) (IsFaultOf (D.seen d.old))) }
    ensures synced { D.honest d.old → OnOk result (LeavesOnly (D.seen d.old) (D.may_leave d.new)) }
    ensures quiet { IsQuiet D.honest D.seen D.may_leave D.moment D.left_since D.failed d.old d.new }
    ensures asked { OneSyncThenReads D.refuses D.expects d.old d.new }
    ensures first { EndsAtFirst (D.refuses d.old) (D.refuses d.new) result }
    ensures front { D.honest d.old → EndsAtFront (D.refuses d.old) (D.refuses d.new) result }
{
    law_formats_apart();
    law_spellings_apart();
    let newest = match read_newest(d) {
        Ok(newest) => newest,
        Err(fault) => return Err(fault),
    };
    match open(alloc, d, newest) {
        Ok(opened) => Ok(opened),
        Err(fault) => Err(fault),
    }
}
