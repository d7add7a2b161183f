//! The stages behind the checkpoint, one after another.
ghost use Rattle.std.specs.Prelude.{◌≡◌, ◌<◌, ◌≤◌, ◌^◌, ◌↔◌, IfOk, IfErr};
ghost use Rattle.fkv_base.specs.Limits.{last_version};
ghost use Rattle.fkv_scan.specs.Log.{log_in, AreApart, AreBelow};
ghost use Rattle.fkv_disk.specs.Kinds.{OnlyReads};
ghost use Rattle.fkv_disk.specs.Quiet.{IsQuiet};
ghost use Rattle.fkv_scan.specs.Scanned.{AreScanned};
ghost use Rattle.fkv_room.specs.Counted.{homes_of};
ghost use Rattle.fkv_room.specs.Room.{taken};
ghost use Rattle.fkv_opening.specs.Faults.{IsSound, IsLogFault, IsRefused};

use fkv_base::{Fault, Shape};
use fkv_chains::check_chains;
use fkv_disk::Device;
use fkv_record::{ManifestSlot, Triple};
use fkv_room::check_room;
use fkv_scan::{Scanned, scan};
use std::alloc::Global;

/// Scans the log behind a checkpoint of these triples, follows the chains below, and sees that the index has room.
pub(crate) fn check<D: Device>(
    alloc: Global,
    d: &mut D,
    shape: Shape,
    slot: &ManifestSlot,
    triples: &[Triple],
) -> Result<Scanned, Fault>
    requires apart { AreApart triples.now }
    requires in_log { AreBelow slot.now.end.0 triples.now }
    requires upwards { slot.now.first.0 ≤ slot.now.end.0 }
    requires short { slot.now.end.0 < 2 ^ 48 }
    requires few { slot.now.number < last_version }
    ensures ok { D.honest d.old → IfOk result (λ scanned. AreScanned (log_in (D.seen d.old) shape slot.now triples.now) scanned × IsSound (log_in (D.seen d.old) shape slot.now triples.now)) }
    ensures fits { IfOk result (λ scanned. taken (homes_of scanned.homes.entries) (2 ^ shape.bucket_bits) ≤ shape.overflow) }
    ensures err { IfErr result (IsRefused (D.failed d.old) (D.failed d.new) (D.honest d.old) (IsLogFault (log_in (D.seen d.old) shape slot.now triples.now))) }
    ensures quiet { IsQuiet D.honest D.seen D.may_leave D.moment D.left_since D.failed d.old d.new }
    ensures reads { OnlyReads D.refuses D.expects d.old d.new }
{
    let scanned = match scan(alloc, d, shape, slot, triples) {
        Ok(scanned) => scanned,
        Err(fault) => return Err(fault),
    };
    if let Err(fault) = check_chains(d, shape, slot, triples, &scanned) {
        return Err(fault);
    }
    if let Err(fault) = check_room(alloc, shape, &scanned) {
        return Err(fault);
    }
    Ok(scanned)
}
