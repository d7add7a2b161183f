//! The triples of a checkpoint, read one by one.
ghost use Rattle.std.specs.Prelude.{◌≡◌, ℕ, ◌<◌, ◌≤◌, ◌↔◌, Some, IfOk, IfErr};
ghost use Rattle.fkv_record.specs.Places.{most_triples};
ghost use Rattle.fkv_record.specs.declared.triples.Triple.{Triple};
ghost use Rattle.fkv_scan.specs.Checkpoint.{checkpoint_in, IsTripleAt, AreTriples, IsUnread};
ghost use Rattle.fkv_scan.specs.Log.{AreApart, AreBelow};
ghost use Rattle.fkv_disk.specs.Kinds.{OnlyReads};
ghost use Rattle.fkv_disk.specs.Quiet.{IsQuiet, IsHindrance};

use crate::homes::triple_home;
use fkv_base::{Damage, Fault, Shape};
use fkv_disk::Device;
use fkv_record::{ManifestSlot, Triple, area_place, read_triple};
use std::alloc::Global;
use std::collections::BTreeMap;

/// Triple i of the checkpoint, or none where its bytes spell none within the store's limits.
fn triple_at<D: Device>(
    d: &mut D,
    shape: Shape,
    slot: &ManifestSlot,
    i: u64,
) -> Result<Option<Triple>, Fault>
    requires area { slot.now.area < 2 }
    requires few { i < most_triples shape }
    ensures ok { D.honest d.old → IfOk result (λ read. (x : Triple) → (read ≡ Some x) ↔ IsTripleAt (checkpoint_in (D.seen d.old) shape slot.now) i x) }
    ensures in_log { IfOk result (λ read. (x : Triple) → read ≡ Some x → x.addr.0 < slot.now.end.0) }
    ensures err { IfErr result (IsHindrance (D.failed d.old) (D.failed d.new)) }
    ensures quiet { IsQuiet D.honest D.seen D.may_leave D.moment D.left_since D.failed d.old d.new }
    ensures reads { OnlyReads D.refuses D.expects d.old d.new }
{
    let mut bytes = [0; 16];
    d.read(area_place(shape, slot.area) + 16 * i, &mut bytes)?;
    match read_triple(&bytes) {
        Some(triple)
            if u64::from(triple.bucket) < 1 << shape.bucket_bits && triple.addr.0 < slot.end.0 => {
            Ok(Some(triple))
        }
        _ => Ok(None),
    }
}

/// The triples of the checkpoint that the slot names, in their order. No home has two, and all lead below the log's end.
pub fn read_triples<D: Device>(
    alloc: Global,
    d: &mut D,
    shape: Shape,
    slot: &ManifestSlot,
) -> Result<Vec<Triple>, Fault>
    requires area { slot.now.area < 2 }
    requires few { slot.now.triples ≤ most_triples shape }
    ensures ok { D.honest d.old → IfOk result (λ triples. AreTriples (checkpoint_in (D.seen d.old) shape slot.now) triples.items) }
    ensures apart { IfOk result (λ triples. AreApart triples.items) }
    ensures in_log { IfOk result (λ triples. AreBelow slot.now.end.0 triples.items) }
    ensures err { IfErr result (IsUnread (D.failed d.old) (D.failed d.new) (D.honest d.old) (checkpoint_in (D.seen d.old) shape slot.now)) }
    ensures quiet { IsQuiet D.honest D.seen D.may_leave D.moment D.left_since D.failed d.old d.new }
    ensures reads { OnlyReads D.refuses D.expects d.old d.new }
{
    let mut triples = Vec::new(alloc);
    let mut homes: BTreeMap<u64, u64> = BTreeMap::new(alloc);
    for i in 0..slot.triples {
        let Some(triple) = triple_at(d, shape, slot, i)? else {
            return Err(Fault::Damaged(Damage::Triple, i));
        };
        let home = triple_home(&triple);
        let before = homes.insert(home, i)?;
        if before.is_some() {
            return Err(Fault::Damaged(Damage::Triple, i));
        }
        triples.push(triple)?;
    }
    Ok(triples)
}
