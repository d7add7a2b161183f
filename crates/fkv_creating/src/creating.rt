//! Creating a store.
ghost use Rattle.std.specs.Prelude.{◌≡◌, ◌+◌, ◌≤◌, ◌^◌, ◌<◌, ◌↔◌, ◌∷◌, ◌++◌, List, length, drop, replicate, true, IfOk, OnOk, OnErr};
ghost use Rattle.fkv_disk.specs.Bytes.{written};
ghost use Rattle.fkv_disk.specs.Device.{LeavesOnly, AtEachMoment, HasCause, MakesCalls};
ghost use Rattle.fkv_disk.specs.Kinds.{Kind, Writing, Syncing};
ghost use Rattle.fkv_newest.specs.Newest.{IsNewestOf};
ghost use Rattle.fkv_creating.specs.Created.{IsNew, SparesRest, created_bytes, created_kinds};
ghost use Rattle.fkv_creating.specs.Filled.{cleared, IsCleared, IsShutOrFilled, filled, filled_kinds};
ghost use Rattle.fkv_creating.specs.Long.{IsLong};
ghost use Rattle.fkv_creating.specs.Moments.{IsTornOver, IsTornInFront, IsStoppedAt, IsLaidInOrder};

use crate::new_slots::new_store;
use fkv_base::{Fault, Shape};
use fkv_disk::Device;
use fkv_manifest::put_slot;
use fkv_newest::Newest;
use fkv_record::{SHAPE_PLACE, SLOT_PLACES, write_newest_slot, write_shape};

/// One write, and a sync.
fn write_synced<D: Device>(d: &mut D, at: u64, bytes: &[u8]) -> Result<(), Fault>
    ensures seen { D.honest d.old → OnOk result (D.seen d.new ≡ written (D.seen d.old) at bytes.now) }
    ensures synced { D.honest d.old → OnOk result (LeavesOnly (D.seen d.new) (D.may_leave d.new)) }
    ensures moments { D.honest d.old → AtEachMoment D.moment D.left_since d.old d.new (IsTornOver (D.may_leave d.old) at (length bytes.now)) }
    ensures honest { D.honest d.old ↔ D.honest d.new }
    ensures cause { HasCause (D.failed d.old) (D.failed d.new) result }
    ensures counted { OnOk result (MakesCalls 2 (D.refuses d.old) (D.refuses d.new) result) }
    ensures kinds { OnOk result ((later : List Kind) → D.expects d.new later ≡ D.expects d.old (Writing at bytes.now true ∷ Syncing true ∷ later)) }
    ensures stopped { D.honest d.old → OnErr result (IsStoppedAt D.seen D.refuses at bytes.now d.old d.new) }
{
    d.write(at, bytes)?;
    d.sync()?;
    Ok(())
}

/// Zeros over the front.
#[tactic(auto, unfolding(crate::specs::Filled::cleared))]
fn clear<D: Device>(d: &mut D) -> Result<(), Fault>
    ensures seen { D.honest d.old → OnOk result (D.seen d.new ≡ cleared (D.seen d.old)) }
    ensures synced { D.honest d.old → OnOk result (LeavesOnly (D.seen d.new) (D.may_leave d.new)) }
    ensures moments { D.honest d.old → AtEachMoment D.moment D.left_since d.old d.new (IsTornInFront (D.may_leave d.old)) }
    ensures honest { D.honest d.old ↔ D.honest d.new }
    ensures cause { HasCause (D.failed d.old) (D.failed d.new) result }
    ensures counted { OnOk result (MakesCalls 2 (D.refuses d.old) (D.refuses d.new) result) }
    ensures kinds { OnOk result ((later : List Kind) → D.expects d.new later ≡ D.expects d.old (Writing 0 (replicate 1536 0) true ∷ Syncing true ∷ later)) }
    ensures stopped { D.honest d.old → OnErr result (IsStoppedAt D.seen D.refuses 0 (replicate 1536 0) d.old d.new) }
{
    write_synced(d, SHAPE_PLACE, &[0; 1536])
}

/// The block, and the slot, which is put in force behind its gate, over a front that is cleared.
fn fill<D: Device>(d: &mut D, block: &[u8; 64], slot: &[u8; 512]) -> Result<(), Fault>
    ensures seen { D.honest d.old → OnOk result (D.seen d.new ≡ filled (D.seen d.old) block.now slot.now) }
    ensures synced { D.honest d.old → OnOk result (LeavesOnly (D.seen d.new) (D.may_leave d.new)) }
    ensures moments { D.honest d.old → LeavesOnly (D.seen d.old) (D.may_leave d.old) → IsCleared (D.seen d.old) → AtEachMoment D.moment D.left_since d.old d.new (IsShutOrFilled (D.seen d.old) block.now slot.now) }
    ensures honest { D.honest d.old ↔ D.honest d.new }
    ensures cause { HasCause (D.failed d.old) (D.failed d.new) result }
    ensures counted { OnOk result (MakesCalls 6 (D.refuses d.old) (D.refuses d.new) result) }
    ensures kinds { OnOk result ((later : List Kind) → D.expects d.new later ≡ D.expects d.old (filled_kinds block.now slot.now ++ later)) }
{
    write_synced(d, SHAPE_PLACE, block)?;
    put_slot(d, SLOT_PLACES[0], 8, *slot, false)
}

/// Makes an empty store of this shape over whatever the device holds, and tells what `read_newest` will tell of it. It
/// makes eight calls: zeros over the first 1,536 bytes, the block, the slot behind its gate, and the gate, with a sync after
/// each; the slot's are those of `put_slot`, by which a commit's slot comes into force too. It takes no memory.
///
/// After `Ok` the device reads as the image of commit 0 of a store with an empty log, and a crash leaves just that. What
/// lies behind the first 1,536 bytes stays, and means nothing. Once the zeros are synced a crash, or a refusal, leaves an image that
/// is no store's, or the new one, which is long; where they are not, one of the first two calls was refused, and was the last. It
/// is refused with `Device` alone, and only where the device failed in this call. After `Ok` any device has met just these eight calls, and each came through.
pub fn create<D: Device>(d: &mut D, shape: Shape) -> Result<Newest, Fault>
    ensures ok { D.honest d.old → IfOk result (IsNewestOf (D.seen d.new)) }
    ensures new { IfOk result (IsNew shape) }
    ensures long { D.honest d.old → IfOk result (λ n. IsLong (D.seen d.new) n.shape n.slot) }
    ensures bytes { D.honest d.old → OnOk result (D.seen d.new ≡ created_bytes (D.seen d.old) shape) }
    ensures spared { D.honest d.old → OnOk result (SparesRest (D.seen d.old) (D.seen d.new)) }
    ensures synced { D.honest d.old → OnOk result (LeavesOnly (D.seen d.new) (D.may_leave d.new)) }
    ensures honest { D.honest d.old ↔ D.honest d.new }
    ensures cause { HasCause (D.failed d.old) (D.failed d.new) result }
    ensures counted { OnOk result (MakesCalls 8 (D.refuses d.old) (D.refuses d.new) result) }
    ensures kinds { OnOk result ((later : List Kind) → D.expects d.new later ≡ D.expects d.old (created_kinds shape ++ later)) }
    ensures moments { D.honest d.old → IsLaidInOrder D.seen D.may_leave D.moment D.left_since D.refuses shape d.old d.new result }
{
    let newest = new_store(shape);
    clear(d)?;
    fill(d, &write_shape(shape), &write_newest_slot(&newest.slot))?;
    Ok(newest)
}
