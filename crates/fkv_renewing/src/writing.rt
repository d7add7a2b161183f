//! Writing a renewed store.
ghost use Rattle.std.specs.Prelude.{◌≡◌, ◌≤◌, ◌↔◌, length, replicate, OnErr, OnOk};
ghost use Rattle.fkv_creating.specs.Moments.{IsStoppedAt, IsTornInFront, IsTornOver};
ghost use Rattle.fkv_disk.specs.Bytes.{written};
ghost use Rattle.fkv_disk.specs.Device.{LeavesOnly, AtEachMoment, HasCause, MakesCalls};
ghost use Rattle.fkv_renewing.specs.Images.{filled, IsCleared, IsShutOrFilled};

use fkv_base::Fault;
use fkv_disk::Device;
use fkv_manifest::put_slot;
use fkv_record::{SHAPE_PLACE, SLOT_PLACES};

/// One write, and a sync.
fn write_synced<D: Device>(d: &mut D, at: u64, bytes: &[u8]) -> Result<(), Fault>
    ensures seen { D.honest d.old → OnOk result (D.seen d.new ≡ written (D.seen d.old) at bytes.now) }
    ensures synced { D.honest d.old → OnOk result (LeavesOnly (D.seen d.new) (D.may_leave d.new)) }
    ensures moments { D.honest d.old → AtEachMoment D.moment D.left_since d.old d.new (IsTornOver (D.may_leave d.old) at (length bytes.now)) }
    ensures honest { D.honest d.old ↔ D.honest d.new }
    ensures cause { HasCause (D.failed d.old) (D.failed d.new) result }
    ensures counted { OnOk result (MakesCalls 2 (D.refuses d.old) (D.refuses d.new) result) }
    ensures stopped { D.honest d.old → OnErr result (IsStoppedAt D.seen D.refuses at bytes.now d.old d.new) }
{
    d.write(at, bytes)?;
    d.sync()?;
    Ok(())
}

/// Zeros over the front.
pub(crate) fn clear<D: Device>(d: &mut D) -> Result<(), Fault>
    ensures seen { D.honest d.old → OnOk result (D.seen d.new ≡ written (D.seen d.old) 0 (replicate 1536 0)) }
    ensures synced { D.honest d.old → OnOk result (LeavesOnly (D.seen d.new) (D.may_leave d.new)) }
    ensures moments { D.honest d.old → AtEachMoment D.moment D.left_since d.old d.new (IsTornInFront (D.may_leave d.old)) }
    ensures honest { D.honest d.old ↔ D.honest d.new }
    ensures cause { HasCause (D.failed d.old) (D.failed d.new) result }
    ensures counted { OnOk result (MakesCalls 2 (D.refuses d.old) (D.refuses d.new) result) }
    ensures stopped { D.honest d.old → OnErr result (IsStoppedAt D.seen D.refuses 0 (replicate 1536 0) d.old d.new) }
{
    write_synced(d, SHAPE_PLACE, &[0; 1536])
}

/// The block, the log at its place, and slot 1, which is put in force behind its gate, over a front that is cleared.
pub(crate) fn fill<D: Device>(
    d: &mut D,
    block: &[u8; 64],
    place: u64,
    log: &[u8],
    slot: &[u8; 512],
) -> Result<(), Fault>
    ensures seen { D.honest d.old → OnOk result (D.seen d.new ≡ filled (D.seen d.old) block.now place log.now slot.now) }
    ensures synced { D.honest d.old → OnOk result (LeavesOnly (D.seen d.new) (D.may_leave d.new)) }
    ensures moments { D.honest d.old → 1536 ≤ place → LeavesOnly (D.seen d.old) (D.may_leave d.old) → IsCleared (D.seen d.old) → AtEachMoment D.moment D.left_since d.old d.new (IsShutOrFilled (D.seen d.old) block.now place log.now slot.now) }
    ensures honest { D.honest d.old ↔ D.honest d.new }
    ensures cause { HasCause (D.failed d.old) (D.failed d.new) result }
    ensures counted { OnOk result (MakesCalls 8 (D.refuses d.old) (D.refuses d.new) result) }
{
    write_synced(d, SHAPE_PLACE, block)?;
    write_synced(d, place, log)?;
    put_slot(d, SLOT_PLACES[1], 8, *slot, false)
}
