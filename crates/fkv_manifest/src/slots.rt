//! A slot that is put in force in one go.
ghost use Rattle.std.specs.Prelude.{◌≡◌, ◌≤◌, ◌↔◌, ◌++◌, List, OnOk, is_ok};
ghost use Rattle.fkv_disk.specs.Device.{AtEachMoment, HasCause, MakesCalls, LeavesOnly};
ghost use Rattle.fkv_disk.specs.Kinds.{Kind};
ghost use Rattle.fkv_manifest.specs.Gating.{gate_start, gate_kinds, gate_leads, gate_calls_left};
ghost use Rattle.fkv_manifest.specs.Tearing.{IsTornInOrder};

use crate::answers::WriteAnswer;
use crate::gates::GateWrites;
use fkv_base::Fault;
use fkv_disk::Device;

/// Puts a slot in force at its place, from `start` on behind its gate, which stands open or closed.
///
/// After `Ok` the device reads as it did with the slot over it, and a crash leaves just that. Where all was synced before, a
/// crash at any moment leaves what the writes before gave, with one of them torn; so does one behind a failure.
/// `Fault::Device` where a call failed: it was the last one. After `Ok` any device has met just these calls, and each came through.
pub fn put_slot<D: Device>(
    d: &mut D,
    place: u64,
    start: usize,
    slot: [u8; 512],
    is_open: bool,
) -> Result<(), Fault>
    requires place { place ≤ 1024 }
    requires start { start ≤ 512 }
    ensures seen { D.honest d.old → OnOk result (D.seen d.new ≡ gate_leads place start slot (gate_start is_open) (D.seen d.old)) }
    ensures synced { D.honest d.old → OnOk result (LeavesOnly (D.seen d.new) (D.may_leave d.new)) }
    ensures moments { D.honest d.old → LeavesOnly (D.seen d.old) (D.may_leave d.old) → AtEachMoment D.moment D.left_since d.old d.new (IsTornInOrder place start slot is_open (D.seen d.old)) }
    ensures honest { D.honest d.old ↔ D.honest d.new }
    ensures cause { HasCause (D.failed d.old) (D.failed d.new) result }
    ensures counted { OnOk result (MakesCalls (gate_calls_left (gate_start is_open)) (D.refuses d.old) (D.refuses d.new) result) }
    ensures kinds { OnOk result ((later : List Kind) → D.expects d.new later ≡ D.expects d.old (gate_kinds place start slot (gate_start is_open) ++ later)) }
{
    let mut writes = GateWrites::new(place, start, slot, is_open);
    while let WriteAnswer::Device = writes.answer() {
        writes.device_step(d)?;
    }
    Ok(())
}
