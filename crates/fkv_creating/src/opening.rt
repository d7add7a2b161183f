//! A new store that is opened.
ghost use Rattle.std.specs.Prelude.{◌≡◌, ◌≤◌, ◌^◌, ◌↔◌, ◌++◌, List, ℕ, All, Err, IfOk, IfErr, OnErr, OnOk, length};
ghost use Rattle.fkv_base.specs.Limits.{last_serial};
ghost use Rattle.fkv_base.specs.declared.faults.Fault.TheVariants.{Memory};
ghost use Rattle.fkv_disk.specs.Device.{LeavesOnly, MakesCalls};
ghost use Rattle.fkv_disk.specs.Kinds.{Kind};
ghost use Rattle.fkv_newest.specs.Newest.{IsNewestOf};
ghost use Rattle.fkv_disk.specs.Quiet.{IsHindrance};
ghost use Rattle.fkv_opening.specs.Opened.{IsStoreOf};
ghost use Rattle.fkv_creating.specs.Created.{IsNew, IsNewStore, HoldsNew, SparesRest, created_bytes, created_kinds};
ghost use Rattle.fkv_creating.specs.Moments.{IsLaidInOrder};

use crate::creating::create;
use arrayvec::ArrayVec;
use fkv_base::{Fault, Serial, Shape, Version};
use fkv_disk::Device;
use fkv_newest::Newest;
use fkv_opening::{Checkpoint, Opened};
use fkv_record::ManifestSlot;
use std::alloc::Global;

/// The points of the sessions.
fn points_of(alloc: Global, slot: &ManifestSlot) -> Result<Vec<Serial>, Fault>
    ensures ok { IfOk result (λ points. points.items ≡ slot.now.points.serials.items) }
    ensures many { IfOk result (λ points. length points.items ≡ length slot.now.points.serials.items) }
    ensures small { IfOk result (λ points. All (λ point. point.0 ≤ last_serial) points.items) }
    ensures err { OnErr result (result ≡ Err Memory) }
{
    let mut points = Vec::with_capacity(alloc, slot.points.serials.len())?;
    points.extend_from_slice(&slot.points.serials)?;
    Ok(points)
}

/// A new store, opened: no home has an entry, and no record is lost.
fn opened(alloc: Global, newest: &Newest) -> Result<Opened, Fault>
    requires { IsNew newest.now.shape newest.now }
    ensures ok { (image : List ℕ) → IsNewestOf image newest.now → IfOk result (IsStoreOf image) }
    ensures new { IfOk result (IsNewStore newest.now.shape) }
    ensures err { OnErr result (result ≡ Err Memory) }
{
    let points = points_of(alloc, &newest.slot)?;
    let gates = newest.gates();
    Ok(Opened {
        shape: newest.shape,
        number: Version(newest.slot.number),
        begin: newest.slot.begin,
        tail: newest.slot.end,
        points,
        gates,
        checkpoint: Checkpoint {
            number: Version(newest.slot.checkpoint),
            first: newest.slot.first,
            triples: newest.slot.triples,
            area: newest.slot.area,
        },
        lost: ArrayVec::new(),
        entries: Vec::new(alloc),
        warm: newest.slot.end,
        frames: Vec::new(alloc),
    })
}

/// Makes an empty store as `create` does, by the same eight calls, and gives it opened: what `recover` gives of the image, which is
/// commit 0 with an empty log, no entries, and points that are 0.
///
/// Where memory is refused the store is made all the same: the device reads as it, a crash leaves just that, and no stage of
/// recovery finds a fault in it, as `law_new_is_sound` says.
pub fn create_opened<D: Device>(alloc: Global, d: &mut D, shape: Shape) -> Result<Opened, Fault>
    ensures ok { D.honest d.old → IfOk result (IsStoreOf (D.seen d.new)) }
    ensures new { IfOk result (IsNewStore shape) }
    ensures bytes { D.honest d.old → OnOk result (D.seen d.new ≡ created_bytes (D.seen d.old) shape) }
    ensures spared { D.honest d.old → OnOk result (SparesRest (D.seen d.old) (D.seen d.new)) }
    ensures synced { D.honest d.old → OnOk result (LeavesOnly (D.seen d.new) (D.may_leave d.new)) }
    ensures honest { D.honest d.old ↔ D.honest d.new }
    ensures err { IfErr result (IsHindrance (D.failed d.old) (D.failed d.new)) }
    ensures memory { D.honest d.old → IfErr result (λ e. e ≡ Memory → HoldsNew D.seen D.may_leave D.refuses shape d.old d.new) }
    ensures counted { OnOk result (MakesCalls 8 (D.refuses d.old) (D.refuses d.new) result) }
    ensures kinds { OnOk result ((later : List Kind) → D.expects d.new later ≡ D.expects d.old (created_kinds shape ++ later)) }
    ensures moments { D.honest d.old → IsLaidInOrder D.seen D.may_leave D.moment D.left_since D.refuses shape d.old d.new result }
{
    let newest = create(d, shape)?;
    let store = opened(alloc, &newest)?;
    Ok(store)
}
