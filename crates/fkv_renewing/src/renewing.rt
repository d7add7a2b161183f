//! Renewing a store.
ghost use Rattle.std.specs.Prelude.{◌≡◌, ◌≤◌, ◌↔◌, All, IfOk, IfErr, OnOk};
ghost use Rattle.fkv_base.specs.Limits.{last_serial};
ghost use Rattle.fkv_base.specs.declared.faults.Fault.TheVariants.{Device as DeviceFailed};
ghost use Rattle.fkv_disk.specs.Device.{LeavesOnly, MakesCalls};
ghost use Rattle.fkv_renewing.specs.Images.{IsRenewed};
ghost use Rattle.fkv_renewing.specs.Moments.{RenewsInOrder};
ghost use Rattle.fkv_renewing.specs.Records.{HasBytes};
ghost use Rattle.fkv_renewing.specs.Refused.{IsRefused, IsUnfit};
ghost use Rattle.fkv_renewing.specs.Renewed.{AreSomePairs, IsRenewal};
ghost use Rattle.fkv_renewing.specs.Room.{HasRoomFor};

use crate::chaining::chain;
use crate::counting::has_slots;
use crate::slots::{has_sessions, renewed_store};
use crate::spelling::log_bytes;
use crate::writing::{clear, fill};
use fkv_base::{Addr, Fault, Key, Serial, Shape, Value};
use fkv_disk::Device;
use fkv_newest::Newest;
use fkv_opening::Opened;
use fkv_record::{
    law_formats_apart, law_spellings_apart, record_place, write_newest_slot, write_shape,
};
use std::alloc::Global;

/// What a renewed store tells of itself, and the bytes of its log.
#[derive(Drop)]
struct Prepared {
    newest: Newest,
    log: Vec<u8>,
}

/// All that is written, or why the shape has no room for it.
fn prepare(
    alloc: Global,
    shape: Shape,
    points: &[Serial],
    pairs: &[(Key, Value)],
) -> Result<Prepared, Fault>
    requires { All (λ point. point.0 ≤ last_serial) points.now }
    ensures newest { IfOk result (λ prepared. IsRenewed shape points.now pairs.now prepared.newest) }
    ensures log { IfOk result (λ prepared. HasBytes shape.bucket_bits pairs.now prepared.log.items) }
    ensures room { OnOk result (HasRoomFor shape points.now pairs.now) }
    ensures err { IfErr result (IsUnfit shape points.now pairs.now) }
{
    law_spellings_apart();
    if !has_sessions(shape, points) {
        return Err(Fault::NoSession);
    }
    if pairs.len() as u64 >= shape.disk_pages * shape.page {
        return Err(Fault::LogFull);
    }
    let chained = chain(alloc, shape.bucket_bits, pairs)?;
    if !has_slots(alloc, shape, &chained.latest)? {
        return Err(Fault::IndexFull);
    }
    let log = log_bytes(alloc, &chained.records)?;
    let newest = renewed_store(shape, points, pairs);
    Ok(Prepared { newest, log })
}

/// Writes the pairs and the points of an opened store as a new store of this shape, over whatever the device holds. It is commit 1, whose
/// log has one record for each pair, behind a checkpoint without triples. Serials that are spent stay spent, since the points stay.
///
/// It makes ten calls: zeros over the first 1,536 bytes, the block, the log, slot 1 behind its gate, and the gate, with a sync after each.
/// Once the zeros are synced a crash, or a refusal, leaves an image that is no store's, or the whole one. Where they are not, no call was
/// made, or one of the first two was refused and was the last. After `Ok` the device reads as the whole one, and a crash leaves just that.
/// Recovery finds no fault in it, and the store that it holds has these pairs and points.
///
/// Where the shape has no room it is refused, with nothing written. `NoSession` says that a session beyond the shape's has taken a serial,
/// `LogFull` that the log has no place for each pair, and `IndexFull` that the index has no slot for each home. Where memory is refused
/// nothing is written either. `Device` comes only where the device failed in this call.
pub fn renew<D: Device>(
    alloc: Global,
    opened: &Opened,
    pairs: &[(Key, Value)],
    shape: Shape,
    d: &mut D,
) -> Result<(), Fault>
    ensures room { OnOk result (HasRoomFor shape opened.now.points.items pairs.now) }
    ensures renewed { D.honest d.old → AreSomePairs pairs.now → OnOk result (IsRenewal shape opened.now.points.items pairs.now (D.seen d.new)) }
    ensures synced { D.honest d.old → OnOk result (LeavesOnly (D.seen d.new) (D.may_leave d.new)) }
    ensures honest { D.honest d.old ↔ D.honest d.new }
    ensures err { IfErr result (IsRefused shape opened.now.points.items pairs.now (D.failed d.old) (D.failed d.new)) }
    ensures unwritten { IfErr result (λ e. (e ≡ DeviceFailed → ⊥) → d.new ≡ d.old) }
    ensures counted { OnOk result (MakesCalls 10 (D.refuses d.old) (D.refuses d.new) result) }
    ensures moments { D.honest d.old → AreSomePairs pairs.now → RenewsInOrder D.seen D.may_leave D.moment D.left_since D.refuses shape opened.now.points.items pairs.now d.old d.new result }
{
    law_formats_apart();
    law_spellings_apart();
    let prepared = prepare(alloc, shape, &opened.points, pairs)?;
    clear(d)?;
    let place = record_place(shape, Addr(1));
    fill(
        d,
        &write_shape(shape),
        place,
        &prepared.log,
        &write_newest_slot(&prepared.newest.slot),
    )?;
    Ok(())
}
