//! The bytes of a damaged part of an image.
ghost use Rattle.std.specs.Prelude.{◌≡◌, ◌≤◌, ◌↔◌, IfOk, IfErr};
ghost use Rattle.fkv_disk.specs.Bytes.{bytes_at};
ghost use Rattle.fkv_disk.specs.Kinds.{OnlyReads};
ghost use Rattle.fkv_disk.specs.Quiet.{IsQuiet, IsHindrance};
ghost use Rattle.fkv_looking.specs.Damages.{ArePartBytes, area_in_force, area_of, is_first};

use crate::fronts::Front;
use crate::parts::read_part;
use crate::slot_looks::SlotLook;
use fkv_base::{Addr, Damage, Fault, Shape};
use fkv_disk::Device;
use fkv_record::{SLOT_PLACES, area_place, most_triples, record_place};
use std::alloc::Global;

/// How many addresses a record can name.
const ADDRS: u64 = 1 << 48;

/// A damaged part of an image.
#[derive(Drop)]
pub struct DamageLook {
    /// What kind of part is damaged.
    pub part: Damage,
    /// Which one: the index of a slot, the number of a triple, the address of a record, or the bucket that finds no room.
    pub place: u64,
    /// The bytes that stand there: 512 of a slot, 16 of a triple, 24 of a record; none of a full bucket.
    pub bytes: Vec<u8>,
}

/// Whether slot 0 is the one.
fn is_first(index: Option<u64>) -> bool
    ensures { result ≡ is_first index }
{
    match index {
        Some(index) => index == 0,
        None => false,
    }
}

/// The area of triples that a slot names; 0 where it names none.
fn area_of(slot: &SlotLook) -> u64
    ensures { result ≡ area_of slot.now }
{
    match slot {
        SlotLook::Closed => 0,
        SlotLook::Unspelled(_) => 0,
        SlotLook::Commit(commit) => commit.slot.area,
    }
}

/// The area of triples that the slot in force names.
fn area_in_force(front: &Front) -> u64
    ensures { result ≡ area_in_force front.now.in_force front.now.slots.0 front.now.slots.1 }
{
    if is_first(front.in_force) {
        area_of(&front.slots.0)
    } else {
        area_of(&front.slots.1)
    }
}

/// So many bytes from this place on.
fn bytes_from<D: Device, const N: usize>(
    alloc: Global,
    d: &mut D,
    at: u64,
) -> Result<Vec<u8>, Fault>
    requires { N ≤ 512 }
    ensures ok { D.honest d.old → IfOk result (λ bytes. bytes.items ≡ bytes_at (D.seen d.old) at N) }
    ensures err { IfErr result (IsHindrance (D.failed d.old) (D.failed d.new)) }
    ensures quiet { IsQuiet D.honest D.seen D.may_leave D.moment D.left_since D.failed d.old d.new }
    ensures reads { OnlyReads D.refuses D.expects d.old d.new }
{
    let part = read_part::<D, N>(d, at)?;
    let mut bytes = Vec::new(alloc);
    bytes.extend_from_slice(&part)?;
    Ok(bytes)
}

/// The bytes of a part of this kind; none where no part of that number has a place.
fn part_bytes<D: Device>(
    alloc: Global,
    d: &mut D,
    front: &Front,
    part: Damage,
    place: u64,
) -> Result<Vec<u8>, Fault>
    ensures ok { D.honest d.old → IfOk result (λ bytes. ArePartBytes (D.seen d.old) front.now.shape (area_in_force front.now.in_force front.now.slots.0 front.now.slots.1) part place bytes.items) }
    ensures err { IfErr result (IsHindrance (D.failed d.old) (D.failed d.new)) }
    ensures quiet { IsQuiet D.honest D.seen D.may_leave D.moment D.left_since D.failed d.old d.new }
    ensures reads { OnlyReads D.refuses D.expects d.old d.new }
{
    let area = area_in_force(front);
    match (part, front.shape) {
        (Damage::Manifest, _) if place < 2 => {
            bytes_from::<D, 512>(alloc, d, SLOT_PLACES[place as usize])
        }
        (Damage::Triple, Some(shape)) if area < 2 && place < most_triples(shape) => {
            bytes_from::<D, 16>(alloc, d, area_place(shape, area) + 16 * place)
        }
        (Damage::Record | Damage::Link, Some(shape)) if place < ADDRS => {
            bytes_from::<D, 24>(alloc, d, record_place(shape, Addr(place)))
        }
        _ => Ok(Vec::new(alloc)),
    }
}

/// The damage of this kind and place, with the bytes that stand there.
pub(crate) fn damage_look<D: Device>(
    alloc: Global,
    d: &mut D,
    front: &Front,
    part: Damage,
    place: u64,
) -> Result<DamageLook, Fault>
    ensures part { IfOk result (λ look. look.part ≡ part) }
    ensures place { IfOk result (λ look. look.place ≡ place) }
    ensures ok { D.honest d.old → IfOk result (λ look. ArePartBytes (D.seen d.old) front.now.shape (area_in_force front.now.in_force front.now.slots.0 front.now.slots.1) part place look.bytes.items) }
    ensures err { IfErr result (IsHindrance (D.failed d.old) (D.failed d.new)) }
    ensures quiet { IsQuiet D.honest D.seen D.may_leave D.moment D.left_since D.failed d.old d.new }
    ensures reads { OnlyReads D.refuses D.expects d.old d.new }
{
    let bytes = part_bytes(alloc, d, front, part, place)?;
    Ok(DamageLook { part, place, bytes })
}
