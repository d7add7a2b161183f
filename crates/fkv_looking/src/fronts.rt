//! The front of an image: the block of the shape, and both slots.
ghost use Rattle.std.specs.Prelude.{◌≡◌, ◌↔◌, IfOk, IfErr};
ghost use Rattle.fkv_disk.specs.Kinds.{OnlyReads};
ghost use Rattle.fkv_disk.specs.Quiet.{IsQuiet, IsHindrance};
ghost use Rattle.fkv_looking.specs.Fronts.{IsFront, in_force_by};

use crate::parts::read_part;
use crate::slot_looks::{SlotLook, slot_look};
use fkv_base::{Fault, Shape};
use fkv_disk::Device;
use fkv_record::{SHAPE_PLACE, SLOT_PLACES, open_number, read_shape};

/// What the front of an image says.
#[derive(Drop)]
pub(crate) struct Front {
    /// The shape that the block spells, if it spells one.
    pub(crate) shape: Option<Shape>,
    /// Slot 0 and slot 1.
    pub(crate) slots: (SlotLook, SlotLook),
    /// Which of them is in force, 0 or 1; none where both gates are closed.
    pub(crate) in_force: Option<u64>,
}

/// Which slot is in force, by the numbers that they name where they are open.
fn in_force(first: Option<u64>, second: Option<u64>) -> Option<u64>
    ensures { result ≡ in_force_by first second }
{
    match (first, second) {
        (None, None) => None,
        (Some(_), None) => Some(0),
        (None, Some(_)) => Some(1),
        (Some(first), Some(second)) => Some(if second <= first { 0 } else { 1 }),
    }
}

/// Reads the front: the block, slot 0 and slot 1.
pub(crate) fn read_front<D: Device>(d: &mut D) -> Result<Front, Fault>
    ensures ok { D.honest d.old → IfOk result (IsFront (D.seen d.old)) }
    ensures err { IfErr result (IsHindrance (D.failed d.old) (D.failed d.new)) }
    ensures quiet { IsQuiet D.honest D.seen D.may_leave D.moment D.left_since D.failed d.old d.new }
    ensures reads { OnlyReads D.refuses D.expects d.old d.new }
{
    let block = read_part::<D, 64>(d, SHAPE_PLACE)?;
    let slot_0 = read_part::<D, 512>(d, SLOT_PLACES[0])?;
    let slot_1 = read_part::<D, 512>(d, SLOT_PLACES[1])?;
    Ok(Front {
        shape: read_shape(&block),
        slots: (slot_look(&slot_0), slot_look(&slot_1)),
        in_force: in_force(open_number(&slot_0), open_number(&slot_1)),
    })
}
