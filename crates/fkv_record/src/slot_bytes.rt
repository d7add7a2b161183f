//! The bytes of a manifest slot.
ghost use Rattle.std.specs.Prelude.{◌≡◌, ◌∷◌, length};
ghost use Rattle.fkv_words.specs.Fields.{Reads};
ghost use Rattle.fkv_record.specs.Layout.{slot_bytes, first_layout, point_numbers};

use crate::gates;
use crate::numbers::{numbers, spell};
use crate::point_numbers::{points_of, put_points};
use crate::slots::Slot;
use fkv_base::Addr;

/// The gate byte of an open slot and the seven zero bytes after it, as one number.
const OPEN: u64 = gates::OPEN as u64;

/// The slot that the bytes spell, if they spell one. They spell none where the gate is not open, bytes 1 to 7 or those
/// after the points are not zero, there are no points or more than `MAX_SESSIONS`, or one of them is above `Serial::LAST`.
pub fn read_slot(bytes: &[u8; 512]) -> Option<Slot>
    ensures { Reads slot_bytes bytes.now result }
{
    slot_of(&numbers::<64>(bytes))
}

/// The slot that the numbers stand for, if they stand for one.
fn slot_of(numbers: &[u64]) -> Option<Slot>
    requires { length numbers.now ≡ 64 }
    ensures { Reads first_layout numbers.now result }
{
    let (front, places) = numbers.split_at(7);
    if front[0] != OPEN {
        return None;
    }
    let points = points_of(front[6], places)?;
    Some(Slot {
        number: front[1],
        first: Addr(front[2]),
        end: Addr(front[3]),
        triples: front[4],
        area: front[5],
        points,
    })
}

/// The bytes of the slot.
#[tactic(auto, unfolding(crate::specs::Layout::slot_bytes, crate::specs::Layout::first_layout))]
pub fn write_slot(slot: &Slot) -> [u8; 512]
    ensures { result ≡ slot_bytes slot.now }
{
    let mut numbers = [0; 64];
    numbers[0] = OPEN;
    numbers[1] = slot.number;
    numbers[2] = slot.first.0;
    numbers[3] = slot.end.0;
    numbers[4] = slot.triples;
    numbers[5] = slot.area;
    put_points(&mut numbers[6..], &slot.points);
    spell(&numbers)
}
