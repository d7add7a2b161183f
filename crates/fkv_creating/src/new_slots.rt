//! What the manifest slot of a new store says.
ghost use Rattle.std.specs.Prelude.{◌≡◌, replicate};
ghost use Rattle.fkv_record.specs.Points.{serial_numbers};
ghost use Rattle.fkv_creating.specs.Created.{IsNewSlot, IsNew};

use arrayvec::ArrayVec;
use fkv_base::{Addr, Serial, Shape};
use fkv_newest::Newest;
use fkv_record::{Format, LostRanges, ManifestSlot, Points};

/// A point for each session of the shape: none has taken a serial.
fn new_points(shape: Shape) -> Points
    ensures { serial_numbers result.serials.items ≡ replicate shape.sessions 0 }
{
    let mut serials = ArrayVec::new();
    for _ in 0..shape.sessions {
        serials.push(Serial(0));
    }
    Points { serials }
}

/// The slot of commit 0.
fn new_slot(shape: Shape) -> ManifestSlot
    ensures { IsNewSlot shape.sessions result }
{
    ManifestSlot {
        number: 0,
        first: Addr(1),
        end: Addr(1),
        triples: 0,
        area: 0,
        points: new_points(shape),
        checkpoint: 0,
        lost: LostRanges {
            ranges: ArrayVec::new(),
        },
        begin: Addr(1),
    }
}

/// What a new store of this shape tells of itself.
#[tactic(auto, using(crate::proofs::Suiting::suits_new))]
pub(crate) fn new_store(shape: Shape) -> Newest
    ensures { IsNew shape result }
{
    Newest {
        shape,
        index: 0,
        format: Format::Third,
        slot: new_slot(shape),
        open_numbers: (Some(0), None),
    }
}
