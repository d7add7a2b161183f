//! Where things lie in an image.
ghost use Rattle.std.specs.Prelude.{◌≡◌, ◌+◌, ◌*◌, ◌≤◌, ◌<◌, ◌^◌};
ghost use Rattle.fkv_base.specs.Limits.{most_slots};
ghost use Rattle.fkv_record.specs.Places.{most_triples, area_place, record_place};

use fkv_base::{Addr, Shape};

/// Where the shape block lies.
pub const SHAPE_PLACE: u64 = 0;

/// Where the two manifest slots lie.
pub const SLOT_PLACES: [u64; 2] = [512, 1024];

/// The most triples that a checkpoint of the shape has: seven for each bucket and each overflow bucket.
#[tactic(auto, using(fkv_base::proofs::Shown::slots_few))]
pub fn most_triples(shape: Shape) -> u64
    ensures most { result ≡ most_triples shape }
    ensures few { result ≤ most_slots }
{
    7 * ((1 << shape.bucket_bits) + shape.overflow)
}

/// Where the triples of area 0 or 1 begin. The log begins where an area 2 would.
#[tactic(auto, using(crate::proofs::PlacesFit::area_fits))]
pub fn area_place(shape: Shape, area: u64) -> u64
    requires { area ≤ 2 }
    ensures place { result ≡ area_place shape area }
    ensures few { result ≤ 1536 + 16 * most_slots * 2 }
{
    1536 + 16 * most_triples(shape) * area
}

/// Where the record with the address begins. Addresses count from 1; no record lies at address 0.
pub fn record_place(shape: Shape, addr: Addr) -> u64
    requires { addr.0 < 2 ^ 48 }
    ensures { result ≡ record_place shape addr.0 }
{
    area_place(shape, 2) + 24 * addr.0
}
