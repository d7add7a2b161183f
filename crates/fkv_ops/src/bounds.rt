//! What the calls of a living store leave to its polls.
ghost use Rattle.std.specs.Prelude.{◌≡◌};
ghost use Rattle.fkv_ops.specs.Bounds.{bounds_of, tail_bound, is_past_taken, is_past_tail};

use fkv_base::Shape;

/// Up to where a call goes: behind that only polls take overflow buckets and addresses.
#[derive(Clone, Copy, Debug, PartialEq, Eq)]
pub struct Bounds {
    /// So many overflow buckets.
    pub taken: u64,
    /// No address from this one on.
    pub tail: u64,
}

impl Bounds {
    /// Those of the calls of a store of this shape. A specified store has none.
    pub fn of(shape: &Shape) -> Option<Bounds>
        ensures { result ≡ bounds_of shape.now }
    {
        if shape.is_specified() {
            return None;
        }
        let margin = shape.margin();
        let room = shape.disk_pages * shape.page;
        Some(Bounds {
            taken: shape.overflow.saturating_sub(margin.buckets),
            tail: room.saturating_sub(margin.records),
        })
    }
}

/// The first address that a call doesn't take, where it has one.
pub(crate) fn tail_bound(bounds: Option<Bounds>) -> Option<u64>
    ensures { result ≡ tail_bound bounds }
{
    bounds.map(|bounds| bounds.tail)
}

/// Whether as many overflow buckets are taken as a call may come to.
pub(crate) fn is_past_taken(bounds: Option<Bounds>, taken: u64) -> bool
    ensures { result ≡ is_past_taken bounds taken }
{
    match bounds {
        Some(bounds) => bounds.taken <= taken,
        None => false,
    }
}

/// Whether the tail is where no call takes an address.
pub(crate) fn is_past_tail(bounds: Option<Bounds>, tail: u64) -> bool
    ensures { result ≡ is_past_tail bounds tail }
{
    match bounds {
        Some(bounds) => bounds.tail <= tail,
        None => false,
    }
}
