//! How a machine passes on what a machine inside it asks.
ghost use Rattle.std.specs.Prelude.{◌≡◌};
ghost use Rattle.fkv_plane.specs.Passing.{passed};

use crate::asks::Ask;

/// The ask of a machine inside another, as an ask of the outer one. At its end the outer one gives this answer.
#[tactic(auto, unfolding(crate::specs::Passing::passed))]
pub fn passed<A: Drop, B: Drop>(ask: Ask<A>, answer: B) -> Ask<B>
    ensures { result ≡ passed ask answer }
{
    match ask {
        Ask::Load(place) => Ask::Load(place),
        Ask::Store(place, new) => Ask::Store(place, new),
        Ask::Swap(place, new) => Ask::Swap(place, new),
        Ask::Cas(place, old, new) => Ask::Cas(place, old, new),
        Ask::Add(place, number) => Ask::Add(place, number),
        Ask::Max(place, number) => Ask::Max(place, number),
        Ask::Put(slot, action) => Ask::Put(slot, action),
        Ask::Take(slot) => Ask::Take(slot),
        Ask::Done(_) => Ask::Done(answer),
    }
}
