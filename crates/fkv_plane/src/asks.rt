//! What an actor may ask for.
use crate::actions::Action;

/// One step of an actor: one operation on the word at a place, or what goes with it. The reply to an operation is the
/// word as it was, for `Cas` too, which took place exactly where that is the expected word.
#[derive(Debug, PartialEq, Eq, Drop)]
pub enum Ask<A> {
    /// The word at this place.
    Load(usize),
    /// The word becomes the number.
    Store(usize, u64),
    /// The word becomes the number.
    Swap(usize, u64),
    /// Where the word is the first number it becomes the second.
    Cas(usize, u64, u64),
    /// The number is added to the word, modulo 2^64.
    Add(usize, u64),
    /// The word becomes the number where that is greater.
    Max(usize, u64),
    /// The action goes into a drain slot that the actor holds. It belongs to the ask before it, and is replied to with 0.
    Put(usize, Action),
    /// The action of a drain slot that the actor holds is given to it. It belongs to the ask before it.
    Take(usize),
    /// The machine is through, and this is its answer.
    Done(A),
}
