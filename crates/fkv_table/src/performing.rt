//! An ask of a word, as one step of the table.
ghost use Rattle.std.specs.Prelude.{◌≡◌, ◌<◌, ◌≤◌, ◌^◌, ℕ, Some};
ghost use Rattle.fkv_plane.specs.Asked.{asked};
ghost use Rattle.fkv_table.specs.Said as said;

use crate::plays::{Adds, Turn};
use crate::positions::{Part, position};
use crate::rule::{Knows, Place, Slot, Words};
use atomic_table::Play;
use fkv_disk::Device;
use fkv_map::Call;
use fkv_plane::Ask;
use fkv_session::Told;
use std::marker::Brand;

/// The starts that a call of `perform_first` picks for itself.
impl Adds for Brand {
    ghost use Rattle.std.specs.Prelude.{[]};

    ghost own = { λ _. [] };
}

/// Does what is asked of a word, and gives the word as it was: in a function of its own.
#[inline(never)]
fn perform_apart<D: Device, M: Play<Slot, Knows<D>>, A>(
    words: &Words<D>,
    seat: &mut Place<D>,
    ask: &Ask<A>,
    part: Part,
) -> u64
    requires table { seat.old.table_id ≡ words.now.table_id }
    requires word { (place : ℕ) × (said.asked_place ask.now ≡ Some place) × (said.position place < words.now.table_id.words) × (place < 2 ^ 62) }
    requires past { part ≡ said.Past → (place : ℕ) → said.asked_place ask.now ≡ Some place → 24 ≤ place }
    requires allows { (place : ℕ) → said.asked_place ask.now ≡ Some place
        → said.Allows (said.Ruled (said.plane (said.opening_of D.seen)) words.now.key) words.now.table_id.slots seat.old.id seat.old.me
        (said.position place) (asked ask.now) (M.then (said.step_of words.now.table_id.slots ask.now) seat.old.me) }
    ensures seat { (seat.new.table_id ≡ seat.old.table_id) × (seat.new.id ≡ seat.old.id) }
    ensures told { M.then (said.step_of words.now.table_id.slots ask.now) seat.old.me result seat.new.me }
{
    match ask {
        Ask::Load(place) => words.load::<M>(seat, position(*place, part)),
        Ask::Store(place, new) => words.swap::<M>(seat, position(*place, part), *new),
        Ask::Swap(place, new) => words.swap::<M>(seat, position(*place, part), *new),
        Ask::Cas(place, old, new) => {
            words.compare_exchange::<M>(seat, position(*place, part), *old, *new)
        }
        Ask::Add(place, number) => words.fetch_add::<M>(seat, position(*place, part), *number),
        Ask::Max(place, number) => words.fetch_max::<M>(seat, position(*place, part), *number),
        Ask::Put(_, _) | Ask::Take(_) | Ask::Done(_) => unreachable!(),
    }
}

/// Does what is asked of a word, and gives the word as it was. What few calls ask for is done apart: the compiler inlines no function that would
/// grow very large, whether it is marked or not.
#[inline(always)]
pub(crate) fn perform<D: Device, M: Play<Slot, Knows<D>>, A>(
    words: &Words<D>,
    seat: &mut Place<D>,
    ask: &Ask<A>,
    part: Part,
) -> u64
    requires table { seat.old.table_id ≡ words.now.table_id }
    requires word { (place : ℕ) × (said.asked_place ask.now ≡ Some place) × (said.position place < words.now.table_id.words) × (place < 2 ^ 62) }
    requires past { part ≡ said.Past → (place : ℕ) → said.asked_place ask.now ≡ Some place → 24 ≤ place }
    requires allows { (place : ℕ) → said.asked_place ask.now ≡ Some place
        → said.Allows (said.Ruled (said.plane (said.opening_of D.seen)) words.now.key) words.now.table_id.slots seat.old.id seat.old.me
        (said.position place) (asked ask.now) (M.then (said.step_of words.now.table_id.slots ask.now) seat.old.me) }
    ensures seat { (seat.new.table_id ≡ seat.old.table_id) × (seat.new.id ≡ seat.old.id) }
    ensures told { M.then (said.step_of words.now.table_id.slots ask.now) seat.old.me result seat.new.me }
{
    match ask {
        Ask::Load(place) => words.load::<M>(seat, position(*place, part)),
        Ask::Store(place, new) => words.swap::<M>(seat, position(*place, part), *new),
        Ask::Swap(place, new) => words.swap::<M>(seat, position(*place, part), *new),
        Ask::Cas(place, old, new) => {
            words.compare_exchange::<M>(seat, position(*place, part), *old, *new)
        }
        _ => perform_apart::<D, M, A>(words, seat, ask, part),
    }
}

/// Does what is asked of a word as the first step of a call, which adds the call's start: number and call are those that the caller picks it by.
#[inline(always)]
pub(crate) fn perform_first<D: Device, O: Adds>(
    words: &Words<D>,
    seat: &mut Place<D>,
    ask: &Ask<Told>,
    part: Part,
    _number: usize,
    _call: Call,
) -> u64
    requires table { seat.old.table_id ≡ words.now.table_id }
    requires word { (place : ℕ) × (said.asked_place ask.now ≡ Some place) × (said.position place < words.now.table_id.words) × (place < 2 ^ 62) }
    requires past { part ≡ said.Past → (place : ℕ) → said.asked_place ask.now ≡ Some place → 24 ≤ place }
    requires allows { (place : ℕ) → said.asked_place ask.now ≡ Some place
        → said.Allows (said.Ruled (said.plane (said.opening_of D.seen)) words.now.key) words.now.table_id.slots seat.old.id seat.old.me (said.position place)
        (asked ask.now) (said.turned (said.opening_of D.seen) O.own (said.step_of words.now.table_id.slots ask.now) seat.old.me) }
    ensures seat { (seat.new.table_id ≡ seat.old.table_id) × (seat.new.id ≡ seat.old.id) }
    ensures told { said.turned (said.opening_of D.seen) O.own (said.step_of words.now.table_id.slots ask.now) seat.old.me result seat.new.me }
{
    perform::<D, Turn<O>, Told>(words, seat, ask, part)
}
