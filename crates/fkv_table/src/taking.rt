//! The seat of a pass, taken for a call.
ghost use Rattle.std.specs.Prelude.{◌≡◌, ◌<◌, ℕ, None};
ghost use Rattle.fkv_table.specs.Said as said;

use crate::joining::Meeting;
use crate::rule::{Place, Words};
use fkv_disk::Device;
use std::mem::replace;

/// Takes a session's seat out of its place, and leaves one there that speaks for nobody. A line holds its seat by value: a view of it could not tell what
/// becomes of a seat that is lent. It is one load of the epoch's word, and moves no byte.
#[inline(always)]
pub(crate) fn take_seat<D: Device>(words: &Words<D>, place: &mut Place<D>) -> Place<D>
    requires table { (place.old.table_id ≡ words.now.table_id) × (0 < words.now.table_id.words) }
    requires whose { (number : ℕ) × (place.old.me.0.role ≡ said.Sits number) }
    requires empty { place.old.me.0.hand ≡ None }
    ensures same { (result.table_id ≡ place.old.table_id) × (result.me ≡ place.old.me) }
{
    let nobody = words.split_seat::<Meeting>(place);
    replace(place, nobody)
}
