//! The desks. A seat sits down at its desk, and gets up from it: each is a load of the epoch's word, and no event.
ghost use Rattle.std.specs.Prelude.{◌≡◌, ◌<◌, ◌^◌, ℕ, Some};
ghost use Rattle.fkv_table.specs.Said as said;

use crate::rule::{Knows, Place, Slot, Words};
use atomic_table::Play;
use fkv_base::DRAIN_SLOTS;
use fkv_disk::Device;

/// Slots from one desk to the next. A slot has 56 bytes, so no two desks touch one line of 64. If neighbours' desks shared a line,
/// their calls would slow each other down. The slots between them hold nothing.
const DESK_STRIDE: usize = 3;

/// What a load tells by which a seat sits down.
struct SitsDown;

impl<D: Device> Play<Slot, Knows<D>> for SitsDown {
    ghost use Rattle.fkv_table.specs.Said as said;

    ghost then = { said.sitting (said.opening_of D.seen) };
}

/// What a load tells by which a seat gets up.
struct GetsUp;

impl<D: Device> Play<Slot, Knows<D>> for GetsUp {
    ghost use Rattle.fkv_table.specs.Said as said;

    ghost then = { said.rising (said.opening_of D.seen) };
}

/// The slot that is the desk of the session of this number. Behind the sessions' desks is the keeper's.
pub(crate) fn desk_slot(number: usize) -> usize
    requires { number < 2 ^ 32 }
    ensures { result ≡ said.desk_slot said.drain_slots number }
{
    DRAIN_SLOTS + DESK_STRIDE * number
}

/// The seat takes its desk.
pub(crate) fn sit_down<D: Device>(words: &Words<D>, seat: &mut Place<D>)
    requires table { (seat.old.table_id ≡ words.now.table_id) × (0 < words.now.table_id.words) }
    requires free { said.MaySit words.now.table_id seat.old.me }
    ensures seat { (seat.new.table_id ≡ seat.old.table_id) × (seat.new.id ≡ seat.old.id) }
    ensures sat { (number : ℕ) → said.desk_of seat.old.me.0.role ≡ Some number → said.SatDown (said.plane (said.opening_of D.seen)) number seat.old.me.0
        seat.old.me.1 seat.new.me }
{
    let _ = words.load::<SitsDown>(seat, 0);
}

/// The seat gives its desk back.
pub(crate) fn get_up<D: Device>(words: &Words<D>, seat: &mut Place<D>)
    requires table { (seat.old.table_id ≡ words.now.table_id) × (0 < words.now.table_id.words) }
    requires desk { said.HasDeskInHand seat.old.me }
    ensures seat { (seat.new.table_id ≡ seat.old.table_id) × (seat.new.id ≡ seat.old.id) }
    ensures up { said.GotUp (said.plane (said.opening_of D.seen)) seat.old.me.0 (said.rest seat.old.me.1) seat.new.me }
{
    let _ = words.load::<GetsUp>(seat, 0);
}
