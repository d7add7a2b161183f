//! The effects that are told are the history.
ghost use Rattle.law_answers.specs.Effects.Laws as effects;

use fkv_disk::Device;
use law_opening::{World, law_world_slots};

/// In a life of a store that was just opened, who asks for a session's effect behind each of its moves, where its call was in hand before
/// the move, and behind no other event, is told of each update that takes effect, once and as it does: each event adds to the history what
/// is told behind it (`behind`), and what is kept of all events is the history (`kept`), in the same order.
pub fn law_effects_told()
    ensures behind { effects.EventsTellTheirEffects }
    ensures kept { effects.KeptIsTheHistory }
{
    law_world_slots();
}

/// So it is behind each step of the engine, by what `World::is_in_hand` says of the session before it, and `World::effect` behind it; and for
/// who keeps the oldest first.
pub fn law_step_tells_effect<D: Device>(world: &World<D>)
    ensures newest_first { effects.StepsTellTheirEffects D.honest D.seen D.may_leave D.failed D.refuses D.expects world.now }
    ensures oldest_first { effects.StepsTellOldestFirst D.honest D.seen D.may_leave D.failed D.refuses D.expects world.now }
{
    law_effects_told();
}
