//! Each call comes to its answer.
ghost use Rattle.law_answers.specs.Answered.Laws as calls;

use fkv_disk::Device;
use law_opening::{World, law_world_ends};

/// A call that is in hand goes on until the trace gets its answer. An event behind which its actor has none in hand any more, in a life that
/// goes on, gives just that answer; and where an event gives no answer to anybody, the call is in hand still. So it is where that actor alone has moved,
/// however often.
pub fn law_calls_answered()
    ensures answered { calls.CallsGetTheirAnswer }
    ensures goes_on { calls.CallsStayInHand }
    ensures moves { calls.MovesLeaveCallsInHand }
{}

/// A step that begins a call tells its answer at once, or leaves its actor with the call in hand: where there is such an actor, it has no call in
/// hand, and the life goes on.
pub fn law_calls_begin<D: Device>(world: &World<D>)
    ensures { calls.CallsAreAnsweredOrInHand D.honest D.seen D.may_leave D.failed D.refuses D.expects world.now }
{}

/// In a life of a store that was just opened, over an honest device, `World::finish` tells the answer of an actor that has a call in hand: its
/// moves come to their end, and never to as many as a count has numbers. Of the keeper that is so where it seeks the points of no more sessions
/// than a store may have, as the life begins.
pub fn law_finish_tells<D: Device>(world: &World<D>)
    ensures session { calls.FinishTellsASession D.honest D.seen D.may_leave D.failed D.refuses world.now }
    ensures keeper { calls.FinishTellsTheKeeper D.honest D.seen D.may_leave D.failed D.refuses world.now }
{
    law_world_ends();
}

/// Behind a step, and behind `World::finish`, the same life goes on, with the event that took place, and with the actor's moves: as long as the
/// device is honest, which each of them leaves as it was.
pub fn law_life_goes_on<D: Device>(world: &World<D>)
    ensures step { calls.LifeGoesOnByAStep D.honest D.seen D.may_leave D.failed D.refuses D.expects world.now }
    ensures finish { calls.LifeGoesOnByAFinish D.honest D.seen D.may_leave D.failed D.refuses world.now }
{}

/// The keeper of a store that was opened seeks the points of no more sessions than a store may have, so that `law_finish_tells` speaks of the
/// keeper in each of its lives; nor of more than this store has, so that `law_world_places` does.
pub fn law_keeper_seeks()
    ensures few { calls.KeeperSeeksFew }
    ensures there { calls.KeeperSeeksThoseThere }
{}
