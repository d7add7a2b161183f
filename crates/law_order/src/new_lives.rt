//! That the lives exist of which the order law speaks.
ghost use Rattle.law_order.specs.Said as said;

use crate::one_history::law_order;
use law_opening::{law_new_stores, law_world_exists};

/// The lives exist of which the order law speaks. Each image that holds a store has a life of any events, if their calls are of numbers below 2^64 and
/// fewer than 2^64 - 1. So has each shape, from bytes as `create` leaves them: the life of a new store. The life that `law_of_a_worked_life` works out is
/// one: its world is that of a new store, and so is that of `law_commit`'s worked past. So its history is legal, by the order law and with no premise left. So
/// is that of a life which finishes a full commit and a log commit, each seen by two sessions, of which one updates in the midst of the first. A crash may end it
/// as the second commit has begun.
pub fn law_life_exists()
    ensures opened { said.StoresHaveLives }
    ensures created { said.ShapesHaveLives }
    ensures worked { said.WorkedLife }
    ensures committed { said.CommittedLife }
    ensures crashed { said.CrashedLife }
{
    law_new_stores();
    law_world_exists();
    law_order();
}
