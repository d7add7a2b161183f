//! What the points of commits keep.
ghost use Rattle.law_order.specs.Said as said;

use crate::{law_order, law_points_open};
use law_commit::{
    law_of_the_past, law_points_between, law_points_split, law_points_taken, law_versions_end,
    law_world_effects, law_world_replies, law_world_requests, law_world_sessions,
};

/// The points of each commit that has begun in a life, with the opening's, keep just the updates of versions up to its number. For from wait-flush on no update
/// up to that version waits. So each serial up to a session's point has taken effect once, if it is above the session's point of the opening; and no other has.
/// No point has fallen since the opening, nor from a commit to a newer one. A slot has room for each.
pub fn law_points_keep()
    ensures kept { said.CommitsKeepTheirPoints }
    ensures rise { said.InEachLife said.HasRisingPoints }
{
    law_order();
    law_points_open();
    law_points_taken();
    law_points_between();
    law_points_split();
    law_versions_end();
    law_world_sessions();
    law_world_replies();
    law_world_requests();
    law_world_effects();
    law_of_the_past();
}
