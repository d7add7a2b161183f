//! What sessions were told as durable.
ghost use Rattle.law_commit.specs.Said as said;

use crate::cuts::law_durable_stands;
use crate::laws::law_begun;
use crate::points::law_points_taken;

/// In each life of a store that opened at rest, whose durable words showed its newest commit's points, what a session was told as durable is its point in a sealed
/// commit. It is no less than its point in each commit that was told as finished before its call.
pub fn law_told_are_sealed()
    ensures { said.TellsSealedPoints }
{
    law_begun();
    law_durable_stands();
    law_points_taken();
}

/// In each such life no answer to a session tells less as durable than an earlier one. None tells more than the session's durable word, which never falls.
pub fn law_told_never_falls()
    ensures { said.ToldNeverFalls }
{
    law_durable_stands();
    law_points_taken();
}
