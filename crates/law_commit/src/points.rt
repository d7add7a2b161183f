//! The points that commits take are the sessions' points.
ghost use Rattle.law_commit.specs.Said as said;

use crate::quiet::{law_cuts_show_points, law_versions_end};
use law_paper::law_phases_are_seen;

/// In each life of a store that opened at rest the keeper loads a session's two cut words at different moments. While the phase is wait-pending the first of
/// them stays as it was, or becomes the cut of the commit's number at the session's point. The other stays, or becomes a cut of the next one. So what the
/// keeper makes of the words is the session's point. As soon as the commit in hand has its points, they are the sessions' points of its number. So are those of
/// each commit that has begun, with the opening's, at each later moment. The newest that has begun is the one in hand, with the points that were taken, as
/// long as it isn't finished. The newest finished one's points are those of its number, and none is more than that of the commit in hand.
pub fn law_points_taken()
    ensures cuts { said.CutsGoOn }
    ensures taken { said.TakesPoints }
    ensures begun { said.BegunHavePoints }
    ensures in_hand { said.BegunAreAsTaken }
    ensures last { said.LastHasPoints }
    ensures risen { said.RisesFromLast }
{
    law_versions_end();
    law_cuts_show_points();
    law_phases_are_seen();
}

/// A session's point of the commit in hand is no less than the last serial that the session had given as the commit was asked for. A point is no more than what
/// the session has given, nor than the point of a later version.
pub fn law_points_between()
    ensures since { said.SinceAsked }
    ensures given { said.UpToGiven }
    ensures rises { said.RisesByVersion }
{}
