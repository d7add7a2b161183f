//! That no update of a version is left once its commit has come to wait-flush.
ghost use Rattle.law_commit.specs.Said as said;

use crate::cuts::law_cuts_stand;
use crate::floor::law_floor_stands;
use law_paper::law_phases_are_seen;

/// In each life of a store that opened at rest the rank of the phase word never falls. From wait-pending of a commit on each live session goes by a later
/// version than the commit's number. So a session that has no update up to that number gets none any more. While the phase is wait-pending, a session whose
/// owing word reads 0 has none. The keeper stores wait-flush once it has read each owing word as 0, at whatever moments. So from then on no session has an
/// update up to the commit's number, for good. So an update that waits or is attempted is of its session's version; or of the one before, as long as the phase
/// word says in-progress or wait-pending of the session's. As a session takes shares for what waits, each update that waits is of the version that the phase word
/// says. From wait-pending on a session's point of that number stays, whether it sleeps or not. It splits the
/// session's effects at each later moment: just those have a serial up to it that are of that version or an earlier one. Each commit that has begun has come to
/// wait-flush, with the opening's. So all of this holds of its number, for ever.
pub fn law_versions_end()
    ensures ranks { said.RanksRise }
    ensures live { said.LiveAreLater }
    ensures gone { said.NoneComesBack }
    ensures owes { said.OwesNone }
    ensures left { said.NoneIsLeft }
    ensures before { said.WaitsFromBefore }
    ensures latches { said.LatchesAtItsVersion }
    ensures points { said.PointsStay }
    ensures splits { said.PointsAlwaysSplit }
    ensures begun { said.BegunHaveFlushed }
{
    law_floor_stands();
}

/// While the phase is wait-pending, a session's two cut words show its point of the commit's number. Either the first is the cut of that version at the point: the
/// session has left it, or has told so as it wakes. Or one of the two is the cut of an earlier version at the point, and the other that of the version before
/// it, at no later serial: the session sleeps since then. Then its point is that of the version before the commit's.
pub fn law_cuts_show_points()
    ensures { said.CutsShowPoints }
{
    law_versions_end();
    law_cuts_stand();
    law_phases_are_seen();
}
