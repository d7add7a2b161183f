//! Versions, how they end, and the points of commits, in the lives of opened stores.
ghost use Rattle.law_order.specs.Said as said;

use crate::in_turn::{law_ends_open, law_points_open, law_versions_open};
use crate::rules::law_cuts_open;
use law_commit::{
    law_cuts_show_points, law_points_between, law_points_split, law_points_taken,
    law_versions_bounded, law_versions_end,
};

/// In each life of an opened store versions are bounded, as `law_versions_bounded` and `law_points_split` say. So it is with commits, crashes and failing calls
/// of the device. A session's updates are of versions from the life's first one up to its own. An address is taken for a record of the version that is attempted.
/// No record is of a later version than the phase word's, and none of the life itself is of an earlier one than the first. Each keeps its version below the tail,
/// so what a session has seen older stays older. An effect is of the version at which its update was accepted. A session's point of a version that it has left
/// splits its effects by version.
pub fn law_lives_bound_versions()
    ensures requests { said.OfItsSessions said.AsksFromFirst }
    ensures reserves { said.OfItsLives said.TakesForAttempted }
    ensures between { said.OfItsLives said.TakesFromFirst }
    ensures cells { said.InItsLife said.RecordsUptoNow }
    ensures always { said.InItsLife said.RecordsUptoBetween }
    ensures from_first { said.InItsLife said.RecordsFromFirst }
    ensures keeps { said.InItsLife said.RecordsKeepVersions }
    ensures older { said.InItsLife said.RecordsSeenOlder }
    ensures effects { said.OfItsSessions said.EffectsOfVersions }
    ensures points { said.OfItsSessions said.LeftPointSplits }
{
    law_versions_open();
    law_versions_bounded();
    law_points_split();
}

/// In each such life a version ends for good, as `law_versions_end` says. The rank of the phase word never falls. From wait-pending of a commit on each session
/// that is awake goes by a later version than the commit's number. In wait-pending one whose owing word reads 0 has no update up to that number, and gets none any
/// more. From wait-flush on no session has any. So a session's updates are of its version, or of the one before as long as the phase word says so. As it takes
/// shares for what waits, each update that waits is of the version that the phase word says. From wait-pending on its point of the commit's number stays, and
/// splits its effects by version at each later moment. Each commit that has begun has come to wait-flush.
pub fn law_lives_end_versions()
    ensures ranks { said.OfItsLives said.RankGoesOn }
    ensures live { said.OfItsSessions said.LiveIsLater }
    ensures gone { said.OfItsSessions said.GetsNoneBack }
    ensures owes { said.OfItsSessions said.HasNoneAtZero }
    ensures left { said.OfItsSessions said.HasNoneLeft }
    ensures before { said.OfItsSessions said.UpdatesOwnOrBefore }
    ensures latches { said.OfItsSessions said.LatchesForSaid }
    ensures points { said.OfItsSessions said.PointStays }
    ensures splits { said.OfItsSessions said.PointSplitsThen }
    ensures begun { said.OfItsLives said.BegunFlush }
{
    law_ends_open();
    law_versions_end();
}

/// In each such life commits take their sessions' points, as `law_cuts_show_points`, `law_points_taken` and `law_points_between` say. In wait-pending a session's
/// two cut words show its point of the commit's number. Then the first stays or becomes the cut at that point, and the other stays or becomes a cut of the next
/// version. Once taken, the points of the commit in hand are the sessions' points of its number. So are those of each commit that has begun, and of the newest
/// finished one. None of the commit in hand is less than the newest finished one's. A point is no less than what its session had given as the commit was asked
/// for, and no more than what it has given.
pub fn law_lives_take_points()
    ensures shown { said.OfItsSessions said.CutsShowItsPoint }
    ensures cuts { said.OfItsSessions said.ItsCutsGoOn }
    ensures taken { said.OfItsLives said.TakesItsPoints }
    ensures begun { said.OfItsLives said.BegunHaveItsPoints }
    ensures in_hand { said.OfItsLives said.NewestIsAsTaken }
    ensures last { said.OfItsLives said.LastHasItsPoints }
    ensures risen { said.OfItsLives said.PointsRiseFromLast }
    ensures since { said.OfItsLives said.PointsSinceAsked }
    ensures given { said.OfItsLives said.PointsUpToGiven }
{
    law_cuts_open();
    law_ends_open();
    law_points_open();
    law_cuts_show_points();
    law_points_taken();
    law_points_between();
}
