//! Shares of latches.
ghost use Rattle.law_commit.specs.Said as said;

use law_paper::law_phases_are_seen;
use law_refine::law_world_latched;

/// In each life of a store that opened at rest, as each does, with commits too, a session holds a latch alone only while it is awake and goes by in-progress or
/// wait-pending. A try of an update in prepare shares its latch from where it has taken its share on, and one whose request came with its latch does in each
/// phase. No other does. No latch is held alone as a session takes up prepare. So no share that it adds then is missed. Where
/// the word of a latch has bit 63, the phase word has come further than the prepare by which a live session goes. A live session leaves a version from its
/// prepare alone. In prepare each update that waits shares its latch, between the session's calls and in them, as long as no attempt has ended as a shift and isn't
/// made again. No update shares its latch before its session has come to prepare of the update's version. From there on each does, also of the version before the
/// session's, again as long as no attempt has ended so. So while a session takes up no other phase, an update shares its latch just if its session has come to
/// prepare of its version.
pub fn law_shares_not_missed()
    ensures alone { said.HoldsAloneBetween }
    ensures by_rank { said.HoldsAloneByRank }
    ensures tries { said.SharesInTries }
    ensures meets { said.MeetsNoneAlone }
    ensures bit { said.BitIsPastPrepare }
    ensures leaves { said.LeavesFromPrepare }
    ensures prepare { said.SharesInPrepare }
    ensures only { said.ShareOnlySince }
    ensures since { said.AllShareSince }
    ensures older { said.OlderComeSharing }
    ensures just { said.AllShareJust }
{
    law_phases_are_seen();
    law_world_latched();
}
