//! Shares of latches in the lives of opened stores.
ghost use Rattle.law_order.specs.Said as said;

use crate::one_history::law_lives_keep_order;
use crate::rules::law_life_begins;
use law_commit::{law_latched_in_tries, law_shares_not_missed, law_world_latched};
use law_opening::law_latches_open;

/// In each life of an opened store, with commits too, a session holds a latch alone only between two versions, and a try of an update in prepare shares its
/// latch. No share is missed that a session adds as it takes up prepare, and a live session leaves a version from its prepare alone. So in prepare each update
/// that waits shares its latch, as long as no attempt has ended as a shift and isn't made again. No update shares its latch before its session has come to prepare
/// of the update's version. From there on each does, again as long as no attempt has ended so. So while a session takes up no other phase, an update shares its
/// latch just if its session has come to prepare of its version. No attempt ends so in the lives of which the order law speaks: `law_updates_share`.
pub fn law_shares_open()
    ensures alone { said.HoldsAloneBetweenInItsLife }
    ensures tries { said.SharesInTriesOfItsLife }
    ensures meets { said.MeetsNoneAloneInItsLife }
    ensures leaves { said.LeavesFromPrepareInItsLife }
    ensures prepare { said.SharesInPrepareInItsLife }
    ensures only { said.ShareOnlySinceInItsLife }
    ensures since { said.AllShareSinceInItsLife }
    ensures older { said.OlderComeSharingInItsLife }
    ensures just { said.AllShareJustInItsLife }
{
    law_life_begins();
    law_latches_open();
    law_shares_not_missed();
}

/// In each life each update shares its latch from where its session has come to prepare of its version, in its tries too. For no attempt ends as a shift and
/// isn't made again. In prepare all updates that wait share theirs, between their session's calls and in them. One that is tried and is of the version before
/// its session's has come with its share. While a session takes up no other phase, an update shares its latch just if its session has come to prepare of its
/// version. No share is missed as a session takes up prepare: `law_shares_open` (`meets`).
pub fn law_updates_share()
    ensures shifts { said.InEachLife (said.OfEachSession said.HasNotShifted) }
    ensures prepare { said.InEachLife (said.OfEachSession said.SharesInPrepare) }
    ensures since { said.InEachLife (said.OfEachSession said.ShareSincePrepare) }
    ensures older { said.InEachLife (said.OfEachSession said.OlderComesSharing) }
    ensures just { said.InEachLife (said.OfEachSession said.ShareJustSincePrepare) }
{
    law_shares_open();
    law_lives_keep_order();
}

/// In each life of an opened store a latch counts the requests that share it, as `law_world_latched` and `law_latched_in_tries` say. So it is with commits, crashes
/// and failing calls of the device. Only who works on a latch changes its bits. A session shares what its requests share, in tries too, and what it is dropping
/// or giving back. Where a session holds a latch alone, no other does, and no request shares it, in a try or waiting.
pub fn law_lives_count_shares()
    ensures permitted { said.OfItsLives said.ArePermitted }
    ensures shows { said.OfItsLives said.ShowsItsLatches }
    ensures apart { said.OfItsLives said.HoldsApart }
    ensures latched { said.OfItsLives said.KeepsLatchesApart }
    ensures counted { said.OfItsLives said.CountsItsShares }
    ensures shares { said.OfItsLives said.SharesWithTries }
    ensures beside_none { said.OfItsLives said.HoldsBesideNone }
{
    law_latches_open();
    law_world_latched();
    law_latched_in_tries();
}
