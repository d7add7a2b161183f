//! Which addresses of the log are decided in each life of a store that was opened.
ghost use Rattle.law_order.specs.Said as said;

use crate::in_turn::{law_ends_open, law_versions_open};
use crate::rules::law_life_begins;
use law_commit::{
    law_addresses_taken, law_chains_below, law_commits_cut, law_commits_decided, law_commits_ended,
    law_commits_settled, law_versions_bounded,
};
use law_opening::{law_lives_change_published, law_log_counted};

/// In each life of an opened store, with commits, crashes and failing calls of the device, each address from the first tail up to the tail is taken. All is
/// decided below what each session that is awake has seen as tail. So it is below the first address of the commit in hand, from in-progress on and as its copy
/// began; and below its end as it is written. So from the first tail to there each record stands or was given up.
pub fn law_decided_opens()
    ensures taken { said.InItsLife said.HasTaken }
    ensures seen { said.InItsLife said.HasDecidedSeen }
    ensures first { said.InItsLife said.HasDecidedFirst }
    ensures copied { said.InItsLife said.HadDecidedFirst }
    ensures end { said.InItsLife said.HasDecidedEnd }
    ensures settled_first { said.InItsLife said.HasSettledFirst }
    ensures settled_end { said.InItsLife said.HasSettledEnd }
{
    law_life_begins();
    law_addresses_taken();
    law_commits_decided();
    law_commits_settled();
}

/// In each such life each address that stands in a chain lies below the tail. So does where the triples lead of the copy that began last.
pub fn law_chains_open()
    ensures chains { said.InItsLife said.HasChainsBelow }
    ensures copies { said.CopiesBelowTail }
{
    law_life_begins();
    law_chains_below();
}

/// Each commit that has begun in such a life cuts the log beside it, from then on and for good. But for the opening's, its first address was the tail as it started,
/// and its end was the tail before it was written. From its end on each record is of a later version. Below its end none is of a version past the next one. Records
/// that were given up count, too. So it cuts the log as an image wants that names it: what is published of versions up to its own lies below its end. From the opened
/// tail on each record below its end is published or was given up. A newer commit ends no lower. If this life has begun the commit, what is published below its
/// first address is of no later version than its own, and from there on no record is of an earlier one. If it is a full one besides, it has written triples that an image can read back, and in an image that has them
/// these cover the chains.
pub fn law_cut_opens()
    ensures ended { said.OfEachBegun said.HasComeToItsEnd }
    ensures later { said.OfEachBegun said.IsLaterFromEnd }
    ensures young { said.OfEachBegun said.IsYoungBelowEnd }
    ensures cut { said.OfEachBegun said.CutsItsLog }
    ensures decided { said.OfEachBegun said.DecidesItsLog }
    ensures ends { said.EndsRise }
    ensures old { said.OfEachBegun said.IsOldBelow }
    ensures recent { said.OfEachBegun said.IsRecentFromFirst }
    ensures covers { said.OfEachBegun said.CoversItsChains }
{
    law_life_begins();
    law_ends_open();
    law_versions_open();
    law_commits_ended();
    law_commits_cut();
    law_lives_change_published();
}

/// In each such life the log has below the opened end what counted as the store was opened, of the opening's version, and no more. What is published or was given up
/// from there on is of later versions. So lost ranges that lose just what the opening has left out do so at each moment.
pub fn law_old_opens()
    ensures before { said.OfEachLife said.KeepsWhatCounted }
    ensures later { said.OfEachLife said.IsLaterAbove }
    ensures made { said.OfEachLife said.MakesLaterAbove }
    ensures loses { said.OfEachLife said.LosesAsBefore }
{
    law_life_begins();
    law_versions_open();
    law_log_counted();
    law_chains_below();
    law_versions_bounded();
    law_lives_change_published();
}
