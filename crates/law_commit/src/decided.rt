//! Which addresses of a life's log are taken and decided.
ghost use Rattle.law_commit.specs.Said as said;

use crate::floor::law_floor_stands;
use crate::quiet::law_versions_end;
use law_paper::law_phases_are_seen;
use law_refine::law_copied;

/// In every life of a store that was opened each address from the tail with which it began up to the tail is taken: its record is being made, stands, or was
/// given up. A record that is being made lies at or above the tail of its session's view. So all is decided below what each session that is awake has seen as
/// tail, and stays so below the tail.
pub fn law_addresses_taken()
    ensures taken { said.TakesUptoTail }
    ensures above_view { said.MakesAboveItsView }
    ensures below_views { said.DecidesBelowViews }
    ensures stays { said.StaysDecided }
    ensures settled { said.SettlesDecided }
{}

/// In each life of a store that opened at rest, as its sessions have seen, all is decided below the first address of the commit in hand from in-progress on.
/// So it was as a full commit's copy began. Once its points are taken and the epoch of its last arming is safe all is decided below its end, and so as it is
/// written.
pub fn law_commits_decided()
    ensures first { said.DecidesBelowFirst }
    ensures before_copies { said.DecidesBeforeCopies }
    ensures end { said.DecidesBelowEnd }
{
    law_floor_stands();
}

/// Let the tail have been at or below an address at a moment, and let all that was attempted since be of later versions than one. Then each record from the
/// address on is of a later version too. While the phase word says wait-pending or wait-flush, each session that is awake goes by a later version than the
/// commit in hand. So what it attempts at a call is of a later one; and all that is attempted is, if what polls attempt is.
pub fn law_later_above()
    ensures above { said.MakesLaterFrom }
    ensures goes { said.GoesByLater }
    ensures attempts { said.AttemptsLaterButPolls }
{
    law_floor_stands();
}

/// In each such life the first address of the commit in hand lies at or below the tail from in-progress on, and so does its end as it is written. So each
/// record from the first tail to that address stands or was given up.
pub fn law_commits_settled()
    ensures first { said.SettlesBelowFirst }
    ensures end { said.SettlesBelowEnd }
{
    law_phases_are_seen();
    law_floor_stands();
}

/// In every life of a store that was opened, if each address that stood in a chain was taken then, each that stands in a chain lies below the tail. So does
/// where the triples lead of the copy that began last. Below the tail with which the life began each chain has just what it had then.
pub fn law_chains_below()
    ensures chains { said.ChainsLieBelowTail }
    ensures old { said.ChainsKeepTheOld }
    ensures triples { said.TriplesLieBelowTail }
{}

/// Each commit that has begun in a life of a store that opened at rest, but the opening's, has come through three moments. Its first address was the tail as the
/// keeper loaded that in prepare. Its end was the tail as the keeper loaded that in wait-flush: then it was copied, and a full one had the copy in hand whose
/// triples it writes. And it was in hand as it was written, with this number, kind, first address and end, and these triples.
pub fn law_commits_ended()
    ensures { said.CommitsHaveEnded }
{}

/// So the commit cuts the log at its version, from then on and for good. Each record from its end on is of a later version: by then no update of its version
/// was left. Below its end none is of a version past the next one, and each from the first tail on stands or was given up. Below its first address none is of a
/// later version than its own, and from there on none of an earlier one. A newer commit ends no lower. If the opening's log began at or below the first address
/// of its checkpoint, so does the log of each, and at or below its own first address. One that uses the opening's checkpoint begins where the opening's does.
/// What a full commit writes are triples, no two of one home, each of a bucket of the index. Each leads into its home's chain, below the commit's end. They
/// cover the chains as these were when the copy began, and since then the chains have got nothing below the commit's first address.
pub fn law_commits_cut()
    ensures later { said.OfEachBegun said.IsLaterFromEnd }
    ensures young { said.OfEachBegun said.IsYoungBelowEnd }
    ensures settled { said.OfEachBegun said.IsSettledBelowEnd }
    ensures old { said.OfEachBegun (said.ButOpenings said.IsOldBelowFirst) }
    ensures recent { said.OfEachBegun (said.ButOpenings said.IsRecentFromFirst) }
    ensures ends { said.EndsRise }
    ensures begins { said.BegunBeginBelow }
    ensures as_opened { said.OldBeginAsOpened }
    ensures triples { said.FullCommitsSpellChains }
{
    law_copied();
    law_phases_are_seen();
    law_floor_stands();
    law_versions_end();
}
