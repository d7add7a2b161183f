//! Phases, versions, cuts, copies and links in the lives of opened stores.
ghost use Rattle.law_commit.specs.Floor.OnPaper.{IsOnPaper};
ghost use Rattle.law_commit.specs.PhaseVersions as phases;
ghost use Rattle.law_order.specs.Opened as opened;

use crate::in_turn::{law_ends_open, law_phases_open};
use crate::rules::{law_cuts_open, law_life_begins};
use law_commit::{
    law_commits_ended, law_copies_cover, law_cuts_stand, law_durable_stands, law_links_meet_empty,
    law_lives_are_phases, law_marks_stand, law_phases_in_turn, law_stamps_are_loads,
    law_versions_counted, law_world_copied,
};

/// Each life of an opened store, with commits, crashes and failing calls of the device, is a run of the phases on paper. Its events are enabled there. At
/// each moment the store is at one stage of the commit that is next. The version of the phase word never falls, and the word says rest only of the version
/// behind the newest finished commit's number. The stamps of each session's views are the guard's loads of the phase. So they are above each safe epoch.
pub fn law_stages_open()
    ensures paper { opened.OfItsLives IsOnPaper }
    ensures stages { opened.OfItsLives opened.IsAtAStage }
    ensures rises { opened.OfItsLives phases.HasRisingPhase }
    ensures rests { opened.OfItsLives phases.RestsAreNext }
    ensures stamped { opened.StampsItsLoads }
    ensures view { opened.OfItsSessions opened.GoesAboveSafe }
    ensures coming { opened.OfItsSessions opened.ComesAboveSafe }
{
    law_life_begins();
    law_lives_are_phases();
    law_phases_in_turn();
    law_stamps_are_loads();
}

/// In each such life the serial of a session is the one with which the life began, and one more for each update whose version is counted. The versions of its
/// updates never fall, and none is above its own. Nor does its own fall, and it is never above the phase word's. Its serial is its point of each version from
/// its own on.
pub fn law_serials_open()
    ensures counted { opened.OfItsSessions opened.CountsItsUpdates }
    ensures risen { opened.OfItsSessions opened.UpdatesInOrder }
    ensures point { opened.OfItsSessions opened.HasItsPoint }
    ensures rises { opened.OfItsSessions opened.GoesUp }
    ensures below { opened.OfItsSessions opened.IsNotAhead }
{
    law_life_begins();
    law_phases_open();
    law_versions_counted();
}

/// In each life of an opened store, with commits, crashes and failing calls, both cut words of a session and its owing word are what it stored there
/// last. Its durable word is what the keeper has: a point of the newest finished commit, or of the one whose words are stored. The cut word of the version
/// that the session has left shows its point of that version, but for what it is about to store. A sleeper's shows its serial.
pub fn law_marks_open()
    ensures marks { opened.OfItsSessions opened.HasItsMarks }
    ensures durable { opened.OfItsSessions opened.HasItsDurable }
    ensures points { opened.OfItsSessions opened.ShowsItsPoint }
    ensures told { opened.OfItsSessions opened.TellsItsLeaving }
    ensures left { opened.OfItsSessions opened.LeavesAtItsPoint }
    ensures asleep { opened.OfItsSessions opened.ShowsItsCutAsleep }
    ensures serials { opened.OfItsSessions opened.CutsNoLater }
{
    law_life_begins();
    law_cuts_open();
    law_phases_open();
    law_marks_stand();
    law_cuts_stand();
    law_durable_stands();
}

/// In each such life the copy of the index that the keeper has begun last has each home once, by an entry that has stood there since. It goes over the life's
/// index, from how that was then, and as far as the keeper's replies lead. Once finished it leaves none out that had an entry as it began. Its triples lead
/// into the chains of the log, and a finished copy covers them as they were then. The copy of a full commit in hand began while the commit was in hand. As long
/// as the device works and its writes have not begun, the copy of one that counts as copied is finished and in hand. Then its triples are what is written. So
/// each full commit that has begun, but the opening's, has written such a copy.
pub fn law_copies_open()
    ensures index { opened.WithItsIndex opened.CopiesItsIndex }
    ensures begun { opened.WithItsIndex opened.BeginsWithItsIndex }
    ensures replies { opened.WithItsIndex opened.CopiesByReplies }
    ensures held { opened.WithItsIndex opened.KeepsItsCopy }
    ensures written { opened.WithItsIndex opened.WritesItsCopy }
    ensures stood { opened.WithItsIndex opened.CopiesWhatStood }
    ensures once { opened.WithItsIndex opened.CopiesHomesOnce }
    ensures whole { opened.WithItsIndex opened.LeavesNoneOut }
    ensures in_chains { opened.WithItsIndex opened.LeadsIntoChains }
    ensures covers { opened.WithItsIndex opened.CoversItsChains }
    ensures commit { opened.WithItsIndex opened.BeginsItsCopy }
    ensures full { opened.WithItsIndex opened.CommitsWriteCopies }
{
    law_life_begins();
    law_ends_open();
    law_world_copied();
    law_copies_cover();
    law_commits_ended();
}

/// In each such life an update's search that goes on to link an overflow bucket has met an empty chain.
pub fn law_links_open()
    ensures meets { opened.WithItsIndex opened.LinksWhereEmpty }
    ensures linked { opened.WithItsIndex opened.HasMetEmpty }
{
    law_life_begins();
    law_links_meet_empty();
}
