//! The laws of a log of cells and chains. These functions do nothing: what they promise holds of every list of events.
ghost use Rattle.law_log.specs.Begins.{AboveIsLive, EachVersionStaysLive, Live, LiveAtRest, ReadsAbsentBelow, StaysFromThere, WalksBeginLive, WalksStayLive};
ghost use Rattle.law_log.specs.Worked.{IsKept, ChangesWhatIsFixed, CopiesWhatMayChange, GivesOpeningState};
ghost use Rattle.law_log.specs.Laws.{AtEachMoment, HistoryIsLegal, ChainsShowContent, VersionsAreLegal, VersionsInOrder, ChainsFall, MutableIsNewest, NewestShowsContent, CallsAreOrdered, ReadsGiveContent};

/// Over every list of events, each of which keeps to its rule: the newest record of a key in the chain of its home shows the
/// key's value after the updates that have taken effect so far, and each of these was told the reply that the map gives at
/// its place.
pub fn law_chains_show_content()
    ensures content { AtEachMoment ChainsShowContent }
    ensures legal { AtEachMoment HistoryIsLegal }
{}

/// The same holds of each version by itself, from that of the opening on: the newest record of a key of versions up to it
/// shows the key's value after the updates of versions up to it, and these alone would have been told the same replies. Of
/// each home updates of a version take effect before those of later ones.
pub fn law_versions_show_content()
    ensures content { AtEachMoment NewestShowsContent }
    ensures legal { AtEachMoment VersionsAreLegal }
    ensures order { AtEachMoment VersionsInOrder }
{}

/// Down each chain addresses fall and versions never rise, and a record that may still change in place is the newest of its
/// key and its version.
pub fn law_chains_fall()
    ensures fall { AtEachMoment ChainsFall }
    ensures newest { AtEachMoment MutableIsNewest }
{}

/// Over the same lists: each update whose result was given took effect once, with that reply, and none but those that were
/// called; one whose result was given before another was called took effect before it. A read's answer is its key's value
/// after some beginning of the history, in which each update stands whose result had been given at the read's call, and none
/// that was called behind its answer.
pub fn law_calls_in_order()
    ensures orders { AtEachMoment CallsAreOrdered }
    ensures fresh { AtEachMoment ReadsGiveContent }
{}

/// A log that does without its records below an address goes on so. It does so from a moment on at which all below the address is over, if no address below it is taken
/// later. So it is of each version by itself. A log without such records does without them. At rest a log does without them up to the version at rest.
pub fn law_live_stays()
    ensures stays { StaysFromThere Live }
    ensures versions { EachVersionStaysLive }
    ensures above { AboveIsLive }
    ensures rest { LiveAtRest }
{}

/// A walk down the chain of a key may do without the records below its floor, if the log does as it begins. It goes on so, whatever comes, if all below the
/// floor is fixed. And where it has come below its floor, its key reads as absent: no record below is read.
pub fn law_walks_do_without()
    ensures begin { WalksBeginLive }
    ensures stays { WalksStayLive }
    ensures below { ReadsAbsentBelow }
{}

/// A run in which a record is changed in place while a read goes down to it, and one of another key is published over it, is
/// one of those lists. Where two updates are made of one value, since a fixed record is changed or one that may change is
/// copied, the history isn't legal; and a read that is answered the opening's state isn't fresh.
pub fn law_of_worked_runs()
    ensures kept { IsKept }
    ensures fixed { ChangesWhatIsFixed }
    ensures copied { CopiesWhatMayChange }
    ensures stale { GivesOpeningState }
{}
