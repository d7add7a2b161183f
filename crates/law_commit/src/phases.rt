//! Phases, views and epochs of a life.
ghost use Rattle.law_commit.specs.Said as said;

use law_refine::law_seen;

/// While a session catches up, by a refresh or a wake, its views' stamps are the epochs that the guard has for its loads of the phase. Each reply keeps it
/// so: the view by which the session goes has the epoch of the load in force, and the one that is coming has that of the last load.
pub fn law_replies_keep_stamps()
    ensures { said.RepliesKeepStamps }
{}

/// In each life of a store that was opened, whatever its calls, commits and the order of its steps, the stamps of each session's views are the guard's loads of
/// the phase. So each view by which a live session goes, or that is coming, was loaded after each safe epoch was raised: its stamp is above.
pub fn law_stamps_are_loads()
    ensures stamped { said.StampsAreLoads }
    ensures view { said.ViewsAreAboveSafe }
    ensures coming { said.ComingIsAboveSafe }
{}

/// In each life of a store that was opened, whatever its calls, commits and the order of its steps, the safe read-only offset is at or below the tail that each
/// live session has seen with its phase. It is at or below the tail of a view that is coming, too.
pub fn law_views_see_tails()
    ensures view { said.SafeIsBelowViews }
    ensures coming { said.SafeIsBelowComing }
{
    law_seen();
}

/// In each life of a store that was opened a session is live where it is awake. Each of its replies is a list of enabled events of the phases on paper: it
/// loads the phase word, goes by the view that was coming, or leaves. As long as what is on paper shows the words and a session, it shows the session that
/// the reply leaves, and the others are as they were. So it is with each event of a life: what is on paper shows each session again. It does so as the
/// life begins, where each session is awake and its view is of the words as they stand. Then an epoch that is safe in the life may be safe on paper: each view
/// that counts there was loaded after its raise. And what is on paper is sound as a life begins whose store rests, and shows its words.
pub fn law_sessions_are_phases()
    ensures live { said.LiveIsAwake }
    ensures replies { said.RepliesAreShown }
    ensures events { said.EventsAreShown }
    ensures safe { said.SafeIsEnabled }
    ensures sound { said.OpeningsAreSound }
    ensures opening { said.OpeningShowsSessions }
{}

/// In each life of a store that was opened an event that leaves the phase word as it is, whoever makes it, is a list of enabled events of the phases on
/// paper: its session's, then raises of the epoch, reservations, and what is safe then. If what is on paper shows the life before, it does behind it: the epoch, what
/// is safe, the tail, the rank of the phase word, and each session.
pub fn law_quiet_events_are_phases()
    ensures { said.QuietEventsAreShown }
{}

/// In each life of a store that opened at rest, as each does, whatever its calls, commits and the order of its steps, at each moment the store is at one stage
/// of the commit that is next. The phase word says the phase of the stage, in the version of that commit or the one behind it. At most one action that stores a
/// phase is in a slot or in hand, and it stores the phase behind the stage's. What the keeper is at fits the stage, and a commit in hand has the number that is
/// next. From moment to moment the version of the phase word never falls, and the word says rest only of the version behind the newest finished commit's number.
pub fn law_phases_in_turn()
    ensures stages { said.CommitsGoByStages }
    ensures rises { said.PhaseVersionNeverFalls }
    ensures rests { said.RestIsOfTheNextVersion }
{}

/// In each life of a store that was opened, where a session in its turn or the keeper is about to run the action of a slot that it has claimed, the action
/// was armed there, and the epoch of its arming is safe.
pub fn law_runs_are_safe()
    ensures session { said.SessionsRunSafely }
    ensures keeper { said.KeeperRunsSafely }
{}
