//! When calls and answers are enabled, in the log's words, in every life of a store that was opened.
ghost use Rattle.law_refine.specs.Calls.Laws as calls;

/// In every life of a store that was opened, whatever its calls, commits, turns and the order of its steps: an update that takes effect by an event was
/// called, under its session's name and its serial and for its operation, and not refused since, and it has not taken effect before.
pub fn law_world_in_hand()
    ensures { calls.EffectsAreOfUpdatesInHand }
{}

/// In every such life, of each line that an event adds, beside the lines before it and what has taken effect by then, with what the event itself makes: an
/// update is called under a name under which none is called then, one that is refused has not taken effect, and a result that is given is the reply
/// of the update's effect. A read is called by a number by which no earlier line calls one.
pub fn law_world_calls()
    ensures { calls.CallsAreEnabled }
{}

/// Where each record that the log's events change in place was published until then, the history of the log beside a life has the entries of the
/// life's, in their order, whatever it says of versions.
pub fn law_ghost_history()
    ensures entries { calls.HistoryHasTheEntries }
    ensures history { calls.HistoryIsTheLifes }
{}
