//! The head that a session has seen rises, and what lies below it is fixed; what a call has in hand; which steps move no action; and the floors
//! by which sessions go.
ghost use Rattle.law_refine.specs.Seen.Laws as seen;

/// In every life of a store that was opened, whatever commits run: what lies below the head that a session has seen is fixed in the log beside the life, where that log
/// began with what lies below the safe read-only offset fixed; and behind no event has a session seen a lower head than before it.
pub fn law_world_seen_rises()
    ensures fixed { seen.BelowSeenIsFixed }
    ensures rises { seen.SeenNeverFalls }
{}

/// In every such life the operation that a call has in hand brings no number that stands for no value. And a session with a call in hand that makes no turn of its own moves by
/// one ask of a word alone: it goes on with the reply, and gives no action to a drain slot and takes none.
pub fn law_calls_in_hand()
    ensures op { seen.CallsHavePlainOps }
    ensures alone { seen.CallsMoveByOneAsk }
{}

/// Where each floor, of sessions, of requests and of attempts, is at or below a begin of the log, so it is behind each event, if nobody who is told
/// then that a record is gone is told a higher begin. So it is over a life from an opening on that gives its sessions such floors.
pub fn law_world_floors()
    ensures stay { seen.FloorsStayBelow }
    ensures lie { seen.FloorsLieBelow }
{}
