//! Each step of a session is a list of the guard's events, and when it is permitted.
ghost use Rattle.law_world.specs.GuardSessions.Followed.{StepsFollow, TurnsFollow, CallsFollow};
ghost use Rattle.law_world.specs.GuardSessions.InPlace.{ChangesAreAbove, MovesArePermitted, RunsMayChange, RunsWriteOuter};
ghost use Rattle.law_world.specs.GuardSessions.WorldSteps.{MovesFollow};

/// Where the guard's actor of a session's number is like the session, whatever the guard's world is otherwise: a step of the
/// session is the list of the guard's events that the map gives. These lead to the words and the actions that the session's own
/// step in the engine's world leads to, and to an actor that is like what the session has become. So does a step by the
/// session's own table, in its own turn with the action that goes with it, and so does a call that begins. For that the words of
/// latches and of the index that a step writes are none of the guard's; a turn and a call's begin need nothing. Nor does it
/// matter whether a session may change what it changes in place.
pub fn law_sessions_followed()
    ensures moves { MovesFollow }
    ensures steps { StepsFollow }
    ensures turns { TurnsFollow }
    ensures calls { CallsFollow }
{}

/// At every moment of a session's run, whatever calls it begins and whatever its asks are replied: a value that it is about to
/// change in place is that of a record at or above the read-only offset that it has seen, and that its step is permitted comes down
/// to that this record lies below the tail. A step that is permitted is a list of permitted events of the guard. The words of
/// latches, links and entries of the index that a step writes, and the count of buckets that are taken, are none of the guard's.
pub fn law_sessions_permitted()
    ensures changes { ChangesAreAbove }
    ensures may_change { RunsMayChange }
    ensures permitted { MovesArePermitted }
    ensures outer { RunsWriteOuter }
{}
