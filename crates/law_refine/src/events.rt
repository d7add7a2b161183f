//! What the order law's log beside a life has to do with that life.
ghost use Rattle.law_refine.specs.Events.Laws as ghosts;

/// Over every life of a store that was opened, whatever its calls, commits, turns and the order of its steps: what the log beside it is told is
/// the life's trace in the log's words, each call and each answer as the lines that it is, and nothing else.
pub fn law_ghost_trace()
    ensures { ghosts.TraceIsTheLifes }
{}

/// In a life of two sessions of a store with one bucket, session 0 gives a key a value by a new record, session 1 adds to it in place, and a
/// read that had found the record before answers the sum. To the log that life is these events, it has these two effects behind them, and
/// shows the sum for the key. In another, both give the key a value, and the record of the one that loses the slot is dropped. In a third a
/// value is swapped in place, the compare-and-swap of the other session is lost and changes nothing, and a poll then gives its result. In the
/// last an update is refused, which leaves its serial free, and a read finds no value. A trace in which a poll finishes an update and a read that
/// wait has the lines that are written there.
pub fn law_of_a_worked_life()
    ensures { ghosts.LifeIsWorked }
{}

/// In every life that begins as the guard supposes, what the log has fixed is what lies below the safe read-only offset, as the word of that
/// offset says.
pub fn law_ghost_fixed()
    ensures { ghosts.FixedIsSafe }
{}

/// At every moment of such a life a reply to a session, whatever it is, moves what the session has reserved just as the log's events of that step
/// say: it stays, and then none of them takes, publishes or drops an address; the reply is the tail, which the ask raises by one, and
/// that address is reserved, or given up at once; or the address that was reserved is published or dropped, and nothing is reserved any more.
/// No two sessions have reserved one address, and each such address lies at or above the safe read-only offset and below the tail.
pub fn law_ghost_reservations()
    ensures moves { ghosts.RepliesMoveReservations }
    ensures apart { ghosts.NoTwoReserveOne }
    ensures open { ghosts.ReservationsLieOpen }
{}

/// Where no address of the log from the tail up has a record as such a life begins, none has at any moment of it.
pub fn law_ghost_unborn()
    ensures { ghosts.NoneIsBornAtTheTail }
{}

/// Over every such life, from a log that reserves nothing and has no record from the tail up: what a session has reserved is reserved in the log
/// beside the life, with its entry and its record, and what is reserved there is so by a session. Each record that the log's events publish or
/// give up was reserved until then.
pub fn law_ghost_reserved()
    ensures reserved { ghosts.LogReservesTheirs }
    ensures sessions { ghosts.LogReservesNoOthers }
    ensures meets { ghosts.EventsMeetReserved }
{}

/// At every moment of such a life, whatever the next reply to a session is: the effect that it makes is what takes effect by the log's events of
/// that step. It is nothing where they neither change nor publish a record; the update that changes one in place, at the address of the value
/// word that the step asks for, with the reply and the new value that its operation makes of the value found; or the one for which the session has
/// reserved the record that is published: of its key and the request's version, by a word that carries its address, behind the record that the word
/// before named. And each event of such a life puts that effect, with its session, serial, operation and reply, at the front of the life's history,
/// in the version of the request, or leaves it. By an attempt of a read nothing takes effect; and a request is named by its operation, a read by a
/// ticket and an update by its serial.
pub fn law_ghost_effects()
    ensures steps { ghosts.RepliesTakeTheirEffect }
    ensures events { ghosts.EventsMakeTheirEffect }
    ensures reads { ghosts.ReadsTakeNoEffect }
    ensures names { ghosts.RequestsHaveNames }
{}
