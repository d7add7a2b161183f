//! What a session owes for the requests that it accepts, over every list of calls, replies and actions.
ghost use Rattle.std.specs.Prelude.{◌≡◌, ℕ, Bool, ◌∷◌, List, false, true};
ghost use Rattle.fkv_session.specs.Asleep.{IsAsleep};
ghost use Rattle.fkv_session.specs.Counted.{AreAsksCounted};
ghost use Rattle.fkv_session.specs.Polls.{attempted_in_poll, IsPollOf};
ghost use Rattle.fkv_session.specs.Refused.{before_call};
ghost use Rattle.fkv_session.specs.Replies.{op_called};
ghost use Rattle.fkv_session.specs.SessionRun.{SessionEvent, session_run, all_told, is_calling};
ghost use Rattle.fkv_session.specs.Sessions.{IsOpened, Seat, SessionState};
ghost use Rattle.fkv_session.specs.Tickets.{AreTicketsInTurn};
ghost use Rattle.fkv_session.specs.Versions.{AreAsTaken, IsAttemptOfCall, IsAttemptOfRequest, IsVersion, versions_taken};
ghost use Rattle.fkv_session.specs.declared.sessions.Sitting.TheVariants.{Attempts, Idle, Polls};
ghost use Rattle.fkv_session.specs.declared.answers.Told.TheVariants.{Polled};

/// Whatever calls a session begins and whatever its asks are replied: the tickets that its answers give are 1, 2, 3 and so on, after
/// 2^64 - 1 again 1, and the session's is the last of them, so no refused call and no other answer takes one. Each update that waits has
/// the operation for which its serial was taken, and the version that the session had then; a session that opens with a version from 1
/// up to the last always has such a one. What it attempts is the operation of the call in hand, at its version, and in a poll a request
/// that waits, as it stands. A poll attempts each request that waited as it began, in their order and once; it tells those that it has
/// finished and how many wait, and both stand in the order of what waited. While the session sleeps nothing waits, and it accepts no
/// call but one that wakes it, or asks what of it is durable. It counts the asks of words that were replied to since its last call
/// began, as far as a word goes.
pub fn law_of_requests()
    ensures tickets { (seat : Seat) (opening : SessionState) (events : List SessionEvent) → IsOpened opening
        → AreTicketsInTurn (session_run seat opening events).ticket (all_told seat opening events) }
    ensures versions { (seat : Seat) (opening : SessionState) (events : List SessionEvent) → IsOpened opening
        → AreAsTaken (versions_taken seat opening events) (session_run seat opening events).requests }
    ensures version_fits { (seat : Seat) (opening : SessionState) (events : List SessionEvent) → IsOpened opening → IsVersion opening.seen.version.0
        → IsVersion (session_run seat opening events).seen.version.0 }
    ensures at_calls { (seat : Seat) (opening : SessionState) (events : List SessionEvent) (has_shifted : Bool) → IsOpened opening
        → (session_run seat opening events).step ≡ Attempts has_shifted
        → IsAttemptOfCall (session_run seat opening events) (op_called seat opening events) (session_run seat opening events).attempt.pending }
    ensures in_polls { (seat : Seat) (opening : SessionState) (events : List SessionEvent) (index : ℕ) → IsOpened opening
        → (session_run seat opening events).step ≡ Polls index
        → IsAttemptOfRequest (session_run seat opening events).requests index (session_run seat opening events).attempt.pending }
    ensures counted { (seat : Seat) (opening : SessionState) (events : List SessionEvent) → IsOpened opening → AreAsksCounted seat opening events }
    ensures asleep { (seat : Seat) (opening : SessionState) (events : List SessionEvent) → IsOpened opening
        → (session_run seat opening events).is_awake ≡ false
        → IsAsleep (session_run seat opening events).requests (session_run seat opening events).step }
    ensures polls { (seat : Seat) (opening : SessionState) (event : SessionEvent) (before : List SessionEvent) (left : ℕ) → IsOpened opening
        → is_calling (session_run seat opening before) event ≡ true → (session_run seat opening (event ∷ before)).step ≡ Idle (Polled left)
        → IsPollOf (before_call seat opening (event ∷ before)).requests (attempted_in_poll seat opening (event ∷ before)) (session_run seat opening (event ∷ before)).finished (session_run seat opening (event ∷ before)).requests left }
{}
