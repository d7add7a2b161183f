//! What makes the answers of a session true, over every list of calls, replies and actions.
ghost use Rattle.std.specs.Prelude.{◌≡◌, ◌≢◌, ◌∷◌, ℕ, List, Some, false};
ghost use Rattle.fkv_base.specs.declared.numbers.Serial.{Serial};
ghost use Rattle.fkv_base.specs.declared.numbers.Version.{Version};
ghost use Rattle.fkv_base.specs.declared.phases.Phase.{Phase};
ghost use Rattle.fkv_map.specs.declared.operations.Call.{Call};
ghost use Rattle.fkv_map.specs.declared.operations.Op.{Op};
ghost use Rattle.fkv_plane.specs.declared.places.SessionWord.TheVariants.{Durable as DurableWord};
ghost use Rattle.fkv_plane.specs.declared.places.SharedWord.TheVariants.{Phase as PhaseWord};
ghost use Rattle.fkv_plane.specs.Places.{session_place, shared_place};
ghost use Rattle.fkv_session.specs.Asleep.{is_awake_told};
ghost use Rattle.fkv_session.specs.CallAsks.{Ends, asked_in_call, told_in};
ghost use Rattle.fkv_session.specs.InOrder.{loaded_last};
ghost use Rattle.fkv_session.specs.Kinds.{IsAnswerAtOnce, IsAnswerTo, last_call};
ghost use Rattle.fkv_session.specs.Refused.{before_call};
ghost use Rattle.fkv_session.specs.Replies.{op_called};
ghost use Rattle.fkv_session.specs.SessionRun.{SessionEvent, session_run, tellings};
ghost use Rattle.fkv_session.specs.Sessions.{IsOpened, Seat, SessionState, session_begun};
ghost use Rattle.fkv_session.specs.Shares.{HasItsBuckets};
ghost use Rattle.fkv_session.specs.TrueAnswers.{IsPhaseSeen, IsTrueOf, trial_of};
ghost use Rattle.fkv_session.specs.declared.answers.Told.{Told};
ghost use Rattle.fkv_session.specs.declared.answers.Told.TheVariants.{Durable, Refreshed, Woken};
ghost use Rattle.fkv_session.specs.declared.sessions.Sitting.TheVariants.{Idle};

/// Whatever calls a session begins and whatever its asks are replied, each call is answered in its kind: an update, a read, a refresh, a poll, a
/// sleep, a wake, and the question what is durable. Behind its asks only an operation may be refused, where the index or the log is full. A call
/// that asks nothing is refused, as the law of refusals says, or it is a poll for which nothing waits. What an operation is answered behind its
/// asks stands in the words that its call has loaded. It is the reason for which an update waits, the value that a read finds, that it finds none, or that the index or the
/// log is full; a read too waits for such a reason. A refresh and a wake tell the phase and the version that the session goes by from then
/// on. These are what the phase word says that the call has loaded last; if that says none, they are as they were before the call.
/// What is durable is the word that the call has loaded. A session sleeps from the answer that it sleeps to the answer that it has woken, and
/// is awake at all other times.
pub fn law_of_answers()
    ensures operations { (seat : Seat) (buckets : HasItsBuckets seat) (opening : SessionState) (event : SessionEvent) (before : List SessionEvent) (its : Told) (op : Op) → IsOpened opening
        → Ends seat opening event before its → op_called seat opening (event ∷ before) ≡ Some op
        → IsTrueOf (trial_of seat buckets (session_run seat opening (event ∷ before)).seen (session_run seat opening (event ∷ before)).floor op) (told_in (asked_in_call seat opening (event ∷ before))) its }
    ensures kinds { (seat : Seat) (opening : SessionState) (event : SessionEvent) (before : List SessionEvent) (its : Told) → IsOpened opening → HasItsBuckets seat
        → Ends seat opening event before its
        → IsAnswerTo (last_call seat opening (event ∷ before)) its }
    ensures asks_none { (seat : Seat) (session : SessionState) (called : Call) (its : Told) → (session_begun seat session called).step ≡ Idle its
        → IsAnswerAtOnce session called its }
    ensures refreshed { (seat : Seat) (opening : SessionState) (event : SessionEvent) (before : List SessionEvent) (phase : Phase) (version : Version) → IsOpened opening → HasItsBuckets seat
        → Ends seat opening event before (Refreshed phase version)
        → IsPhaseSeen (before_call seat opening (event ∷ before)).seen (session_run seat opening (event ∷ before)).seen (loaded_last (asked_in_call seat opening (event ∷ before)) (shared_place PhaseWord)) phase version }
    ensures woken { (seat : Seat) (opening : SessionState) (event : SessionEvent) (before : List SessionEvent) (phase : Phase) (version : Version) → IsOpened opening → HasItsBuckets seat
        → Ends seat opening event before (Woken phase version)
        → IsPhaseSeen (before_call seat opening (event ∷ before)).seen (session_run seat opening (event ∷ before)).seen (loaded_last (asked_in_call seat opening (event ∷ before)) (shared_place PhaseWord)) phase version }
    ensures durable { (seat : Seat) (opening : SessionState) (event : SessionEvent) (before : List SessionEvent) (serial : Serial) → IsOpened opening → HasItsBuckets seat
        → Ends seat opening event before (Durable serial)
        → loaded_last (asked_in_call seat opening (event ∷ before)) (session_place seat.number DurableWord) ≡ Some serial.0 }
    ensures awake { (seat : Seat) (opening : SessionState) (events : List SessionEvent) → IsOpened opening
        → (session_run seat opening events).is_awake ≡ is_awake_told (tellings seat opening events) }
{}
