//! What holds of each session in every life of a store that was opened: what its own crate proves of every run of it.
ghost use Rattle.std.specs.Prelude.{◌≡◌, ◌≢◌, ◌⊎◌, ◌+◌, ◌-◌, ◌^◌, ◌<◌, ◌≤◌, ◌∷◌, ◌++◌, ℕ, Bool, List, Some, false, min, true};
ghost use Rattle.fkv_base.specs.declared.faults.Fault.{Fault};
ghost use Rattle.fkv_base.specs.declared.numbers.Serial.{Serial};
ghost use Rattle.fkv_base.specs.declared.numbers.Version.{Version};
ghost use Rattle.fkv_base.specs.declared.phases.Phase.{Phase};
ghost use Rattle.fkv_map.specs.declared.operations.Call.{Call};
ghost use Rattle.fkv_map.specs.declared.operations.Op.{Op};
ghost use Rattle.fkv_plane.specs.declared.asks.Ask.TheVariants.{Add};
ghost use Rattle.fkv_plane.specs.declared.places.SessionWord.TheVariants.{Durable as DurableWord};
ghost use Rattle.fkv_plane.specs.declared.places.SharedWord.TheVariants.{Phase as PhaseWord};
ghost use Rattle.fkv_plane.specs.Places.{session_place, shared_place};
ghost use Rattle.fkv_latch.specs.Latching.{is_exclusive, one_share};
ghost use Rattle.fkv_ops.specs.Trying.{is_prepare};
ghost use Rattle.fkv_session.specs.Accounts.{AreAccountedFor, AreInTurn, IsAnsweredOnce, RiseWithin, names_of, number_of};
ghost use Rattle.fkv_session.specs.Asleep.{IsAsleep, is_awake_told};
ghost use Rattle.fkv_session.specs.CallAsks.{Ends, asked_in_call, told_in};
ghost use Rattle.fkv_session.specs.Causes.{IsFirstCause};
ghost use Rattle.fkv_session.specs.Counted.{words_replied};
ghost use Rattle.fkv_session.specs.Cuts.{IsCutTold};
ghost use Rattle.fkv_session.specs.InOrder.{AreToldInOrder, IsEpochLast, IsOwedOrOneMore, epoch_place, exchanged, loaded_last, owing_place, owing_told, serial_leaving};
ghost use Rattle.fkv_session.specs.Kinds.{IsAnswerAtOnce, IsAnswerTo, last_call};
ghost use Rattle.fkv_session.specs.Polls.{IsPollOf, attempted_in_poll};
ghost use Rattle.fkv_session.specs.Reads.{AreReadsAnswered, IsAttemptOf, reads_ended};
ghost use Rattle.fkv_session.specs.Refused.{IsRefusal, IsRefusedWhole, before_call, has_caught_up};
ghost use Rattle.fkv_session.specs.Replies.{AreOfTheirCalls, AreRepliesOfEffects, HasOneEffect, is_of, op_called, serials_taken};
ghost use Rattle.fkv_session.specs.SessionRun.{SessionEvent, in_hand, is_calling, session_run, with_coming};
ghost use Rattle.fkv_session.specs.Sessions.{SessionState, is_busy, session_ask, session_begun, session_next};
ghost use Rattle.fkv_session.specs.Shares.{AllUpdatesShare, HasItsBuckets, OnlyUpdatesShare, has_missed, shares_added, shares_dropped, sharing};
ghost use Rattle.fkv_session.specs.Tickets.{AreTicketsInTurn};
ghost use Rattle.fkv_session.specs.TrueAnswers.{IsPhaseSeen, IsTrueOf, trial_of};
ghost use Rattle.fkv_session.specs.Versions.{AreAsTaken, IsAttemptOfCall, IsAttemptOfRequest, IsVersion, versions_taken};
ghost use Rattle.fkv_session.specs.Words.{AreMarkStores, AreMarksTold, IsCutAsleep, serial_left, stored_last};
ghost use Rattle.fkv_session.specs.declared.answers.Told.{Told};
ghost use Rattle.fkv_session.specs.declared.answers.Told.TheVariants.{Durable, Polled, Refreshed, Refused, Woken};
ghost use Rattle.fkv_session.specs.declared.sessions.CatchCause.TheVariants.{Wakes};
ghost use Rattle.fkv_session.specs.declared.sessions.CatchCause.{CatchCause};
ghost use Rattle.fkv_session.specs.declared.sessions.Sitting.TheVariants.{Attempts, CatchesUp, Idle, Leaves, Polls, StoresOwing};
ghost use Rattle.fkv_world.specs.Opened.{HasBecome, answers_of, effects_of, life_effects, life_told};
ghost use Rattle.fkv_world.specs.OwnEvents.{session_events};
ghost use Rattle.fkv_world.specs.Runs.{World, run};
ghost use Rattle.fkv_world.specs.World.{Event, seat_at};

/// Whatever the other actors do, the serials that the answers of a session give follow on one another, and the session's is the last of them.
/// Of the requests that its answers left pending each waits, or was told as finished by a poll, just once; an update of each serial given is
/// done at its call, or is one of these; and the updates that wait stand in the order of their serials.
pub fn law_world_sessions()
    ensures serials { (opening : World) (events : List Event) (session : ℕ) (first its : SessionState) → HasBecome opening events session first its
        → AreInTurn first.serial its.serial (life_told opening events session first) }
    ensures accounts { (opening : World) (events : List Event) (session : ℕ) (first its : SessionState) → HasBecome opening events session first its
        → AreAccountedFor (life_told opening events session first) (names_of its.requests) (in_hand its.step its.finished) }
    ensures once { (opening : World) (events : List Event) (session : ℕ) (first its : SessionState) (serial : ℕ) → HasBecome opening events session first its
        → first.serial < serial
        → serial ≤ its.serial
        → IsAnsweredOnce (life_told opening events session first) (names_of its.requests) (in_hand its.step its.finished) serial }
    ensures order { (opening : World) (events : List Event) (session : ℕ) (first its : SessionState) → HasBecome opening events session first its
        → RiseWithin first.serial its.serial (names_of its.requests) }
{}

/// Whatever the other actors do, a session tells in its cut word where a version has ended for it, and in its owing word how many updates of
/// that version wait, as the law of cuts of a session says: where it leaves a version, while it sleeps, in the middle of a call, and before
/// it stores its epoch word.
pub fn law_world_cuts()
    ensures takes_up { (opening : World) (events : List Event) (session : ℕ) (first its : SessionState) (cause : CatchCause) → HasBecome opening events session first its
        → its.step ≡ CatchesUp cause
        → IsCutTold (seat_at opening.now session) its }
    ensures stores { (opening : World) (events : List Event) (session : ℕ) (first its : SessionState) → HasBecome opening events session first its
        → AreMarkStores (seat_at opening.now session) its }
    ensures told { (opening : World) (events : List Event) (session : ℕ) (first its : SessionState) (words : ℕ → ℕ) (serial : ℕ) → HasBecome opening events session first its
        → is_busy its.step ≡ false
        → serial_left (seat_at opening.now session) first (session_events opening session events) ≡ Some serial
        → AreMarksTold (seat_at opening.now session) its (λ place. stored_last (seat_at opening.now session) first words (session_events opening session events) place) serial }
    ensures asleep { (opening : World) (events : List Event) (session : ℕ) (first its : SessionState) (words : ℕ → ℕ) → HasBecome opening events session first its
        → its.is_awake ≡ false
        → its.step ≢ CatchesUp Wakes
        → IsCutAsleep (seat_at opening.now session) its (λ place. stored_last (seat_at opening.now session) first words (session_events opening session events) place) }
    ensures unprotected { (opening : World) (events : List Event) (session : ℕ) (first its : SessionState) (words : ℕ → ℕ) → HasBecome opening events session first its
        → its.is_awake ≡ false
        → its.step ≢ CatchesUp Wakes
        → stored_last (seat_at opening.now session) first words (session_events opening session events) (epoch_place (seat_at opening.now session)) ≡ 0 }
    ensures leaves { (opening : World) (events : List Event) (session : ℕ) (first its : SessionState) (words : ℕ → ℕ) → HasBecome opening events session first its
        → its.step ≡ Leaves
        → IsCutAsleep (seat_at opening.now session) its (λ place. stored_last (seat_at opening.now session) first words (session_events opening session events) place) }
    ensures in_order { (opening : World) (events : List Event) (session : ℕ) (first its : SessionState) (words : ℕ → ℕ) (serial : ℕ) → HasBecome opening events session first its
        → serial_leaving (seat_at opening.now session) first (session_events opening session events) ≡ Some serial
        → AreToldInOrder (seat_at opening.now session) its (λ place. stored_last (seat_at opening.now session) first words (session_events opening session events) place) serial }
    ensures polls_owing { (opening : World) (events : List Event) (session : ℕ) (first its : SessionState) (words : ℕ → ℕ) (index serial : ℕ) → HasBecome opening events session first its
        → its.step ≡ StoresOwing index
        → serial_left (seat_at opening.now session) first (session_events opening session events) ≡ Some serial
        → IsOwedOrOneMore (stored_last (seat_at opening.now session) first words (session_events opening session events) (owing_place (seat_at opening.now session))) (owing_told its) }
    ensures epoch_last { (opening : World) (events : List Event) (session : ℕ) (first its : SessionState) (cause : CatchCause) → HasBecome opening events session first its
        → its.step ≡ CatchesUp cause
        → cause ≢ Wakes
        → IsEpochLast (seat_at opening.now session) its (exchanged (seat_at opening.now session) first (session_events opening session events)) }
{}

/// Whatever the other actors do, each update of a session that is told as done is told the reply of its effect, and was told none before it.
/// Where no call is in hand each serial that was taken has made one effect, or waits and has made none, and there is no other effect. Each
/// effect is the session's own, of an update, and of the operation of the call that took its serial.
pub fn law_world_replies()
    ensures replies { (opening : World) (events : List Event) (session : ℕ) (first its : SessionState) → HasBecome opening events session first its
        → AreRepliesOfEffects (life_effects opening events session first) (life_told opening events session first) (in_hand its.step its.finished) (is_busy its.step) }
    ensures once { (opening : World) (events : List Event) (session : ℕ) (first its : SessionState) (serial : ℕ) → HasBecome opening events session first its
        → is_busy its.step ≡ false
        → first.serial < serial
        → serial ≤ its.serial
        → HasOneEffect (life_effects opening events session first) (names_of its.requests) serial }
    ensures no_other { (opening : World) (events : List Event) (session : ℕ) (first its : SessionState) (serial : ℕ) → HasBecome opening events session first its
        → is_busy its.step ≡ false
        → (serial ≤ first.serial) ⊎ (its.serial < serial)
        → number_of (is_of serial) (life_effects opening events session first) ≡ 0 }
    ensures operations { (opening : World) (events : List Event) (session : ℕ) (first its : SessionState) → HasBecome opening events session first its
        → AreOfTheirCalls session its (op_called (seat_at opening.now session) first (session_events opening session events)) (serials_taken (seat_at opening.now session) first (session_events opening session events)) (life_effects opening events session first) }
{}

/// Whatever the other actors do, of the requests of a session that wait only updates share latches, and what they share is all that the session
/// has added to a latch and not taken off again. A share that has met bit 63 is given back by the next ask. In prepare all updates that wait
/// share their latches, from whatever moment of the life at which no call of the session was in hand and it was not in prepare, as long as no
/// reply since then has left one without.
pub fn law_world_latches()
    ensures updates { (opening : World) (events : List Event) (session : ℕ) (first its : SessionState) → HasBecome opening events session first its
        → HasItsBuckets (seat_at opening.now session)
        → OnlyUpdatesShare its.requests }
    ensures accounts { (opening : World) (events : List Event) (session : ℕ) (first its : SessionState) (place : ℕ) → HasBecome opening events session first its
        → HasItsBuckets (seat_at opening.now session)
        → is_busy its.step ≡ false
        → shares_added (seat_at opening.now session) first (session_events opening session events) place ≡ shares_dropped (seat_at opening.now session) first (session_events opening session events) place + sharing (seat_at opening.now session) place its.requests }
    ensures gives_back { (opening : World) (events : List Event) (session : ℕ) (first its : SessionState) (place reply : ℕ) → HasBecome opening events session first its
        → HasItsBuckets (seat_at opening.now session)
        → session_ask (seat_at opening.now session) its ≡ Add place one_share
        → is_exclusive reply ≡ true
        → session_ask (seat_at opening.now session) (session_next (seat_at opening.now session) its reply) ≡ Add place (2 ^ 64 - one_share) }
    ensures prepare { (opening : World) (later before : List Event) (session : ℕ) (first was its : SessionState) → HasBecome opening before session first was
        → HasBecome opening (later ++ before) session first its
        → HasItsBuckets (seat_at opening.now session)
        → is_busy was.step ≡ false
        → is_prepare was.seen.phase ≡ false
        → has_missed (seat_at opening.now session) was (session_events (run opening before) session later) ≡ false
        → is_busy its.step ≡ false
        → is_prepare its.seen.phase ≡ true
        → AllUpdatesShare its.requests }
{}

/// Whatever the other actors do, each read of a session that is told as answered, at its call or by a poll with its ticket, is told what its
/// attempt has come to, and each attempt of a read that comes to an end is told so. What is attempted at a call is its operation, and in a poll
/// the request that waits at the place which the poll has come to.
pub fn law_world_reads()
    ensures answers { (opening : World) (events : List Event) (session : ℕ) (first its : SessionState) → HasBecome opening events session first its
        → AreReadsAnswered (reads_ended (seat_at opening.now session) first (session_events opening session events)) (life_told opening events session first) (in_hand its.step its.finished) }
    ensures called { (opening : World) (events : List Event) (session : ℕ) (first its : SessionState) (has_shifted : Bool) → HasBecome opening events session first its
        → its.step ≡ Attempts has_shifted
        → op_called (seat_at opening.now session) first (session_events opening session events) ≡ Some its.attempt.pending.request.op }
    ensures polled { (opening : World) (events : List Event) (session : ℕ) (first its : SessionState) (index : ℕ) → HasBecome opening events session first its
        → its.step ≡ Polls index
        → IsAttemptOf its.requests index its.attempt.pending }
{}

/// Whatever the other actors do, the tickets of a session come in turn, the updates that wait have the operations and the versions for which
/// their serials were taken, and what it attempts is the operation of the call in hand or a request that waits. A poll attempts each request
/// that waited as it began, in their order and once, and tells those that it has finished. While the session sleeps nothing waits. It counts the
/// asks of words that were replied to since its last call began.
pub fn law_world_requests()
    ensures tickets { (opening : World) (events : List Event) (session : ℕ) (first its : SessionState) → HasBecome opening events session first its
        → AreTicketsInTurn its.ticket (life_told opening events session first) }
    ensures versions { (opening : World) (events : List Event) (session : ℕ) (first its : SessionState) → HasBecome opening events session first its
        → AreAsTaken (versions_taken (seat_at opening.now session) first (session_events opening session events)) its.requests }
    ensures version_fits { (opening : World) (events : List Event) (session : ℕ) (first its : SessionState) → HasBecome opening events session first its
        → IsVersion first.seen.version.0
        → IsVersion its.seen.version.0 }
    ensures at_calls { (opening : World) (events : List Event) (session : ℕ) (first its : SessionState) (has_shifted : Bool) → HasBecome opening events session first its
        → its.step ≡ Attempts has_shifted
        → IsAttemptOfCall its (op_called (seat_at opening.now session) first (session_events opening session events)) its.attempt.pending }
    ensures in_polls { (opening : World) (events : List Event) (session : ℕ) (first its : SessionState) (index : ℕ) → HasBecome opening events session first its
        → its.step ≡ Polls index
        → IsAttemptOfRequest its.requests index its.attempt.pending }
    ensures counted { (opening : World) (events : List Event) (session : ℕ) (first its : SessionState) → HasBecome opening events session first its
        → its.asks ≡ min (words_replied (seat_at opening.now session) first (session_events opening session events)) (2 ^ 64 - 1) }
    ensures asleep { (opening : World) (events : List Event) (session : ℕ) (first its : SessionState) → HasBecome opening events session first its
        → its.is_awake ≡ false
        → IsAsleep its.requests its.step }
    ensures polls { (opening : World) (events : List Event) (session : ℕ) (first its : SessionState) (event : SessionEvent) (before : List SessionEvent) (left : ℕ) → HasBecome opening events session first its
        → session_events opening session events ≡ event ∷ before
        → is_calling (session_run (seat_at opening.now session) first before) event ≡ true
        → its.step ≡ Idle (Polled left)
        → IsPollOf (before_call (seat_at opening.now session) first (session_events opening session events)).requests (attempted_in_poll (seat_at opening.now session) first (session_events opening session events)) its.finished its.requests left }
{}

/// Whatever the other actors do, a call of a session is refused before its first ask just where a fault has a cause, and by the first that has one.
/// Such a call leaves all but its answer as it was. One that is refused later has taken no serial and no ticket, no request has come or gone by it,
/// and what a poll has finished stays.
pub fn law_world_refusals()
    ensures cause { (opening : World) (events : List Event) (session : ℕ) (first its : SessionState) (call : Call) (why : Fault) → HasBecome opening events session first its
        → (session_begun (seat_at opening.now session) its call).step ≡ Idle (Refused why)
        → IsFirstCause its call why }
    ensures refused { (opening : World) (events : List Event) (session : ℕ) (first its : SessionState) (call : Call) (why : Fault) → HasBecome opening events session first its
        → IsFirstCause its call why
        → (session_begun (seat_at opening.now session) its call).step ≡ Idle (Refused why) }
    ensures at_once { (opening : World) (events : List Event) (session : ℕ) (first its : SessionState) (call : Call) (why : Fault) → HasBecome opening events session first its
        → IsRefusedWhole (seat_at opening.now session) its call why }
    ensures later { (opening : World) (events : List Event) (session : ℕ) (first its : SessionState) (why : Fault) → HasBecome opening events session first its
        → its.step ≡ Idle (Refused why)
        → IsRefusal (before_call (seat_at opening.now session) first (session_events opening session events)) its (has_caught_up (seat_at opening.now session) first (session_events opening session events)) }
{}

/// Whatever the other actors do, each call of a session is answered in its kind. Behind its asks only an operation may be refused, where the
/// index or the log is full, or has no more left than a living store keeps for its polls. A call that asks nothing is refused, as the law of refusals says, or it is a poll for which nothing waits. What an
/// operation is answered behind its asks stands in the words that its call has loaded. A refresh and a wake tell what the session goes by from
/// then on, by the phase word that the call has loaded last; and what is durable is the word that the call has loaded. A session sleeps from the
/// answer that it sleeps to the answer that it has woken, as callers see these, and is awake at all other times.
pub fn law_world_told()
    ensures operations { (opening : World) (events : List Event) (session : ℕ) (first its : SessionState) (event : SessionEvent) (before : List SessionEvent) (buckets : HasItsBuckets (seat_at opening.now session)) (told : Told) (op : Op) → HasBecome opening events session first its
        → session_events opening session events ≡ event ∷ before
        → Ends (seat_at opening.now session) first event before told
        → op_called (seat_at opening.now session) first (event ∷ before) ≡ Some op
        → IsTrueOf (trial_of (seat_at opening.now session) buckets its.seen its.floor op) (told_in (asked_in_call (seat_at opening.now session) first (event ∷ before))) told }
    ensures kinds { (opening : World) (events : List Event) (session : ℕ) (first its : SessionState) (event : SessionEvent) (before : List SessionEvent) (told : Told) → HasBecome opening events session first its
        → session_events opening session events ≡ event ∷ before
        → HasItsBuckets (seat_at opening.now session)
        → Ends (seat_at opening.now session) first event before told
        → IsAnswerTo (last_call (seat_at opening.now session) first (event ∷ before)) told }
    ensures asks_none { (opening : World) (events : List Event) (session : ℕ) (first its : SessionState) (call : Call) (told : Told) → HasBecome opening events session first its
        → (session_begun (seat_at opening.now session) its call).step ≡ Idle told
        → IsAnswerAtOnce its call told }
    ensures refreshed { (opening : World) (events : List Event) (session : ℕ) (first its : SessionState) (event : SessionEvent) (before : List SessionEvent) (phase : Phase) (version : Version) → HasBecome opening events session first its
        → session_events opening session events ≡ event ∷ before
        → HasItsBuckets (seat_at opening.now session)
        → Ends (seat_at opening.now session) first event before (Refreshed phase version)
        → IsPhaseSeen (before_call (seat_at opening.now session) first (event ∷ before)).seen its.seen (loaded_last (asked_in_call (seat_at opening.now session) first (event ∷ before)) (shared_place PhaseWord)) phase version }
    ensures woken { (opening : World) (events : List Event) (session : ℕ) (first its : SessionState) (event : SessionEvent) (before : List SessionEvent) (phase : Phase) (version : Version) → HasBecome opening events session first its
        → session_events opening session events ≡ event ∷ before
        → HasItsBuckets (seat_at opening.now session)
        → Ends (seat_at opening.now session) first event before (Woken phase version)
        → IsPhaseSeen (before_call (seat_at opening.now session) first (event ∷ before)).seen its.seen (loaded_last (asked_in_call (seat_at opening.now session) first (event ∷ before)) (shared_place PhaseWord)) phase version }
    ensures durable { (opening : World) (events : List Event) (session : ℕ) (first its : SessionState) (event : SessionEvent) (before : List SessionEvent) (serial : Serial) → HasBecome opening events session first its
        → session_events opening session events ≡ event ∷ before
        → HasItsBuckets (seat_at opening.now session)
        → Ends (seat_at opening.now session) first event before (Durable serial)
        → loaded_last (asked_in_call (seat_at opening.now session) first (event ∷ before)) (session_place session DurableWord) ≡ Some serial.0 }
    ensures awake { (opening : World) (events : List Event) (session : ℕ) (first its : SessionState) → HasBecome opening events session first its
        → its.is_awake ≡ is_awake_told (answers_of session (run opening events).past.trace) }
{}

/// The answers of which the laws of sessions speak are those that callers see: in every life what a session has told is what the trace has as
/// its answers, with the one that is coming.
pub fn law_world_answers()
    ensures { (opening : World) (events : List Event) (session : ℕ) (first its : SessionState) → HasBecome opening events session first its
        → life_told opening events session first ≡ with_coming its.step its.finished (answers_of session (run opening events).past.trace) }
{}

/// The effects of which the laws of sessions speak are those of the history: in every life its entries of a session are, in their order, what
/// that session has told as its effects.
pub fn law_world_effects()
    ensures { (opening : World) (events : List Event) (session : ℕ) (first its : SessionState) → HasBecome opening events session first its
        → life_effects opening events session first ≡ effects_of session (run opening events).past.history }
{}
