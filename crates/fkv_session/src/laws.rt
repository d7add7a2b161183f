//! What a session owes for its calls, over every list of calls, replies and actions.
ghost use Rattle.std.specs.Prelude.{◌≡◌, ◌≢◌, ◌+◌, ◌-◌, ◌^◌, ◌<◌, ◌≤◌, ◌⊎◌, ◌∷◌, ℕ, Bool, List, Some, true, false};
ghost use Rattle.fkv_plane.specs.declared.asks.Ask.TheVariants.{Add};
ghost use Rattle.fkv_latch.specs.Latching.{is_exclusive, one_share};
ghost use Rattle.fkv_base.specs.declared.faults.Fault.{Fault};
ghost use Rattle.fkv_map.specs.declared.operations.Call.{Call};
ghost use Rattle.fkv_session.specs.declared.answers.Told.TheVariants.{Refused};
ghost use Rattle.fkv_session.specs.declared.sessions.Sitting.TheVariants.{Idle, Attempts, CatchesUp, Leaves, Polls, StoresOwing};
ghost use Rattle.fkv_session.specs.Accounts.{AreInTurn, AreAccountedFor, IsAnsweredOnce, RiseWithin, names_of, number_of};
ghost use Rattle.fkv_session.specs.declared.sessions.CatchCause.{CatchCause};
ghost use Rattle.fkv_session.specs.declared.sessions.CatchCause.TheVariants.{Wakes};
ghost use Rattle.fkv_session.specs.Causes.{IsFirstCause};
ghost use Rattle.fkv_session.specs.Cuts.{IsCutTold};
ghost use Rattle.fkv_session.specs.InOrder.{AreToldInOrder, IsEpochLast, IsOwedOrOneMore, epoch_place, exchanged, owing_place, owing_told, serial_leaving};
ghost use Rattle.fkv_session.specs.Reads.{AreReadsAnswered, IsAttemptOf, reads_ended};
ghost use Rattle.fkv_session.specs.Refused.{before_call, has_caught_up, IsRefusal, IsRefusedWhole};
ghost use Rattle.fkv_session.specs.Replies.{AreOfTheirCalls, AreRepliesOfEffects, HasOneEffect, effects_told, is_of, op_called, serials_taken};
ghost use Rattle.fkv_session.specs.SessionRun.{Replies, SessionEvent, session_run, all_told, in_hand};
ghost use Rattle.fkv_session.specs.Sessions.{IsOpened, Seat, SessionState, is_busy, session_ask, session_begun};
ghost use Rattle.fkv_ops.specs.Trying.{is_prepare};
ghost use Rattle.fkv_session.specs.Shares.{AllUpdatesShare, HasItsBuckets, OnlyUpdatesShare, has_missed, shares_added, shares_dropped, sharing};
ghost use Rattle.fkv_session.specs.Words.{AreMarkStores, AreMarksTold, IsCutAsleep, serial_left, stored_last};

/// Whatever calls a session begins and whatever its asks are replied: the serials that its answers give follow on one another, and the
/// session's is the last of them, so no refused call takes one. Of the requests that its answers left pending each waits, or was told
/// as finished by a poll, just once; and an update of each serial given is done at its call, or is one of these. The updates that wait
/// stand in the order of their serials.
pub fn law_sessions()
    ensures serials { (seat : Seat) (opening : SessionState) (events : List SessionEvent) → IsOpened opening
        → AreInTurn opening.serial (session_run seat opening events).serial (all_told seat opening events) }
    ensures accounts { (seat : Seat) (opening : SessionState) (events : List SessionEvent) → IsOpened opening
        → AreAccountedFor (all_told seat opening events) (names_of (session_run seat opening events).requests) (in_hand (session_run seat opening events).step (session_run seat opening events).finished) }
    ensures once { (seat : Seat) (opening : SessionState) (events : List SessionEvent) (serial : ℕ) → IsOpened opening
        → opening.serial < serial → serial ≤ (session_run seat opening events).serial
        → IsAnsweredOnce (all_told seat opening events) (names_of (session_run seat opening events).requests) (in_hand (session_run seat opening events).step (session_run seat opening events).finished) serial }
    ensures order { (seat : Seat) (opening : SessionState) (events : List SessionEvent) → IsOpened opening
        → RiseWithin opening.serial (session_run seat opening events).serial (names_of (session_run seat opening events).requests) }
{}

/// A call is refused before its first ask just where a fault has a cause, and by the first that has one. The causes are, in this order: the
/// session sleeps; the operation brings 2^64 - 1, which is no value; 64 requests wait; an update comes and the last serial is taken; a sleep
/// comes and requests are left; a wake comes and the session is awake. Such a call leaves all but its answer as it was. One that is refused
/// later has taken no serial and no ticket, no request has come or gone by it, and what a poll has finished stays. What the session goes by
/// and the latches that its requests share stay too, but where the call caught up with the store on its way.
pub fn law_of_refusals()
    ensures cause { (seat : Seat) (session : SessionState) (its : Call) (why : Fault) → (session_begun seat session its).step ≡ Idle (Refused why)
        → IsFirstCause session its why }
    ensures refused { (seat : Seat) (session : SessionState) (its : Call) (why : Fault) → IsFirstCause session its why
        → (session_begun seat session its).step ≡ Idle (Refused why) }
    ensures at_once { (seat : Seat) (session : SessionState) (its : Call) (why : Fault) → IsRefusedWhole seat session its why }
    ensures later { (seat : Seat) (opening : SessionState) (events : List SessionEvent) (why : Fault) → IsOpened opening
        → (session_run seat opening events).step ≡ Idle (Refused why)
        → IsRefusal (before_call seat opening events) (session_run seat opening events) (has_caught_up seat opening events) }
{}

/// Where a session leaves a version, the cut word that it stores tells the serial that it has then, and the owing word behind it how
/// many of its requests are updates of that version. Besides, it stores a cut word where it goes to sleep, with its own version, and the
/// owing word where a poll has finished an update of the version before; and no other ask of it stores one of these words. Once it has
/// changed its version, and where no call is in hand, what it has stored last as the cut word of the version before tells the serial
/// that it had as it left that, and its owing word how many updates of that version wait. While it sleeps, but in a wake, and before it
/// leaves for that, the cut word of its own version tells its serial. Until it wakes, what it has stored last as its epoch word is 0.
/// In the middle of a call too all is told of the version that it leaves, or has left last, but what it is about to store: first the cut
/// word, and behind that the owing word, which a poll finds one too high at most. So before it takes latches, or stores its epoch word,
/// both are told. Where a session that refreshes stores its epoch word, it has taken up the phase word that it has loaded, and it stores
/// nothing behind it.
pub fn law_of_cuts()
    ensures takes_up { (seat : Seat) (opening : SessionState) (events : List SessionEvent) (cause : CatchCause) → IsOpened opening
        → (session_run seat opening events).step ≡ CatchesUp cause
        → IsCutTold seat (session_run seat opening events) }
    ensures stores { (seat : Seat) (opening : SessionState) (events : List SessionEvent) → IsOpened opening → seat.number < seat.places.sessions
        → AreMarkStores seat (session_run seat opening events) }
    ensures told { (seat : Seat) (opening : SessionState) (first : ℕ → ℕ) (events : List SessionEvent) (serial : ℕ) → IsOpened opening → seat.number < seat.places.sessions
        → is_busy (session_run seat opening events).step ≡ false → serial_left seat opening events ≡ Some serial
        → AreMarksTold seat (session_run seat opening events) (λ place. stored_last seat opening first events place) serial }
    ensures asleep { (seat : Seat) (opening : SessionState) (first : ℕ → ℕ) (events : List SessionEvent) → IsOpened opening
        → (session_run seat opening events).is_awake ≡ false → (session_run seat opening events).step ≢ CatchesUp Wakes
        → IsCutAsleep seat (session_run seat opening events) (λ place. stored_last seat opening first events place) }
    ensures unprotected { (seat : Seat) (opening : SessionState) (first : ℕ → ℕ) (events : List SessionEvent) → IsOpened opening
        → (session_run seat opening events).is_awake ≡ false → (session_run seat opening events).step ≢ CatchesUp Wakes
        → stored_last seat opening first events (epoch_place seat) ≡ 0 }
    ensures leaves { (seat : Seat) (opening : SessionState) (first : ℕ → ℕ) (events : List SessionEvent) → IsOpened opening
        → (session_run seat opening events).step ≡ Leaves
        → IsCutAsleep seat (session_run seat opening events) (λ place. stored_last seat opening first events place) }
    ensures in_order { (seat : Seat) (opening : SessionState) (first : ℕ → ℕ) (events : List SessionEvent) (serial : ℕ) → IsOpened opening → seat.number < seat.places.sessions
        → serial_leaving seat opening events ≡ Some serial
        → AreToldInOrder seat (session_run seat opening events) (λ place. stored_last seat opening first events place) serial }
    ensures polls_owing { (seat : Seat) (opening : SessionState) (first : ℕ → ℕ) (events : List SessionEvent) (index serial : ℕ) → IsOpened opening → seat.number < seat.places.sessions
        → (session_run seat opening events).step ≡ StoresOwing index → serial_left seat opening events ≡ Some serial
        → IsOwedOrOneMore (stored_last seat opening first events (owing_place seat)) (owing_told (session_run seat opening events)) }
    ensures epoch_last { (seat : Seat) (opening : SessionState) (events : List SessionEvent) (cause : CatchCause) → IsOpened opening
        → (session_run seat opening events).step ≡ CatchesUp cause → cause ≢ Wakes
        → IsEpochLast seat (session_run seat opening events) (exchanged seat opening events) }
{}

/// Each update that is told as done, at its call or by a poll, is told the reply of its effect, and was told none before its effect: of
/// the effects that the session tells all have been answered, but for the newest where its update's call or poll is still under way.
/// Where no call is in hand, each serial that was taken has made one effect, or waits and has made none; and there is no other effect, so
/// a refused update has made none. Each effect is the session's own, of an update, and of the operation of the call that took its serial.
pub fn law_of_replies()
    ensures replies { (seat : Seat) (opening : SessionState) (events : List SessionEvent) → IsOpened opening
        → AreRepliesOfEffects (effects_told seat opening events) (all_told seat opening events) (in_hand (session_run seat opening events).step (session_run seat opening events).finished) (is_busy (session_run seat opening events).step) }
    ensures once { (seat : Seat) (opening : SessionState) (events : List SessionEvent) (serial : ℕ) → IsOpened opening → is_busy (session_run seat opening events).step ≡ false
        → opening.serial < serial → serial ≤ (session_run seat opening events).serial
        → HasOneEffect (effects_told seat opening events) (names_of (session_run seat opening events).requests) serial }
    ensures no_other { (seat : Seat) (opening : SessionState) (events : List SessionEvent) (serial : ℕ) → IsOpened opening → is_busy (session_run seat opening events).step ≡ false
        → (serial ≤ opening.serial) ⊎ ((session_run seat opening events).serial < serial)
        → number_of (is_of serial) (effects_told seat opening events) ≡ 0 }
    ensures operations { (seat : Seat) (opening : SessionState) (events : List SessionEvent) → IsOpened opening
        → AreOfTheirCalls seat.number (session_run seat opening events) (op_called seat opening events) (serials_taken seat opening events) (effects_told seat opening events) }
{}

/// Of the requests that wait only updates share latches, and what they share is all that the session has added to a latch and not taken
/// off again: where no call is in hand, the shares that its asks have added to the word at a place are those that they have taken off
/// there, and one for each waiting update that shares the latch at that place. So a request that was done, refused or told as finished
/// shares none, and no share is lost or taken off twice. A share that has met bit 63 is given back by the next ask. In prepare all
/// updates that wait share their latches, whether they waited as the session entered it or were accepted since, as long as no reply
/// since then has left one without: from whatever moment at which no call was in hand and the session was not in prepare.
pub fn law_of_latches()
    ensures updates { (seat : Seat) (opening : SessionState) (events : List SessionEvent) → IsOpened opening → HasItsBuckets seat
        → OnlyUpdatesShare (session_run seat opening events).requests }
    ensures accounts { (seat : Seat) (opening : SessionState) (events : List SessionEvent) (place : ℕ) → IsOpened opening → HasItsBuckets seat
        → is_busy (session_run seat opening events).step ≡ false
        → shares_added seat opening events place ≡ shares_dropped seat opening events place + sharing seat place (session_run seat opening events).requests }
    ensures gives_back { (seat : Seat) (opening : SessionState) (events : List SessionEvent) (place reply : ℕ) → IsOpened opening → HasItsBuckets seat
        → session_ask seat (session_run seat opening events) ≡ Add place one_share → is_exclusive reply ≡ true
        → session_ask seat (session_run seat opening (Replies reply ∷ events)) ≡ Add place (2 ^ 64 - one_share) }
    ensures prepare { (seat : Seat) (session : SessionState) (events : List SessionEvent) → HasItsBuckets seat → is_busy session.step ≡ false → is_prepare session.seen.phase ≡ false
        → has_missed seat session events ≡ false → is_busy (session_run seat session events).step ≡ false → is_prepare (session_run seat session events).seen.phase ≡ true
        → AllUpdatesShare (session_run seat session events).requests }
{}

/// Each read that is told as answered, at its call or by a poll with its ticket, is told what its attempt has come to: the value that it
/// found, or none; and each attempt of a read that comes to an end is told so. What is attempted at a call is its operation, and in a poll
/// the request that waits at the place which the poll has come to, by its name and its operation.
pub fn law_of_reads()
    ensures answers { (seat : Seat) (opening : SessionState) (events : List SessionEvent) → IsOpened opening
        → AreReadsAnswered (reads_ended seat opening events) (all_told seat opening events) (in_hand (session_run seat opening events).step (session_run seat opening events).finished) }
    ensures called { (seat : Seat) (opening : SessionState) (events : List SessionEvent) (has_shifted : Bool) → IsOpened opening
        → (session_run seat opening events).step ≡ Attempts has_shifted
        → op_called seat opening events ≡ Some (session_run seat opening events).attempt.pending.request.op }
    ensures polled { (seat : Seat) (opening : SessionState) (events : List SessionEvent) (index : ℕ) → IsOpened opening → seat.number < seat.places.sessions
        → (session_run seat opening events).step ≡ Polls index
        → IsAttemptOf (session_run seat opening events).requests index (session_run seat opening events).attempt.pending }
{}
