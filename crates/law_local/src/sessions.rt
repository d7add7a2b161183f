//! What goes on in a session, whatever is known of its requests.
ghost use Rattle.std.specs.Prelude.{◌≡◌, ℕ, Bool, List, false, true};
ghost use Rattle.fkv_map.specs.declared.operations.Call.{Call};
ghost use Rattle.fkv_plane.specs.declared.actions.Action.{Action};
ghost use Rattle.fkv_pending.specs.declared.pending_requests.PendingRequest.{PendingRequest};
ghost use Rattle.fkv_pending.specs.Attempting.{AttemptState};
ghost use Rattle.fkv_session.specs.Accounts.{names_of};
ghost use Rattle.fkv_session.specs.SessionRun.{SessionEvent, session_run};
ghost use Rattle.fkv_session.specs.Sessions.{IsOpened, Seat, SessionState, is_busy, name_of, session_begun, session_given, session_next};
ghost use Rattle.law_local.specs.Sessions.Inputs.{AttemptsSo};
ghost use Rattle.law_local.specs.Sessions.Known.{BeginsKnown, KeepsKnown, KnowsRequests, Passes, is_attempting};
ghost use Rattle.law_local.specs.Sessions.Moves.{NamesMove, RequestsMove, requests_after};

/// Where each request of a session that waits passes a test, and the attempt under way another, so it is behind a reply with tests that go on
/// by the attempt's own steps (`KeepsKnown`), behind a call that begins where its attempt passes (`BeginsKnown`), and behind an action that is
/// given; and so it is with any tests of a session whose store was opened. A session that makes no step passes what its requests and its attempt
/// do. The lemmas for crates above say the same of any facts.
pub fn law_of_known_requests()
    ensures replies { (seat : Seat) (session : SessionState) (reply : ℕ) (waits waits' : PendingRequest → Bool) (tries tries' : AttemptState → Bool)
        → KnowsRequests (Passes waits) (Passes tries) session → KeepsKnown seat session reply (Passes waits) (Passes waits') (Passes tries) (Passes tries')
        → KnowsRequests (Passes waits') (Passes tries') (session_next seat session reply) }
    ensures calls { (seat : Seat) (session : SessionState) (its : Call) (waits : PendingRequest → Bool) (tries : AttemptState → Bool) → is_busy session.step ≡ false
        → KnowsRequests (Passes waits) (Passes tries) session → BeginsKnown seat session its (Passes waits) (Passes tries) → KnowsRequests (Passes waits) (Passes tries) (session_begun seat session its) }
    ensures actions { (seat : Seat) (session : SessionState) (action : Action) (waits : PendingRequest → Bool) (tries : AttemptState → Bool)
        → KnowsRequests (Passes waits) (Passes tries) session → KnowsRequests (Passes waits) (Passes tries) (session_given seat session action) }
    ensures stays { (session : SessionState) (waits waits' : PendingRequest → Bool) (tries tries' : AttemptState → Bool) → ((pending : PendingRequest) → Passes waits pending → Passes waits' pending)
        → (is_attempting session.step ≡ true → Passes tries session.attempt → Passes tries' session.attempt)
        → KnowsRequests (Passes waits) (Passes tries) session → KnowsRequests (Passes waits') (Passes tries') session }
    ensures opened { (session : SessionState) (waits : PendingRequest → Bool) (tries : AttemptState → Bool) → IsOpened session → KnowsRequests (Passes waits) (Passes tries) session }
{}

/// What waits behind a reply is what waited, but for this: the request of a call that is accepted comes in behind the others; the one that is
/// polled goes where it waits as it is finished, or is set there to what its attempt has left of it; and in catching up one may take its latch.
/// Calls that begin, and actions, leave the requests. So of their names none changes, and whatever calls a session begins and whatever its asks are
/// replied: a name that comes in is the session's next.
pub fn law_of_moved_requests()
    ensures replies { (seat : Seat) (session : SessionState) (reply : ℕ) → (session_next seat session reply).requests ≡ requests_after seat session reply }
    ensures moves { (seat : Seat) (session : SessionState) (reply : ℕ) → RequestsMove session.requests (session_next seat session reply).requests }
    ensures calls { (seat : Seat) (session : SessionState) (its : Call) → (session_begun seat session its).requests ≡ session.requests }
    ensures actions { (seat : Seat) (session : SessionState) (action : Action) → (session_given seat session action).requests ≡ session.requests }
    ensures names { (seat : Seat) (opening : SessionState) (events : List SessionEvent) (reply : ℕ) → IsOpened opening
        → NamesMove (name_of (session_run seat opening events)) (names_of (session_run seat opening events).requests) (names_of (session_next seat (session_run seat opening events) reply).requests) }
{}

/// Whatever calls a session begins and whatever its asks are replied: while it attempts, its attempt goes by what the session has seen, at a call
/// for the operation in hand, by the session's next name and of its version, and in a poll for the request that waits at its index. While that
/// attempt tries, its try is of the attempt's request as it stands, by what was seen, at that occasion and at the home of its key; and its walk,
/// from where it has begun, is for that key and leaves memory at the head that was seen.
pub fn law_of_attempts_inputs()
    ensures { (seat : Seat) (opening : SessionState) (events : List SessionEvent) → IsOpened opening → AttemptsSo seat (session_run seat opening events) }
{}
