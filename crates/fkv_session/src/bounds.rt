//! How much a session asks for one call, over every list of calls, replies and actions.
ghost use Rattle.std.specs.Prelude.{◌≡◌, ◌≤◌, ◌+◌, false, List, length};
ghost use Rattle.fkv_base.specs.Limits.{max_pending};
ghost use Rattle.fkv_session.specs.AsksLeft.{session_asks_left, IsOfShape};
ghost use Rattle.fkv_session.specs.Bounds.{AreAsked, run_bound};
ghost use Rattle.fkv_session.specs.SessionRun.{SessionEvent, session_run};
ghost use Rattle.fkv_session.specs.Sessions.{Seat, SessionState, IsOpened, is_busy};

/// Whatever calls a session begins and whatever its asks are replied: the asks of words that it has made since the last call began,
/// and those that it has left, are together no more than that call's bound, by the sizes of the store's shape. With no asks left no
/// call is in hand. No more requests wait than there is room for, whatever comes.
pub fn law_of_asks()
    ensures bounded { (seat : Seat) (opening : SessionState) (events : List SessionEvent) → IsOfShape seat → IsOpened opening → AreAsked seat opening events
        → (session_run seat opening events).asks + session_asks_left seat (session_run seat opening events) ≤ run_bound seat opening events }
    ensures ended { (seat : Seat) (opening : SessionState) (events : List SessionEvent) → IsOpened opening
        → session_asks_left seat (session_run seat opening events) ≡ 0
        → is_busy (session_run seat opening events).step ≡ false }
    ensures requests { (seat : Seat) (opening : SessionState) (events : List SessionEvent) → IsOpened opening
        → length (session_run seat opening events).requests ≤ max_pending }
{}
