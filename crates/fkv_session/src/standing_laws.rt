//! Where two sessions stand alike, whatever each has done before.
ghost use Rattle.std.specs.Prelude.{◌≡◌, ℕ, List, None, false};
ghost use Rattle.fkv_map.specs.declared.operations.Call.{Call};
ghost use Rattle.fkv_map.specs.declared.operations.Call.TheVariants as call;
ghost use Rattle.fkv_map.specs.declared.operations.Op.{Op};
ghost use Rattle.fkv_plane.specs.declared.actions.Action.{Action};
ghost use Rattle.fkv_session.specs.Alike.{StandAlike, lasting};
ghost use Rattle.fkv_session.specs.SessionRun.{SessionEvent, tellings};
ghost use Rattle.fkv_session.specs.Sessions.{Seat, SessionState, is_busy, refusal_of, session_ask, session_begun, session_given, session_next};

/// Two sessions of which the same lasts begin each call so that they stand alike, whatever was attempted and told before; and an operation
/// that isn't refused they begin in one and the same state. Sessions that stand alike ask the same, at a call's end they answer the same,
/// and by each reply and each action they stand alike again. So a session may take the place of another between two calls, if what lasts
/// of it is the same: over all calls, replies and actions from there its answers are the other's.
pub fn law_of_standing()
    ensures begins { (seat : Seat) (one other : SessionState) (its : Call) → lasting one ≡ lasting other
        → StandAlike (session_begun seat one its) (session_begun seat other its) }
    ensures operations { (seat : Seat) (one other : SessionState) (its : Op) → lasting one ≡ lasting other → refusal_of one its ≡ None
        → session_begun seat one (call.Op its) ≡ session_begun seat other (call.Op its) }
    ensures asks { (seat : Seat) (one other : SessionState) → StandAlike one other → session_ask seat one ≡ session_ask seat other }
    ensures replies { (seat : Seat) (one other : SessionState) (reply : ℕ) → StandAlike one other
        → StandAlike (session_next seat one reply) (session_next seat other reply) }
    ensures actions { (seat : Seat) (one other : SessionState) (action : Action) → StandAlike one other
        → StandAlike (session_given seat one action) (session_given seat other action) }
    ensures lasts { (one other : SessionState) → StandAlike one other → lasting one ≡ lasting other }
    ensures answers { (seat : Seat) (one other : SessionState) (events : List SessionEvent) → is_busy one.step ≡ false → is_busy other.step ≡ false
        → lasting one ≡ lasting other → tellings seat one events ≡ tellings seat other events }
{}
