//! What holds whatever a read of the device gives.
ghost use Rattle.std.specs.Prelude.{◌≡◌, ◌≢◌, ◌<◌, ◌≤◌, ◌∷◌, ◌++◌, ℕ, List, Some, None, length, slice_get, false};
ghost use Rattle.fkv_base.specs.Limits.{drain_slots};
ghost use Rattle.fkv_keeper.specs.Keeping.{keeper_ask};
ghost use Rattle.fkv_keeper.specs.KeeperRun.{is_in_hand};
ghost use Rattle.fkv_plane.specs.Asked.{asked_place};
ghost use Rattle.fkv_plane.specs.Places.{word_count};
ghost use Rattle.fkv_session.specs.Sessions.{SessionState, is_busy, session_ask};
ghost use Rattle.fkv_world.specs.Actors.{slot_asked, slot_named};
ghost use Rattle.fkv_world.specs.Runs.{World, run};
ghost use Rattle.fkv_world.specs.World.{Event, Now, seat_at};
ghost use Rattle.law_world.specs.Guarded.Reads.{AreAsHeld, Heard, IsHeardAsHeld, events_heard, heard_run};
ghost use Rattle.law_world.specs.Guarded.Shows.{IsOpened};
ghost use Rattle.law_world.specs.Guarded.SlotsApart.{AreOfOthers};
ghost use Rattle.law_world.specs.Guarded.SlotsFound.{FindsItsSlot};
ghost use Rattle.law_world.specs.Runs.Ends.{asks_left_of, asks_left_of_keeper};

/// A life may be told by its events with what each read of the device gave. So it is the same over any device, honest or not. If each read gave what
/// the life's device holds, the world comes to what it comes to in the life of these events alone (`same`), and each life is one (`each`).
pub fn law_reads()
    ensures same { (opening : World) (list : List Heard) → AreAsHeld opening list → heard_run opening.now list ≡ (run opening (events_heard list)).now }
    ensures each { (opening : World) (events : List Event) → (list : List Heard) × IsHeardAsHeld opening events list }
{}

/// In a life of an opened store, whatever reads of the device give: a step of a session or of the keeper that turns to a drain slot finds the slot empty
/// if it gives it an action, and finds an action in it if it takes one. There are eight slots, and the slot is one of them. From an event before a crash
/// that turns to a slot up to its actor's next event no other actor turns to that slot. Between two events no session and not the keeper stands at a slot.
pub fn law_reads_slots()
    ensures finds { (opening : Now) (start : ℕ) (list : List Heard) (event : Event) → IsOpened opening start → FindsItsSlot (heard_run opening list) event }
    ensures within { (opening : Now) (start : ℕ) (list : List Heard) (event : Event) (slot : ℕ) → IsOpened opening start
        → slot_named (heard_run opening list) event ≡ Some slot → slot < drain_slots }
    ensures count { (opening : Now) (start : ℕ) (list : List Heard) → IsOpened opening start → length (heard_run opening list).actions ≡ drain_slots }
    ensures apart { (opening : Now) (start : ℕ) (later before : List Heard) (it : Heard) (event : Event) (slot : ℕ) → IsOpened opening start
        → (heard_run opening before).crashed ≡ false → slot_named (heard_run opening before) it.event ≡ Some slot → AreOfOthers it.event (event ∷ events_heard later)
        → slot_named (heard_run opening (later ++ (it ∷ before))) event ≢ Some slot }
    ensures session { (opening : Now) (start : ℕ) (list : List Heard) (session : ℕ) (its : SessionState) → IsOpened opening start
        → slice_get (heard_run opening list).sessions session ≡ Some its → slot_asked (session_ask (seat_at (heard_run opening list) session) its) ≡ None }
    ensures keeper { (opening : Now) (start : ℕ) (list : List Heard) → IsOpened opening start
        → slot_asked (keeper_ask (heard_run opening list).shape (heard_run opening list).places (heard_run opening list).keeper) ≡ None }
{}

/// In such a life each ask of a session and of the keeper names a word that the store has, if it names one. Of the keeper it is supposed that it
/// seeks the points of no more sessions than there are.
pub fn law_reads_places()
    ensures session { (opening : Now) (start : ℕ) (list : List Heard) (session place : ℕ) (its : SessionState) → IsOpened opening start
        → slice_get (heard_run opening list).sessions session ≡ Some its
        → asked_place (session_ask (seat_at (heard_run opening list) session) its) ≡ Some place → place < word_count opening.places }
    ensures keeper { (opening : Now) (start : ℕ) (list : List Heard) (place : ℕ) → IsOpened opening start → opening.keeper.seek.sessions ≤ opening.places.sessions
        → asked_place (keeper_ask (heard_run opening list).shape (heard_run opening list).places (heard_run opening list).keeper) ≡ Some place
        → place < word_count opening.places }
{}

/// In such a life a session that has no asks left has no call in hand, and neither has the keeper.
pub fn law_reads_ends()
    ensures session { (opening : Now) (start : ℕ) (list : List Heard) (session : ℕ) (its : SessionState) → IsOpened opening start
        → slice_get (heard_run opening list).sessions session ≡ Some its → asks_left_of (heard_run opening list) session ≡ 0 → is_busy its.step ≡ false }
    ensures keeper { (opening : Now) (start : ℕ) (list : List Heard) → IsOpened opening start
        → asks_left_of_keeper (heard_run opening list) ≡ 0 → is_in_hand (heard_run opening list).keeper.step ≡ false }
{}
