//! What the guard keeps holds of every life of the engine.
ghost use Rattle.std.specs.Prelude.{◌∷◌, ◌++◌, ◌≡◌, ◌≢◌, ◌<◌, ◌≤◌, ◌-◌, ◌^◌, ℕ, Bool, List, None, Some, false, length, slice_get};
ghost use Rattle.fkv_base.specs.Limits.{drain_slots, max_sessions};
ghost use Rattle.fkv_base.specs.declared.shapes.Shape.{Shape};
ghost use Rattle.fkv_epoch.specs.EpochWorld.{Claimed, Ran, own_epoch, safe_of};
ghost use Rattle.fkv_epoch.specs.Once.{Among, HasRunOnce};
ghost use Rattle.fkv_plane.specs.Asked.{asked_place};
ghost use Rattle.fkv_plane.specs.Places.{word_count};
ghost use Rattle.fkv_plane.specs.declared.places.RecordWord.{RecordWord};
ghost use Rattle.fkv_flush.specs.GuardFlushed.{IsSynced, calls_made, stands};
ghost use Rattle.fkv_flush.specs.GuardLevels.{AreInOrder, Rises, levels_of};
ghost use Rattle.fkv_flush.specs.GuardLimit.{EndsPages};
ghost use Rattle.fkv_flush.specs.GuardReserved.{UndecidedApart};
ghost use Rattle.fkv_flush.specs.GuardSeen.{SeenIsSafe};
ghost use Rattle.fkv_flush.specs.Guarded.{GoesBy, IsCovered, UndecidedIsFresh, seen_of};
ghost use Rattle.fkv_keeper.specs.KeeperRun.{is_in_hand};
ghost use Rattle.fkv_keeper.specs.Keeping.{keeper_ask};
ghost use Rattle.fkv_session.specs.Sessions.{SessionState, is_busy, session_ask};
ghost use Rattle.fkv_session.specs.declared.sessions.CatchCause.TheVariants.{Wakes};
ghost use Rattle.fkv_session.specs.declared.sessions.Sitting.TheVariants.{CatchesUp};
ghost use Rattle.fkv_world.specs.Actors.{slot_asked, slot_named};
ghost use Rattle.law_world.specs.Runs.Ends.{KeeperStandsAtNoSlot, StandsAtNoSlot, asks_left_of, asks_left_of_keeper, moves_alone};
ghost use Rattle.fkv_world.specs.World.{Event, KeeperMoves, Moves, seat_at};
ghost use Rattle.fkv_world.specs.Runs.{World, read_by_keeper, run};
ghost use Rattle.law_world.specs.Guarded.EndsAlone.{AreKeeperMoves, most_keeper_asks, most_session_asks};
ghost use Rattle.law_world.specs.Guarded.GuardEvents.{guard_events, mapped};
ghost use Rattle.law_world.specs.Guarded.KeptGuarded.{ChangesOpenPlaces, FindTheirSlots, OpensNextPage, WritesOpenPlaces};
ghost use Rattle.law_world.specs.Guarded.LoadedSince.{HaveLoadedSince};
ghost use Rattle.law_world.specs.Guarded.OpenedStore.{IsOpenedStore};
ghost use Rattle.law_world.specs.Guarded.Shows.{AreBelowTail, ArePermitted, IsPermitted, IsOpened, Shows, guard_opening, seen_by_guard};
ghost use Rattle.law_world.specs.Guarded.SlotsApart.{AreOfOthers};
ghost use Rattle.law_world.specs.Guarded.SlotsFound.{FindsItsSlot};

use crate::runs::law_of_ends;

/// Over every life of the engine that begins as a store was opened, whatever its calls, commits, turns and the order of its steps:
/// what the guard has of the life shows the engine's world, with an actor for each session and two for the keeper. So a word of a
/// frame that an event's machine asks to write, where the event is permitted, is one of an open address at or above the safe
/// read-only offset and below the tail. A store of the word that stands there counts, and so does a Cas that is lost. Each word of a
/// frame that changes is such a word too. An event that raises the limit opens the next page, and finds all flushed that its frame
/// held, and each protected session that isn't in the middle of protecting itself with a head at or above that. At every moment the
/// offsets are in order, the frames hold all that may still be needed, and the limit is the end of whole pages that the device has;
/// and no offset ever falls.
pub fn law_world_is_guarded()
    ensures shows { (opening : World) (start : ℕ) (events : List Event) → IsOpened opening.now start
        → Shows (run opening events).now (seen_by_guard opening start events) }
    ensures writes { (opening : World) (start : ℕ) (events : List Event) (event : Event) → IsOpened opening.now start → IsPermitted (run opening events).now event
        → WritesOpenPlaces (run opening events).now event (seen_by_guard opening start events) }
    ensures changes { (opening : World) (start : ℕ) (events : List Event) (event : Event) → IsOpened opening.now start → IsPermitted (run opening events).now event
        → ChangesOpenPlaces (run opening events).now (run opening (event ∷ events)).now (seen_by_guard opening start events) }
    ensures limit { (opening : World) (start : ℕ) (events : List Event) (event : Event) → IsOpened opening.now start
        → OpensNextPage (run opening events).now (run opening (event ∷ events)).now (seen_by_guard opening start events) }
    ensures order { (opening : World) (start : ℕ) (events : List Event) → IsOpened opening.now start
        → AreInOrder (levels_of (run opening events).now.words) }
    ensures covered { (opening : World) (start : ℕ) (events : List Event) → IsOpened opening.now start
        → IsCovered (seen_by_guard opening start events) }
    ensures paged { (opening : World) (start : ℕ) (events : List Event) → IsOpened opening.now start
        → EndsPages opening.now.shape (levels_of (run opening events).now.words).limit }
    ensures rises { (opening : World) (start : ℕ) (events later : List Event) → IsOpened opening.now start
        → Rises (levels_of (run opening events).now.words) (levels_of (run (run opening events) later).now.words) }
{}

/// At every moment of such a life: what a session goes by is safe to go by; and a reserved record that is undecided belongs to a
/// protected session that neither protects itself nor refreshes nor leaves, and to no other.
pub fn law_world_seen()
    ensures safe { (opening : World) (start : ℕ) (events : List Event) → IsOpened opening.now start
        → SeenIsSafe (levels_of (run opening events).now.words) (GoesBy (seen_by_guard opening start events).now) (seen_of (seen_by_guard opening start events).now.actors) }
    ensures fresh { (opening : World) (start : ℕ) (events : List Event) → IsOpened opening.now start
        → UndecidedIsFresh (seen_by_guard opening start events) }
    ensures apart { (opening : World) (start : ℕ) (events : List Event) → IsOpened opening.now start
        → UndecidedApart (seen_by_guard opening start events).now.actors }
{}

/// In such a life each epoch arms one action at most, which is claimed once at most, and run once at most by the actor that
/// claimed it. A slot that is given an action is empty, and one that is taken has the action that was armed there. Before the event
/// that claims an action, and before the one that runs it, each protected session that isn't in the middle of protecting itself goes by
/// values that it loaded after the action's epoch was raised; at every moment it does so for each epoch that is safe. While a refresh is
/// under way that is said of both loads, the last one and the one before, by which the session still goes.
pub fn law_world_once()
    ensures once { (opening : World) (start : ℕ) (events : List Event) → IsOpened opening.now start
        → HasRunOnce (seen_by_guard opening start events).past }
    ensures slots { (opening : World) (start : ℕ) (events : List Event) (event : Event) → IsOpened opening.now start
        → FindTheirSlots (seen_by_guard opening start events) (guard_events (run opening events).now (read_by_keeper (run opening events)) event) }
    ensures seen { (opening : World) (start : ℕ) (events : List Event) (event : Event) (claim : Claimed) → IsOpened opening.now start
        → Among claim (seen_by_guard opening start (event ∷ events)).past.claims → HaveLoadedSince (seen_by_guard opening start events) claim.epoch }
    ensures ran { (opening : World) (start : ℕ) (events : List Event) (event : Event) (action : Ran) → IsOpened opening.now start
        → Among action (seen_by_guard opening start (event ∷ events)).past.runs → HaveLoadedSince (seen_by_guard opening start events) action.epoch }
    ensures safe { (opening : World) (start : ℕ) (events : List Event) (epoch : ℕ) → IsOpened opening.now start
        → epoch ≤ safe_of (run opening events).now.words → HaveLoadedSince (seen_by_guard opening start events) epoch }
{}

/// In such a life a session that sleeps holds nobody up: until it wakes its epoch word is 0.
pub fn law_world_sleepers()
    ensures { (opening : World) (start : ℕ) (events : List Event) (session : ℕ) (first its : SessionState) → IsOpened opening.now start
        → slice_get opening.now.sessions session ≡ Some first → slice_get (run opening events).now.sessions session ≡ Some its
        → its.is_awake ≡ false → its.step ≢ CatchesUp Wakes → own_epoch (run opening events).now.words session ≡ 0 }
{}

/// In such a life, whatever its events: a step of a session or of the keeper that turns to a drain slot finds the slot empty where it
/// gives it an action, and finds an action in it where it takes one, whether its ask turns there or the ask that goes with the reply to
/// a word in the same step. There are eight slots in every life, and the slot is one of them. From an event before a crash that turns to
/// a slot up to its actor's next event no other actor turns to that slot. And between two events no session and not the keeper stands at
/// a slot: it comes to one only in the step that moves the action too.
pub fn law_world_slots()
    ensures finds { (opening : World) (start : ℕ) (events : List Event) (event : Event) → IsOpened opening.now start
        → FindsItsSlot (run opening events).now event }
    ensures within { (opening : World) (start : ℕ) (events : List Event) (event : Event) (slot : ℕ) → IsOpened opening.now start
        → slot_named (run opening events).now event ≡ Some slot → slot < drain_slots }
    ensures count { (opening : World) (start : ℕ) (events : List Event) → IsOpened opening.now start → length (run opening events).now.actions ≡ drain_slots }
    ensures apart { (opening : World) (start : ℕ) (later before : List Event) (event its : Event) (slot : ℕ) → IsOpened opening.now start
        → (run opening before).now.crashed ≡ false → slot_named (run opening before).now event ≡ Some slot → AreOfOthers event (its ∷ later)
        → slot_named (run opening (later ++ (event ∷ before))).now its ≢ Some slot }
    ensures session { (opening : World) (start : ℕ) (events : List Event) (session : ℕ) (its : SessionState) → IsOpened opening.now start
        → slice_get (run opening events).now.sessions session ≡ Some its → slot_asked (session_ask (seat_at (run opening events).now session) its) ≡ None }
    ensures keeper { (opening : World) (start : ℕ) (events : List Event) → IsOpened opening.now start
        → slot_asked (keeper_ask (run opening events).now.shape (run opening events).now.places (run opening events).now.keeper) ≡ None }
{}

/// In such a life each ask of a session and of the keeper names a word that the store has, if it names one. Of the keeper it is supposed that it
/// seeks the points of no more sessions than there are. The keeper of a store that was opened seeks no more.
pub fn law_world_places()
    ensures session { (opening : World) (start : ℕ) (events : List Event) (session place : ℕ) (its : SessionState) → IsOpened opening.now start
        → slice_get (run opening events).now.sessions session ≡ Some its
        → asked_place (session_ask (seat_at (run opening events).now session) its) ≡ Some place → place < word_count opening.now.places }
    ensures keeper { (opening : World) (start : ℕ) (events : List Event) (place : ℕ) → IsOpened opening.now start
        → opening.now.keeper.seek.sessions ≤ opening.now.places.sessions
        → asked_place (keeper_ask (run opening events).now.shape (run opening events).now.places (run opening events).now.keeper) ≡ Some place
        → place < word_count opening.now.places }
{}

/// In such a life a call comes to its end by the asks that it has left, if its machine alone moves: no session and not the keeper ever
/// stands before a slot whose action it takes, since it takes it in the step in which it comes there. So at every moment before a crash a
/// move of a session leaves one ask fewer, if it has any left, and so does one of the keeper, whatever memory is granted and whatever its
/// calls of the device come to. A session that alone makes as many moves as it had asks left has none left, and no call in hand; and so it
/// is of the keeper. In a life of a store that was just opened a session never has more asks left than a poll may ask, by the sizes of the
/// store's shape: in every shape less than 2^64 - 1. Nor has the keeper ever more left than a turn may ask, by the sizes of the shape and
/// by how many sessions' points it seeks as the life begins: less than 2^64 - 1, where these are no more than a store may have.
pub fn law_world_ends()
    ensures stands { (opening : World) (start : ℕ) (events : List Event) (session : ℕ) → IsOpened opening.now start → StandsAtNoSlot (run opening events).now session }
    ensures keeper_stands { (opening : World) (start : ℕ) (events : List Event) → IsOpened opening.now start → KeeperStandsAtNoSlot (run opening events).now }
    ensures session { (opening : World) (start : ℕ) (events : List Event) (session : ℕ) → IsOpened opening.now start → (run opening events).now.crashed ≡ false
        → asks_left_of (run opening (Moves session ∷ events)).now session ≤ asks_left_of (run opening events).now session - 1 }
    ensures keeper { (opening : World) (start : ℕ) (events : List Event) (granted done : Bool) → IsOpened opening.now start → (run opening events).now.crashed ≡ false
        → 0 < asks_left_of_keeper (run opening events).now → asks_left_of_keeper (run opening (KeeperMoves granted done ∷ events)).now < asks_left_of_keeper (run opening events).now }
    ensures alone { (opening : World) (start : ℕ) (events : List Event) (session count : ℕ) → IsOpened opening.now start → (run opening events).now.crashed ≡ false
        → asks_left_of (run opening events).now session ≤ count → asks_left_of (moves_alone (run opening events) session count).now session ≡ 0 }
    ensures keeper_alone { (opening : World) (start : ℕ) (events moves : List Event) → IsOpened opening.now start → AreKeeperMoves moves → (run opening events).now.crashed ≡ false
        → asks_left_of_keeper (run opening events).now ≤ length moves → asks_left_of_keeper (run (run opening events) moves).now ≡ 0 }
    ensures over { (opening : World) (start : ℕ) (events : List Event) (session count : ℕ) (first its : SessionState) → IsOpened opening.now start → (run opening events).now.crashed ≡ false
        → asks_left_of (run opening events).now session ≤ count → slice_get opening.now.sessions session ≡ Some first
        → slice_get (moves_alone (run opening events) session count).now.sessions session ≡ Some its → is_busy its.step ≡ false }
    ensures keeper_over { (opening : World) (start : ℕ) (events moves : List Event) → IsOpened opening.now start → AreKeeperMoves moves → (run opening events).now.crashed ≡ false
        → asks_left_of_keeper (run opening events).now ≤ length moves → is_in_hand (run (run opening events) moves).now.keeper.step ≡ false }
    ensures few { (opening : World) (start : ℕ) (events : List Event) (session : ℕ) → IsOpenedStore opening start
        → asks_left_of (run opening events).now session ≤ most_session_asks opening.now.shape }
    ensures few_of_shape { (shape : Shape) → most_session_asks shape < 2 ^ 64 - 1 }
    ensures keeper_few { (opening : World) (start : ℕ) (events : List Event) → IsOpened opening.now start
        → asks_left_of_keeper (run opening events).now ≤ most_keeper_asks opening.now.shape opening.now.places opening.now.keeper }
    ensures keeper_few_of_store { (opening : World) (start : ℕ) → IsOpened opening.now start → opening.now.keeper.seek.sessions ≤ max_sessions
        → most_keeper_asks opening.now.shape opening.now.places opening.now.keeper < 2 ^ 64 - 1 }
{
    law_of_ends();
}

/// In such a life the keeper alone flushes. So where each step of a session is permitted, at every moment a device that was
/// called as the guard's run of the life calls it, by the flushes and by those writes of commits that end where the log begins,
/// shows each record since the opening and below the flushed offset with the words that stand for it, and so does all that a crash
/// leaves of it; and no event changes what stands for a record below the safe read-only offset.
pub fn law_world_flushed()
    ensures synced { (opening : World) (start : ℕ) (events : List Event) (opened : List ℕ) → IsOpened opening.now start → ArePermitted opening events
        → IsSynced opening.now.shape opened (calls_made (guard_opening opening.now start) (mapped opening events)) (stands (guard_opening opening.now start) (mapped opening events)) start (levels_of (run opening events).now.words).flushed }
    ensures steady { (opening : World) (start : ℕ) (events : List Event) (event : Event) (addr : ℕ) (word : RecordWord) → IsOpened opening.now start → ArePermitted opening (event ∷ events)
        → addr < (levels_of (run opening events).now.words).safe_read_only
        → stands (guard_opening opening.now start) (mapped opening (event ∷ events)) addr word ≡ stands (guard_opening opening.now start) (mapped opening events) addr word }
{}

/// That the steps of such a life are permitted comes down to one thing: that the record whose value a session changes in place is reserved,
/// below the tail.
pub fn law_world_permitted()
    ensures { (opening : World) (start : ℕ) (events : List Event) → IsOpened opening.now start → AreBelowTail opening events → ArePermitted opening events }
{}

/// Over every life of a store that was just opened, whatever calls of the device fail: the calls of the guard's run are the writes
/// and syncs that are past of the life, in their order and with their success. So where each step of a session is permitted, at
/// every moment the device, as the life has called it, reads at the place of each record since the opening and below the flushed offset as the words that stand for it, and so
/// does all that a crash leaves of it; older records stay as they were.
pub fn law_world_flushed_is_synced()
    ensures calls { (opening : World) (start : ℕ) (events : List Event) → IsOpenedStore opening start
        → calls_made (guard_opening opening.now start) (mapped opening events) ≡ (run opening events).past.calls }
    ensures synced { (opening : World) (start : ℕ) (events : List Event) → IsOpenedStore opening start → ArePermitted opening events
        → IsSynced opening.now.shape opening.past.opened (run opening events).past.calls (stands (guard_opening opening.now start) (mapped opening events)) start (levels_of (run opening events).now.words).flushed }
{}
