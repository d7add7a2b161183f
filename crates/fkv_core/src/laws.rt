//! Laws of the world of a store: how it opens, and what a crash leaves of it.
ghost use Rattle.std.specs.Prelude.{◌≡◌, ℕ, Bool, List, true};
ghost use Rattle.fkv_core.specs.declared.events.Event.TheVariants.{Crash};
ghost use Rattle.fkv_core.specs.OpeningPlaces.{HaveSeen, StandAsTold};
ghost use Rattle.fkv_core.specs.Openings.{IsOpeningWorld};
ghost use Rattle.fkv_core.specs.Unswept.{UnsweptLivesKeepBegin};
ghost use Rattle.fkv_core.specs.Worlds.{took_place};
ghost use Rattle.fkv_opening.specs.declared.opened_store.Opened.{Opened};
ghost use Rattle.fkv_world.specs.World.{Now, happens_now};

/// Each word by its name stands at its place in the world of an opened store, and is what the opened store tells: those that a store
/// has once, those of the drain slots, and those of each session, its durable point among them. Each session has seen the phase, the
/// version and the offsets that they show, and its last serial is its durable point.
pub fn law_words_open()
    ensures words { (o : Opened) (n : Now) → IsOpeningWorld o n → StandAsTold o n.words }
    ensures seen { (o : Opened) (n : Now) → IsOpeningWorld o n → HaveSeen o n.sessions }
{}

/// Behind the event of a crash the store has crashed.
pub fn law_crash_has_crashed()
    ensures crashed { (n : Now) (read : List ℕ) (granted done : Bool) → (happens_now n read (took_place Crash granted done)).crashed ≡ true }
{}

/// Where the keeper sweeps nothing in a life, its log begins where it did as the store was opened. So it is of each life that the steps of a world lead
/// on without a `SweepMove`: the others begin no sweep.
pub fn law_unswept()
    ensures { UnsweptLivesKeepBegin }
{}
