//! What the machines keep together, over every list of their events.
ghost use Rattle.std.specs.Prelude.{ℕ, List};
ghost use Rattle.fkv_epoch.specs.EpochWorld.{EpochWorld, EpochEvent, epoch_run, Claimed, safe_of};
ghost use Rattle.fkv_epoch.specs.Held.{AreHeldAlone};
ghost use Rattle.fkv_epoch.specs.Protected.{HoldsNoZero, IsProtected, StaysProtected};
ghost use Rattle.fkv_epoch.specs.Stall.{stall_words, stall, HasStalled};
ghost use Rattle.fkv_epoch.specs.Told.{LoadsItsSight, RefreshIsTold, ProtectIsTold, HasSeen, RaiseIsTold, StoresPhase};
ghost use Rattle.fkv_epoch.specs.Values.{seen};
ghost use Rattle.fkv_epoch.specs.Once.{IsOpened, opening, HasRunOnce, SeenSinceRaise, InForceSinceRaise, claims_of, Among, PutsIntoEmpty, ClaimsFromFull};

/// Whatever the order of the machines' steps, and whoever makes them: an action armed at an epoch is run at most once,
/// by the actor whose Cas claimed its slot; at that step every protected session that isn't in the middle of protecting itself goes by
/// values that it loaded after that epoch was raised, as at every moment it does for each epoch that is safe. While a refresh is
/// under way that is said of both loads, the last one and the one before, by which the session still goes.
pub fn law_once()
    ensures once { (sessions actors : ℕ) (words : List ℕ) (events : List EpochEvent) → IsOpened sessions actors words
        → HasRunOnce (epoch_run (opening sessions actors words) events).past }
    ensures seen { (sessions actors : ℕ) (words : List ℕ) (events : List EpochEvent) (event : EpochEvent) (claim : Claimed)
        → IsOpened sessions actors words
        → Among claim (claims_of (epoch_run (opening sessions actors words) events).now event)
        → SeenSinceRaise (epoch_run (opening sessions actors words) events) claim.epoch }
    ensures safe { (sessions actors : ℕ) (words : List ℕ) (events : List EpochEvent) → IsOpened sessions actors words
        → SeenSinceRaise (epoch_run (opening sessions actors words) events) (safe_of (epoch_run (opening sessions actors words) events).now.words) }
    ensures claimed_in_force { (sessions actors : ℕ) (words : List ℕ) (events : List EpochEvent) (event : EpochEvent) (claim : Claimed)
        → IsOpened sessions actors words
        → Among claim (claims_of (epoch_run (opening sessions actors words) events).now event)
        → InForceSinceRaise (epoch_run (opening sessions actors words) events) claim.epoch }
    ensures safe_in_force { (sessions actors : ℕ) (words : List ℕ) (events : List EpochEvent) → IsOpened sessions actors words
        → InForceSinceRaise (epoch_run (opening sessions actors words) events) (safe_of (epoch_run (opening sessions actors words) events).now.words) }
{}

/// A session's epoch word is above 0 from the store of its protect to the store of its leave: no epoch that it is about to store
/// is 0, and no event but that last store makes the word 0 again.
pub fn law_protected()
    ensures in_hand { (sessions actors : ℕ) (words : List ℕ) (events : List EpochEvent) → IsOpened sessions actors words
        → HoldsNoZero (epoch_run (opening sessions actors words) events) }
    ensures protected { (sessions actors : ℕ) (words : List ℕ) (events : List EpochEvent) → IsOpened sessions actors words
        → IsProtected (epoch_run (opening sessions actors words) events) }
    ensures stays { (sessions actors : ℕ) (words : List ℕ) (events : List EpochEvent) (event : EpochEvent) → IsOpened sessions actors words
        → StaysProtected (epoch_run (opening sessions actors words) events) event }
{}

/// An action has one owner: a slot that gets one is empty, and a slot that is claimed has the one that was armed there. So has a slot,
/// from the Cas that takes it up to the store that arms it or frees it: its word is 1 then. No other actor holds it, and no other's Cas
/// takes it.
pub fn law_owned()
    ensures put { (sessions actors : ℕ) (words : List ℕ) (events : List EpochEvent) → IsOpened sessions actors words
        → PutsIntoEmpty (epoch_run (opening sessions actors words) events) }
    ensures claim { (sessions actors : ℕ) (words : List ℕ) (events : List EpochEvent) → IsOpened sessions actors words
        → ClaimsFromFull (epoch_run (opening sessions actors words) events) }
    ensures held { (sessions actors : ℕ) (words : List ℕ) (events : List EpochEvent) → IsOpened sessions actors words
        → AreHeldAlone (epoch_run (opening sessions actors words) events).now }
{}

/// The stall is one of the runs of which `law_once` speaks: a session stores an epoch that is safe already, and an action
/// armed at it runs before the session has loaded what it goes by.
pub fn law_of_the_stall()
    ensures opened { IsOpened 1 2 stall_words }
    ensures stalls { HasStalled (epoch_run (opening 1 2 stall_words) stall) }
{}

/// The machines load what they are said to load, and end with what their loads were told. A step that is said to load a value
/// loads that value's word; a refresh and a protect answer with the three values that they were told, each in its place, and store
/// the epoch that they were told; a raise that is told the last epoch, or more, ends as spent, and else seeks a slot; and a
/// claimer that runs a phase's action stores the word of that phase.
pub fn law_of_what_is_loaded()
    ensures sights { LoadsItsSight }
    ensures refresh { (session epoch phase read_only head reply : ℕ) → RefreshIsTold session epoch phase read_only head reply }
    ensures protect { (session epoch stored phase read_only head : ℕ) → ProtectIsTold session epoch stored phase read_only head }
    ensures seen { (phase read_only head : ℕ) → HasSeen (seen phase read_only head) phase read_only head }
    ensures raise { RaiseIsTold }
    ensures phase { StoresPhase }
{}
