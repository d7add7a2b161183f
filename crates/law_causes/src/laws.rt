//! The cause of each refusal, over every list of turns, commits, replies, actions and calls of the device, and in each life.
ghost use Rattle.std.specs.Prelude.{◌≡◌, ◌∷◌, List, true};
ghost use Rattle.fkv_base.specs.declared.faults.Fault.{Fault};
ghost use Rattle.fkv_base.specs.declared.shapes.Shape.{Shape};
ghost use Rattle.fkv_keeper.specs.DrainLaws.{call_told};
ghost use Rattle.fkv_keeper.specs.Keeping.{Finality, KeeperModel, KeeperState};
ghost use Rattle.fkv_keeper.specs.KeeperRun.{IsOpened, KeeperEvent, is_calling, keeper_run};
ghost use Rattle.fkv_keeper.specs.NewKeepers.{IsNewKeeper};
ghost use Rattle.fkv_keeper.specs.declared.answers.KeeperTold.TheVariants.{CommitRefused, TurnRefused};
ghost use Rattle.fkv_keeper.specs.declared.keepers.Keeping.TheVariants.{Ended};
ghost use Rattle.fkv_plane.specs.declared.places.Places.{Places};
ghost use Rattle.fkv_world.specs.Opened.{IsOpenedWorld};
ghost use Rattle.fkv_world.specs.OwnEvents.{keeper_events};
ghost use Rattle.fkv_world.specs.Runs.{World, run};
ghost use Rattle.fkv_world.specs.World.{Event};
ghost use Rattle.law_causes.specs.Causes.{HasCommitCause, HasTurnCause, kind_asked};
ghost use Rattle.law_causes.specs.Ends.{RefusalsHaveCauses};
ghost use Rattle.law_causes.specs.Lives.{keeper_before, kind_of_life, told_in_life};

/// Whatever is begun, replied, given and called: a commit that is refused has its cause, and so has a turn that ends early. A commit is refused as broken
/// only if a call of the device has failed before. Else the call has changed no word, and the words that it has loaded show why: a commit is running,
/// versions or epochs are spent, a log commit has too many lost ranges or lies past the window of its checkpoint, or no drain slot is free. While the
/// writes of a living store's commit rest, another is refused as running, and has asked nothing. A turn ends as broken only if a call of the device has
/// failed before, and for the device only at its own call that fails. It ends for the epochs only if it has loaded the last epoch, and for memory only
/// where none is granted for a copy of the index.
pub fn law_of_refusals()
    ensures commits { (shape : Shape) (p : Places) (opening : KeeperState) (before : List KeeperEvent) (event : KeeperEvent) (why : Fault) → IsOpened opening
        → is_calling (keeper_run shape p opening before).step event ≡ true
        → (keeper_run shape p opening (event ∷ before)).step ≡ Ended (CommitRefused why)
        → HasCommitCause before (kind_asked shape p opening (event ∷ before)) (keeper_run shape p opening (event ∷ before)) (call_told shape p opening (event ∷ before)) why }
    ensures turns { (shape : Shape) (p : Places) (opening : KeeperState) (before : List KeeperEvent) (event : KeeperEvent) (why : Fault) → IsOpened opening
        → is_calling (keeper_run shape p opening before).step event ≡ true
        → (keeper_run shape p opening (event ∷ before)).step ≡ Ended (TurnRefused why)
        → HasTurnCause before (keeper_run shape p opening before) event (call_told shape p opening (event ∷ before)) why }
{}

/// What the keeper tells of the call that has begun last, once that is over. If it tells of a turn that it is refused, the turn has ended so, for a cause that
/// stands then; and so it is with a commit. So a turn is refused with `Broken`, `Device`, `EpochsSpent` or `Memory`, and with nothing else. Who asks for the
/// device is in a turn.
pub fn law_of_last_calls()
    ensures { RefusalsHaveCauses }
{}

/// The keeper of a store that was opened starts each commit by its store's class, whatever happens. So a commit is refused for the versions and the window
/// of that class alone.
pub fn law_of_the_class()
    ensures { (shape : Shape) (p : Places) (last : Finality) (lost : _) (k : KeeperModel) (events : List KeeperEvent) → IsNewKeeper shape last lost k
        → (keeper_run shape p k.state events).start.asked.class ≡ shape.class }
{}

/// So it is in each life of a store that was opened, whatever the sessions do, what stands in words and on the device, and which calls fail.
pub fn law_world_refused()
    ensures commits { (opening : World) (events : List Event) (event : KeeperEvent) (before : List KeeperEvent) (why : Fault) → IsOpenedWorld opening
        → keeper_events opening events ≡ event ∷ before
        → is_calling (keeper_before opening before).step event ≡ true
        → (run opening events).now.keeper.step ≡ Ended (CommitRefused why)
        → HasCommitCause before (kind_of_life opening (event ∷ before)) (run opening events).now.keeper (told_in_life opening (event ∷ before)) why }
    ensures turns { (opening : World) (events : List Event) (event : KeeperEvent) (before : List KeeperEvent) (why : Fault) → IsOpenedWorld opening
        → keeper_events opening events ≡ event ∷ before
        → is_calling (keeper_before opening before).step event ≡ true
        → (run opening events).now.keeper.step ≡ Ended (TurnRefused why)
        → HasTurnCause before (keeper_before opening before) event (told_in_life opening (event ∷ before)) why }
{}
