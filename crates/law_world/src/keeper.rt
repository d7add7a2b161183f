//! What holds of the keeper, and of what a crash leaves, in every life of a store that was opened: what their own crates prove of every run of it.
ghost use Rattle.std.specs.Prelude.{◌≡◌, ◌≤◌, ◌∷◌, ◌++◌, ℕ, Bool, List, false, true};
ghost use Rattle.fkv_base.specs.declared.faults.Fault.TheVariants.{Memory};
ghost use Rattle.fkv_disk.specs.Calls.{MayLeave};
ghost use Rattle.fkv_keeper.specs.CheckpointLaws.{AreWritesBegun, ChangesItsWords, CopiesOnce, DoesOneThing, HoldsCopy, IsBehindWait, IsBeingWritten, KeepsLists, SparesDurable};
ghost use Rattle.fkv_keeper.specs.KeeperLaws.{CopiesAgain, IsBrokenForGood, IsFinishOfBegun, IsMemoryRefused, IsWritten};
ghost use Rattle.fkv_keeper.specs.KeeperRun.{KeeperEvent, has_failed, is_calling, number_open};
ghost use Rattle.fkv_keeper.specs.Keeping.{come_to};
ghost use Rattle.fkv_keeper.specs.LastCommits.{slot_place};
ghost use Rattle.fkv_keeper.specs.SlotLaws.{HasBegin};
ghost use Rattle.fkv_keeper.specs.SweepLaws.{IsBeginAfter, IsSweepAfter};
ghost use Rattle.fkv_keeper.specs.declared.answers.KeeperTold.TheVariants.{TurnRefused, Turned};
ghost use Rattle.fkv_keeper.specs.declared.keepers.Keeping.TheVariants.{Ended, Finishes, Waits, Writes};
ghost use Rattle.fkv_manifest.specs.Kept.{Begins, NewStands};
ghost use Rattle.fkv_record.specs.Places.{number_at};
ghost use Rattle.law_world.specs.Standing.CallsMade.{calls_made};
ghost use Rattle.law_world.specs.Standing.Standing.{IsOneInForce, TriplesStand, is_at_writes};
ghost use Rattle.law_world.specs.Keeper.Lives.{IsLifeTold, begun_last, is_life_writing, keeper_after, life_standing, life_writing, replies_copied};
ghost use Rattle.fkv_world.specs.Opened.{IsOpenedWorld};
ghost use Rattle.fkv_world.specs.OwnEvents.{keeper_events};
ghost use Rattle.fkv_world.specs.Runs.{World, run};
ghost use Rattle.fkv_world.specs.World.{Event};

/// Whatever the sessions do, once a call of the device has failed nothing is asked any more, and each turn and each commit is refused as broken. The
/// durable words and rest are stored only where all writes of the commit in hand have succeeded, to the last sync. Where memory is refused the
/// turn ends and nothing else changes, and the next turn keeps the commit up to its part for it, where the copy begins again. One that rests is taken up
/// there as it is. A commit that is told as finished has the number that was told as begun last, and no number is told as finished again without being told as begun again.
pub fn law_world_keeper()
    ensures broken { (opening : World) (events : List Event) → IsOpenedWorld opening
        → has_failed opening.now.shape opening.now.places opening.now.keeper (keeper_events opening events) ≡ true
        → IsBrokenForGood opening.now.shape opening.now.places (run opening events).now.keeper }
    ensures finished { (opening : World) (events : List Event) → IsOpenedWorld opening
        → (run opening events).now.keeper.step ≡ Finishes
        → IsWritten opening.now.shape (run opening events).now.keeper (life_writing opening events) }
    ensures memory { (opening : World) (events : List Event) (event : KeeperEvent) (before : List KeeperEvent) → IsOpenedWorld opening
        → keeper_events opening events ≡ event ∷ before
        → is_calling (keeper_after opening before).step event ≡ true
        → (run opening events).now.keeper.step ≡ Ended (TurnRefused Memory)
        → IsMemoryRefused (keeper_after opening before) (run opening events).now.keeper }
    ensures again { (opening : World) (events : List Event) → CopiesAgain opening.now.shape opening.now.places (run opening events).now.keeper }
    ensures number { (opening : World) (events : List Event) (event : KeeperEvent) (before : List KeeperEvent) (full : Bool) → IsOpenedWorld opening
        → keeper_events opening events ≡ event ∷ before
        → is_calling (keeper_after opening before).step event ≡ true
        → (run opening events).now.keeper.step ≡ Ended (Turned true full)
        → IsFinishOfBegun (number_open opening.now.shape opening.now.places opening.now.keeper before) (keeper_after opening before) (run opening events).now.keeper }
{}

/// Whatever the sessions do, where a full commit counts as copied, and its writes have not begun, the keeper holds the finished copy of the index;
/// what it writes is that copy, in the area that the newest finished commit's checkpoint doesn't use, and a log commit uses that checkpoint.
/// At each of its events: a copy begins only where the phase says so, a commit in hand isn't copied and no copy rests; there one that rests is
/// taken up as it is. No commit begins with a copy in hand, and once it is copied it is so until it is finished; the newest finished commit and the lost ranges change at its finish alone; and in a turn at most one thing is done for the commit in
/// hand. It changes no words but those of its step, and the durable words by a finish alone.
pub fn law_world_checkpoints()
    ensures copied { (opening : World) (events : List Event) → IsOpenedWorld opening
        → HoldsCopy opening.now.places (replies_copied opening (keeper_events opening events)) (run opening events).now.keeper }
    ensures writes { (opening : World) (events : List Event) (event : KeeperEvent) (before : List KeeperEvent) → IsOpenedWorld opening
        → keeper_events opening events ≡ event ∷ before
        → (keeper_after opening before).step ≡ Waits
        → (run opening events).now.keeper.step ≡ Writes
        → AreWritesBegun opening.now.shape opening.now.places (replies_copied opening before) (begun_last opening before) (keeper_after opening before) (run opening events).now.keeper }
    ensures used { (opening : World) (events : List Event) → IsOpenedWorld opening
        → IsBehindWait (come_to (run opening events).now.keeper)
        → IsBeingWritten opening.now.places (replies_copied opening (keeper_events opening events)) (begun_last opening (keeper_events opening events)) (life_writing opening events) (run opening events).now.keeper }
    ensures copies { (opening : World) (events : List Event) (event : KeeperEvent) (later before : List KeeperEvent) → keeper_events opening events ≡ later ++ event ∷ before
        → CopiesOnce opening.now.places (keeper_after opening before) event (keeper_after opening (event ∷ before)) }
    ensures lists { (opening : World) (events : List Event) (event : KeeperEvent) (later before : List KeeperEvent) → keeper_events opening events ≡ later ++ event ∷ before
        → KeepsLists (keeper_after opening before) (keeper_after opening (event ∷ before)) }
    ensures parts { (opening : World) (events : List Event) (event : KeeperEvent) (later before : List KeeperEvent) → keeper_events opening events ≡ later ++ event ∷ before
        → DoesOneThing (keeper_after opening before) event (keeper_after opening (event ∷ before)) }
    ensures stores { (opening : World) (events : List Event) → IsOpenedWorld opening
        → ChangesItsWords opening.now.shape opening.now.places (run opening events).now.keeper }
    ensures durable { (opening : World) (events : List Event) → IsOpenedWorld opening
        → SparesDurable opening.now.shape opening.now.places (run opening events).now.keeper }
{}

/// At each moment of a life mailboxes are served of the log of the newest finished commit, and no read for one is below that log's begin. The log of a
/// commit in hand begins there too, or at the end of a sweep that is done and began there. That is chosen as the commit begins, and stays until it is
/// finished. So the newest finished commit's log never begins further back. A sweep goes on by its own replies and reads, with no commit in hand. A full
/// commit that is finished sets how far the next one goes.
pub fn law_world_begin()
    ensures begins { (opening : World) (events : List Event) → IsOpenedWorld opening → HasBegin (run opening events).now.keeper }
    ensures goes_on { (opening : World) (later before : List Event) → IsOpenedWorld opening
        → (run opening before).now.keeper.last.begin.0 ≤ (run opening (later ++ before)).now.keeper.last.begin.0 }
    ensures sweeps { (opening : World) (events : List Event) (event : KeeperEvent) (later before : List KeeperEvent) → keeper_events opening events ≡ later ++ event ∷ before
        → IsSweepAfter event (keeper_after opening before).step (keeper_after opening before) (keeper_after opening (event ∷ before)) }
    ensures chooses { (opening : World) (events : List Event) (event : KeeperEvent) (later before : List KeeperEvent) → keeper_events opening events ≡ later ++ event ∷ before
        → IsBeginAfter (keeper_after opening before).commit (keeper_after opening before) (keeper_after opening (event ∷ before)) }
{}

/// Over every life of a store of which the keeper was told the truth, as long as each commit that begins has the number behind the newest finished
/// one's: in each image that a crash may leave by the world's own calls of the device the newest finished commit is in force, its slot as it was
/// written, which names its number; or, while the next one is written or where a call of that has failed, that one, whole and with its triples;
/// and it alone once all of it is written. Where its writes begin they are ready. And the triples of the checkpoint that the newest finished commit
/// uses stand as they were written.
pub fn law_world_one_commit_stands()
    ensures calls { (opening : World) (events : List Event) → IsOpenedWorld opening
        → calls_made opening.now.shape opening.now.places opening.now.keeper (keeper_events opening events) ≡ (run opening events).past.calls }
    ensures opened { (opening : World) (events : List Event) → (run opening events).past.opened ≡ opening.past.opened }
    ensures begins { (opening : World) (events : List Event) (event : KeeperEvent) (before : List KeeperEvent) → IsLifeTold opening events
        → keeper_events opening events ≡ event ∷ before
        → (keeper_after opening before).step ≡ Waits
        → (run opening events).now.keeper.step ≡ Writes
        → Begins (run opening events).now.keeper.writes opening.past.opened (run opening events).past.calls (slot_place (run opening events).now.keeper.last.number) }
    ensures stands { (opening : World) (events : List Event) (image : List ℕ) → IsLifeTold opening events
        → MayLeave opening.past.opened (run opening events).past.calls image
        → IsOneInForce (is_life_writing opening events) (run opening events).now.keeper.last (life_standing opening events) (life_writing opening events).first image }
    ensures named { (opening : World) (events : List Event) → IsLifeTold opening events
        → number_at (life_standing opening events).slot 8 ≡ (run opening events).now.keeper.last.number.0 }
    ensures writes { (opening : World) (events : List Event) → IsLifeTold opening events
        → (run opening events).now.keeper.is_broken ≡ false
        → is_life_writing opening events ≡ is_at_writes (come_to (run opening events).now.keeper) }
    ensures written { (opening : World) (events : List Event) (image : List ℕ) → IsLifeTold opening events
        → MayLeave opening.past.opened (run opening events).past.calls image
        → (run opening events).now.keeper.step ≡ Finishes
        → NewStands (life_writing opening events).first image }
    ensures triples { (opening : World) (events : List Event) (image : List ℕ) → IsLifeTold opening events
        → MayLeave opening.past.opened (run opening events).past.calls image
        → TriplesStand opening.now.shape (run opening events).now.keeper.last.checkpoint (life_standing opening events) image }
{}
