//! What a crash leaves of a store, at each moment of a run of its keeper.
ghost use Rattle.std.specs.Prelude.{◌≡◌, ◌∷◌, ◌+◌, ◌*◌, ◌%◌, ℕ, Bool, List, false};
ghost use Rattle.fkv_base.specs.declared.numbers.Version.{Version};
ghost use Rattle.fkv_base.specs.declared.shapes.Shape.{Shape};
ghost use Rattle.fkv_record.specs.Places.{number_at};
ghost use Rattle.fkv_disk.specs.Calls.{MayLeave};
ghost use Rattle.fkv_plane.specs.declared.places.Places.{Places};
ghost use Rattle.fkv_manifest.specs.Kept.{Begins, NewStands};
ghost use Rattle.fkv_keeper.specs.declared.keepers.Keeping.TheVariants.{Waits, Writes, Finishes};
ghost use Rattle.fkv_keeper.specs.Keeping.{KeeperState, come_to};
ghost use Rattle.fkv_keeper.specs.KeeperRun.{KeeperEvent, keeper_run, writing};
ghost use Rattle.fkv_keeper.specs.LastCommits.{slot_place};
ghost use Rattle.law_world.specs.Standing.CallsMade.{calls_made};
ghost use Rattle.law_world.specs.Standing.Opening.{IsToldBy, AreNumbersInTurn};
ghost use Rattle.law_world.specs.Standing.Standing.{IsOneInForce, is_at_writes, is_writing, standing, TriplesStand};

/// Over every run of a keeper that was told the truth where its store was opened, whatever the replies and the answers of the device
/// are, as long as each commit that begins has the number behind the newest finished one's: where the writes of a commit begin, each
/// call of the device has succeeded and the newest was a sync, and they are ready. In each image that a crash may leave the newest
/// finished commit is in force, its slot as it was written, which names its number; or, while the next one is written or where a call of that has failed,
/// that one, whole and with its triples; and it alone once all of it is written. As long as no call has failed a commit is written
/// from its writes on until it is finished. And the triples of the checkpoint that the newest finished commit uses stand as they
/// were written, fit into their area, and the image reaches up to them.
pub fn law_one_commit_stands()
    ensures begins { (shape : Shape) (p : Places) (opened : List ℕ) (opening : KeeperState) (events : List KeeperEvent) (event : KeeperEvent)
        → IsToldBy shape p opened opening → AreNumbersInTurn shape p opening (event ∷ events)
        → (keeper_run shape p opening events).step ≡ Waits → (keeper_run shape p opening (event ∷ events)).step ≡ Writes
        → Begins (keeper_run shape p opening (event ∷ events)).writes opened (calls_made shape p opening (event ∷ events)) (slot_place (keeper_run shape p opening (event ∷ events)).last.number) }
    ensures stands { (shape : Shape) (p : Places) (opened : List ℕ) (opening : KeeperState) (events : List KeeperEvent) (image : List ℕ)
        → IsToldBy shape p opened opening → AreNumbersInTurn shape p opening events → MayLeave opened (calls_made shape p opening events) image
        → IsOneInForce (is_writing shape p opening events) (keeper_run shape p opening events).last (standing shape p opened opening events) (writing shape p opening events).first image }
    ensures named { (shape : Shape) (p : Places) (opened : List ℕ) (opening : KeeperState) (events : List KeeperEvent)
        → IsToldBy shape p opened opening → AreNumbersInTurn shape p opening events
        → number_at (standing shape p opened opening events).slot 8 ≡ (keeper_run shape p opening events).last.number.0 }
    ensures writes { (shape : Shape) (p : Places) (opened : List ℕ) (opening : KeeperState) (events : List KeeperEvent)
        → IsToldBy shape p opened opening → AreNumbersInTurn shape p opening events → (keeper_run shape p opening events).is_broken ≡ false
        → is_writing shape p opening events ≡ is_at_writes (come_to (keeper_run shape p opening events)) }
    ensures written { (shape : Shape) (p : Places) (opened : List ℕ) (opening : KeeperState) (events : List KeeperEvent) (image : List ℕ)
        → IsToldBy shape p opened opening → AreNumbersInTurn shape p opening events → MayLeave opened (calls_made shape p opening events) image
        → (keeper_run shape p opening events).step ≡ Finishes → NewStands (writing shape p opening events).first image }
    ensures triples { (shape : Shape) (p : Places) (opened : List ℕ) (opening : KeeperState) (events : List KeeperEvent) (image : List ℕ)
        → IsToldBy shape p opened opening → AreNumbersInTurn shape p opening events → MayLeave opened (calls_made shape p opening events) image
        → TriplesStand shape (keeper_run shape p opening events).last.checkpoint (standing shape p opened opening events) image }
{}

/// The slots of commits lie by turns in the first place and in the second: of even numbers at 512, and of odd ones at 1,024.
pub fn law_of_slot_places()
    ensures { (number : Version) → slot_place number ≡ 512 + 512 * (number.0 % 2) }
{}
