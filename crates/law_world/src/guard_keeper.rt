//! Each step of the keeper is a list of the guard's events.
ghost use Rattle.std.specs.Prelude.{◌≡◌, ◌^◌, List};
ghost use Rattle.fkv_base.specs.declared.shapes.Shape.{Shape};
ghost use Rattle.fkv_plane.specs.declared.places.Places.{Places};
ghost use Rattle.fkv_keeper.specs.Keeping.{KeeperState};
ghost use Rattle.fkv_keeper.specs.KeeperRun.{IsOpened, KeeperEvent, keeper_run};
ghost use Rattle.law_world.specs.GuardKeeper.DeviceCalls.{MakeItsCalls, WritesSpareLog};
ghost use Rattle.law_world.specs.GuardKeeper.Followed.{StepsFollow, TurnsFollow, CommitsFollow, KnowledgeStays};

/// The keeper has two of the guard's actors, and the second one works where a flush rests that the first one has made. Where the
/// one that works is like the keeper, and what is known of a keeper by what it is at is known of it, and the other one is at the
/// flush that rests or at nothing, whatever the guard's world is otherwise: a step of the keeper, with what the world settles
/// behind it, is the list of the guard's events that the map gives. These lead to the words and the actions that the keeper's own
/// step leads to, and to two actors that are so again for what the keeper has become. So does a turn that is asked for, and a
/// commit. What is known stays as the offsets rise. The step has no premise.
pub fn law_keeper_followed()
    ensures steps { StepsFollow }
    ensures turns { TurnsFollow }
    ensures commits { CommitsFollow }
    ensures stays { KnowledgeStays }
{}

/// The guard's events of a step of the keeper make the write or sync that the keeper makes, with the same success, and no other, as
/// long as what a commit writes ends where the log begins. And that it does: over every run of a keeper whose store was opened, whatever
/// the replies and the answers of the device are, where its index has the buckets and the overflow buckets of the shape.
pub fn law_keeper_calls()
    ensures calls { MakeItsCalls }
    ensures spares { (shape : Shape) (p : Places) (opening : KeeperState) (events : List KeeperEvent) → IsOpened opening → p.buckets ≡ 2 ^ shape.bucket_bits → p.overflow ≡ shape.overflow
        → WritesSpareLog shape (keeper_run shape p opening events) (keeper_run shape p opening events).step }
{}
