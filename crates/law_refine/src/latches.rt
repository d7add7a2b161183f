//! What the latches keep apart holds of every life of the engine.
ghost use Rattle.std.specs.Prelude.{List};
ghost use Rattle.fkv_latch.specs.Latched.{AreCounted, AreLatchesApart};
ghost use Rattle.law_world.specs.Below.fkv_world.World.{Event};
ghost use Rattle.law_world.specs.Below.fkv_world.Runs.{World, run};
ghost use Rattle.law_refine.specs.Latches.InTries.{ShareInTries, StandsBesideNone};
ghost use Rattle.law_refine.specs.Latches.Shows.{AreApart, ArePermitted, IsOpened, Shows, seen_by_latches};

/// Over every life of the engine that begins as a store was opened, whatever its calls, commits, turns and the order of its steps: each
/// ask of a session that works on no latch, and each of the keeper, adds nothing to the word of a latch, and keeps the latch's bits. So
/// the words are those of a run of the world of latches, in which each session's actor is as far as the session's machine and holds
/// what the session holds. So a latch that a session holds alone no other session holds alone, and no request that waits, of a session between its calls, shares it;
/// and the word of a latch counts just those who share it.
pub fn law_world_latched()
    ensures permitted { (opening : World) (events : List Event) → IsOpened opening.now
        → ArePermitted opening events }
    ensures shows { (opening : World) (events : List Event) → IsOpened opening.now
        → Shows (run opening events).now (seen_by_latches opening events) }
    ensures apart { (opening : World) (events : List Event) → IsOpened opening.now
        → AreApart (run opening events).now }
    ensures latched { (opening : World) (events : List Event) → IsOpened opening.now
        → AreLatchesApart (seen_by_latches opening events) }
    ensures counted { (opening : World) (events : List Event) → IsOpened opening.now
        → AreCounted (seen_by_latches opening events) }
{}

/// In each such life, also while a call is in hand, a session's actor has in the word of each latch what the session's requests share, and what the request of
/// that call does: its share, or one that it is dropping, or one that has met bit 63 and isn't given back yet. So a latch counts just the requests that share it, but for
/// those two. And where a session holds a latch alone, no request shares it, of whatever session, in a try or waiting.
pub fn law_latched_in_tries()
    ensures shares { ShareInTries }
    ensures beside_none { StandsBesideNone }
{}
