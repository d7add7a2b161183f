//! What a latch keeps apart, over every list of events.
ghost use Rattle.std.specs.Prelude.{ℕ, List};
ghost use Rattle.fkv_plane.specs.declared.places.Places.{Places};
ghost use Rattle.fkv_latch.specs.LatchWorld.{LatchEvent, latch_run};
ghost use Rattle.fkv_latch.specs.Meeting.{Meet};
ghost use Rattle.fkv_latch.specs.Tasks.{AtEachMoment, AreTasksTrue, RestBetweenTasks, RestersStay};
ghost use Rattle.fkv_latch.specs.Latched.{IsOpened, opening, AreLatchesApart, AreCounted, AreLatchesNamed};

/// Whatever the order of the steps of all that take and drop latches, on any buckets, and whatever others do to the words as
/// long as they keep the bits of a latch: an exclusive latch that an actor was answered, and hasn't begun to drop, stands
/// beside no shared latch of that bucket of which the same holds, and beside no other exclusive one. The word of a latch
/// counts just those who share it, with those who are about to take a share off, so that the count never wraps.
pub fn law_latched()
    ensures apart { (places : Places) (actors : ℕ) (words : List ℕ) (events : List LatchEvent) → IsOpened places words
        → AreLatchesApart (latch_run (opening places actors words) events) }
    ensures counted { (places : Places) (actors : ℕ) (words : List ℕ) (events : List LatchEvent) → IsOpened places words
        → AreCounted (latch_run (opening places actors words) events) }
    ensures named { AreLatchesNamed }
{}

/// Over the same runs, of each task and by the words alone that it meets: a latch is answered as taken where nobody stood in the
/// way, and as busy only where somebody did, or where the word was another when the swap came. A share that meets bit 63 is
/// added and taken off again, and one that meets none is taken. A drop is answered as dropped, and no take is. Each step changes
/// the word of its latch alone, and in it just what its task says: where the bucket leads on stays. An actor between tasks is at
/// rest, and nothing that it does changes anything.
pub fn law_tasks()
    ensures steps { AtEachMoment AreTasksTrue }
    ensures rest { AtEachMoment RestBetweenTasks }
    ensures still { AtEachMoment RestersStay }
{}

/// A share that meets one who holds the latch alone is one of the runs of which `law_latched` speaks: it is counted beside
/// bit 63 and taken off again, and the next try takes it.
pub fn law_of_a_meeting()
    ensures { Meet }
{}
