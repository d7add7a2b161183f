//! How a session's search of the index goes on, at every moment of its runs, and that each home has one entry at most in every life.
ghost use Rattle.std.specs.Prelude.{List, ℕ};
ghost use Rattle.law_world.specs.Below.fkv_world.World.{Event};
ghost use Rattle.law_world.specs.Below.fkv_world.Runs.{World, run};
ghost use Rattle.law_refine.specs.Index.LifeEntries.{AtEachMoment, IsIndexNow, AreAnsweredSo, AreSlotsKept, AreOrders, AskForThese, EachMovesIndex};
ghost use Rattle.law_refine.specs.Index.Searching.{AreSearchesMoved};
ghost use Rattle.law_refine.specs.Index.Shows.{ArePermitted, IsOpened, Shows, seen_by_index};

/// Whatever calls a session begins and whatever its asks are replied: behind each reply its search goes on where the machine of searches
/// does, as that machine's own table says, and for the same purpose. Else the search has ended, or none was under way, and then none
/// is, or one has begun at the first slot of a bucket of the index.
pub fn law_of_searches()
    ensures { AreSearchesMoved }
{}

/// Over every life of the engine that begins as a store was opened, with an index in order, whatever its calls, commits, turns and the order
/// of its steps: each ask of a session that neither searches nor publishes, and each of the keeper, leaves the count of taken overflow
/// buckets, the slots and the links as they are. So the words are those of a run of the world of the index, in which each session's actor
/// searches, keeps a slot and publishes as the session does, and was told of the same bucket to spare. So the buckets are in order, each home has
/// one entry at most, and each overflow bucket that is taken is in one list or is what one session has to spare. What a search comes to is
/// so at the step that ends it, and is the entry of its home; the slot that it has found stays the home's until the session publishes
/// there; and the list of a bucket's slots is filled from the left and has each tag once. A publish is won where the word that was met
/// stands in the slot, and gives its home the new entry; no other event changes an entry, and none but a link a list.
pub fn law_world_one_entry()
    ensures permitted { (opening : World) (lists : ℕ → List ℕ) (events : List Event) → IsOpened opening lists
        → ArePermitted opening events }
    ensures shows { (opening : World) (lists : ℕ → List ℕ) (events : List Event) → IsOpened opening lists
        → Shows (run opening events).now (seen_by_index opening lists events) }
    ensures index { AtEachMoment IsIndexNow }
    ensures answers { AtEachMoment AreAnsweredSo }
    ensures slots { AtEachMoment AreSlotsKept }
    ensures orders { AtEachMoment AreOrders }
    ensures asks { AtEachMoment AskForThese }
    ensures moves { EachMovesIndex }
{}
