//! What the copies of the index are in every life.
ghost use Rattle.law_commit.specs.Laws.Copied as copied;

/// In every life of a store that was opened, with commits too, the copy that the keeper has begun last goes over the index of the life, as far as the keeper's
/// replies lead. As long as the device works, and the writes of a full commit that counts as copied have not begun, that copy is finished and in the keeper's
/// hand. From then on, while the commit is in hand, its triples are what is written as its checkpoint. At every moment each entry that was copied has stood at
/// a step of the copy, and no home was copied twice. At its end no home is left out that had an entry when it began.
pub fn law_world_copied()
    ensures index { copied.CopiesGoOverTheIndex }
    ensures replies { copied.CopiesGoByReplies }
    ensures held { copied.CopiesAreInHand }
    ensures written { copied.CopiesAreWritten }
    ensures stood { copied.CopiedEntriesHaveStood }
    ensures once { copied.HomesAreCopiedOnce }
    ensures whole { copied.NoHomeIsLeftOut }
{}

/// Over every life of an opened store whose chains begin where the entries of the index lead: each triple of the copy that began last leads into the
/// chain of its home. If the copy is finished, each home whose chain wasn't empty when it began has a triple. That leads to where the chain began then,
/// or above it. For each entry that was copied stood in the index of the life at a moment since the copy began, and the copy began with the index as
/// it was then. If a full commit in hand is copied, its copy began while it was in hand, and the phase word said in-progress or wait-pending then.
pub fn law_copies_cover()
    ensures begun { copied.CopiesBeginWithTheIndex }
    ensures stood { copied.EntriesHaveStoodSince }
    ensures in_chains { copied.TriplesLeadIntoChains }
    ensures covers { copied.CopiesCoverHeads }
    ensures commit { copied.CopiesBeginForCommits }
{}
