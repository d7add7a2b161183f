//! What holds of every copy.
ghost use Rattle.fkv_plane.specs.declared.places.Places.{Places};
ghost use Rattle.fkv_checkpoint.specs.declared.copying.Copying.{Copying};
ghost use Rattle.fkv_checkpoint.specs.Copied.{CopiesAllTold, CopyEnds, CopiesTriples, CopyFits, RestsInParts, RestsInTime};
ghost use Rattle.fkv_checkpoint.specs.Fuzzy.{AtEachCopy, CopiedHaveStood, HomesOnce, NoneLeftOut};
ghost use Rattle.fkv_checkpoint.specs.FuzzyRun.{FuzzyRun};

/// Whatever the replies: a copy has one triple for each entry that a load of a slot was told, in the order of the loads, and no
/// others, seven for each bucket at most, and it ends after eight replies for each bucket at the latest. It goes on past 1,024 buckets
/// and as many overflow buckets at most without a rest, and where it has rested past 1,024 of both together.
pub fn law_copied()
    ensures told { CopiesAllTold }
    ensures ends { CopyEnds }
    ensures triples { CopiesTriples }
    ensures fits { CopyFits }
    ensures time { (p : Places) (c : Copying) → RestsInTime p c }
    ensures parts { RestsInParts }
{}

/// Whatever others do to the index meanwhile: each entry that was copied stood in the index at a step of the copy, and no home was
/// copied twice. At the end of the copy each home that had an entry when it began was copied, with that entry or a newer one.
pub fn law_fuzzy_copy()
    ensures stood { AtEachCopy CopiedHaveStood }
    ensures once { AtEachCopy HomesOnce }
    ensures whole { AtEachCopy NoneLeftOut }
{}

/// A copy while entries are published: the one in front of it is copied, and the one behind it isn't.
pub fn law_of_a_fuzzy_copy()
    ensures { FuzzyRun }
{}
