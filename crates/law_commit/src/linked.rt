//! What an update's search met that goes on to link an overflow bucket.
ghost use Rattle.law_commit.specs.Said as said;

/// Over every life of an opened store whose chains begin where the entries of the index lead: at the load of an eighth word that leads nowhere, the
/// chain of the searched home is empty. So an update's search that takes or links an overflow bucket met an empty chain, and has gone on to link ever
/// since.
pub fn law_links_meet_empty()
    ensures meets { said.LinksMeetEmptyChains }
    ensures linked { said.LinkersHaveMetEmptyChains }
{}
