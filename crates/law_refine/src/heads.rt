//! How the chains of the log beside a life follow the entries of the index.
ghost use Rattle.law_refine.specs.Heads.Laws as heads;

/// Over every life that begins as the guard and the index suppose, from a log that reserves nothing, has no record from the tail up and whose
/// chains begin where the entries of the index lead: so they do at every moment. And each record that the log's events publish is published
/// where the chain of its home begins with the record that it leads to.
pub fn law_heads()
    ensures leads { heads.ChainsBeginAtEntries }
    ensures meets { heads.EventsMeetHeads }
{}

/// At every moment of such a life a session tries, searches, keeps a slot and publishes for the home of the key of the request that it attempts. What a
/// search finds at the step that ends it leads to where the chain of its home begins: the slot has an entry of that address, or none where
/// the chain is empty; and it is empty where the home has no slot.
pub fn law_heads_found()
    ensures homes { heads.SessionsAreAtHome }
    ensures found { heads.SearchesFindHeads }
{}
