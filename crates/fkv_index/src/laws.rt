//! What holds of the index, over every list of events.
ghost use Rattle.fkv_index.specs.OneEntry.{HomesAreThere, AtEachMoment, IsIndexAt, AnswersTrue, ContendedHaveLost, SparesTold, ReadsLoad, HaveSlots, EachGrows};
ghost use Rattle.fkv_index.specs.Entries.{AnswersEntry, PublishesTrue, EachMovesEntries};
ghost use Rattle.fkv_index.specs.SlotOrders.{OrdersFilled, OrdersHaveTagsOnce, EachMovesOrders};
ghost use Rattle.fkv_index.specs.Contended.{AtEachMet, ContendedHaveMet};
ghost use Rattle.fkv_index.specs.Searches.{SearchesWrite, ListsMove, AnswersPurpose, FullIsSo, SpoiledEnd};
ghost use Rattle.fkv_index.specs.EighthEntry.{EmptyIsIndex, LinksOnce};

/// The home of a key is one that the index has.
pub fn law_homes()
    ensures { HomesAreThere }
{}

/// Whatever the order of the steps of all that search and publish, and whatever others do to words that are not the index's,
/// and to the upper bits of eighth words: the buckets are in order, each home has one entry at most, and each overflow bucket
/// that is taken is in one list or is one session's spare. What a search comes to is so at the step that ends it, one that
/// ends as contended has lost a Cas or what it linked, and a slot that was found stays the home's. The spare that a search answers is the
/// one that its session owns, and a search that is a read changes no word. A slot that is not empty keeps its tag for good, and
/// lists grow at their ends.
pub fn law_one_entry()
    ensures index { AtEachMoment IsIndexAt }
    ensures answers { AtEachMoment AnswersTrue }
    ensures contended { AtEachMoment ContendedHaveLost }
    ensures spares { AtEachMoment SparesTold }
    ensures reads { AtEachMoment ReadsLoad }
    ensures slots { AtEachMoment HaveSlots }
    ensures grows { AtEachMoment EachGrows }
{}

/// Over the same runs: what a search comes to is the entry that its home has at that step. A publish is answered as won just where
/// the word that was found stands in its slot, and puts its entry in the place of it then; that is what its home had until then.
/// A publish that is answered as lost changes no word, and no other step changes the entry of a home.
pub fn law_entries()
    ensures answers { AtEachMoment AnswersEntry }
    ensures publishes { AtEachMoment PublishesTrue }
    ensures moves { AtEachMoment EachMovesEntries }
{}

/// Over the same runs, on the list of a bucket's slot words, the bucket and its overflow buckets one after another: the list is
/// filled from the left, and no two of its words are entries of one tag. A publish that is won changes one word of one list, a link adds seven empty slots at the end of one, and
/// nothing else changes any.
pub fn law_orders()
    ensures filled { AtEachMoment OrdersFilled }
    ensures tags { AtEachMoment OrdersHaveTagsOnce }
    ensures moves { AtEachMoment EachMovesOrders }
{}

/// Over the same runs: a step of a search changes no word, or raises the count of taken buckets by one, or links the bucket that its session
/// has to spare behind the last of its home's list, and then the upper bits of the word that leads there stay, and all other words.
/// Only a search for a read comes to no slot, and only one for an update finds all overflow buckets taken;
/// its session has none to spare then, and a bucket of the list is full of entries of other tags.
/// A search ends as contended only where it meets another word at a place than it met last there, or where it has linked a bucket
/// and all slots of its home have entries of other tags again. No event but a link changes a list. And in any state, a reply that no
/// store gives ends a search as contended.
pub fn law_searches()
    ensures writes { AtEachMoment SearchesWrite }
    ensures lists { AtEachMoment ListsMove }
    ensures purposes { AtEachMoment AnswersPurpose }
    ensures full { AtEachMoment FullIsSo }
    ensures contended { AtEachMet ContendedHaveMet }
    ensures spoiled { SpoiledEnd }
{}

/// An index without entries is in order, and a run that begins with one: seven entries fill a bucket, two sessions link at once,
/// and the eighth entry stands in the overflow bucket of the one that was first, while the other keeps its own to spare.
pub fn law_of_the_eighth_entry()
    ensures empty { EmptyIsIndex }
    ensures links { LinksOnce }
{}
