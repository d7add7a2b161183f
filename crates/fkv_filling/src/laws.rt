//! What holds of the filled words as an index.
ghost use Rattle.fkv_filling.specs.OpeningIndex.{FilledIsInOrder, FilledHasRoom};

/// Where an index has room for its entries, it takes no more overflow buckets than there are, and what is filled is an index in order, wherever it
/// stands at the places of the buckets: with any number of actors at rest, each overflow bucket that is taken follows one bucket, in one list, the
/// slots are filled from the left and each home stands once. The home of each entry has that entry, every other home has none, and an eighth word has
/// no bit above its link.
pub fn law_filled_index_is_in_order()
    ensures in_order { FilledIsInOrder }
    ensures has_room { FilledHasRoom }
{}
