//! What sessions are told by the words of the store is true of the log.
ghost use Rattle.law_order.specs.Known.Truth.{WordsAreTrue};

/// In every life of a store that was opened, at each moment so far at which all events of the log beside it were enabled, each change in
/// place met a published record, and sessions know what they have to: where what they load from their mailboxes is true of the log, so is all that
/// the words of the store tell the attempts that are under way.
pub fn law_world_truth()
    ensures { WordsAreTrue }
{}
