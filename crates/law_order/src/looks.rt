//! What a session loads from its mailbox is true of the log.
ghost use Rattle.law_order.specs.Known.Looks.{LooksAreTrue};

/// In every life of a store that was opened, at each moment so far at which all events of the log beside it were enabled, each change in
/// place met a published record, and sessions know what they have to: where what the device gives for a flushed record shows the log, the words that
/// an attempt loads from its session's mailbox lead where the record does that its request seeks, and are its key and its value. Where they tell that it is gone, the
/// key is a begin of the log, all below which is fixed.
pub fn law_looks_true()
    ensures { LooksAreTrue }
{}
