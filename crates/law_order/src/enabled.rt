//! That a session's own steps are enabled in the order law's log, in every life of a store that was opened.
ghost use Rattle.law_order.specs.Known.Enabled as enabled;

/// In every life, at each moment at which its sessions know what they have to of the log beside it: the record that a session is about to
/// change in place is published there. Where moreover all events of the log were enabled so far, each such change met a published record, and the words
/// of the store tell each session the truth, what a session does by the next event is enabled too, and so is a raise of the safe read-only offset. Of sessions this needs that their updates keep apart
/// from those of other versions.
pub fn law_world_enabled()
    ensures published { enabled.ChangesAPublished }
    ensures enabled { enabled.IsOwnEnabled }
{}
