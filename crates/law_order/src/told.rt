//! That the lines that an event of a life tells are enabled in the log beside it.
ghost use Rattle.law_order.specs.Known.Lines.{AreLinesEnabled};

/// In a life whose log's events have been enabled so far: where what an event's session does to the log is enabled, with the raise of the
/// safe read-only offset behind it, and each answer of a read among the lines that the event tells is the value that the read has, each
/// of these lines is enabled, and so all that the event is to the log. For an update is called under a name that is free, one that is refused has
/// not taken effect, a result is the reply of its effect, and the number by which a read is called is none that a read has.
pub fn law_world_told()
    ensures { AreLinesEnabled }
{}
