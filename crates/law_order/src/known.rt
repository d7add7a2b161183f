//! What sessions know as a life begins.
ghost use Rattle.law_order.specs.Known.Knows.{AreKnownAtFirst};

/// As a life begins each session knows all that it has to of the log: it has no request, and attempts none.
pub fn law_sessions_begin()
    ensures { AreKnownAtFirst }
{}
