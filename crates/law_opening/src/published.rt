//! What sessions go by is published.
ghost use Rattle.law_opening.specs.Changes.Laws.{ChainsAlwaysFall, ChangesArePublished, HeadersAlwaysShow, LogStaysLinked, OldRecordsStay};

/// In every life of a store that was opened, whatever its calls, commits, turns and the order of its steps, beside a log whose chains and records lead to
/// published records alone: so they do at every moment. The record whose value a session is about to change in place is published: the session has come to
/// it from an entry of the index, along published records. So each address that is taken lies above what its record leads to, addresses fall down each chain, and
/// the header of each record that is decided says what became of it. What the store was opened with stays in the log as it was.
pub fn law_changes_published()
    ensures published { ChangesArePublished }
    ensures linked { LogStaysLinked }
    ensures falls { ChainsAlwaysFall }
    ensures headers { HeadersAlwaysShow }
    ensures old { OldRecordsStay }
{}
