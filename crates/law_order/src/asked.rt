//! In every life what a session's requests have asked for in the mailbox is what the mailbox's notes say.
ghost use Rattle.law_order.specs.Asked.Laws as asked;

/// In every life of a store that was opened: an attempt that looks into its session's mailbox looks for the record that was
/// asked for there last, and one that is about to say that it asks has put the address there of the record that it seeks. And each request that has asked
/// seeks a record, the one that is asked for: of those that wait (but what the list has of the request that is polled is out of date), and of the one
/// that is attempted.
pub fn law_world_asked()
    ensures looks { asked.LooksForWhatIsAsked }
    ensures asks { asked.AsksForWhatIsSought }
    ensures asked { asked.SeeksWhatIsAsked }
{}
