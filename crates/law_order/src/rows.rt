//! How what requests and attempts know goes on. These functions do nothing: what they promise holds of every life.
ghost use Rattle.law_order.specs.Rows.Laws as rows;

/// Whatever calls a session begins and whatever its asks are replied: each of its reads that has put an address into the mailbox and waits there seeks a record of the
/// device; and so it is with what it attempts. While an attempt puts an address there, its request seeks a record.
pub fn law_requests_asked()
    ensures { rows.SeekWhatIsAsked }
{}

/// What a request that waits knows of the log stays along the log's events of the next event, whatever happens by it, as long as each event of the log was enabled.
pub fn law_waits_stay()
    ensures { rows.KeepsWhatWaitsKnow }
{}

/// In every life of a store that was opened what sessions know of the log goes on by each event: where all events of the log until then, and those of the event too, were enabled, and each
/// session knew what it has to at each moment and was told truly before the event, each knows it behind the event. Of sessions this needs that their updates keep apart from those of other versions,
/// and that they go by floors below which the log does without its records.
pub fn law_rows_go_on()
    ensures { rows.GoesOnToKnow }
{}
