//! What the keeper reads for a session shows the log.
ghost use Rattle.law_order.specs.Served.Laws as served;

use law_commit::{law_mail, law_world_flushed_is_synced};

/// Over every life that begins as a store was opened, where the log's records and the operations that are called are of numbers below 2^64,
/// and each event of the log keeps to its rule: what the device gives for a record that is flushed leads where the record of the log does, and
/// has its key and its value; and so it still does at every later moment, since such a record changes no more. And all records of the log are of
/// numbers below 2^64.
pub fn law_world_served()
    ensures served { served.ServesTheLog }
    ensures fit { served.KeepsFitting }
{
    law_mail();
    law_world_flushed_is_synced();
}
