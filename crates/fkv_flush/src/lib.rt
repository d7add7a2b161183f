//! What one background actor does on the device: it flushes the log's records, and serves the sessions' mailboxes. Each
//! machine here makes one ask, or one call of the device, at a time. And the world of all that write frames and move
//! offsets, with its laws.
#![tactic(auto)]

mod answers;
mod flushing;
mod in_hand;
mod laws;
mod serving;

pub use answers::DeviceAnswer;
pub use flushing::Flush;
pub use in_hand::law_records_in_hand;
pub use laws::{
    law_finds_slots, law_flushed_is_synced, law_guarded, law_mail, law_nothing_falls,
    law_of_the_ring, law_seen,
};
pub use serving::Serve;
