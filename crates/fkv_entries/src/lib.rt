//! The entries of an index as a list, and the room that they need.
#![tactic(auto)]

mod home_entries;
mod laws;
mod needing;

pub use home_entries::HomeEntry;
pub use laws::law_entries_in_room;
pub use needing::needed;
