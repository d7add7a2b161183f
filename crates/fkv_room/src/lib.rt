//! Recovery's room: whether the index has a slot for each home that has an entry.
#![tactic(auto)]

mod counting;
mod laws;
mod room_stage;

pub use laws::law_no_fault;
pub use room_stage::check_room;
