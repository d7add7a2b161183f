//! The writes of a commit: the triples of its checkpoint, and its slot, which comes into force behind its gate. Each machine
//! here makes one call of the device at a time, and none after one that failed.
#![tactic(auto)]

mod answers;
mod calls;
mod commits;
mod gates;
mod laws;
mod slots;

pub use answers::WriteAnswer;
pub use calls::NextCall;
pub use commits::CommitWrites;
pub use gates::GateWrites;
pub use laws::{law_commits_follow, law_gates, law_order, law_slots_are_named};
pub use slots::put_slot;
