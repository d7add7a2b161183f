//! Which calls of the device the engine's steps make: each is the one that its past notes, or a read, or none. And which image a crash in memory takes of them.
#![tactic(auto)]

mod laws;

pub use laws::{law_of_crashes, law_of_noted_calls, law_of_one_call, law_of_standing_fuses};
