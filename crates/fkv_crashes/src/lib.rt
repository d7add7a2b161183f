//! Which image a crash takes in memory, said by the calls that were made and in bytes alone.
#![tactic(auto)]

mod crashing;

pub use crashing::{MadeCall, crash_at_sync, crash_before, crash_behind, crash_within};
