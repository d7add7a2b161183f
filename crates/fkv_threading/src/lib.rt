//! Scripts on threads: each session's lines on a thread of its own, and the keeper's on another.
#![tactic(auto)]

mod complaints;
mod gates;
mod keepers;
mod keeping;
mod players;
mod playing;
mod programs;
mod progress;
mod promises;
mod runs;
mod sessions;

pub use gates::{Gate, Open};
pub use keepers::KeeperEnd;
pub use playing::{Played, play};
pub use programs::run_threads;
pub use runs::{refuse_seed, run};
