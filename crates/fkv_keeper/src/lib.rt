//! The one background actor: its turns, its commits, and every call of the device that the engine makes.
#![tactic(auto)]

mod answering;
mod answers;
mod keepers;
mod last_commits;
mod laws;
mod leading;
mod manifests;
mod running;

pub use answers::{Finished, KeeperAsk, KeeperTold, MAX_POINTS, Turn};
pub use keepers::{Keeper, MAX_LOST_IN_HAND};
pub use last_commits::{Area, Checkpoint, LastCommit};
pub use laws::{
    law_of_checkpoints, law_of_parts, law_of_slots, law_of_the_drain, law_of_the_keeper,
};
