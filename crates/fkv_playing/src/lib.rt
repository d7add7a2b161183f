//! A life that is played: calls of sessions and of the keeper, each begun and moved to its end by steps of the engine, alone or
//! interleaved, with what is printed of each. Nothing here knows a script, nor how a store was opened.
#![tactic(auto)]

mod alone;
mod beats;
mod breaking;
mod calls;
mod finishes;
mod groups;
mod players;
mod queues;
mod seats;
mod telling;

pub use breaking::Breaks;
pub use calls::{ActorCall, Outcome};
pub use groups::Picks;
pub use players::{Player, Waits};
pub use queues::{Queue, queues_of};
pub use seats::Seat;

// Types of crates below that its calls take.
pub use fkv_core::World;
