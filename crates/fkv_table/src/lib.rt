//! The threaded store: the engine's words lie in a table that threads share, and each session makes its calls there by a pass of its own.
//! Before many calls `Session::fetch_bucket` and `Session::fetch_record` load the cache lines that these will read.
#![tactic(auto)]

mod aside;
mod closing;
mod crossing;
mod desks;
mod fetching;
mod guessing;
mod happenings;
mod hints;
mod hot;
mod joining;
mod keepers;
mod lines;
mod opening;
mod performing;
mod plays;
mod positions;
mod rule;
mod sessions;
mod taking;
mod turns;

pub use crossing::crosses;
pub use happenings::Happening;
pub use hints::Offsets;
pub use joining::join;
pub use keepers::{Keeper, KeeperPass};
pub use opening::OpenTable;
pub use positions::law_positions;
pub use rule::{Engine, Pass, Table};
pub use sessions::Session;
pub use turns::{Leave, TurnAsk};

// What crates above name of the engine: the world that a table was opened with.
pub use fkv_core::World;
