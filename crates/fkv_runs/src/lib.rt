//! Whole runs: the pieces of a script are played, life behind life of a store in memory, each behind the crash that ended the one before it,
//! or over the one life of a store that lies on a device of its own.
#![tactic(auto)]

mod crashes;
mod crashing;
mod files;
mod groups;
mod openings;
mod pieces;
mod runs;
mod settings;
mod telling;

pub use crashing::Crashes;
pub use files::play_life;
pub use pieces::{Piece, pieces_of};
pub use runs::play_lives;
pub use settings::Settings;
pub use telling::write_text;

// Types of crates below that its calls take.
pub use fkv_playing::{Breaks, Picks};
