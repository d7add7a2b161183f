//! The engine: sessions, the keeper, the shared words and the device put together, one step at a time.
#![tactic(auto)]

mod alone;
mod events;
mod keeper_moves;
mod laws;
mod opening_words;
mod openings;
mod session_moves;
mod showing;
mod worlds;

pub use events::{Actor, Event, Told};
pub use laws::{law_crash_has_crashed, law_unswept, law_words_open};
pub use worlds::World;
