//! A device whose calls its caller makes: a store is opened from bytes in memory, and from then on each call is posted and told.
#![tactic(auto)]

mod crossing;
mod laws;
mod log;
mod outcomes;
mod posted;

pub use crossing::crosses;
pub use laws::law_of_outcomes;
pub use outcomes::{PIECE_BYTES, READ_BYTES, Told};
pub use posted::Posted;
