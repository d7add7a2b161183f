//! The plane of shared words: one ask is one atomic step on one word. Every actor of the store is a machine that makes
//! one ask at a time, and is told the word as it was.
#![tactic(auto)]

mod actions;
mod asks;
mod laws;
mod passing;
mod places;
mod plain_words;

pub use actions::Action;
pub use asks::Ask;
pub use laws::law_places_apart;
pub use passing::passed;
pub use places::{Places, RecordWord, SessionWord, SharedWord, drain_place};
pub use plain_words::PlainWords;
