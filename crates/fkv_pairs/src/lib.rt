//! The key/value pairs of an opened store.
#![tactic(auto)]

mod contents;
mod gathering;
mod laws;
mod readings;
mod showing;

pub use contents::content;
pub use laws::law_chain_of_entry;
