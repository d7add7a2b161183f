//! Recovery's chains: the records below the scan's start, from the entries down.
#![tactic(auto)]

mod chain_stage;
mod following;
mod laws;
mod readings;

pub use chain_stage::check_chains;
pub use laws::{law_entries, law_no_fault};
