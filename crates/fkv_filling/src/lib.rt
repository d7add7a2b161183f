//! The words of the index that a store opens with, from its entries.
#![tactic(auto)]

mod filling;
mod laws;

pub use filling::{IndexWords, index_words};
pub use laws::law_filled_index_is_in_order;
