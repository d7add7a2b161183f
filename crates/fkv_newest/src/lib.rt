//! Recovery's first stages: whether an image is a store's, and what its newest manifest slot says.
#![tactic(auto)]

mod found;
mod heads;
mod laws;
mod newest_slots;
mod reading;
mod suiting;

pub use laws::{law_no_fault, law_one_fault, law_read_alike};
pub use newest_slots::Newest;
pub use reading::read_newest;
