//! What every turn of the keeper does, whether a commit is in hand or not.
#![tactic(auto)]

mod laws;
mod maintaining;

pub use laws::law_of_a_turn;
pub use maintaining::{Maintain, MaintainAnswer};
