//! Memory of an opened store gets its newest records, so that what was newest before a crash is found there from the beginning on.
#![tactic(auto)]

mod records;
mod recovering;
mod warming;

pub use recovering::recover_warm;
pub use warming::warm;
