//! The program over a store that lies in memory under a name: a place of stores whose devices are honest.
#![tactic(auto)]

mod shelf_runs;
mod shelves;

pub use shelf_runs::{law_of_a_shelf, run_on_shelf};
pub use shelves::Shelf;

#[cfg(test)]
mod reports;
