//! What the words after the program's name ask for, and how a run ends.
#![tactic(auto)]

mod endings;
mod options;
mod threads;

pub use endings::{RunFault, Verdict, ended_with, status_of};
pub use options::{Options, options_of};
pub use threads::{Asked, asked_of};
