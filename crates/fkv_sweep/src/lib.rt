//! How the front of the log is swept: each record from its begin on is passed where its key stands again further on, and else the key is
//! wanted there.
#![tactic(auto)]

mod laws;
mod record_words;
mod sweeping;

pub use laws::law_swept;
pub use sweeping::{Sweep, SweepAnswer};
