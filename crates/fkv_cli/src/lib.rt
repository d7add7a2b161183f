//! The program: its words and its script in, its output and its status out.
#![tactic(auto)]

mod complaints;
mod file_runs;
mod memory_runs;
mod programs;
mod reading;
mod scripts;
mod watched;

pub use complaints::tell_usage;
pub use programs::{complain_of_stop, refuse_unread, run, run_with};
pub use reading::script_of;
pub use watched::Watched;
