//! Scripts for threads: which lines they have, what their sessions were told, and the report that compares it with what is recovered.
#![tactic(auto)]

mod calls;
mod claims;
mod keys;
mod logs;
mod maps;
mod reports;
mod scripts;

pub use calls::calls_of;
pub use logs::Log;
pub use reports::{Keys, Report, report_of, write_threads_report};
pub use scripts::threads_script_of;
