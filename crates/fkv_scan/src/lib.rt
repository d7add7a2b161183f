//! Recovery's scan: the records that no checkpoint knows of, upwards from one address to the end of the log.
#![tactic(auto)]

mod gathering;
mod home_scans;
mod homes;
mod laws;
mod met_records;
mod parts;
mod readings;
mod scans;
mod steps;
mod triple_stage;

pub use home_scans::HomeScan;
pub use laws::law_no_fault;
pub use scans::{Scanned, scan};
pub use triple_stage::read_triples;
