//! The latch of a bucket, in the bucket's last word: some hold it together, or one alone. It is taken and dropped by one
//! machine, one try each.
#![tactic(auto)]

mod latching;
mod laws;

pub use latching::{Latch, LatchAnswer, LatchTask};
pub use laws::{law_latched, law_of_a_meeting, law_tasks};
