//! Why the keeper refuses a commit, and why it ends a turn early: the cause of each shows in what that call has asked and was replied.
#![tactic(auto)]

mod laws;

pub use laws::{law_of_last_calls, law_of_refusals, law_of_the_class, law_world_refused};
