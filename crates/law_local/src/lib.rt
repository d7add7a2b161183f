//! What tries, attempts and sessions know of the log, by control state: a proof outline.
#![tactic(auto)]

mod sessions;
mod tries;

pub use sessions::{law_of_attempts_inputs, law_of_known_requests, law_of_moved_requests};
pub use tries::{
    law_attempt_rows, law_attempt_tells, law_of_floors, law_reads_go_along, law_replies_true,
    law_try_enabled, law_try_rows, law_try_tells, law_walk_rows,
};
