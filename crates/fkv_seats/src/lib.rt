//! Seats at a table whose words are those of a run over one list of events: the rule, and what keeps it, over any world of events.
#![tactic(auto)]

mod held;
mod laws;
mod views;

pub use held::Held;
pub use laws::{law_seats, law_seen_in_order};
pub use views::{Role, View};
