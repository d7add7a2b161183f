//! The text of each answer that the program writes, in its last form: lines of sessions and of the keeper, what a poll has
//! finished, reports of a recovered store, and refusals. Nothing here knows how an answer came about.
#![tactic(auto)]

mod keeper;
mod lines;
mod polls;
mod refusals;
mod reports;
mod sessions;

pub use keeper::{
    write_commit, write_finished_commit, write_not_finished, write_nothing_to_finish, write_turn,
};
pub use polls::{WaitingRead, write_finished};
pub use refusals::{write_keeper_refusal, write_refusal, write_session_refusal};
pub use reports::{Opening, write_check, write_report};
pub use sessions::write_answer;
