//! Commits: the phases that one goes through, the point of each session, and where its part of the log begins and ends; as
//! machines by asks. What a commit writes to the device is not made here.
#![tactic(auto)]

mod commits;
mod cuts;
mod deferring;
mod entering;
mod finishing;
mod laws;
mod phase_steps;
mod seeking;
mod starting;
mod waiting;

pub use commits::Commit;
pub use entering::{EnterAnswer, EnterWaitPending};
pub use finishing::{FinishAnswer, FinishCommit};
pub use laws::{law_of_phases, law_of_points};
pub use seeking::{SeekAnswer, SeekPoints};
pub use starting::{StartAnswer, StartAsked, StartCommit};
pub use waiting::{WaitAnswer, WaitFlush};
