//! The operations, the refresh and the poll of a session as straight functions. Each step on a word is the one that the session machine's table asks
//! for, and where anything unusual is met the machine takes over.
#![tactic(auto)]

mod appending;
mod calls;
mod changing;
mod copying;
mod fetching;
mod going;
mod handing;
mod hot;
mod lines;
mod mailbox;
mod outcomes;
mod polling;
mod reading;
mod refreshing;
mod searching;
mod sessions;
mod sharing;
mod words;

pub use fetching::Start;
pub use going::Going;
pub use hot::Due;
pub use lines::Line;
pub use searching::{Met, Record, Slot};
pub use sessions::{Hot, StraightSession, Went};
