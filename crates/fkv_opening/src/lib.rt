//! Opening a store: recovery of any bytes, in each of the four formats, as one call.
#![tactic(auto)]

mod checking;
mod entries;
mod laws;
mod making;
mod opened_store;
mod opening_words;
mod recovery;

pub use laws::{law_one_fault, law_opens_alike};
pub use opened_store::{Checkpoint, MAX_LOST_IN_HAND, Opened};
pub use opening_words::{OpeningWords, SessionWords};
pub use recovery::recover;
