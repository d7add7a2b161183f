//! A new store, in the third format.
#![tactic(auto)]

mod creating;
mod laws;
mod new_slots;
mod opening;

pub use creating::create;
pub use laws::{law_new_is_sound, law_new_stores};
pub use opening::create_opened;
