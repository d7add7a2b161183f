//! The mark of a version: what a word with 13 bits for it, as the header of a record, keeps of it. And which version recovery reads it as.
#![tactic(auto)]

mod marking;
mod windows;

pub use marking::mark;
pub use windows::{is_in_window, oldest, version_in};
