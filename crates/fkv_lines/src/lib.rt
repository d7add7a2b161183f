//! What the bytes of a script say, or its first faulty line: every line that a store in memory or in a file serves. Nothing
//! here knows a store, an option or a text.
#![tactic(auto)]

mod reading;
mod scripts;

pub use reading::{MOST_BYTES, MOST_LINES, script_of};
pub use scripts::{Line, Mode, Opening, Script, Sizes};
