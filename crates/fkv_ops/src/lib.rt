//! One try of a request: the walk to the record of its key, the change in place or the new record that is published, and the
//! latches that it takes on the way. Each machine makes one ask at a time.
#![tactic(auto)]

mod answers;
mod appending;
mod bounds;
mod copying;
mod ending;
mod header_words;
mod laws;
mod leading;
mod requests;
mod trying;
mod values;
mod walking;

pub use answers::{DiskRecord, Reason, TryAnswer};
pub use appending::{Append, AppendAnswer, FoundSlot};
pub use bounds::Bounds;
pub use header_words::{HeaderSaid, header_said};
pub use laws::law_reasons;
pub use leading::{is_marked, is_next_marked, told_value};
pub use requests::{HeldRecord, Occasion, Request, Seen};
pub use trying::Try;
pub use values::{value_of_word, word_of_value};
pub use walking::{Walk, WalkAnswer};
