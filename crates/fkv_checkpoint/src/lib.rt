//! What a commit keeps of the index: its entries as triples, copied while sessions go on.
#![tactic(auto)]

mod copying;
mod laws;
mod triple_buffers;

pub use copying::{CopyRoom, IndexCopy};
pub use laws::{law_copied, law_fuzzy_copy, law_of_a_fuzzy_copy};
