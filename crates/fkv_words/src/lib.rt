//! The 64-bit words that sessions and the keeper share: each value has one word, and a word is no other value's.
#![tactic(auto)]

mod bucket_tail;
mod cut_word;
mod entries;
mod fields;
mod headers;
mod home;
mod laws;
mod phase_number;
mod phase_word;
mod phase_words;
mod wide_phase;

pub use bucket_tail::BucketTail;
pub use cut_word::CutWord;
pub use entries::Entry;
pub use headers::Header;
pub use home::{bucket_of, tag_of};
pub use laws::{law_phases_agree, law_words_apart};
pub use phase_word::PhaseWord;
pub use phase_words::{PhaseSaid, phase_said};
pub use wide_phase::WidePhase;
