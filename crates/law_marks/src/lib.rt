//! What words show of a version, and where that tells it: a header and a cut word show its mark, and the phase word itself.
#![tactic(auto)]

mod laws;

pub use laws::law_marks;
