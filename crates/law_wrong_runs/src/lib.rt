//! Lives by wrong tables, in which a clause of the order law, or of the law of prefixes, fails.
#![tactic(auto)]

mod laws;

pub use laws::{
    law_of_short_images, law_of_wrong_commits, law_of_wrong_images, law_of_wrong_lives,
    law_of_wrong_prefixes,
};
