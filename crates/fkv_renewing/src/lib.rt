//! Renewing a store: its pairs and points as a new image, of any sizes that hold them.
#![tactic(auto)]

mod chaining;
mod counting;
mod images;
mod laid;
mod laws;
mod renewing;
mod slots;
mod spelling;
mod writing;

pub use images::renewed_image;
pub use laid::lay;
pub use laws::{law_laid, law_pairs, law_renewals, law_renewed_log};
pub use renewing::renew;
