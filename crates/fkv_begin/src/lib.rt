//! Where a log begins, and what becomes of the addresses below: each of them counts as 0, wherever it stands.
#![tactic(auto)]

mod begins;

pub use begins::from_or_none;
