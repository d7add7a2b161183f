//! Epochs: when it is safe to do what must wait until every protected session has refreshed. Each machine here makes
//! one ask at a time; what they keep together, whatever the order of their steps, is `law_once`.
#![tactic(auto)]

mod arming;
mod claiming;
mod laws;
mod leaving;
mod protecting;
mod raising;
mod refreshing;
mod scanning;
mod values;

pub use arming::Arm;
pub use claiming::Claim;
pub use laws::{law_of_the_stall, law_of_what_is_loaded, law_once, law_owned, law_protected};
pub use leaving::Leave;
pub use protecting::Protect;
pub use raising::{Raise, RaiseAnswer};
pub use refreshing::{Refresh, RefreshAnswer};
pub use scanning::Scan;
pub use values::Seen;
