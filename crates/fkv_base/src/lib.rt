//! What every crate of the store speaks of: wrapped numbers, the shape of a store, phases, kinds of commits and faults.
#![tactic(auto)]

mod classes;
mod commits;
mod faults;
mod limits;
mod numbers;
mod phases;
mod shapes;

pub use classes::StoreClass;
pub use commits::CommitKind;
pub use faults::{Damage, Fault, ScriptFault};
pub use limits::{
    DRAIN_SLOTS, LAST_EPOCH, MAX_BUCKET_BITS, MAX_DISK_PAGES, MAX_FRAMES, MAX_IN_HAND,
    MAX_OVERFLOW, MAX_PAGE, MAX_PENDING, MAX_SESSIONS, MIN_FRAMES, MIN_PAGE, SMALL_BUCKET_BITS,
    SMALL_DISK_PAGES, SMALL_FRAMES, SMALL_OVERFLOW, SMALL_PAGE,
};
pub use numbers::{Addr, Key, Serial, Value, Version};
pub use phases::Phase;
pub use shapes::{Margin, Shape};
