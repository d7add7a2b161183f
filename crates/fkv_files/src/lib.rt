//! The file of a store: one process alone has it open, and no other file is written over. Its bytes may be kept in memory too.
#![tactic(auto)]

mod complaining;
mod mirrors;
mod new_files;
mod store_files;
mod store_places;
mod troubles;

pub use complaining::complain;
pub use mirrors::Mirror;
pub use new_files::{discard, expect_none, give_name, make_new};
pub use store_files::{Lockable, make_alone, open_alone, pages_to_keep};
pub use store_places::StorePlaces;
pub use troubles::{FileTrouble, Trouble};
