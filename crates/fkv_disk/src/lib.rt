//! The device that a store lies on, and what a crash may leave of it: a file or bytes in memory, one that fails, and one that reads
//! another by pages.
#![tactic(auto)]

mod ahead;
mod asks;
mod crashes;
mod devices;
mod files;
mod forgetting;
mod fuses;
mod laws;
mod memory;
mod pages;
mod refusals;
mod single;

pub use ahead::{PageSize, Pages, ReadAhead};
pub use asks::DeviceAsk;
pub use devices::Device;
pub use files::{FileDisk, make_file, open_file};
pub use fuses::{Fuse, FuseState};
pub use laws::{
    law_anything_in_range, law_forgotten, law_fuse_says, law_synced, law_torn,
    law_written_and_synced,
};
pub use memory::MemDisk;
pub use single::Once;
