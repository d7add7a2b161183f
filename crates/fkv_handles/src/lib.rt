//! What a program holds of a store that it embeds: the store, its sessions and its keeper, each with its share of the table.
#![tactic(auto)]

mod images;
mod keepers;
mod opening;
mod refusals;
mod sessions;
mod stores;

pub use images::image_of;
pub use keepers::Keeper;
pub use refusals::Refusal;
pub use sessions::Session;
pub use stores::{Recovered, Store};

// What crates above name of the table.
pub use fkv_threads::{Leave, Offsets, TurnAsk};
