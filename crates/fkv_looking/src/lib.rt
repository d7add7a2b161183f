//! A look at a store: what the bytes of a device hold, for people and for programs.
#![tactic(auto)]

mod classes;
mod damages;
mod fronts;
mod index_looks;
mod looking;
mod looks;
mod page_looks;
mod parts;
mod recovered;
mod slot_looks;
mod uses;

pub use classes::RecordClass;
pub use damages::DamageLook;
pub use index_looks::IndexLook;
pub use looking::look;
pub use looks::{Found, Look, StoreLook};
pub use page_looks::PageLook;
pub use slot_looks::{CommitKind, CommitLook, SlotLook};
pub use uses::{Capacity, Uses};
