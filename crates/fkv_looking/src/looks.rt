//! What a device holds.
use crate::damages::DamageLook;
use crate::index_looks::IndexLook;
use crate::page_looks::PageLook;
use crate::slot_looks::SlotLook;
use crate::uses::Uses;
use fkv_base::Shape;
use fkv_opening::Opened;

/// What a device holds: a store, a damaged one, or none.
#[derive(Drop)]
pub struct Look {
    /// The sizes, where the first 64 bytes spell them.
    pub shape: Option<Shape>,
    /// Slot 0 and slot 1.
    pub slots: (SlotLook, SlotLook),
    /// Which slot is in force, 0 or 1: of those whose gate is open the one of the greater number. None where both are closed.
    pub in_force: Option<u64>,
    /// What recovery finds.
    pub found: Found,
}

/// What recovery finds.
#[derive(Drop)]
pub enum Found {
    /// No store: the first 64 bytes spell no shape, or both gates are closed.
    NoStore,
    /// A store that is damaged.
    Damaged(DamageLook),
    /// A whole store.
    Store(StoreLook),
}

/// A whole store.
#[derive(Drop)]
pub struct StoreLook {
    /// The store as recovery opens it.
    pub opened: Opened,
    /// The pages of its log, up to the one in which the log ends.
    pub pages: Vec<PageLook>,
    /// How full the buckets of its index are.
    pub index: IndexLook,
    /// How much of each capacity is used.
    pub uses: Uses,
}
