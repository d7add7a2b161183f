//! A table that no thread shares any more is freed.
use crate::rule::Table;
use fkv_disk::Device;

impl<D: Device> Table<D> {
    /// Frees the words, and drops what the slots hold.
    pub fn close(self) {
        let Table { table, .. } = self;
        drop(table);
    }
}
