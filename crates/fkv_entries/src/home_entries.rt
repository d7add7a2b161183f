//! A home that has an entry.
use fkv_words::Entry;

/// A home of the index that has an entry.
#[derive(Clone, Copy)]
pub struct HomeEntry {
    /// The bucket, below 2^bucket_bits.
    pub bucket: u64,
    /// The tag of the home, and the address of its newest record.
    pub entry: Entry,
}
