//! What a record of the log says.
use fkv_base::Key;
use fkv_words::Header;

/// A record as it is written to its three words.
#[derive(Clone, Copy)]
pub struct RecordWords {
    /// The record before it in the chain of its home, and the version that writes it.
    pub header: Header,
    pub key: Key,
    /// The word of the value; `Value::ABSENT` where the key is deleted.
    pub value: u64,
}
