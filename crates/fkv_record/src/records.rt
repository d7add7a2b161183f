//! Records of the log.
ghost use Rattle.std.specs.Prelude.{◌<◌, ◌^◌};

use fkv_base::Key;
use fkv_words::Header;

/// A key's value as one update left it.
#[derive(Clone, Copy, Debug, PartialEq, Eq)]
pub struct Record {
    /// The record before it in the chain of the home, and the version that wrote it.
    pub header: Header,
    pub key: Key,
    /// The word of the value; `Value::ABSENT` where the key was deleted.
    pub value: u64,
    pub ghost key_fits: { key.0 < 2 ^ 64 },
    pub ghost value_fits: { value < 2 ^ 64 },
}
