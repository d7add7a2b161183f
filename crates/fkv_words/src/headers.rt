//! The first word of a record.
ghost use Rattle.std.specs.Prelude.{◌≡◌, ◌<◌, ◌≤◌, ◌^◌};

use crate::fields::field;
use fkv_base::{Addr, Version};

/// Which record came before in the chain of the home, and which version wrote this one.
#[derive(Clone, Copy, Debug, PartialEq, Eq)]
pub struct Header {
    /// The address of the previous record of the home, below 2^48; 0 where there is none.
    pub previous: Addr,
    /// The mark of the version, 1 to 8191.
    pub version: Version,
    /// Whether the record was given up before any entry named it.
    pub invalid: bool,
    pub ghost previous_fits: { previous.0 < 2 ^ 48 },
    pub ghost some_version: { 0 < version.0 },
    pub ghost version_fits: { version.0 < 2 ^ 13 },
}

impl Header {
    ghost use Rattle.fkv_words.specs.Layout.{header_word};
    ghost use Rattle.fkv_words.specs.Fields.{Reads};

    /// The word of the header.
    pub fn pack(self) -> u64
        ensures { result ≡ header_word self }
    {
        self.previous.0 + (self.version.0 << 48) + (u64::from(self.invalid) << 62)
    }

    /// The header of which this is the word, if it is one.
    pub fn unpack(word: u64) -> Option<Header>
        ensures { Reads header_word word result }
    {
        let version = field(word, 48, 13);
        if version == 0 || field(word, 61, 1) != 0 || field(word, 63, 1) != 0 {
            return None;
        }
        Some(Header {
            previous: Addr(field(word, 0, 48)),
            version: Version(version),
            invalid: field(word, 62, 1) == 1,
        })
    }
}
