//! The word by which a session says where a version ends.
ghost use Rattle.std.specs.Prelude.{◌≡◌, ◌<◌, ◌^◌};

use crate::fields::field;
use fkv_base::{Serial, Version};

/// The last serial of a session in a version.
#[derive(Clone, Copy, Debug, PartialEq, Eq)]
pub struct CutWord {
    /// The serial, up to `Serial::LAST`; 0 where the session has taken none.
    pub serial: Serial,
    /// The mark of the version, up to 8191; 0 before the session has left a version.
    pub version: Version,
    pub ghost serial_fits: { serial.0 < 2 ^ 48 },
    pub ghost version_fits: { version.0 < 2 ^ 13 },
}

impl CutWord {
    ghost use Rattle.fkv_words.specs.Layout.{cut_word};
    ghost use Rattle.fkv_words.specs.Fields.{Reads};

    /// The word of the cut.
    pub fn pack(self) -> u64
        ensures { result ≡ cut_word self }
    {
        self.serial.0 + (self.version.0 << 48)
    }

    /// The cut of which this is the word, if it is one.
    pub fn unpack(word: u64) -> Option<CutWord>
        ensures { Reads cut_word word result }
    {
        if word >> 61 != 0 {
            return None;
        }
        Some(CutWord {
            serial: Serial(field(word, 0, 48)),
            version: Version(field(word, 48, 13)),
        })
    }
}
