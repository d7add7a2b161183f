//! The word that says where the store stands between two commits.
ghost use Rattle.std.specs.Prelude.{◌≡◌, ◌<◌, ◌^◌};

use crate::fields::field;
use crate::phase_number::{number_of, phase_of};
use fkv_base::{Phase, Version};

/// The phase of the commit, and the version that sessions are to take up.
#[derive(Clone, Copy, Debug, PartialEq, Eq)]
pub struct PhaseWord {
    /// The version, 1 to 8191.
    pub version: Version,
    pub phase: Phase,
    pub ghost some_version: { 0 < version.0 },
    pub ghost version_fits: { version.0 < 2 ^ 13 },
}

impl PhaseWord {
    ghost use Rattle.fkv_words.specs.Layout.{phase_word};
    ghost use Rattle.fkv_words.specs.Fields.{Reads};

    /// The word of the phase.
    pub fn pack(self) -> u64
        ensures { result ≡ phase_word self }
    {
        self.version.0 + (number_of(self.phase) << 16)
    }

    /// The phase and version of which this is the word, if it is one.
    pub fn unpack(word: u64) -> Option<PhaseWord>
        ensures { Reads phase_word word result }
    {
        let version = field(word, 0, 13);
        let phase = phase_of(field(word, 16, 3))?;
        if version == 0 || field(word, 13, 3) != 0 || word >> 19 != 0 {
            return None;
        }
        Some(PhaseWord {
            version: Version(version),
            phase,
        })
    }
}
