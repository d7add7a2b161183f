//! The word that says where the store stands between two commits, with room for versions past those of a header.
ghost use Rattle.std.specs.Prelude.{◌≡◌, ◌<◌, ◌^◌};

use crate::fields::field;
use crate::phase_number::{number_of, phase_of};
use fkv_base::{Phase, Version};

/// The phase of the commit, and the version that sessions are to take up. Up to version 8191 it is spelled as a
/// [`crate::PhaseWord`] is.
#[derive(Clone, Copy, Debug, PartialEq, Eq)]
pub struct WidePhase {
    /// The version, 1 to `WidePhase::LAST`.
    pub version: Version,
    pub phase: Phase,
    pub ghost some_version: { 0 < version.0 },
    pub ghost version_fits: { version.0 < 2 ^ 45 },
}

impl WidePhase {
    ghost use Rattle.fkv_words.specs.Layout.{wide_word};
    ghost use Rattle.fkv_words.specs.Fields.{Reads};

    /// The last version that the word has room for, 2^45 - 1.
    pub const LAST: u64 = 35184372088831;

    /// The word of the phase.
    pub fn pack(self) -> u64
        ensures { result ≡ wide_word self }
    {
        let version = self.version.0;
        field(version, 0, 13) + (number_of(self.phase) << 16) + ((version >> 13) << 19)
    }

    /// The phase and version of which this is the word, if it is one.
    pub fn unpack(word: u64) -> Option<WidePhase>
        ensures { Reads wide_word word result }
    {
        let version = field(word, 0, 13) + ((word >> 19) << 13);
        let phase = phase_of(field(word, 16, 3))?;
        if version == 0 || version > WidePhase::LAST || field(word, 13, 3) != 0 {
            return None;
        }
        Some(WidePhase {
            version: Version(version),
            phase,
        })
    }
}
