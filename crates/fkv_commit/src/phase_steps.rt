//! The phase words that a commit stores.
ghost use Rattle.std.specs.Prelude.{◌≡◌};
ghost use Rattle.fkv_epoch.specs.Claiming.{phase_stored};
ghost use Rattle.fkv_commit.specs.Commits.{version_after};

use fkv_base::{Phase, Version};
use fkv_words::WidePhase;

/// The phase word of a phase and a version. For a version past the word's limits it has the nearest that there is room for.
pub(crate) fn phase_stored(phase: Phase, version: Version) -> u64
    ensures { result ≡ phase_stored phase version }
{
    let version = Version(version.0.min(WidePhase::LAST).max(1));
    WidePhase { version, phase }.pack()
}

/// The version that follows this one.
pub(crate) fn version_after(version: Version) -> Version
    ensures { result ≡ version_after version }
{
    Version(version.0.min(Version::LAST - 1) + 1)
}
