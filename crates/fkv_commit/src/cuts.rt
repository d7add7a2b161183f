//! The words in which a session says where its versions end.
ghost use Rattle.std.specs.Prelude.{◌≡◌, ◌+◌};
ghost use Rattle.fkv_marks.specs.Marks.{mark};
ghost use Rattle.fkv_commit.specs.Cuts.{serial_said, version_said, cut_of, other_cut_of};

use fkv_base::Version;
use fkv_marks::mark;
use fkv_plane::SessionWord;
use fkv_words::CutWord;

/// What a cut word says: the last serial of a session in a version, of which it has the mark.
#[derive(Clone, Copy)]
pub(crate) struct Cut {
    pub serial: u64,
    pub version: u64,
}

/// What this word says as a cut word. A word that is none, which no store writes, says serial 0 of version 0.
pub(crate) fn cut_said(word: u64) -> Cut
    ensures serial { result.serial ≡ serial_said word }
    ensures version { result.version ≡ version_said word }
{
    match CutWord::unpack(word) {
        Some(its) => Cut {
            serial: its.serial.0,
            version: its.version.0,
        },
        None => Cut {
            serial: 0,
            version: 0,
        },
    }
}

/// The mark of the version after this one.
#[tactic(auto, unfolding(fkv_marks::specs::Marks::mark))]
pub(crate) fn mark_after(version: Version) -> u64
    ensures { result ≡ mark (version.0 + 1) }
{
    let its = mark(version);
    mark(Version(its.0 + 1)).0
}

/// The cut word in which a session says where this version ends.
pub(crate) fn cut_of(version: Version) -> SessionWord
    ensures { result ≡ cut_of version.0 }
{
    if version.0 % 2 == 0 {
        SessionWord::EvenCut
    } else {
        SessionWord::OddCut
    }
}

/// The other one, of the versions before and after.
pub(crate) fn other_cut_of(version: Version) -> SessionWord
    ensures { result ≡ other_cut_of version.0 }
{
    if version.0 % 2 == 0 {
        SessionWord::OddCut
    } else {
        SessionWord::EvenCut
    }
}
