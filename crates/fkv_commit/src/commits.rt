//! The commit in hand.
ghost use Rattle.std.specs.Prelude.{◌≡◌};
ghost use Rattle.fkv_commit.specs.Commits.{commit_begun};

use fkv_base::{Addr, CommitKind, Version};

/// What is known of the commit in hand, but for its points, which the machine that seeks them keeps.
#[derive(Clone, Copy)]
pub struct Commit {
    /// The commit's number, and the version that it commits.
    pub number: Version,
    pub kind: CommitKind,
    /// The address at which its log begins.
    pub begin: Addr,
    /// The tail as it was in prepare: a home's entry that the copy doesn't have is of a record from here on.
    pub first: Addr,
    /// Where the committed part of the log ends; 0 before the points are taken.
    pub end: Addr,
    /// The epoch of its last arming, which is safe once all have seen that the points are taken; 0 before.
    pub epoch: u64,
    /// Whether the index is copied. A log commit copies none, and counts as copied from its start.
    pub is_copied: bool,
}

impl Commit {
    /// The commit as it has started.
    pub fn begun(number: Version, kind: CommitKind, begin: Addr, first: Addr) -> Commit
        ensures { result ≡ commit_begun number kind begin first }
    {
        Commit {
            number,
            kind,
            begin,
            first,
            end: Addr(0),
            epoch: 0,
            is_copied: kind == CommitKind::Log,
        }
    }
}
