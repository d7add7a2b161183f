//! Kinds of commits.

/// What a commit writes of the index.
#[derive(Clone, Copy, Debug, PartialEq, Eq)]
pub enum CommitKind {
    /// A copy of the whole index.
    Full,
    /// Nothing: recovery begins with the copy of an earlier commit.
    Log,
}
