//! What a session sees of the store.
use fkv_base::Addr;

/// What a session has loaded, and goes by until it loads it again.
#[derive(Clone, Copy, Debug, PartialEq, Eq)]
pub struct Seen {
    /// The phase word.
    pub phase: u64,
    pub read_only: Addr,
    pub head: Addr,
}
