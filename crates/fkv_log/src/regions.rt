//! The regions of the log.
use fkv_base::Addr;

/// What may be done with a record, by where its address lies.
#[derive(Clone, Copy, Debug, PartialEq, Eq)]
pub enum Region {
    /// It may have left memory: it is read from the device.
    Disk,
    /// It is in memory, and nobody changes its value any more.
    ReadOnly,
    /// It is in memory, and a session that has looked less lately may still change its value.
    Fuzzy,
    /// It is in memory, and the session may change its value.
    Mutable,
}

/// The two offsets that a session loads as it refreshes, and goes by until it does so again.
#[derive(Clone, Copy, Debug, PartialEq, Eq)]
pub struct SeenOffsets {
    pub head: Addr,
    pub read_only: Addr,
}
