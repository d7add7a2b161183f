//! What the writes answer to the one who makes them.
use fkv_base::Fault;

/// How far the writes have come.
#[derive(Clone, Copy, PartialEq, Eq)]
pub enum WriteAnswer {
    /// A call of the device comes next.
    Device,
    /// Everything is written and synced.
    Written,
    /// A call of the device failed, with this fault, and no other one comes.
    Broken(Fault),
}
