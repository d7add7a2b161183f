//! What waits in a drain slot until an epoch is safe.
use fkv_base::{Addr, Phase, Version};

/// What is to be done once the epoch at which it was armed is safe. It has one owner, a drain slot or the actor that
/// took it from there, and running it consumes it.
#[derive(Debug, PartialEq, Eq, Drop)]
pub enum Action {
    /// Raises the safe read-only offset to the address.
    SafeReadOnly(Addr),
    /// Raises the closed offset to the address.
    Close(Addr),
    /// Stores the phase word of this phase and version.
    Phase(Phase, Version),
}
