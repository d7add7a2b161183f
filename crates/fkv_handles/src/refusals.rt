//! Why a handle isn't given, or a store isn't closed.
use fkv_base::Fault;

/// Why a handle isn't given, or a store isn't closed.
#[derive(Clone, Copy, Debug, PartialEq, Eq)]
pub enum Refusal {
    /// The store refuses it.
    Fault(Fault),
    /// A handle of the store is out still.
    HandleOut,
    /// The handle was taken before.
    HandleTaken,
}
