//! Refusals as numbers.
ghost use Rattle.std.specs.Prelude.{◌≡◌};
ghost use Rattle.fkv_face.specs.Numbers as says;

use fkv_base::Fault;
use fkv_handles::Refusal;

/// A handle of the store is out still.
pub(crate) const HANDLE_OUT: i32 = -22;
/// The handle was taken before.
pub(crate) const HANDLE_TAKEN: i32 = -23;
/// The caller's room is too small, and nothing was done.
pub(crate) const ROOM_SMALL: i32 = -24;

/// No merge has the number that was said, and nothing was done. (-25 is that no keeper's thread runs, which this library never says.)
pub(crate) const NO_MERGE: i32 = -26;

/// Minus the number of a fault.
pub(crate) fn refused(fault: Fault) -> i32
    ensures { result ≡ says.fault_told fault }
{
    match fault {
        Fault::BadShape => -1,
        Fault::ValueReserved => -2,
        Fault::PendingFull => -3,
        Fault::IndexFull => -4,
        Fault::LogFull => -5,
        Fault::VersionsSpent => -6,
        Fault::SerialsSpent => -7,
        Fault::EpochsSpent => -8,
        Fault::DrainFull => -9,
        Fault::CommitRunning => -10,
        Fault::PendingLeft => -11,
        Fault::Asleep => -12,
        Fault::Broken => -13,
        Fault::Device => -14,
        Fault::NotAStore => -15,
        Fault::Damaged(_, _) => -16,
        Fault::Script(_, _) => -17,
        Fault::Memory => -18,
        Fault::NoSession => -19,
        Fault::Awake => -20,
        Fault::LostFull => -21,
    }
}

/// The number of a refusal.
pub(crate) fn not_given(why: Refusal) -> i32
    ensures { result ≡ says.refusal_told why }
{
    match why {
        Refusal::Fault(fault) => refused(fault),
        Refusal::HandleOut => HANDLE_OUT,
        Refusal::HandleTaken => HANDLE_TAKEN,
    }
}
