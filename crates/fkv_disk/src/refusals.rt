//! How a device answers a call that failed.
ghost use Rattle.std.specs.Prelude.{◌≡◌, ◌≤◌, ◌+◌, ◌-◌, ◌^◌, min};

use fkv_base::Fault;

// Counts a failure, up to 2^64 - 1, and names it.
pub(crate) fn refuse(failures: &mut u64) -> Fault
    ensures named { result ≡ Fault.Device }
    ensures counted { failures.new ≡ min (failures.old + 1) (2 ^ 64 - 1) }
    ensures later { failures.old ≤ failures.new }
{
    *failures = failures.saturating_add(1);
    Fault::Device
}
