//! In which region of the log an address lies, for a session that goes by what it has seen.
ghost use Rattle.std.specs.Prelude.{◌≡◌, ℕ, ◌<◌, ◌≤◌, IfSome, IfNone};
ghost use Rattle.fkv_log.specs.Regions.{region_of, seen_region_of, LiesIn};

use crate::regions::{Region, SeenOffsets};
use fkv_base::Addr;

/// The region of an address, by the offsets that the session has seen and the safe read-only offset, which is loaded
/// for it. Below the seen head that counts for nothing, nor at or above the seen read-only offset.
pub fn region(addr: Addr, seen: SeenOffsets, safe_read_only: Addr) -> Region
    ensures region { result ≡ region_of addr.0 seen safe_read_only.0 }
    ensures lies { LiesIn result addr.0 seen safe_read_only.0 }
{
    if let Some(region) = seen_region(addr, seen) {
        return region;
    }
    if addr >= safe_read_only {
        Region::Fuzzy
    } else {
        Region::ReadOnly
    }
}

/// The region of an address where what the session has seen tells it; `None` where the safe read-only offset is to be
/// loaded, for `region`.
pub fn seen_region(addr: Addr, seen: SeenOffsets) -> Option<Region>
    ensures seen { result ≡ seen_region_of addr.0 seen }
    ensures found { IfSome result (λ region. (safe_read_only : ℕ) → region_of addr.0 seen safe_read_only ≡ region) }
    ensures none { IfNone result ((seen.head.0 ≤ addr.0) × (addr.0 < seen.read_only.0)) }
{
    if addr < seen.head {
        Some(Region::Disk)
    } else if addr >= seen.read_only {
        Some(Region::Mutable)
    } else {
        None
    }
}
