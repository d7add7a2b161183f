//! Counting the homes of each bucket.
ghost use Rattle.std.specs.Prelude.{◌≡◌, ◌≤◌, ◌^◌, IfOk, OnOk, OnErr, Err};
ghost use Rattle.std.specs.Ordering.{nat_cmp};
ghost use Rattle.std.specs.BTreeMap.{IsOrdered};
ghost use Rattle.fkv_base.specs.declared.faults.Fault.TheVariants.{Memory};
ghost use Rattle.fkv_base.specs.Limits.{max_bucket_bits};
ghost use Rattle.fkv_room.specs.Counted.{has_entry, homes_of, AreCounts};

use fkv_base::Fault;
use fkv_scan::HomeScan;
use std::alloc::Global;
use std::collections::BTreeMap;

/// How many tags there are.
const TAGS: u64 = 1 << 15;

/// Whether the home has an entry.
#[tactic(auto, unfolding(crate::specs::Counted::has_entry))]
fn has_entry(known: &HomeScan) -> bool
    ensures { result ≡ has_entry known.now }
{
    if known.newest.is_some() {
        return true;
    }
    match known.below {
        Some(way) => way.0 > 0,
        None => false,
    }
}

/// How many homes with an entry are in each of the 2^bits buckets.
pub(crate) fn count_homes(
    alloc: Global,
    homes: &BTreeMap<u64, HomeScan>,
    bits: u64,
) -> Result<Vec<u64>, Fault>
    requires { bits ≤ max_bucket_bits }
    ensures ok { IfOk result (λ counts. AreCounts bits (homes_of homes.now.entries) counts.items) }
    ensures ordered { OnOk result (IsOrdered nat_cmp homes.now) }
    ensures err { OnErr result (result ≡ Err Memory) }
{
    let mut counts = vec![in alloc; 0u64; 1usize << bits]?;
    for (home, known) in homes {
        let bucket = (*home / TAGS) as usize;
        if has_entry(known) && bucket < counts.len() {
            counts[bucket] += 1;
        }
    }
    Ok(counts)
}
