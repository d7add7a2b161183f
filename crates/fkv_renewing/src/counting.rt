//! Whether the index has a slot for each home.
ghost use Rattle.std.specs.Prelude.{◌≡◌, ◌↔◌, ◌≤◌, ◌^◌, IfOk, OnOk, OnErr, Err, true};
ghost use Rattle.std.specs.Ordering.{nat_cmp};
ghost use Rattle.std.specs.BTreeMap.{IsOrdered, keys};
ghost use Rattle.fkv_base.specs.declared.faults.Fault.TheVariants.{Memory};
ghost use Rattle.fkv_base.specs.Limits.{max_bucket_bits};
ghost use Rattle.fkv_room.specs.Counted.{AreCounts};
ghost use Rattle.fkv_room.specs.Room.{taken};

use crate::chaining::TAGS;
use fkv_base::{Fault, Shape};
use fkv_entries::needed;
use std::alloc::Global;
use std::collections::BTreeMap;

/// How many of the homes are in each of the 2^bits buckets.
fn count_homes(alloc: Global, latest: &BTreeMap<u64, u64>, bits: u64) -> Result<Vec<u64>, Fault>
    requires { bits ≤ max_bucket_bits }
    ensures ok { IfOk result (λ counts. AreCounts bits (keys latest.now) counts.items) }
    ensures ordered { OnOk result (IsOrdered nat_cmp latest.now) }
    ensures err { OnErr result (result ≡ Err Memory) }
{
    let mut counts = vec![in alloc; 0u64; 1usize << bits]?;
    for (home, _) in latest {
        let bucket = (*home / TAGS) as usize;
        if bucket < counts.len() {
            counts[bucket] += 1;
        }
    }
    Ok(counts)
}

/// Whether the index has a slot for each home that has an address: the buckets are filled upwards, and each takes the next overflow buckets.
pub(crate) fn has_slots(
    alloc: Global,
    shape: Shape,
    latest: &BTreeMap<u64, u64>,
) -> Result<bool, Fault>
    ensures ok { IfOk result (λ has. (has ≡ true) ↔ (taken (keys latest.now) (2 ^ shape.bucket_bits) ≤ shape.overflow)) }
    ensures ordered { OnOk result (IsOrdered nat_cmp latest.now) }
    ensures err { OnErr result (result ≡ Err Memory) }
{
    let counts = count_homes(alloc, latest, shape.bucket_bits)?;
    let mut taken = 0;
    for bucket in 0..counts.len() {
        taken += needed(counts[bucket]);
        if taken > shape.overflow {
            return Ok(false);
        }
    }
    Ok(true)
}
