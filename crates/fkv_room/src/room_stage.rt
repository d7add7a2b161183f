//! The room of the index.
ghost use Rattle.std.specs.Prelude.{◌≡◌, ◌≤◌, ◌^◌, OnOk, IfErr};
ghost use Rattle.fkv_scan.specs.Log.{Log};
ghost use Rattle.fkv_room.specs.Refused.{IsSound, IsRefused};
ghost use Rattle.fkv_room.specs.Counted.{homes_of};
ghost use Rattle.fkv_room.specs.Room.{HasRoom, taken};

use crate::counting::count_homes;
use fkv_base::{Damage, Fault, Shape};
use fkv_chains::law_entries;
use fkv_entries::needed;
use fkv_scan::Scanned;
use std::alloc::Global;

/// Fills the buckets of the index upwards with the homes that have an entry. The first bucket that finds no room.
/// Whatever the scan told, the homes of which it tells an entry find room.
pub fn check_room(alloc: Global, shape: Shape, scanned: &Scanned) -> Result<(), Fault>
    ensures ok { (log : Log) → log.shape ≡ shape → IsSound log scanned.now → OnOk result (HasRoom log) }
    ensures fits { OnOk result (taken (homes_of scanned.now.homes.entries) (2 ^ shape.bucket_bits) ≤ shape.overflow) }
    ensures err { (log : Log) → IfErr result (IsRefused ((log.shape ≡ shape) × IsSound log scanned.now) log) }
{
    law_entries();
    let counts = count_homes(alloc, &scanned.homes, shape.bucket_bits)?;
    let mut taken = 0;
    for bucket in 0..counts.len() {
        taken += needed(counts[bucket]);
        if taken > shape.overflow {
            return Err(Fault::Damaged(Damage::Full, bucket as u64));
        }
    }
    Ok(())
}
