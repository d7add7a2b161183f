//! Where the chains of the homes begin, once all records are scanned.
ghost use Rattle.std.specs.Prelude.{◌≡◌, ◌<◌, ◌≤◌, ◌^◌, All, IfOk, OnOk, OnErr, Err, map};
ghost use Rattle.std.specs.Ordering.{nat_cmp};
ghost use Rattle.std.specs.BTreeMap.{IsOrdered};
ghost use Rattle.fkv_base.specs.declared.faults.Fault.TheVariants.{Memory};
ghost use Rattle.fkv_base.specs.Limits.{max_bucket_bits};
ghost use Rattle.fkv_opening.specs.Entries.{place_of};
ghost use Rattle.fkv_opening.specs.Listed.{addr_told, told_of, listed};

use fkv_base::{Addr, Fault};
use fkv_entries::HomeEntry;
use fkv_scan::HomeScan;
use fkv_words::Entry;
use std::alloc::Global;
use std::collections::BTreeMap;

/// How many tags there are.
const TAGS: u64 = 1 << 15;

/// How many addresses an entry can hold.
const ADDRS: u64 = 1 << 48;

/// Where the entry of a home points by what the scan told of it, or address 0 where it has none.
#[tactic(auto, unfolding(crate::specs::Listed::addr_told))]
fn addr_told(known: &HomeScan) -> Addr
    ensures { result.0 ≡ addr_told known.now }
{
    match (known.newest, known.below) {
        (Some(addr), _) => addr,
        (None, Some(way)) => way,
        (None, None) => Addr(0),
    }
}

/// The entry of a home by what the scan told of it, if it has one in an index of 2^bits buckets.
fn home_entry(bits: u64, home: u64, known: &HomeScan) -> Option<HomeEntry>
    requires { bits ≤ max_bucket_bits }
    ensures { told_of bits home known.now result }
{
    let addr = addr_told(known);
    let bucket = home / TAGS;
    if addr.0 == 0 || addr.0 >= ADDRS || bucket >= 1 << bits {
        return None;
    }
    Some(HomeEntry {
        bucket,
        entry: Entry {
            addr,
            tag: (home % TAGS) as u16,
        },
    })
}

/// The entries of all homes that have one in an index of 2^bits buckets, in ascending order of the homes.
pub(crate) fn entries_of(
    alloc: Global,
    bits: u64,
    homes: &BTreeMap<u64, HomeScan>,
) -> Result<Vec<HomeEntry>, Fault>
    requires { bits ≤ max_bucket_bits }
    ensures ok { IfOk result (λ entries. map place_of entries.items ≡ listed bits homes.now.entries) }
    ensures there { IfOk result (λ entries. All (λ x. x.bucket < 2 ^ bits) entries.items) }
    ensures ordered { OnOk result (IsOrdered nat_cmp homes.now) }
    ensures err { OnErr result (result ≡ Err Memory) }
{
    let mut entries = Vec::new(alloc);
    for (home, known) in homes {
        if let Some(entry) = home_entry(bits, *home, known) {
            entries.push(entry)?;
        }
    }
    Ok(entries)
}
