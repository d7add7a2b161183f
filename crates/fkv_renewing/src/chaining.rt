//! The records of the pairs: each leads to the nearest before it of its home.
ghost use Rattle.std.specs.Prelude.{◌≡◌, ◌≤◌, ◌<◌, ◌^◌, IfOk, OnErr, Err, Some, length, slice_get, false};
ghost use Rattle.std.specs.Option.{unwrap_or};
ghost use Rattle.std.specs.Ordering.{nat_cmp};
ghost use Rattle.std.specs.BTreeMap.{get};
ghost use Rattle.fkv_base.specs.Limits.{max_bucket_bits};
ghost use Rattle.fkv_base.specs.declared.faults.Fault.TheVariants.{Memory};
ghost use Rattle.fkv_renewing.specs.Records.{AreRecords, AreLatest, key_home};

use fkv_base::{Addr, Fault, Key, Value, Version};
use fkv_record::Record;
use fkv_words::{Header, bucket_of, tag_of};
use std::alloc::Global;
use std::collections::BTreeMap;

/// How many tags there are.
pub(crate) const TAGS: u64 = 1 << 15;

/// The records of some pairs, and of each home the last address.
#[derive(Drop)]
pub(crate) struct Chained {
    pub(crate) records: Vec<Record>,
    pub(crate) latest: BTreeMap<u64, u64>,
}

/// The home of the key in an index of 2^bits buckets: its bucket and its tag as one number.
fn home_of(key: Key, bits: u64) -> u64
    requires { bits ≤ max_bucket_bits }
    ensures { result ≡ key_home bits key }
{
    bucket_of(key, bits) * TAGS + u64::from(tag_of(key, bits))
}

/// The record that holds this pair, and leads to this address.
fn record_of(pair: (Key, Value), previous: Addr) -> Record
    requires { previous.0 < 2 ^ 48 }
    ensures key { result.key ≡ pair.0 }
    ensures value { result.value ≡ pair.1.0 }
    ensures version { result.header.version.0 ≡ 1 }
    ensures valid { result.header.invalid ≡ false }
    ensures leads { result.header.previous ≡ previous }
{
    let (key, value) = pair;
    Record {
        header: Header {
            previous,
            version: Version(1),
            invalid: false,
        },
        key,
        value: value.0,
    }
}

/// The pair with this index.
#[tactic(auto, using(crate::proofs::Listed::stands_at, crate::proofs::Listed::at_index))]
fn pair_at(pairs: &[(Key, Value)], index: usize) -> (Key, Value)
    requires { index < length pairs.now }
    ensures { slice_get pairs.now index ≡ Some result }
{
    pairs[index]
}

/// The last address of a home, 0 where it has none yet.
fn last_of(latest: &BTreeMap<u64, u64>, home: u64) -> u64
    ensures { result ≡ unwrap_or (get nat_cmp latest.now home) 0 }
{
    match latest.get(&home) {
        Some(addr) => *addr,
        None => 0,
    }
}

/// The records of the pairs in an index of 2^bits buckets.
pub(crate) fn chain(alloc: Global, bits: u64, pairs: &[(Key, Value)]) -> Result<Chained, Fault>
    requires bits { bits ≤ max_bucket_bits }
    requires few { length pairs.now < 2 ^ 48 }
    ensures records { IfOk result (λ chained. AreRecords bits pairs.now chained.records.items) }
    ensures latest { IfOk result (λ chained. AreLatest bits pairs.now (length pairs.now) (get nat_cmp chained.latest)) }
    ensures err { OnErr result (result ≡ Err Memory) }
{
    let mut records = Vec::with_capacity(alloc, pairs.len())?;
    let mut latest = BTreeMap::new(alloc);
    for i in 0..pairs.len() {
        let pair = pair_at(pairs, i);
        let home = home_of(pair.0, bits);
        let previous = last_of(&latest, home);
        records.push(record_of(pair, Addr(previous)))?;
        latest.insert(home, i as u64 + 1)?;
    }
    Ok(Chained { records, latest })
}
