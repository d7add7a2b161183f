//! Gathering the newest values along a chain: the first record of a key along it is its newest.
ghost use Rattle.std.specs.Prelude.{◌≡◌, ◌<◌, ◌^◌, ◌↔◌, ℕ, OnOk, IfErr};
ghost use Rattle.std.specs.Ordering.{nat_cmp};
ghost use Rattle.std.specs.BTreeMap.{get};
ghost use Rattle.fkv_scan.specs.Log.{Log};
ghost use Rattle.fkv_disk.specs.Kinds.{OnlyReads};
ghost use Rattle.fkv_disk.specs.Quiet.{IsQuiet, IsHindrance};
ghost use Rattle.fkv_chains.specs.Entries.{IsEntry};
ghost use Rattle.fkv_pairs.specs.Gathered.{IsReadFrom, AreNewest, IsGathered, lower_or_none};

use crate::readings::record_at;
use fkv_base::{Addr, Fault, Shape};
use fkv_disk::Device;
use fkv_record::{from_or_none, law_spellings_apart};
use std::collections::BTreeMap;

/// The address, or 0 where it isn't below the limit.
#[tactic(auto, unfolding(crate::specs::Gathered::lower_or_none))]
fn lower_or_none(addr: Addr, limit: Addr) -> Addr
    ensures lower { result.0 ≡ lower_or_none addr.0 limit.0 }
    ensures small { 0 < result.0 → result.0 < limit.0 }
{
    if addr.0 < limit.0 { addr } else { Addr(0) }
}

/// Adds the value of each key that has none yet, from its first record along the chain of a home's entry, down to the log's begin.
pub(crate) fn gather<D: Device>(
    d: &mut D,
    shape: Shape,
    begin: Addr,
    entry: Addr,
    values: &mut BTreeMap<u64, u64>,
) -> Result<(), Fault>
    requires { entry.0 < 2 ^ 48 }
    ensures ok { (log : Log) (its_home : ℕ) → D.honest d.old → IsReadFrom (D.seen d.old) shape begin.0 log → IsEntry log its_home entry.0 → AreNewest log (get nat_cmp values.old) → OnOk result (IsGathered log its_home (get nat_cmp values.old) (get nat_cmp values.new)) }
    ensures err { IfErr result (IsHindrance (D.failed d.old) (D.failed d.new)) }
    ensures quiet { IsQuiet D.honest D.seen D.may_leave D.moment D.left_since D.failed d.old d.new }
    ensures reads { OnlyReads D.refuses D.expects d.old d.new }
{
    law_spellings_apart();
    let mut addr = entry;
    while addr.0 != 0 {
        let Some(found) = record_at(d, shape, addr)? else {
            return Ok(());
        };
        let key = found.key.0;
        if !values.contains_key(&key) {
            values.insert(key, found.value)?;
        }
        let previous = from_or_none(begin, found.header.previous);
        addr = lower_or_none(previous, addr);
    }
    Ok(())
}
