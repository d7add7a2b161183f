//! Taking in a part of the scan, home by home.
ghost use Rattle.std.specs.Prelude.{◌≡◌, ◌≤◌, ◌<◌, ◌^◌, List, IfOk, OnOk, IfErr, OnErr, Err, ℕ};
ghost use Rattle.std.specs.Ordering.{nat_cmp};
ghost use Rattle.std.specs.BTreeMap.{get};
ghost use Rattle.std.specs.List.Sorted.{IsPermutation};
ghost use Rattle.fkv_base.specs.declared.faults.Fault.TheVariants.{Memory};
ghost use Rattle.fkv_record.specs.declared.triples.Triple.{Triple};
ghost use Rattle.fkv_scan.specs.Log.{log_in};
ghost use Rattle.fkv_scan.specs.Known.{KnowsAll};
ghost use Rattle.fkv_scan.specs.Parts.{AreMet, Rise, RiseByHome, AreScannedIn, TellsNewerIn, AreLinked, IsPartRefused};
ghost use Rattle.fkv_disk.specs.Kinds.{OnlyReads};
ghost use Rattle.fkv_disk.specs.Quiet.{IsQuiet, IsHindrance};

use crate::gathering::gather;
use crate::home_scans::HomeScan;
use crate::met_records::MetRecord;
use crate::steps::take_in;
use fkv_base::{Addr, Damage, Fault, Shape};
use fkv_disk::Device;
use fkv_record::ManifestSlot;
use std::alloc::Global;
use std::collections::BTreeMap;

/// How many addresses a part has at most. What is kept of its records takes 32 bytes each, and twice as many while they are sorted:
/// 16 MiB.
const PART: u64 = 1 << 18;

/// Where the part ends that begins at the one address, where all end at the other.
pub(crate) fn part_end(from: u64, end: u64) -> u64
    requires { from < end }
    ensures above { from < result }
    ensures at_most { result ≤ end }
{
    if PART < end - from { from + PART } else { end }
}

/// Sorts the records by their homes, those of a home upwards. Where homes are met in their order, those that are looked up lie
/// side by side.
fn sort_by_home(mets: &mut Vec<MetRecord>) -> Result<(), Fault>
    ensures permutation { IsPermutation mets.old.items mets.new.items }
    ensures by_home { Rise mets.old.items → OnOk result (RiseByHome mets.new.items) }
    ensures err { OnErr result (result ≡ Err Memory) }
{
    mets.sort_by_key(|met| met.home)?;
    Ok(())
}

/// Takes in the records of a part, those of each home upwards. The least address of those that aren't on the chain of their
/// home, or else where the part ends.
fn take_in_all<D: Device>(
    d: &mut D,
    shape: Shape,
    slot: &ManifestSlot,
    homes: &mut BTreeMap<u64, HomeScan>,
    mets: &[MetRecord],
    end: Addr,
) -> Result<Addr, Fault>
    ensures ok { (triples : List Triple) (from : ℕ) → D.honest d.old → AreMet (log_in (D.seen d.old) shape slot.now triples) from end.0 mets.now → RiseByHome mets.now → KnowsAll (log_in (D.seen d.old) shape slot.now triples) from (get nat_cmp homes.old) → IfOk result (λ linked. AreLinked (log_in (D.seen d.old) shape slot.now triples) from end.0 linked.0 (get nat_cmp homes.new)) }
    ensures err { IfErr result (IsHindrance (D.failed d.old) (D.failed d.new)) }
    ensures quiet { IsQuiet D.honest D.seen D.may_leave D.moment D.left_since D.failed d.old d.new }
    ensures reads { OnlyReads D.refuses D.expects d.old d.new }
{
    let mut linked = end;
    for i in 0..mets.len() {
        let met = mets[i];
        if linked.0 <= met.addr.0 {
            continue;
        }
        let taken = take_in(d, shape, slot, homes, &met)?;
        if taken {
            continue;
        }
        linked = met.addr;
    }
    Ok(linked)
}

/// Takes in the records from one address on and below another. Whether one is newer than the commit.
pub(crate) fn meet_part<D: Device>(
    alloc: Global,
    d: &mut D,
    shape: Shape,
    slot: &ManifestSlot,
    homes: &mut BTreeMap<u64, HomeScan>,
    from: Addr,
    to: Addr,
) -> Result<bool, Fault>
    requires small { to.0 < 2 ^ 48 }
    requires few { slot.now.number < 2 ^ 63 }
    requires from_start { slot.now.first.0 ≤ from.0 }
    requires upwards { from.0 ≤ to.0 }
    ensures ok { (triples : List Triple) → D.honest d.old → KnowsAll (log_in (D.seen d.old) shape slot.now triples) from.0 (get nat_cmp homes.old) → OnOk result (AreScannedIn (log_in (D.seen d.old) shape slot.now triples) from.0 to.0 × KnowsAll (log_in (D.seen d.old) shape slot.now triples) to.0 (get nat_cmp homes.new)) }
    ensures newer { (triples : List Triple) → D.honest d.old → IfOk result (TellsNewerIn (log_in (D.seen d.old) shape slot.now triples) from.0 to.0) }
    ensures err { (triples : List Triple) → IfErr result (IsPartRefused (D.failed d.old) (D.failed d.new) (D.honest d.old × KnowsAll (log_in (D.seen d.old) shape slot.now triples) from.0 (get nat_cmp homes.old)) (log_in (D.seen d.old) shape slot.now triples) from.0 to.0) }
    ensures quiet { IsQuiet D.honest D.seen D.may_leave D.moment D.left_since D.failed d.old d.new }
    ensures reads { OnlyReads D.refuses D.expects d.old d.new }
{
    let mut read = gather(alloc, d, shape, slot, from, to)?;
    sort_by_home(&mut read.mets)?;
    let linked = take_in_all(d, shape, slot, homes, &read.mets, read.end)?;
    if linked.0 < read.end.0 {
        return Err(Fault::Damaged(Damage::Link, linked.0));
    }
    if read.end.0 < to.0 {
        return Err(Fault::Damaged(Damage::Record, read.end.0));
    }
    Ok(read.newer)
}
