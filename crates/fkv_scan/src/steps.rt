//! One record of the scan.
ghost use Rattle.std.specs.Prelude.{◌≡◌, ◌≢◌, ℕ, ◌≤◌, ◌<◌, ◌^◌, ◌↔◌, List, true, nat_lt, IfOk, OnOk, IfErr, OnErr, Some, Err};
ghost use Rattle.std.specs.Ordering.{nat_cmp};
ghost use Rattle.std.specs.BTreeMap.{get};
ghost use Rattle.fkv_base.specs.declared.faults.Fault.TheVariants.{Memory};
ghost use Rattle.fkv_record.specs.declared.manifest_slots.ManifestSlot.{ManifestSlot};
ghost use Rattle.fkv_record.specs.declared.triples.Triple.{Triple};
ghost use Rattle.fkv_scan.specs.Log.{log_in};
ghost use Rattle.fkv_scan.specs.Records.{IsValid, losses};
ghost use Rattle.fkv_scan.specs.Scan.{Has};
ghost use Rattle.fkv_scan.specs.Known.{KnowsOf};
ghost use Rattle.fkv_scan.specs.Parts.{Tells, IsTakenIn};
ghost use Rattle.fkv_scan.specs.Steps.{known_or, links, met};
ghost use Rattle.fkv_disk.specs.Kinds.{OnlyReads};
ghost use Rattle.fkv_disk.specs.Quiet.{IsQuiet, IsHindrance};

use crate::home_scans::HomeScan;
use crate::homes::record_home;
use crate::met_records::MetRecord;
use crate::readings::record_at;
use fkv_base::{Addr, Fault, Shape, Version};
use fkv_disk::Device;
use fkv_record::{LostRange, ManifestSlot};
use std::collections::BTreeMap;

/// Whether a record of this version at the address is lost by one of the ranges.
#[tactic(auto, unfolding(crate::specs::Records::losses))]
fn is_lost(ranges: &[LostRange], addr: Addr, version: Version) -> bool
    ensures { result ≡ nat_lt 0 (losses ranges.now addr.0 version.0) }
{
    for range in ranges {
        if addr.0 < range.to.0 && version.0 == range.version.0 {
            return true;
        }
    }
    false
}

/// Whether a valid record of the home stands at the address.
pub(crate) fn stands<D: Device>(
    d: &mut D,
    shape: Shape,
    addr: Addr,
    home: u64,
) -> Result<bool, Fault>
    requires { addr.0 < 2 ^ 48 }
    ensures ok { D.honest d.old → IfOk result (λ there. (slot : ManifestSlot) (triples : List Triple) → (there ≡ true) ↔ Has (IsValid (log_in (D.seen d.old) shape slot triples) home) addr.0) }
    ensures err { IfErr result (IsHindrance (D.failed d.old) (D.failed d.new)) }
    ensures quiet { IsQuiet D.honest D.seen D.may_leave D.moment D.left_since D.failed d.old d.new }
    ensures reads { OnlyReads D.refuses D.expects d.old d.new }
{
    let read = record_at(d, shape, addr)?;
    Ok(match read {
        Some(found) => { !found.header.invalid && record_home(&found, shape.bucket_bits) == home }
        None => false,
    })
}

/// Takes what a valid record tells into what is known of its home, by one look-up, if the record is on the chain of that home.
/// Whether it is.
fn put_in(
    homes: &mut BTreeMap<u64, HomeScan>,
    found: &MetRecord,
    is_lost: bool,
    leads: bool,
    slot: &ManifestSlot,
) -> Result<bool, Fault>
    ensures linked { IfOk result (λ on. on ≡ links (known_or (get nat_cmp homes.old found.now.home)) found.now.previous found.now.version.0 is_lost leads slot.now.first.0) }
    ensures known { IfOk result (λ on. on ≡ true → get nat_cmp homes.new found.now.home ≡ Some (met (known_or (get nat_cmp homes.old found.now.home)) found.now.addr found.now.previous found.now.version is_lost slot.now.first.0 slot.now.number)) }
    ensures others { OnOk result ((q : ℕ) → found.now.home ≢ q → get nat_cmp homes.new q ≡ get nat_cmp homes.old q) }
    ensures err { OnErr result (result ≡ Err Memory) }
{
    let known = homes.entry(found.home)?.or_insert(HomeScan::unled());
    let linked = known.links(found, is_lost, leads, slot.first);
    if linked {
        *known = known.met(found, is_lost, slot.first, slot.number);
    }
    Ok(linked)
}

/// Whether a lost record that leads into the scan leads to a valid record of its home. Of another record it says nothing.
fn leads_within<D: Device>(
    d: &mut D,
    shape: Shape,
    slot: &ManifestSlot,
    is_lost: bool,
    previous: Addr,
    home: u64,
) -> Result<bool, Fault>
    requires { previous.0 < 2 ^ 48 }
    ensures ok { D.honest d.old → IfOk result (λ leads. (triples : List Triple) → is_lost ≡ true → slot.now.first.0 ≤ previous.0 → (leads ≡ true) ↔ Has (IsValid (log_in (D.seen d.old) shape slot.now triples) home) previous.0) }
    ensures err { IfErr result (IsHindrance (D.failed d.old) (D.failed d.new)) }
    ensures quiet { IsQuiet D.honest D.seen D.may_leave D.moment D.left_since D.failed d.old d.new }
    ensures reads { OnlyReads D.refuses D.expects d.old d.new }
{
    if is_lost && slot.first.0 <= previous.0 {
        let there = stands(d, shape, previous, home)?;
        return Ok(there);
    }
    Ok(false)
}

/// Takes in a valid record. Whether it is on the chain of its home. If it isn't, nothing changes.
pub(crate) fn take_in<D: Device>(
    d: &mut D,
    shape: Shape,
    slot: &ManifestSlot,
    homes: &mut BTreeMap<u64, HomeScan>,
    met: &MetRecord,
) -> Result<bool, Fault>
    ensures ok { (triples : List Triple) → D.honest d.old → Tells (log_in (D.seen d.old) shape slot.now triples) met.now → KnowsOf (log_in (D.seen d.old) shape slot.now triples) met.now.home met.now.addr.0 (get nat_cmp homes.old met.now.home) → IfOk result (IsTakenIn (log_in (D.seen d.old) shape slot.now triples) met.now (get nat_cmp homes.old) (get nat_cmp homes.new)) }
    ensures err { IfErr result (IsHindrance (D.failed d.old) (D.failed d.new)) }
    ensures quiet { IsQuiet D.honest D.seen D.may_leave D.moment D.left_since D.failed d.old d.new }
    ensures reads { OnlyReads D.refuses D.expects d.old d.new }
{
    let lost = is_lost(&slot.lost.ranges, met.addr, met.version);
    let leads = leads_within(d, shape, slot, lost, met.previous, met.home)?;
    let linked = put_in(homes, met, lost, leads, slot)?;
    Ok(linked)
}
