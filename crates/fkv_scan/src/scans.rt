//! The whole scan.
ghost use Rattle.std.specs.Prelude.{◌≡◌, ℕ, ◌≤◌, ◌<◌, ◌^◌, IfOk, OnOk, IfErr, OnErr, Err, List, length, true, ◌↔◌};
ghost use Rattle.fkv_base.specs.declared.faults.Fault.TheVariants.{Memory};
ghost use Rattle.fkv_base.specs.declared.shapes.Shape.{Shape};
ghost use Rattle.fkv_record.specs.declared.manifest_slots.ManifestSlot.{ManifestSlot};
ghost use Rattle.fkv_record.specs.declared.triples.Triple.{Triple};
ghost use Rattle.fkv_scan.specs.Scan.{IsScannedTo, IsLed, AreLed};
ghost use Rattle.std.specs.Ordering.{nat_cmp};
ghost use Rattle.std.specs.BTreeMap.{get};
ghost use Rattle.fkv_scan.specs.Log.{log_in, AreApart, AreBelow};
ghost use Rattle.fkv_scan.specs.Scanned.{AreScanned, TellsNewer};
ghost use Rattle.fkv_scan.specs.Known.{KnowsAll};
ghost use Rattle.fkv_disk.specs.Kinds.{OnlyReads};
ghost use Rattle.fkv_disk.specs.Quiet.{IsQuiet, IsHindrance};
ghost use Rattle.fkv_scan.specs.Refused.{IsRefused};

use crate::home_scans::HomeScan;
use crate::homes::triple_home;
use crate::parts::{meet_part, part_end};
use crate::steps::stands;
use fkv_base::{Addr, Damage, Fault, Shape};
use fkv_disk::Device;
use fkv_record::{ManifestSlot, Triple};
use std::alloc::Global;
use std::collections::BTreeMap;

/// What a scan found.
#[derive(Drop)]
pub struct Scanned {
    /// Each home that the scan or a triple met, by its number: its bucket times 2^15, and its tag.
    pub homes: BTreeMap<u64, HomeScan>,
    /// Whether a valid record is newer than the commit. Recovery leaves such records out, and they are lost from then on.
    pub newer: bool,
}

/// What the triples tell of the homes. A triple below the log's begin is none.
fn led_homes(
    alloc: Global,
    slot: &ManifestSlot,
    triples: &[Triple],
) -> Result<BTreeMap<u64, HomeScan>, Fault>
    requires { AreApart triples.now }
    ensures ok { (image : List ℕ) (shape : Shape) → IfOk result (λ homes. KnowsAll (log_in image shape slot.now triples.now) slot.now.first.0 (get nat_cmp homes)) }
    ensures err { OnErr result (result ≡ Err Memory) }
{
    let mut homes = BTreeMap::new(alloc);
    for i in 0..triples.len() {
        let triple = triples[i];
        if triple.addr.0 < slot.begin.0 {
            continue;
        }
        homes.insert(triple_home(&triple), HomeScan::led(triple.addr, slot.first))?;
    }
    Ok(homes)
}

/// Takes in each record from the scan's start to the log's end, a part behind the other. Whether one is newer than the commit.
fn meet_all<D: Device>(
    alloc: Global,
    d: &mut D,
    shape: Shape,
    slot: &ManifestSlot,
    homes: &mut BTreeMap<u64, HomeScan>,
) -> Result<bool, Fault>
    requires upwards { slot.now.first.0 ≤ slot.now.end.0 }
    requires short { slot.now.end.0 < 2 ^ 48 }
    requires few { slot.now.number < 2 ^ 63 }
    ensures ok { (triples : List Triple) → D.honest d.old → KnowsAll (log_in (D.seen d.old) shape slot.now triples) slot.now.first.0 (get nat_cmp homes.old) → OnOk result (IsScannedTo (log_in (D.seen d.old) shape slot.now triples) slot.now.end.0 × KnowsAll (log_in (D.seen d.old) shape slot.now triples) slot.now.end.0 (get nat_cmp homes.new)) }
    ensures newer { (triples : List Triple) → D.honest d.old → IfOk result (TellsNewer (log_in (D.seen d.old) shape slot.now triples) slot.now.end.0) }
    ensures err { (triples : List Triple) → IfErr result (IsRefused (D.failed d.old) (D.failed d.new) (D.honest d.old × KnowsAll (log_in (D.seen d.old) shape slot.now triples) slot.now.first.0 (get nat_cmp homes.old)) (log_in (D.seen d.old) shape slot.now triples)) }
    ensures quiet { IsQuiet D.honest D.seen D.may_leave D.moment D.left_since D.failed d.old d.new }
    ensures reads { OnlyReads D.refuses D.expects d.old d.new }
{
    let mut newer = false;
    let mut from = slot.first.0;
    while from < slot.end.0 {
        let to = part_end(from, slot.end.0);
        match meet_part(alloc, d, shape, slot, homes, Addr(from), Addr(to)) {
            Ok(is_newer) => newer = newer || is_newer,
            Err(fault) => return Err(fault),
        }
        from = to;
    }
    Ok(newer)
}

/// Whether a triple that leads into the scan leads to a valid record of its home.
fn is_led<D: Device>(
    d: &mut D,
    shape: Shape,
    slot: &ManifestSlot,
    triple: &Triple,
) -> Result<bool, Fault>
    ensures ok { D.honest d.old → IfOk result (λ led. (triples : List Triple) → (led ≡ true) ↔ IsLed (log_in (D.seen d.old) shape slot.now triples) triple.now) }
    ensures err { IfErr result (IsHindrance (D.failed d.old) (D.failed d.new)) }
    ensures quiet { IsQuiet D.honest D.seen D.may_leave D.moment D.left_since D.failed d.old d.new }
    ensures reads { OnlyReads D.refuses D.expects d.old d.new }
{
    if triple.addr.0 < slot.first.0 {
        return Ok(true);
    }
    let there = stands(d, shape, triple.addr, triple_home(triple))?;
    Ok(there)
}

/// Tests each triple that leads into the scan.
fn check_led<D: Device>(
    d: &mut D,
    shape: Shape,
    slot: &ManifestSlot,
    triples: &[Triple],
) -> Result<(), Fault>
    ensures ok { D.honest d.old → OnOk result (AreLed (log_in (D.seen d.old) shape slot.now triples.now) (length triples.now)) }
    ensures err { IfErr result (IsRefused (D.failed d.old) (D.failed d.new) (D.honest d.old × IsScannedTo (log_in (D.seen d.old) shape slot.now triples.now) slot.now.end.0) (log_in (D.seen d.old) shape slot.now triples.now)) }
    ensures quiet { IsQuiet D.honest D.seen D.may_leave D.moment D.left_since D.failed d.old d.new }
    ensures reads { OnlyReads D.refuses D.expects d.old d.new }
{
    for i in 0..triples.len() {
        let triple = triples[i];
        let led = is_led(d, shape, slot, &triple)?;
        if !led {
            return Err(Fault::Damaged(Damage::Link, triple.addr.0));
        }
    }
    Ok(())
}

/// Scans the records from the slot's first address to its end, upwards, behind a checkpoint of these triples.
pub fn scan<D: Device>(
    alloc: Global,
    d: &mut D,
    shape: Shape,
    slot: &ManifestSlot,
    triples: &[Triple],
) -> Result<Scanned, Fault>
    requires apart { AreApart triples.now }
    requires in_log { AreBelow slot.now.end.0 triples.now }
    requires upwards { slot.now.first.0 ≤ slot.now.end.0 }
    requires short { slot.now.end.0 < 2 ^ 48 }
    requires few { slot.now.number < 2 ^ 63 }
    ensures ok { D.honest d.old → IfOk result (AreScanned (log_in (D.seen d.old) shape slot.now triples.now)) }
    ensures err { IfErr result (IsRefused (D.failed d.old) (D.failed d.new) (D.honest d.old) (log_in (D.seen d.old) shape slot.now triples.now)) }
    ensures quiet { IsQuiet D.honest D.seen D.may_leave D.moment D.left_since D.failed d.old d.new }
    ensures reads { OnlyReads D.refuses D.expects d.old d.new }
{
    let mut homes = led_homes(alloc, slot, triples)?;
    let newer = match meet_all(alloc, d, shape, slot, &mut homes) {
        Ok(newer) => newer,
        Err(fault) => return Err(fault),
    };
    if let Err(fault) = check_led(d, shape, slot, triples) {
        return Err(fault);
    }
    Ok(Scanned { homes, newer })
}
