//! All chains.
ghost use Rattle.std.specs.Prelude.{◌≡◌, ℕ, ◌<◌, ◌≤◌, ◌^◌, ◌↔◌, OnOk, IfErr, if◌then◌else◌, nat_lt};
ghost use Rattle.std.specs.Ordering.{nat_cmp};
ghost use Rattle.std.specs.BTreeMap.{get};
ghost use Rattle.fkv_scan.specs.Log.{log_in, AreBelow};
ghost use Rattle.fkv_scan.specs.Scanned.{AreScanned};
ghost use Rattle.fkv_disk.specs.Kinds.{OnlyReads};
ghost use Rattle.fkv_disk.specs.Quiet.{IsQuiet};
ghost use Rattle.fkv_chains.specs.Chains.{HasChains};
ghost use Rattle.fkv_chains.specs.Refused.{IsRefused};
ghost use Rattle.fkv_chains.specs.Ways.{way_below};

use crate::following::follow;
use crate::readings::triple_home;
use fkv_base::{Addr, Fault, Shape};
use fkv_disk::Device;
use fkv_record::{ManifestSlot, Triple, law_spellings_apart};
use fkv_scan::{HomeScan, Scanned};
use std::collections::BTreeMap;

/// Where the chain of a home goes on below the scan's start, or address 0.
#[tactic(auto, unfolding(crate::specs::Ways::way_below))]
fn way_of(homes: &BTreeMap<u64, HomeScan>, home: u64, start: Addr) -> Addr
    ensures way { result.0 ≡ way_below (get nat_cmp homes.now home) start.0 }
    ensures below { result.0 ≤ start.0 }
{
    match homes.get(&home) {
        Some(known) => match known.below {
            Some(way) if way.0 < start.0 => way,
            _ => Addr(0),
        },
        None => Addr(0),
    }
}

/// Follows each chain below the scan's start, in the order of the triples. The fault of the first record that has one.
pub fn check_chains<D: Device>(
    d: &mut D,
    shape: Shape,
    slot: &ManifestSlot,
    triples: &[Triple],
    scanned: &Scanned,
) -> Result<(), Fault>
    requires in_log { AreBelow slot.now.end.0 triples.now }
    requires short { slot.now.first.0 < 2 ^ 48 }
    ensures ok { D.honest d.old → AreScanned (log_in (D.seen d.old) shape slot.now triples.now) scanned.now → OnOk result (HasChains (log_in (D.seen d.old) shape slot.now triples.now)) }
    ensures err { IfErr result (IsRefused (D.failed d.old) (D.failed d.new) (D.honest d.old × AreScanned (log_in (D.seen d.old) shape slot.now triples.now) scanned.now) (log_in (D.seen d.old) shape slot.now triples.now)) }
    ensures quiet { IsQuiet D.honest D.seen D.may_leave D.moment D.left_since D.failed d.old d.new }
    ensures reads { OnlyReads D.refuses D.expects d.old d.new }
{
    law_spellings_apart();
    for i in 0..triples.len() {
        let triple = triples[i];
        let home = triple_home(&triple);
        let from = way_of(&scanned.homes, home, slot.first);
        if let Err(fault) = follow(d, shape, slot, home, from) {
            return Err(fault);
        }
    }
    Ok(())
}
