//! The opened store of a log without a fault.
ghost use Rattle.std.specs.Prelude.{◌≡◌, ◌<◌, ◌≤◌, ◌+◌, ◌^◌, ℕ, List, length, All, IfOk, OnErr, Err};
ghost use Rattle.fkv_base.specs.Limits.{last_version, last_serial};
ghost use Rattle.fkv_base.specs.declared.shapes.Shape.{Shape};
ghost use Rattle.fkv_scan.specs.Log.{log_in};
ghost use Rattle.arrayvec.specs.ArrayVec.{array_vec_len};
ghost use Rattle.fkv_base.specs.declared.faults.Fault.TheVariants.{Memory};
ghost use Rattle.fkv_record.specs.declared.triples.Triple.{Triple};
ghost use Rattle.fkv_scan.specs.Scanned.{AreScanned};
ghost use Rattle.fkv_room.specs.Counted.{homes_of};
ghost use Rattle.fkv_room.specs.Room.{taken};
ghost use Rattle.fkv_opening.specs.Faults.{HasCheckpoint, IsSound, log_of};
ghost use Rattle.fkv_opening.specs.Lost.{Extends};
ghost use Rattle.fkv_opening.specs.Opened.{IsStoreOf};

use crate::entries::entries_of;
use crate::opened_store::{Checkpoint, MAX_LOST_IN_HAND, Opened};
use arrayvec::ArrayVec;
use fkv_base::{Fault, Serial, Version};
use fkv_chains::law_entries;
use fkv_newest::Newest;
use fkv_record::{LostRange, ManifestSlot};
use fkv_scan::Scanned;
use std::alloc::Global;

/// The lost ranges that the slot names.
fn named_ranges(slot: &ManifestSlot) -> ArrayVec<LostRange, MAX_LOST_IN_HAND>
    ensures ranges { result.items ≡ slot.now.lost.ranges.items }
    ensures few { array_vec_len result < 9 }
{
    let mut lost = ArrayVec::new();
    let _ = lost.try_extend_from_slice(&slot.lost.ranges);
    lost
}

/// The records of the scan that are newer than the commit.
fn newer_range(slot: &ManifestSlot) -> LostRange
    requires { slot.now.number < last_version }
    ensures to { result.to ≡ slot.now.end }
    ensures version { result.version.0 ≡ slot.now.number + 1 }
{
    LostRange {
        to: slot.end,
        version: Version(slot.number + 1),
    }
}

/// The lost ranges in hand: those that the slot names, and one more where the scan met a record that is newer than its
/// commit.
fn lost_in_hand(slot: &ManifestSlot, newer: bool) -> ArrayVec<LostRange, MAX_LOST_IN_HAND>
    requires { slot.now.number < last_version }
    ensures { (image : List ℕ) (shape : Shape) (triples : List Triple) → Extends (log_in image shape slot.now triples) newer result.items }
{
    let mut lost = named_ranges(slot);
    if newer {
        let added = newer_range(slot);
        lost.push(added);
    }
    lost
}

/// The points of the sessions.
fn points_of(alloc: Global, slot: &ManifestSlot) -> Result<Vec<Serial>, Fault>
    ensures ok { IfOk result (λ points. points.items ≡ slot.now.points.serials.items) }
    ensures many { IfOk result (λ points. length points.items ≡ length slot.now.points.serials.items) }
    ensures small { IfOk result (λ points. All (λ point. point.0 ≤ last_serial) points.items) }
    ensures err { OnErr result (result ≡ Err Memory) }
{
    let mut points = Vec::with_capacity(alloc, slot.points.serials.len())?;
    points.extend_from_slice(&slot.points.serials)?;
    Ok(points)
}

/// The store with this newest slot, by what the scan told.
pub(crate) fn make(alloc: Global, newest: Newest, scanned: &Scanned) -> Result<Opened, Fault>
    requires { taken (homes_of scanned.now.homes.entries) (2 ^ newest.shape.bucket_bits) ≤ newest.shape.overflow }
    ensures ok { (image : List ℕ) (triples : List Triple) → HasCheckpoint image newest triples → AreScanned (log_of image newest triples) scanned.now → IsSound (log_of image newest triples) → IfOk result (IsStoreOf image) }
    ensures cold { IfOk result (λ opened. opened.warm ≡ opened.tail) }
    ensures err { OnErr result (result ≡ Err Memory) }
{
    law_entries();
    let entries = entries_of(alloc, newest.shape.bucket_bits, &scanned.homes)?;
    let lost = lost_in_hand(&newest.slot, scanned.newer);
    let points = points_of(alloc, &newest.slot)?;
    let gates = newest.gates();
    Ok(Opened {
        shape: newest.shape,
        number: Version(newest.slot.number),
        begin: newest.slot.begin,
        tail: newest.slot.end,
        points,
        gates,
        checkpoint: Checkpoint {
            number: Version(newest.slot.checkpoint),
            first: newest.slot.first,
            triples: newest.slot.triples,
            area: newest.slot.area,
        },
        lost,
        entries,
        warm: newest.slot.end,
        frames: Vec::new(alloc),
    })
}
