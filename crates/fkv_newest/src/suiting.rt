//! Whether a manifest slot is one of a store.
ghost use Rattle.std.specs.Prelude.{◌≡◌, ◌<◌, ◌↔◌, true};
ghost use Rattle.fkv_base.specs.Limits.{last_version};
ghost use Rattle.fkv_newest.specs.Manifest.{HasNumber, HasLog, IsWhole, HasBegin, HasCheckpoint, IsLostIn, Follows, HasLost, Suits};

use fkv_base::{Shape, StoreClass, Version};
use fkv_marks::is_in_window;
use fkv_record::{Format, LostRange, ManifestSlot, most_triples};

/// Whether the commit's number is one of this slot.
fn has_number(index: u64, slot: &ManifestSlot) -> bool
    ensures { (result ≡ true) ↔ HasNumber index slot.now }
{
    slot.number < Version::LAST && slot.number % 2 == index
}

/// Whether the commit's log lies on the device.
fn has_log(shape: Shape, slot: &ManifestSlot) -> bool
    ensures { (result ≡ true) ↔ HasLog shape slot.now }
{
    1 <= slot.first.0 && slot.first.0 <= slot.end.0 && slot.end.0 <= shape.disk_pages * shape.page
}

/// Whether the slot is one of a specified store, whose log begins at its first record and which has no slot of the fourth format; or
/// the store is a living one.
fn is_whole(shape: Shape, format: Format, slot: &ManifestSlot) -> bool
    ensures { (result ≡ true) ↔ IsWhole shape format slot.now }
{
    match shape.class {
        StoreClass::Specified => slot.begin.0 == 1 && format != Format::Fourth,
        StoreClass::Living => true,
    }
}

/// Whether the log can begin there.
fn has_begin(shape: Shape, format: Format, slot: &ManifestSlot) -> bool
    ensures { (result ≡ true) ↔ HasBegin shape format slot.now }
{
    1 <= slot.begin.0 && slot.begin.0 <= slot.first.0 && is_whole(shape, format, slot)
}

/// Whether the checkpoint is one that the slot can name.
fn has_checkpoint(shape: Shape, index: u64, format: Format, slot: &ManifestSlot) -> bool
    requires { slot.now.number < last_version }
    ensures { (result ≡ true) ↔ HasCheckpoint shape index format slot.now }
{
    slot.triples <= most_triples(shape)
        && slot.area < 2
        && (format != Format::First || slot.area == index)
        && slot.checkpoint <= slot.number
        && is_in_window(shape.class, slot.checkpoint, slot.number)
}

/// Whether the records of the range can be lost to the commit.
fn is_lost_in(slot: &ManifestSlot, range: &LostRange) -> bool
    ensures { (result ≡ true) ↔ IsLostIn slot.now range.now }
{
    slot.first.0 < range.to.0
        && range.to.0 <= slot.end.0
        && slot.checkpoint < range.version.0
        && range.version.0 <= slot.number
}

/// Whether one range can follow another.
fn follows(before: &LostRange, after: &LostRange) -> bool
    ensures { (result ≡ true) ↔ Follows before.now after.now }
{
    before.version.0 < after.version.0 && before.to.0 <= after.to.0
}

/// Whether all lost ranges are in order.
fn has_lost(slot: &ManifestSlot) -> bool
    ensures { (result ≡ true) ↔ HasLost slot.now }
{
    let ranges = slot.lost.ranges.as_slice();
    for i in 0..ranges.len() {
        if !is_lost_in(slot, &ranges[i]) {
            return false;
        }
        if i > 0 && !follows(&ranges[i - 1], &ranges[i]) {
            return false;
        }
    }
    true
}

/// Whether a store of this shape can have the slot at this index.
pub(crate) fn suits(shape: Shape, index: u64, format: Format, slot: &ManifestSlot) -> bool
    ensures { (result ≡ true) ↔ Suits shape index format slot.now }
{
    has_number(index, slot)
        && has_log(shape, slot)
        && has_begin(shape, format, slot)
        && has_checkpoint(shape, index, format, slot)
        && slot.points.serials.len() as u64 == shape.sessions
        && has_lost(slot)
}
