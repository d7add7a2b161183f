//! The bytes of a manifest slot, in each format.
ghost use Rattle.std.specs.Prelude.{◌≡◌, ◌+◌, ◌*◌, ◌≤◌, ◌++◌, [], ◌∷◌, length, Some, IsTrue};
ghost use Rattle.fkv_words.specs.Fields.{Reads};
ghost use Rattle.fkv_record.specs.Manifest.{is_held, layout, named_checkpoint, named_begin, front_numbers, range_numbers, manifest_numbers, manifest_bytes, newest_bytes, newest_format, said_in};
ghost use Rattle.fkv_record.specs.Numbers.{padded};
ghost use Rattle.fkv_record.specs.Points.{serial_numbers};
ghost use Rattle.fkv_record.specs.Sections.{checkpoint_of, begin_of};

use crate::formats::Format;
use crate::gates;
use crate::lost_numbers::lost_of;
use crate::lost_ranges::LostRange;
use crate::manifest_slots::ManifestSlot;
use crate::numbers::{are_zero, numbers, spell};
use crate::point_numbers::points_of;
use arrayvec::ArrayVec;
use fkv_base::{Addr, Serial};

/// The gate byte of an open slot and the seven zero bytes after it, as one number.
const OPEN: u64 = gates::OPEN as u64;

/// The numbers of a slot, as they are put together.
type Numbers = ArrayVec<u64, 64>;

/// The slot that the bytes spell, and its format, if they spell one. They spell none where the gate is not open, byte 504
/// names no format, a number doesn't fit its place, or a byte that the format leaves out is not zero.
pub fn read_manifest_slot(bytes: &[u8; 512]) -> Option<(Format, ManifestSlot)>
    ensures { Reads manifest_bytes (Some bytes.now) result }
{
    manifest_of(&numbers::<64>(bytes))
}

/// The slot that the numbers stand for, and its format, if they stand for one.
fn manifest_of(numbers: &[u64]) -> Option<(Format, ManifestSlot)>
    requires { length numbers.now ≡ 64 }
    ensures { Reads manifest_numbers (Some numbers.now) result }
{
    let format = Format::of(numbers[63])?;
    if numbers[0] != OPEN {
        return None;
    }
    let behind = 7 + format.point_places();
    let points = points_of(numbers[6], &numbers[7..behind])?;
    let lost = lost_of(numbers[behind + 1], &numbers[behind + 2..57])?;
    if !are_zero(&numbers[58..63]) {
        return None;
    }
    let slot = ManifestSlot {
        number: numbers[1],
        first: Addr(numbers[2]),
        end: Addr(numbers[3]),
        triples: numbers[4],
        area: numbers[5],
        points,
        checkpoint: checkpoint_of(format, numbers[1], numbers[behind]),
        lost,
        begin: Addr(begin_of(format, numbers[57])),
    };
    if !is_held(format, &slot) || named_checkpoint(format, &slot) != numbers[behind] {
        return None;
    }
    if named_begin(format, &slot) != numbers[57] {
        return None;
    }
    Some((format, slot))
}

/// The commit that made the checkpoint: in the first format the slot's own, and else the one that is named.
fn checkpoint_of(format: Format, own: u64, named: u64) -> u64
    ensures { result ≡ checkpoint_of format own named }
{
    match format {
        Format::First => own,
        Format::Second | Format::Third | Format::Fourth => named,
    }
}

/// Where the log begins: in the first three formats at the first record, and else at the address that is named.
fn begin_of(format: Format, named: u64) -> u64
    ensures { result ≡ begin_of format named }
{
    match format {
        Format::First | Format::Second | Format::Third => 1,
        Format::Fourth => named,
    }
}

/// The format in which the slot is written: the third as long as the log begins at its first record, and then the fourth.
fn newest_format(slot: &ManifestSlot) -> Format
    ensures format { result ≡ newest_format slot.now }
    ensures held { IsTrue (is_held result slot.now) }
{
    if slot.begin.0 == 1 {
        Format::Third
    } else {
        Format::Fourth
    }
}

/// The bytes of the slot as it is written: in the third format as long as its log begins at the first record, and then in the
/// fourth, which can hold every slot.
pub fn write_newest_slot(slot: &ManifestSlot) -> [u8; 512]
    ensures spelled { Some result ≡ manifest_bytes (newest_format slot.now, slot.now) }
    ensures said { result ≡ newest_bytes (said_in slot.now) }
{
    spell(&numbers_of(newest_format(slot), slot))
}

/// The bytes of the slot in the format, if that format can hold it.
pub fn write_manifest_slot(slot: &ManifestSlot, format: Format) -> Option<[u8; 512]>
    ensures { result ≡ manifest_bytes (format, slot.now) }
{
    if !is_held(format, slot) {
        return None;
    }
    Some(spell(&numbers_of(format, slot)))
}

/// The numbers of the slot in the format.
fn numbers_of(format: Format, slot: &ManifestSlot) -> Numbers
    requires { IsTrue (is_held format slot.now) }
    ensures { result.items ≡ layout format slot.now }
{
    let mut numbers = front_of(slot);
    pad(&mut numbers, 7 + format.point_places());
    numbers.push(named_checkpoint(format, slot));
    numbers.push(slot.lost.ranges.len() as u64);
    push_ranges(&mut numbers, &slot.lost.ranges);
    pad(&mut numbers, 57);
    numbers.push(named_begin(format, slot));
    pad(&mut numbers, 63);
    numbers.push(format.number());
    numbers
}

/// Whether the format can hold the slot.
fn is_held(format: Format, slot: &ManifestSlot) -> bool
    ensures { result ≡ is_held format slot.now }
{
    match format {
        Format::First => {
            slot.points.serials.len() <= 8
                && slot.checkpoint == slot.number
                && slot.lost.ranges.is_empty()
                && slot.begin.0 == 1
        }
        Format::Second => slot.points.serials.len() <= 8 && slot.begin.0 == 1,
        Format::Third => slot.begin.0 == 1,
        Format::Fourth => true,
    }
}

/// What stands in the place of the checkpoint's number: nothing in the first format.
fn named_checkpoint(format: Format, slot: &ManifestSlot) -> u64
    ensures { result ≡ named_checkpoint format slot.now }
{
    match format {
        Format::First => 0,
        Format::Second | Format::Third | Format::Fourth => slot.checkpoint,
    }
}

/// What stands in the place of the begin: nothing in the first three formats.
fn named_begin(format: Format, slot: &ManifestSlot) -> u64
    ensures { result ≡ named_begin format slot.now }
{
    match format {
        Format::First | Format::Second | Format::Third => 0,
        Format::Fourth => slot.begin.0,
    }
}

/// What every format begins with.
fn front_of(slot: &ManifestSlot) -> Numbers
    ensures { result.items ≡ front_numbers slot.now }
{
    let mut numbers = ArrayVec::new();
    numbers.push(OPEN);
    numbers.push(slot.number);
    numbers.push(slot.first.0);
    numbers.push(slot.end.0);
    numbers.push(slot.triples);
    numbers.push(slot.area);
    numbers.push(slot.points.serials.len() as u64);
    push_serials(&mut numbers, &slot.points.serials);
    numbers
}

/// A number for each serial.
fn push_serials(numbers: &mut Numbers, serials: &[Serial])
    requires { length numbers.old.items + length serials.now ≤ 64 }
    ensures { numbers.new.items ≡ numbers.old.items ++ serial_numbers serials.now }
{
    for serial in serials {
        numbers.push(serial.0);
    }
}

/// Two numbers for each range.
fn push_ranges(numbers: &mut Numbers, ranges: &[LostRange])
    requires { length numbers.old.items + 2 * length ranges.now ≤ 64 }
    ensures { numbers.new.items ≡ numbers.old.items ++ range_numbers ranges.now }
{
    for range in ranges {
        numbers.push(range.to.0);
        numbers.push(range.version.0);
    }
}

/// Zeros up to so many numbers.
fn pad(numbers: &mut Numbers, count: usize)
    requires few { length numbers.old.items ≤ count }
    requires room { count ≤ 64 }
    ensures { numbers.new.items ≡ padded count numbers.old.items }
{
    for _ in 0..count - numbers.len() {
        numbers.push(0);
    }
}
