//! Lost ranges as numbers.
ghost use Rattle.std.specs.Prelude.{◌≡◌, ◌∷◌, ◌≤◌, ◌*◌, length, take};
ghost use Rattle.fkv_words.specs.Fields.{Reads};
ghost use Rattle.fkv_record.specs.Lost.{max_lost};
ghost use Rattle.fkv_record.specs.Manifest.{range_numbers};
ghost use Rattle.fkv_record.specs.Sections.{ranges_in};

use crate::lost_ranges::{LostRange, LostRanges, MAX_LOST};
use crate::numbers::are_zero;
use arrayvec::ArrayVec;
use fkv_base::{Addr, Version};

/// The ranges that stand in the places, if there are so many, and zeros after them.
pub(crate) fn lost_of(count: u64, places: &[u64]) -> Option<LostRanges>
    requires { 2 * max_lost ≤ length places.now }
    ensures { Reads (ranges_in (length places.now)) (count ∷ places.now) result }
{
    if count > MAX_LOST as u64 {
        return None;
    }
    let (used, unused) = places.split_at(2 * count as usize);
    if !are_zero(unused) {
        return None;
    }
    Some(LostRanges {
        ranges: ranges_of(count as usize, used),
    })
}

/// So many ranges, of two numbers each.
fn ranges_of(count: usize, numbers: &[u64]) -> ArrayVec<LostRange, MAX_LOST>
    requires few { count ≤ max_lost }
    requires pairs { length numbers.now ≡ 2 * count }
    ensures count { length result.items ≡ count }
    ensures same { range_numbers result.items ≡ numbers.now }
{
    let mut ranges = ArrayVec::new();
    for i in 0..count {
        ranges.push(LostRange {
            to: Addr(numbers[2 * i]),
            version: Version(numbers[2 * i + 1]),
        });
    }
    ranges
}
