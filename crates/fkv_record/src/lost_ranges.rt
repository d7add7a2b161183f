//! Ranges of records that were lost.
ghost use Rattle.std.specs.Prelude.{◌<◌, ◌≤◌, ◌^◌, length};
ghost use Rattle.fkv_record.specs.Lost.{max_lost};

use arrayvec::ArrayVec;
use fkv_base::{Addr, Version};

/// Lost ranges of a slot, at most.
pub const MAX_LOST: usize = 8;

/// Records that a recovery left out, since no commit had made them durable: those of the version below the address `to`.
/// The next life of the store used their version again, so a scan that meets them must know them.
#[derive(Clone, Copy, Debug, PartialEq, Eq)]
pub struct LostRange {
    /// Where the range ends.
    pub to: Addr,
    /// The version of the records that were lost.
    pub version: Version,
    pub ghost to_fits: { to.0 < 2 ^ 64 },
    pub ghost version_fits: { version.0 < 2 ^ 64 },
}

impl Default for LostRange {
    /// A range of no record.
    fn default() -> LostRange {
        LostRange {
            to: Addr(0),
            version: Version(0),
        }
    }
}

/// The lost ranges that a slot names.
#[derive(Debug, PartialEq, Eq, Drop)]
pub struct LostRanges {
    pub ranges: ArrayVec<LostRange, MAX_LOST>,
    pub ghost few_ranges: { length ranges.items ≤ max_lost },
}
