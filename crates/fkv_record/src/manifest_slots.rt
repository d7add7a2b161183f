//! What manifest slots say.
ghost use Rattle.std.specs.Prelude.{◌<◌, ◌^◌};

use crate::lost_ranges::LostRanges;
use crate::points::Points;
use fkv_base::Addr;

/// What an open slot says of its commit, in the words of the newest format. Which of these numbers a commit may have is the
/// shape's and recovery's to say.
#[derive(Debug, PartialEq, Eq, Drop)]
pub struct ManifestSlot {
    /// The number of the commit.
    pub number: u64,
    /// Where recovery's scan of the log begins.
    pub first: Addr,
    /// Where the log of the commit ends.
    pub end: Addr,
    /// How many triples the checkpoint has.
    pub triples: u64,
    /// The area in which they lie.
    pub area: u64,
    pub points: Points,
    /// The number of the commit that made the checkpoint.
    pub checkpoint: u64,
    /// Which records of the scan are lost.
    pub lost: LostRanges,
    /// Where the log begins: the address 1, or the first one that wasn't given back.
    pub begin: Addr,
    pub ghost number_fits: { number < 2 ^ 64 },
    pub ghost first_fits: { first.0 < 2 ^ 64 },
    pub ghost end_fits: { end.0 < 2 ^ 64 },
    pub ghost triples_fit: { triples < 2 ^ 64 },
    pub ghost area_fits: { area < 2 ^ 64 },
    pub ghost checkpoint_fits: { checkpoint < 2 ^ 64 },
    pub ghost begin_fits: { begin.0 < 2 ^ 64 },
}
