//! A store as its image defines it.
ghost use Rattle.std.specs.Prelude.{◌≡◌, ◌+◌, ◌-◌, ◌*◌, ◌/◌, ◌^◌, ◌<◌, ◌≤◌, All, length, min};
ghost use Rattle.fkv_base.specs.Limits.{last_version, last_serial};
ghost use Rattle.fkv_base.specs.declared.classes.StoreClass.TheVariants.{Specified};
ghost use Rattle.fkv_entries.specs.Room.{HaveRoom};
ghost use Rattle.fkv_record.specs.Places.{most_triples};

use arrayvec::ArrayVec;
use fkv_base::{Addr, Serial, Shape, Version};
use fkv_entries::HomeEntry;
use fkv_record::LostRange;

/// Lost ranges in hand, at most: those of a slot, and one more that recovery has found.
pub const MAX_LOST_IN_HAND: usize = 9;

/// The checkpoint behind which a commit's log is scanned.
#[derive(Clone, Copy, Debug, PartialEq, Eq)]
pub struct Checkpoint {
    /// The number of the commit that made it.
    pub number: Version,
    /// The address at which the scan starts.
    pub first: Addr,
    /// How many triples it has.
    pub triples: u64,
    /// The area in which they lie, 0 or 1.
    pub area: u64,
}

/// A store as its image defines it.
#[derive(Drop)]
pub struct Opened {
    /// The sizes of the store.
    pub shape: Shape,
    /// The number of the newest commit, below `Version::LAST`.
    pub number: Version,
    /// The address at which its log begins. Below it nothing counts, whatever stands there.
    pub begin: Addr,
    /// The address at which its log ends: the first that the next record takes.
    pub tail: Addr,
    /// The point of each session.
    pub points: Vec<Serial>,
    /// Whether the gate of slot 0 and that of slot 1 are open.
    pub gates: (bool, bool),
    /// The checkpoint that the newest commit uses.
    pub checkpoint: Checkpoint,
    /// Which records behind the checkpoint are lost: those that the newest slot names, and those that are newer than its
    /// commit, where there are some. The slot of the next log commit has to name them all.
    pub lost: ArrayVec<LostRange, MAX_LOST_IN_HAND>,
    /// The entries of the homes that have one, each home once, in ascending order of the homes.
    pub entries: Vec<HomeEntry>,
    /// From this address on memory has the records, from the beginning on. Where it is the log's end, it has none. It isn't below the log's begin.
    pub warm: Addr,
    /// The words of these records, in the order of their addresses: of each its header, its key and its value.
    pub frames: Vec<u64>,
    pub ghost room: { HaveRoom (2 ^ shape.bucket_bits) shape.overflow entries.items },
    pub ghost few_entries: { length entries.items ≤ 7 * (2 ^ shape.bucket_bits + shape.overflow) },
    pub ghost few_commits: { number.0 < last_version },
    pub ghost some_tail: { 1 ≤ tail.0 },
    pub ghost tail_on_disk: { tail.0 ≤ shape.disk_pages * shape.page },
    pub ghost some_warm: { 1 ≤ warm.0 },
    pub ghost warm_from_begin: { begin.0 ≤ warm.0 },
    pub ghost warm_in_log: { warm.0 ≤ tail.0 },
    pub ghost warm_in_ring: { min (tail.0 / shape.page + 2) shape.disk_pages * shape.page ≤ warm.0 + shape.frames * shape.page },
    pub ghost three_words: { length frames.items ≡ 3 * (tail.0 - warm.0) },
    pub ghost each_session: { length points.items ≡ shape.sessions },
    pub ghost small_points: { All (λ point. point.0 ≤ last_serial) points.items },
    pub ghost some_begin: { 1 ≤ begin.0 },
    pub ghost begin_before_scan: { begin.0 ≤ checkpoint.first.0 },
    pub ghost whole: { shape.class ≡ Specified → begin.0 ≡ 1 },
    pub ghost some_first: { 1 ≤ checkpoint.first.0 },
    pub ghost upwards: { checkpoint.first.0 ≤ tail.0 },
    pub ghost few_triples: { checkpoint.triples ≤ most_triples shape },
    pub ghost two_areas: { checkpoint.area < 2 },
    pub ghost no_newer: { checkpoint.number.0 ≤ number.0 },
}
