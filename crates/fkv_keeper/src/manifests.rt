//! The slot that a commit writes.
ghost use Rattle.std.specs.Prelude.{◌≡◌, ◌<◌, ◌≤◌, length, Some};
ghost use Rattle.fkv_base.specs.Limits.{max_sessions};
ghost use Rattle.fkv_keeper.specs.LastCommits.{lost_written, point_written, points_written, slot_place, slot_written};

use crate::last_commits::Checkpoint;
use arrayvec::ArrayVec;
use fkv_base::{Addr, Serial, Version};
use fkv_record::{
    LostRange, LostRanges, MAX_LOST, ManifestSlot, Points, SLOT_PLACES, write_newest_slot,
};

/// The bytes of the slot of a commit, as one is written.
pub(crate) fn slot_written(
    sessions: u64,
    number: Version,
    begin: Addr,
    end: Addr,
    checkpoint: &Checkpoint,
    points: &[Serial],
    lost: &[LostRange],
) -> [u8; 512]
    requires some_session { 0 < sessions }
    requires few_sessions { sessions ≤ max_sessions }
    ensures { result ≡ slot_written sessions number begin end checkpoint.now points.now lost.now }
{
    let points = points_written(sessions, points);
    let lost = lost_written(lost);
    let (number, begin, end) = (number.0, begin.0, end.0);
    let (maker, first, triples) = (checkpoint.number.0, checkpoint.first.0, checkpoint.triples);
    let slot = ManifestSlot {
        number,
        first: Addr(first),
        end: Addr(end),
        triples,
        area: checkpoint.area.number(),
        points,
        checkpoint: maker,
        lost,
        begin: Addr(begin),
    };
    write_newest_slot(&slot)
}

/// A point for each session.
#[tactic(auto, using(crate::proofs::PointsWritten::one_more))]
fn points_written(sessions: u64, points: &[Serial]) -> Points
    requires some_session { 0 < sessions }
    requires few_sessions { sessions ≤ max_sessions }
    ensures { result.serials.items ≡ points_written sessions points.now }
{
    let mut serials = ArrayVec::new();
    for session in 0..sessions as usize {
        serials.push(point_written(points, session));
    }
    Points { serials }
}

/// The point of a session, within the limit of serials; 0 where it has none.
fn point_written(points: &[Serial], session: usize) -> Serial
    ensures { result ≡ point_written points.now session }
{
    match points.get(session) {
        Some(point) => Serial(point.0.min(Serial::LAST)),
        None => Serial(0),
    }
}

/// The ranges that a slot has a place for.
fn lost_written(lost: &[LostRange]) -> LostRanges
    ensures { result.ranges.items ≡ lost_written lost.now }
{
    let mut ranges = ArrayVec::new();
    let count = lost.len().min(MAX_LOST);
    let _ = ranges.try_extend_from_slice(&lost[..count]);
    LostRanges { ranges }
}

/// Where the slot of a commit of this number lies.
pub(crate) fn slot_place(number: Version) -> u64
    ensures { result ≡ slot_place number }
{
    SLOT_PLACES[(number.0 % 2) as usize]
}
