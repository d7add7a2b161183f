//! Both bodies of a call, over 10^5 operations that are drawn.
use crate::meetings::{Meeting, Meetings};
use crate::scripts::{Draws, Keys};
use crate::twins::{Twins, Ways, play};
use crate::wrongs::Wrong;
use fkv_base::{Fault, Shape};
use fkv_plane::Places;
use std::alloc::Global;
use std::process::Abort;
use std::test::Fail;

/// So many operations over each store.
const OPERATIONS: u64 = 12_500;

pub(crate) const SESSIONS: u64 = 3;

/// A store, by its bucket bits, page, frames, mutable pages, overflow buckets, and pages on the device; how many homes and how many keys
/// of each are drawn over it; and the number of the commit at which it begins.
type Scene = ([u64; 6], u64, u64, u64);

/// A roomy log; one bucket, with overflow buckets and with none; long chains; a log of which two pages lie in memory; more homes than slots;
/// and living stores, of one bucket and of long chains, whose versions pass those from which marks begin again.
const SCENES: [Scene; 8] = [
    ([3, 64, 8, 6, 8, 65_536], 40, 1, 0),
    ([0, 64, 8, 6, 8, 65_536], 45, 1, 0),
    ([0, 16, 4, 2, 0, 65_536], 9, 1, 0),
    ([1, 64, 8, 6, 2, 65_536], 2, 12, 0),
    ([1, 16, 2, 1, 2, 65_536], 20, 2, 0),
    ([2, 16, 8, 4, 4, 65_536], 60, 1, 0),
    ([0, 16, 4, 2, 1100, 65_600], 30, 2, 8184),
    ([2, 32, 4, 3, 1100, 65_600], 4, 10, 16374),
];

/// The shape of these sizes: of a specified store where one may have them, and else of a living one.
fn shape_of(sizes: [u64; 6]) -> Result<Shape, Fault> {
    let [bits, page, frames, mutable, overflow, pages] = sizes;
    match Shape::new(bits, page, frames, mutable, SESSIONS, overflow, pages) {
        Ok(shape) => Ok(shape),
        Err(_) => Shape::large(bits, page, frames, mutable, SESSIONS, overflow, pages),
    }
}

/// Plays the scene from this seed.
fn play_scene<R: Abort>(
    rt: &R,
    alloc: Global,
    scene: Scene,
    seed: u64,
    ways: &mut Ways,
) -> Result<(), Wrong> {
    let (sizes, homes, keys, number) = scene;
    let shape = shape_of(sizes)?;
    let drawn = Keys::of(Places::of(&shape).buckets, homes, keys);
    let mut draws = Draws::new(seed, drawn, SESSIONS);
    let mut twins = Twins::open(alloc, shape, number)?;
    play(rt, &mut twins, &mut draws, OPERATIONS, ways)
}

/// What operations meet that go straight to their end.
const STRAIGHT: [Meeting; 25] = [
    Meeting::Read,
    Meeting::Upsert,
    Meeting::Delete,
    Meeting::Add,
    Meeting::Max,
    Meeting::Keep,
    Meeting::Min,
    Meeting::Sub,
    Meeting::And,
    Meeting::Or,
    Meeting::First,
    Meeting::Rest,
    Meeting::Prepare,
    Meeting::InProgress,
    Meeting::WaitPending,
    Meeting::WaitFlush,
    Meeting::UpdateInPrepare,
    Meeting::FullBucket,
    Meeting::OverflowBucket,
    Meeting::LongChain,
    Meeting::ReadOnly,
    Meeting::OnDevice,
    Meeting::LostTail,
    Meeting::LostValue,
    Meeting::Occupied,
];

/// What few of them meet.
const STRAIGHT_AT_TIMES: [Meeting; 1] = [Meeting::Asks];

/// What those of them meet that are done in their hot part. In prepare none is.
const HOT: [Meeting; 18] = [
    Meeting::Read,
    Meeting::Upsert,
    Meeting::Delete,
    Meeting::Add,
    Meeting::Max,
    Meeting::Keep,
    Meeting::Min,
    Meeting::Sub,
    Meeting::And,
    Meeting::Or,
    Meeting::First,
    Meeting::Rest,
    Meeting::InProgress,
    Meeting::WaitPending,
    Meeting::WaitFlush,
    Meeting::FullBucket,
    Meeting::OverflowBucket,
    Meeting::LongChain,
];

/// What the others meet of which the machine goes on. In prepare these are new records, and updates that lost to another session.
const HANDED_OVER: [Meeting; 5] = [
    Meeting::UpdateInPrepare,
    Meeting::FullBucket,
    Meeting::LongChain,
    Meeting::OnDevice,
    Meeting::Waits,
];

/// What refreshes that go straight come to.
const REFRESHED: [Meeting; 5] = [
    Meeting::Rest,
    Meeting::Prepare,
    Meeting::InProgress,
    Meeting::WaitPending,
    Meeting::WaitFlush,
];

/// In what phases polls go straight to their end. In prepare few do, since an update shares a latch there, and wait-pending is short.
const POLLED: [Meeting; 3] = [Meeting::Rest, Meeting::InProgress, Meeting::WaitFlush];

/// What few of them meet, as they look into the mailbox.
const POLLED_AT_TIMES: [Meeting; 3] = [Meeting::NotReady, Meeting::Takes, Meeting::AsksOn];

/// What is met often is met more than so many times.
pub(crate) const OFTEN: u64 = 100;

/// What is met at times is met more than so many times.
pub(crate) const AT_TIMES: u64 = 10;

/// Each of these was met more often than so many times.
pub(crate) fn has_met(meetings: &Meetings, wanted: &[Meeting], times: u64) -> bool {
    for meeting in wanted {
        if meetings.of(*meeting) <= times {
            return false;
        }
    }
    true
}

#[test]
fn both_bodies_agree(rt: HostRuntime) -> Result<(), Fail> {
    let mut ways = Ways::new();
    for (seed, scene) in SCENES.iter().enumerate() {
        if let Err(wrong) = play_scene(&rt, rt.alloc(), *scene, seed as u64, &mut ways) {
            assert!(rt; false, "scene {seed}: {}", wrong.said());
        }
    }
    assert!(rt; ways.all() == 100_000);
    assert!(rt; has_met(&ways.straight, &STRAIGHT, OFTEN));
    assert!(rt; has_met(&ways.straight, &STRAIGHT_AT_TIMES, AT_TIMES));
    assert!(rt; has_met(&ways.hot, &HOT, OFTEN));
    assert!(rt; has_met(&ways.handed_over, &HANDED_OVER, OFTEN));
    assert!(rt; has_met(&ways.refreshed, &REFRESHED, OFTEN));
    assert!(rt; has_met(&ways.polled, &POLLED, OFTEN));
    assert!(rt; has_met(&ways.polled, &POLLED_AT_TIMES, AT_TIMES));
    assert!(rt; ways.polled_on.all > OFTEN);
    Ok(())
}
