//! Both bodies of a call over records that were last updated 8,191 commits ago: they have the mark of the session's own version.
use crate::bodies::{AT_TIMES, OFTEN, SESSIONS, has_met};
use crate::meetings::Meeting;
use crate::scripts::{Draws, Event, Keys};
use crate::twins::{Twins, Ways, play};
use crate::wrongs::Wrong;
use fkv_base::{CommitKind, Shape, Version};
use fkv_map::Call;
use fkv_plane::Places;
use std::alloc::Global;
use std::process::Abort;
use std::test::Fail;

/// The commits at which stores begin: the next version has mark 8191, and the one behind it mark 1 again.
const NUMBERS: [u64; 2] = [8190, 24572];

/// So many commits of each store, and so many operations behind the begin of each.
const COMMITS: usize = 6;

const OPERATIONS: u64 = 120;

/// So many keys, each with a home of its own.
const KEYS: u64 = 150;

/// More rounds than a commit takes.
const MOST_ROUNDS: usize = 200;

/// Each session makes this call.
fn all_call<R: Abort>(rt: &R, twins: &mut Twins, call: Call, ways: &mut Ways) -> Result<(), Wrong> {
    for session in 0..SESSIONS as usize {
        twins.play(rt, Event::Call(session, call, None), ways)?;
    }
    Ok(())
}

/// Finishes the commit that runs, if one does. Gives the version in which all rest then.
fn settle<R: Abort>(rt: &R, twins: &mut Twins, ways: &mut Ways) -> Result<Version, Wrong> {
    for _ in 0..MOST_ROUNDS {
        all_call(rt, twins, Call::Wake, ways)?;
        all_call(rt, twins, Call::Refresh, ways)?;
        all_call(rt, twins, Call::Poll, ways)?;
        if let Some(version) = twins.rests() {
            return Ok(version);
        }
        twins.play(rt, Event::Turn(u64::MAX), ways)?;
    }
    Err(Wrong::Endless)
}

/// The keeper begins a commit, and all sessions go on to the next version. In that all records which the commits before have left are aged.
fn enter<R: Abort>(rt: &R, twins: &mut Twins, ways: &mut Ways) -> Result<(), Wrong> {
    let version = settle(rt, twins, ways)?;
    twins.age(Version(version.0.wrapping_add(1)));
    twins.play(rt, Event::Commit(CommitKind::Log), ways)?;
    all_call(rt, twins, Call::Refresh, ways)?;
    twins.play(rt, Event::Turn(u64::MAX), ways)?;
    all_call(rt, twins, Call::Refresh, ways)
}

/// Plays operations over stores that begin at this commit.
fn play_aged<R: Abort>(
    rt: &R,
    alloc: Global,
    number: u64,
    seed: u64,
    ways: &mut Ways,
) -> Result<(), Wrong> {
    let shape = Shape::large(4, 64, 8, 2, SESSIONS, 256, 1024)?;
    let mut twins = Twins::open(alloc, shape, number)?;
    let drawn = Keys::of(Places::of(&shape).buckets, KEYS, 1);
    let mut draws = Draws::new(seed, drawn, SESSIONS);
    for _ in 0..COMMITS {
        play(rt, &mut twins, &mut draws, OPERATIONS, ways)?;
        enter(rt, &mut twins, ways)?;
    }
    play(rt, &mut twins, &mut draws, OPERATIONS, ways)
}

/// What calls meet that go straight: at rest the copy needs no latch.
const STRAIGHT: [Meeting; 1] = [Meeting::Alike];

/// What the others meet, of which the machine goes on.
const HANDED_OVER: [Meeting; 1] = [Meeting::AlikeAlone];

#[test]
fn both_bodies_agree_where_marks_are_alike(rt: HostRuntime) -> Result<(), Fail> {
    let mut ways = Ways::new();
    for (seed, number) in NUMBERS.iter().enumerate() {
        if let Err(wrong) = play_aged(&rt, rt.alloc(), *number, seed as u64, &mut ways) {
            assert!(rt; false, "from commit {number}: {}", wrong.said());
        }
    }
    assert!(rt; has_met(&ways.straight, &STRAIGHT, OFTEN));
    assert!(rt; has_met(&ways.handed_over, &HANDED_OVER, AT_TIMES));
    Ok(())
}
