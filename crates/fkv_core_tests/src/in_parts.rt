//! A full commit of a store with more than 1,024 buckets: its index is copied in several turns, and a read of the device is served between.
use crate::lines::Line::{Commit, Get, Poll, Refresh, Turn, Up};
use crate::stores::{Store, hold, opened_store, play, whole};
use fkv_base::{Fault, Shape, Value};
use fkv_core::{Event, Told};
use fkv_session::{Answer, Finished};
use std::alloc::Global;
use std::process::Abort;
use std::test::Fail;

/// What 1,024 buckets are asked for.
const PART: u64 = 8 * 1024;

/// What a turn makes beside its part of the copy, at most.
const BESIDE: u64 = 64;

/// 4,096 buckets, and two pages of four records in memory.
fn parted_store(alloc: Global) -> Result<Store, Fault> {
    opened_store(alloc, Shape::large(12, 4, 2, 1, 1, 0, 64)?)
}

/// Key 0 has 7, by a record that is in memory no more. A full commit is begun.
fn begin(store: &mut Store) {
    for key in 0..12 {
        play(
            store,
            &[Up(0, key, key + 7), Refresh(0), Turn, Refresh(0), Turn],
        );
    }
    play(store, &[Commit, Refresh(0), Turn, Refresh(0)]);
}

/// A turn: how many steps it makes, and what it tells.
fn turn(store: &mut Store) -> (u64, Option<Told>) {
    let _ = store.step(Event::Turn);
    for steps in 1..2 * PART {
        let told = store.step(Event::KeeperMove);
        if told.is_some() {
            return (steps, told);
        }
    }
    (2 * PART, None)
}

/// Whether a poll finishes the one read that waits, with what key 0 has.
fn is_served(store: &mut Store) -> bool {
    match whole(store, Poll(0)) {
        Some(Told::Session(0, Answer::Polled(finished, 0))) => {
            matches!(finished.as_slice(), [Finished::Read(_, Some(Value(7)))])
        }
        _ => false,
    }
}

/// Whether this turn has finished a commit.
fn has_finished(told: Option<Told>) -> bool {
    matches!(told, Some(Told::Turn(Ok(turn))) if turn.finished.is_some())
}

/// Up to the turn that finishes the commit each one serves a read that was begun before it. Four of them copy a part of the index, and the last
/// ones go on with writes that rest.
fn goes(rt: &impl Abort, store: &mut Store) {
    let mut parts: u32 = 0;
    for _ in 0..16 {
        let _ = whole(store, Get(0, 0));
        let (steps, told) = turn(store);
        hold!(rt; steps <= PART + BESIDE);
        hold!(rt; is_served(store));
        if steps >= PART {
            parts = parts.saturating_add(1);
        }
        if has_finished(told) {
            hold!(rt; parts == 4);
            return;
        }
        play(store, &[Refresh(0)]);
    }
    hold!(rt; false);
}

#[test]
fn an_index_is_copied_in_parts(rt: HostRuntime) -> Result<(), Fail> {
    let mut store = parted_store(rt.alloc())?;
    begin(&mut store);
    goes(&rt, &mut store);
    let _ = store.end();
    Ok(())
}
