//! Crashes behind each turn of a commit, in a store whose commits rest before each sync and in one whose commits don't.
use crate::lines::Line::{Commit, Finish, Get, LogCommit, Poll, Refresh, Turn, Up};
use crate::lines::{Line, turned};
use crate::stores::{Store, crash, hold, opened_store, play, store_of, whole};
use fkv_base::{Fault, Shape, Value};
use fkv_core::Told;
use fkv_session::{Answer, Finished};
use std::alloc::Global;
use std::process::Abort;
use std::test::Fail;

/// More turns than a commit has here.
const MANY: u64 = 16;

/// A byte that a torn write may leave, which is that of an open gate, and another.
const TORN: [u8; 2] = [165, 0];

/// A store of one session, of either class.
fn small_store(alloc: Global, is_living: bool) -> Result<Store, Fault> {
    let shape = if is_living {
        Shape::large(4, 16, 4, 2, 1, 0, 64)?
    } else {
        Shape::new(4, 16, 4, 2, 1, 0, 64)?
    };
    opened_store(alloc, shape)
}

/// The store behind a finished commit of key 1 with 10, and behind so many turns of a commit of it with 11. Whether that is finished.
fn behind_turns(
    alloc: Global,
    is_living: bool,
    begins: Line,
    turns: u64,
) -> Result<(Store, bool), Fault> {
    let mut store = small_store(alloc, is_living)?;
    play(
        &mut store,
        &[Up(0, 1, 10), Commit, Finish, Up(0, 1, 11), begins],
    );
    let mut is_over = false;
    for _ in 0..turns {
        play(&mut store, &[Refresh(0)]);
        is_over = whole(&mut store, Turn) != turned(None);
    }
    Ok((store, is_over))
}

/// How many turns the commit has.
fn turns_of(alloc: Global, is_living: bool, begins: Line) -> Result<u64, Fault> {
    for turns in 0..MANY {
        let (mut store, is_over) = behind_turns(alloc, is_living, begins, turns)?;
        let _ = store.end();
        if is_over {
            return Ok(turns);
        }
    }
    Ok(MANY)
}

/// What key 1 has, by a read that waits for a turn if the record is in the file alone.
fn read(store: &mut Store) -> Option<u64> {
    if let Some(Told::Session(0, Answer::Found(Value(value)))) = whole(store, Get(0, 1)) {
        return Some(value);
    }
    let _ = whole(store, Turn);
    match whole(store, Poll(0)) {
        Some(Told::Session(0, Answer::Polled(finished, 0))) => match finished.as_slice() {
            [Finished::Read(_, Some(Value(value)))] => Some(*value),
            _ => None,
        },
        _ => None,
    }
}

/// What key 1 has behind a crash there.
fn recovered(
    alloc: Global,
    is_living: bool,
    begins: Line,
    turns: u64,
    torn: u8,
) -> Result<Option<u64>, Fault> {
    let (store, _) = behind_turns(alloc, is_living, begins, turns)?;
    let mut store = store_of(alloc, crash(store, torn)?)?;
    let value = read(&mut store);
    let _ = store.end();
    Ok(value)
}

/// Behind each turn a crash leaves the old commit, and behind the last one the new one. Where the gate was opened, and its sync isn't made yet, it leaves
/// either: the new one where the byte that is torn is that of an open gate.
fn crashes_leave_a_commit(
    rt: &impl Abort,
    alloc: Global,
    is_living: bool,
    begins: Line,
    last: u64,
) -> Result<(), Fault> {
    for turns in 0..last {
        for torn in TORN {
            let value = recovered(alloc, is_living, begins, turns, torn)?;
            let is_new = is_living && turns + 1 == last && torn == 165;
            hold!(rt; value == Some(if is_new { 11 } else { 10 }));
        }
    }
    for torn in TORN {
        let value = recovered(alloc, is_living, begins, last, torn)?;
        hold!(rt; value == Some(11));
    }
    Ok(())
}

/// A commit of this kind has so many more turns where it rests.
fn rests(rt: &impl Abort, alloc: Global, begins: Line, more: u64) -> Result<(), Fault> {
    let specified = turns_of(alloc, false, begins)?;
    let living = turns_of(alloc, true, begins)?;
    hold!(rt; living.checked_sub(specified) == Some(more));
    crashes_leave_a_commit(rt, alloc, false, begins, specified)?;
    crashes_leave_a_commit(rt, alloc, true, begins, living)
}

/// The gate of the second commit's slot stands open. So a full commit rests before four syncs of its own writes, and a log commit before three: it has no
/// triples. And its flush rests before one.
#[test]
fn a_commit_rests_before_each_sync(rt: HostRuntime) -> Result<(), Fail> {
    rests(&rt, rt.alloc(), Commit, 5)?;
    rests(&rt, rt.alloc(), LogCommit, 4)?;
    Ok(())
}
