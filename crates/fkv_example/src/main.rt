//! A store in memory, used as a library: two sessions, a commit, a crash, and what is left.
#![tactic(auto)]

use anyhow::Error;
use fkv_base::{CommitKind, Key, Shape, Value};
use fkv_core::{Actor, Event, Told, World};
use fkv_creating::create_opened;
use fkv_disk::{Device, Fuse, MemDisk};
use fkv_map::{Call, Op};
use fkv_opening::recover;
use fkv_pairs::content;
use fkv_session::Answer;
use std::io::{self, Write};
use std::process::ExitCode;

fn main(rt: HostRuntime) -> ExitCode {
    match play(&rt, &mut io::writer(&rt)) {
        Ok(()) => ExitCode::SUCCESS,
        Err(_) => ExitCode::FAILURE,
    }
}

fn play(rt: &HostRuntime, out: &mut impl Write) -> Result<(), Error> {
    let alloc = rt.alloc();
    // A living store: 2^4 buckets, pages of 16 records, 4 frames of which 2 are mutable, 2 sessions, no overflow bucket, 64 pages on the device
    let shape = Shape::large(4, 16, 4, 2, 2, 0, 64)?;
    let mut device = Fuse::new(MemDisk::new(alloc));
    let opened = create_opened(alloc, &mut device, shape)?;
    let mut store = World::open(alloc, opened, device)?;

    call(&mut store, 0, Call::Op(Op::Upsert(Key(7), Value(10))));
    call(&mut store, 1, Call::Op(Op::Add(Key(7), 5)));
    commit(&mut store);
    call(&mut store, 0, Call::Op(Op::Add(Key(7), 100)));
    if let Some(Answer::Durable(serial)) = call(&mut store, 0, Call::Durable) {
        writeln!(out, "session 0 is durable up to its update {}", serial.0)?;
    }

    let mut image = store.end().crash(0)?;
    let recovered = recover(alloc, &mut image)?;
    for (key, value) in &content(alloc, &recovered, &mut image)? {
        writeln!(out, "key {} has value {} after the crash", key.0, value.0)?;
    }
    Ok(())
}

/// Makes one call of a session, from its beginning to its answer.
fn call<D: Device>(store: &mut World<D>, session: usize, call: Call) -> Option<Answer> {
    let told = match store.step(Event::Call(session, call)) {
        Some(told) => Some(told),
        None => store.finish(Actor::Session(session)),
    };
    match told {
        Some(Told::Session(_, answer)) => Some(answer),
        _ => None,
    }
}

/// Commits: sessions refresh, and the keeper makes turns, until the commit is finished.
fn commit<D: Device>(store: &mut World<D>) {
    store.step(Event::Commit(CommitKind::Full));
    store.finish(Actor::Keeper);
    for _ in 0..64 {
        call(store, 0, Call::Refresh);
        call(store, 1, Call::Refresh);
        store.step(Event::Turn);
        if let Some(Told::Turn(Ok(turn))) = store.finish(Actor::Keeper) {
            if turn.finished.is_some() {
                return;
            }
        }
    }
}
