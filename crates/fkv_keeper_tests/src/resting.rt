//! Turns that only serve: a living store's commit rests before each sync of its writes, and so does its flush.
use crate::commits::{
    FIRST_ENTRY, FIRST_HEADER, SECOND_CUT, SECOND_HEADER, SmallStore, append, begins, commit,
    created_disk, holds_first, holds_second, is_durable, is_in, living_store, new_store, phase,
    phases_pass, sees, store_own, turned, turned_finished, turns_to,
};
use fkv_base::{CommitKind, Fault};
use fkv_disk::{Device, MemDisk};
use fkv_keeper::{KeeperAsk, KeeperTold};
use fkv_plane::{Ask, SessionWord, SharedWord};
use std::process::Abort;
use std::test::Fail;

/// More steps than a turn has here.
const MANY: usize = 512;

/// A turn that goes on with no writes that rest: what it comes to, and how many calls of the device it makes.
fn serves<D: Device>(own: &mut SmallStore, disk: &mut D) -> (Ask<KeeperTold>, u8) {
    sees(&mut own.plane);
    let mut calls = 0u8;
    let mut ask = own.keeper.begin_turn();
    for _ in 0..MANY {
        ask = match ask {
            Ask::Done(KeeperTold::Device) => {
                calls = calls.saturating_add(1);
                let _ = own.keeper.call_device(disk);
                own.keeper.ask()
            }
            Ask::Done(_) => return (ask, calls),
            Ask::Put(slot, action) => {
                let _ = own.plane.put(slot, action);
                own.keeper.go_on_with(0, None, false)
            }
            Ask::Take(slot) => match own.plane.take(slot) {
                Some(action) => own.keeper.take(action),
                None => return (ask, calls),
            },
            word => {
                let reply = own.plane.perform(&word);
                let room = own.keeper.room();
                own.keeper.go_on_with(reply, room, false)
            }
        };
    }
    (ask, calls)
}

/// Such a turn ends with so many calls of the device, and the writes rest still.
fn rests_on(rt: &impl Abort, own: &mut SmallStore, disk: &mut MemDisk, calls: u8) {
    let (ended, made) = serves(own, disk);
    assert!(rt; matches!(ended, Ask::Done(KeeperTold::Turned(false, false))));
    assert_eq!(rt; made, calls);
    assert!(rt; own.keeper.rests());
}

/// A record is asked for, and is in the mailbox behind the turn, which makes one call of the device.
fn a_read_is_served(rt: &impl Abort, own: &mut SmallStore, disk: &mut MemDisk) {
    store_own(&mut own.plane, SessionWord::MailValue, 0);
    store_own(&mut own.plane, SessionWord::MailAddress, 1);
    store_own(&mut own.plane, SessionWord::MailState, 1);
    rests_on(rt, own, disk, 1);
    assert_eq!(rt; own.plane.word(SessionWord::MailState.place(0)), 2);
    assert_eq!(rt; own.plane.word(SessionWord::MailValue.place(0)), 10);
    store_own(&mut own.plane, SessionWord::MailState, 0);
}

/// While the writes rest, turns serve mailboxes and make no other call, the device holds what it held, and no other commit begins.
fn only_serves(rt: &impl Abort, own: &mut SmallStore, disk: &mut MemDisk) {
    let stands = phase(own);
    assert!(rt; own.keeper.rests());
    rests_on(rt, own, disk, 0);
    a_read_is_served(rt, own, disk);
    rests_on(rt, own, disk, 0);
    assert!(rt; commit(own, disk, CommitKind::Full) == KeeperAsk::Begun(Err(Fault::CommitRunning)));
    assert!(rt; own.keeper.rests());
    is_in(rt, own, stands);
}

/// The turn goes on with the writes, by so many calls, up to the next sync.
fn goes_on(rt: &impl Abort, own: &mut SmallStore, disk: &mut MemDisk, calls: u8) {
    turns_to(rt, own, disk, &turned(), calls);
    only_serves(rt, own, disk);
}

/// So far the log is flushed.
fn is_flushed(rt: &impl Abort, own: &SmallStore, wanted: u64) {
    assert_eq!(rt; own.plane.word(SharedWord::Flushed.place()), wanted);
}

/// A turn writes what is flushed, and ends before the sync. Turns that aren't let go on serve mailboxes, and tell nothing as flushed. Behind the
/// one that is, a turn may sync.
fn the_flush_rests(rt: &impl Abort, own: &mut SmallStore, disk: &mut MemDisk) {
    rests_on(rt, own, disk, 1);
    rests_on(rt, own, disk, 0);
    a_read_is_served(rt, own, disk);
    rests_on(rt, own, disk, 0);
    turns_to(rt, own, disk, &turned(), 0);
    assert!(rt; !own.keeper.rests());
    is_flushed(rt, own, 1);
}

/// The first commit flushes by a write and a sync, writes its triples, and rests before four syncs. The calls are those of a specified
/// store's one turn: eight.
fn the_first_commit_rests(rt: &impl Abort, own: &mut SmallStore, disk: &mut MemDisk) {
    phases_pass(rt, own, disk);
    assert!(rt; !own.keeper.rests());
    the_flush_rests(rt, own, disk);
    for _ in 0..3 {
        goes_on(rt, own, disk, 2);
    }
    is_flushed(rt, own, 2);
    is_durable(rt, own, 0);
    turns_to(rt, own, disk, &turned_finished(1, 1), 1);
    is_durable(rt, own, 1);
    assert!(rt; !own.keeper.rests());
}

/// The gate of the second commit's slot stands open, so it rests four times, and once for the flush, over ten calls.
fn the_second_commit_rests(rt: &impl Abort, own: &mut SmallStore, disk: &mut MemDisk) {
    append(&mut own.plane, SECOND_HEADER, 11);
    begins(rt, own, disk, CommitKind::Full, 2);
    store_own(&mut own.plane, SessionWord::EvenCut, SECOND_CUT);
    for _ in 0..3 {
        turns_to(rt, own, disk, &turned(), 0);
    }
    turns_to(rt, own, disk, &turned(), 1);
    for _ in 0..4 {
        goes_on(rt, own, disk, 2);
    }
    turns_to(rt, own, disk, &turned_finished(2, 2), 1);
    assert!(rt; !own.keeper.rests());
}

/// Whatever turns lie between, the commits of a living store leave the bytes that those of a specified one leave.
#[test]
fn a_living_commit_rests(rt: HostRuntime) -> Result<(), Fail> {
    let mut own = living_store(rt.alloc())?;
    let mut disk = created_disk(rt.alloc())?;
    the_first_commit_rests(&rt, &mut own, &mut disk);
    holds_first(&rt, rt.alloc(), &disk)?;
    the_second_commit_rests(&rt, &mut own, &mut disk);
    holds_second(&rt, rt.alloc(), &disk)?;
    Ok(())
}

/// A log commit writes no triples, and its first sync needs no rest: it rests before the body's sync, and before the open gate's. Before that the
/// flush rests.
#[test]
fn a_log_commit_rests(rt: HostRuntime) -> Result<(), Fail> {
    let mut own = living_store(rt.alloc())?;
    let mut disk = created_disk(rt.alloc())?;
    append(&mut own.plane, FIRST_HEADER, 10);
    begins(&rt, &mut own, &mut disk, CommitKind::Log, 1);
    store_own(&mut own.plane, SessionWord::OddCut, FIRST_ENTRY);
    for _ in 0..2 {
        turns_to(&rt, &mut own, &mut disk, &turned(), 0);
    }
    turns_to(&rt, &mut own, &mut disk, &turned(), 1);
    for calls in [3, 2] {
        goes_on(&rt, &mut own, &mut disk, calls);
    }
    turns_to(&rt, &mut own, &mut disk, &turned_finished(1, 1), 1);
    assert!(&rt; !own.keeper.rests());
    Ok(())
}

/// A commit may begin while a flush rests, and leaves it at rest. The turn behind the one that is let go on tells what is flushed.
#[test]
fn a_commit_begins_beside_a_flush(rt: HostRuntime) -> Result<(), Fail> {
    let mut own = living_store(rt.alloc())?;
    let mut disk = created_disk(rt.alloc())?;
    for value in 10..17 {
        append(&mut own.plane, FIRST_HEADER, value);
    }
    for _ in 0..8 {
        if !own.keeper.rests() {
            let _ = serves(&mut own, &mut disk);
        }
    }
    rests_on(&rt, &mut own, &mut disk, 0);
    begins(&rt, &mut own, &mut disk, CommitKind::Log, 1);
    rests_on(&rt, &mut own, &mut disk, 0);
    is_flushed(&rt, &own, 1);
    turns_to(&rt, &mut own, &mut disk, &turned(), 0);
    turns_to(&rt, &mut own, &mut disk, &turned(), 1);
    assert!(&rt; !own.keeper.rests());
    is_flushed(&rt, &own, 8);
    Ok(())
}

/// A specified store's commit never rests: its writes are made in one turn, also where that is told not to go on.
#[test]
fn a_specified_commit_rests_never(rt: HostRuntime) -> Result<(), Fail> {
    let mut own = new_store(rt.alloc())?;
    let mut disk = created_disk(rt.alloc())?;
    phases_pass(&rt, &mut own, &mut disk);
    let (ended, calls) = serves(&mut own, &mut disk);
    assert!(&rt; matches!(ended, Ask::Done(KeeperTold::Turned(true, false))));
    assert_eq!(&rt; calls, 8);
    assert!(&rt; !own.keeper.rests());
    Ok(())
}
