//! Scenes of `commits` in which the keeper goes step by step: memory that is asked for before the step that needs it, and calls of the
//! device that a caller makes himself.
use crate::commits::{
    FIRST_ENTRY, FIRST_HEADER, SmallStore, WAIT_PENDING, append, begins, commit, is_in, sees,
    store_own, turned, turns_to,
};
use fkv_base::{CommitKind, Fault};
use fkv_disk::{Device, DeviceAsk, MemDisk};
use fkv_keeper::KeeperTold;
use fkv_plane::{Ask, SessionWord};
use std::process::Abort;

/// More steps than a turn has here.
const MANY: usize = 512;

/// A turn whose steps ask for memory first, which is refused unless it's granted: what it comes to, and before how many steps some was got.
fn turn_by_steps(
    own: &mut SmallStore,
    disk: &mut MemDisk,
    granted: bool,
) -> (Ask<KeeperTold>, usize) {
    sees(&mut own.plane);
    let mut got = 0usize;
    let mut ask = own.keeper.begin_turn();
    for _ in 0..MANY {
        let room = if granted { own.keeper.room() } else { None };
        got = got.saturating_add(usize::from(room.is_some()));
        ask = match ask {
            Ask::Done(KeeperTold::Device) => {
                let _ = own.keeper.call_device(disk);
                own.keeper.ask()
            }
            Ask::Done(_) => return (ask, got),
            Ask::Put(slot, action) => {
                let _ = own.plane.put(slot, action);
                own.keeper.go_on_with(0, room, false)
            }
            Ask::Take(slot) => match own.plane.take(slot) {
                Some(action) => own.keeper.take(action),
                None => return (ask, got),
            },
            word => {
                let reply = own.plane.perform(&word);
                own.keeper.go_on_with(reply, room, false)
            }
        };
    }
    (ask, got)
}

/// The turn is made, and got memory before so many steps.
fn is_made(rt: &impl Abort, own: &mut SmallStore, disk: &mut MemDisk, rooms: usize) {
    let (ended, got) = turn_by_steps(own, disk, true);
    assert!(rt; matches!(ended, Ask::Done(KeeperTold::Turned(false, false))));
    assert_eq!(rt; got, rooms);
}

/// The turn is refused, since no memory is granted.
fn is_refused(rt: &impl Abort, own: &mut SmallStore, disk: &mut MemDisk) {
    let (ended, _) = turn_by_steps(own, disk, false);
    assert!(rt; matches!(ended, Ask::Done(KeeperTold::TurnRefused(Fault::Memory))));
}

/// A turn that leads to no copy needs no memory. The one that begins the copy asks for it before the phase is loaded, and is refused
/// where there is none; the next one asks again.
pub(crate) fn memory_is_asked_for_first(rt: &impl Abort, own: &mut SmallStore, disk: &mut MemDisk) {
    append(&mut own.plane, FIRST_HEADER, 10);
    begins(rt, own, disk, CommitKind::Full, 1);
    is_made(rt, own, disk, 0);
    store_own(&mut own.plane, SessionWord::OddCut, FIRST_ENTRY);
    is_refused(rt, own, disk);
    is_made(rt, own, disk, 1);
    is_in(rt, own, WAIT_PENDING);
    turns_to(rt, own, disk, &turned(), 0);
}

/// Makes the call of the device that the keeper's next step makes: whether there is one, and it succeeded.
fn make_call(own: &SmallStore, disk: &mut MemDisk, read: &mut [u8; 24]) -> bool {
    match own.keeper.device_ask() {
        Some(DeviceAsk::Write(at, bytes)) => disk.write(at, bytes).is_ok(),
        Some(DeviceAsk::Sync) => disk.sync().is_ok(),
        Some(DeviceAsk::Read(at, 24)) => disk.read(at, read).is_ok(),
        _ => false,
    }
}

/// A turn in which each call that the keeper tells is made of a second device too: whether each was, and what was read last.
fn turn_told(
    rt: &impl Abort,
    own: &mut SmallStore,
    disk: &mut MemDisk,
    second: &mut MemDisk,
) -> [u8; 24] {
    sees(&mut own.plane);
    let mut read = [0; 24];
    let mut ask = own.keeper.begin_turn();
    for _ in 0..MANY {
        ask = match ask {
            Ask::Done(KeeperTold::Device) => {
                assert!(rt; make_call(own, second, &mut read));
                let _ = own.keeper.call_device(disk);
                own.keeper.ask()
            }
            Ask::Done(_) => return read,
            Ask::Put(slot, action) => {
                let _ = own.plane.put(slot, action);
                own.keeper.go_on(0)
            }
            Ask::Take(slot) => match own.plane.take(slot) {
                Some(action) => own.keeper.take(action),
                None => return read,
            },
            word => {
                assert!(rt; own.keeper.device_ask().is_none());
                let reply = own.plane.perform(&word);
                own.keeper.go_on(reply)
            }
        };
    }
    read
}

/// Turns of the first commit that are told: then both devices hold the same.
fn writes_are_told(
    rt: &impl Abort,
    own: &mut SmallStore,
    disk: &mut MemDisk,
    second: &mut MemDisk,
) {
    append(&mut own.plane, FIRST_HEADER, 10);
    commit(own, disk, CommitKind::Full);
    for _ in 0..4 {
        store_own(&mut own.plane, SessionWord::OddCut, FIRST_ENTRY);
        turn_told(rt, own, disk, second);
    }
    is_in(rt, own, 2);
    assert!(rt; disk.bytes() == second.bytes());
}

/// What is read of the second device is what is put into the mailbox.
fn a_read_is_told(rt: &impl Abort, own: &mut SmallStore, disk: &mut MemDisk, second: &mut MemDisk) {
    store_own(&mut own.plane, SessionWord::MailAddress, 1);
    store_own(&mut own.plane, SessionWord::MailState, 1);
    let read = turn_told(rt, own, disk, second);
    assert_eq!(rt; own.plane.word(SessionWord::MailValue.place(0)), 10);
    assert_eq!(rt; read[16], 10);
}

/// A device to which each call is made that the keeper tells holds what the keeper's own device does, and what is read of it is put
/// into the mailbox.
pub(crate) fn the_call_that_is_told_is_made(
    rt: &impl Abort,
    own: &mut SmallStore,
    disk: &mut MemDisk,
    second: &mut MemDisk,
) {
    writes_are_told(rt, own, disk, second);
    a_read_is_told(rt, own, disk, second);
}
