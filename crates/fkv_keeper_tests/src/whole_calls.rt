//! Whole calls of the keeper over plain words and a device in memory, in the small store of `commits`. What the slots of several commits
//! say stands in the rows of the built program (tools/rows/lives.py).
use crate::commits::{
    FIRST_ENTRY, FIRST_HEADER, SmallStore, append, created_disk, durable, finished, new_store,
    sees, store_own,
};
use fkv_base::{CommitKind, Fault, Version};
use fkv_disk::MemDisk;
use fkv_keeper::Turn;
use fkv_plane::SessionWord;
use std::process::Abort;
use std::test::Fail;

/// The session refreshes, and the keeper makes a turn.
fn turn(own: &mut SmallStore, disk: &mut MemDisk) -> Result<Turn, Fault> {
    sees(&mut own.plane);
    own.keeper.turn(&mut own.plane, disk)
}

/// Turns up to the one that finishes a commit.
fn to_the_finish(own: &mut SmallStore, disk: &mut MemDisk) -> Result<Turn, Fault> {
    for _ in 0..8 {
        let made = turn(own, disk)?;
        if made.finished.is_some() {
            return Ok(made);
        }
    }
    Err(Fault::CommitRunning)
}

/// A commit begins by one call, and no other one while it runs.
fn begins(rt: &impl Abort, own: &mut SmallStore) {
    append(&mut own.plane, FIRST_HEADER, 10);
    let asked = own.keeper.ask_commit(&mut own.plane, CommitKind::Full);
    assert!(rt; asked == Ok(Version(1)));
    let again = own.keeper.ask_commit(&mut own.plane, CommitKind::Full);
    assert!(rt; again == Err(Fault::CommitRunning));
}

/// It goes by one call for each turn.
fn ends(rt: &impl Abort, own: &mut SmallStore, disk: &mut MemDisk) {
    store_own(&mut own.plane, SessionWord::OddCut, FIRST_ENTRY);
    let wanted = Turn {
        finished: finished(1, 1),
        drain_full: false,
    };
    assert!(rt; to_the_finish(own, disk) == Ok(wanted));
    assert_eq!(rt; durable(own), 1);
}

#[test]
fn a_commit_is_made_by_whole_calls(rt: HostRuntime) -> Result<(), Fail> {
    let mut own = new_store(rt.alloc())?;
    let mut disk = created_disk(rt.alloc())?;
    begins(&rt, &mut own);
    ends(&rt, &mut own, &mut disk);
    Ok(())
}
