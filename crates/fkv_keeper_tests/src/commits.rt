//! Commits by hand over plain words and a device in memory, whose bytes are compared with images written by hand. The log is a ring
//! of two frames of four records each, on a device of eight pages; there is one bucket and one session.
use crate::stepwise::{memory_is_asked_for_first, the_call_that_is_told_is_made};
use arrayvec::ArrayVec;
use fkv_base::{Addr, CommitKind, DRAIN_SLOTS, Fault, LAST_EPOCH, Serial, Shape, Version};
use fkv_disk::{Device, MemDisk};
use fkv_keeper::{
    Area, Checkpoint, Finished, Keeper, KeeperAsk, LastCommit, MAX_LOST_IN_HAND, Turn,
};
use fkv_plane::{Ask, Places, PlainWords, SessionWord, SharedWord, drain_place};
use fkv_record::LostRange;
use std::alloc::Global;
use std::process::Abort;
use std::test::Fail;

/// The word of version 1 and of prepare.
pub(crate) const PREPARE: u64 = 65537;

/// The word of version 2 and of in-progress.
const IN_PROGRESS: u64 = 131074;

/// That of wait-pending.
pub(crate) const WAIT_PENDING: u64 = 196610;

/// That of wait-flush.
const WAIT_FLUSH: u64 = 262146;

/// The header of a record of version 1 that is the first of its home.
pub(crate) const FIRST_HEADER: u64 = 281474976710656;

/// The header of a record of version 2 behind the first one, and the cut of the session at its serial 2 in commit 2.
pub(crate) const SECOND_HEADER: u64 = 562949953421313;

pub(crate) const SECOND_CUT: u64 = 562949953421314;

/// The entry of key 1 whose newest record is the first; those of later records are as much greater as their addresses.
pub(crate) const FIRST_ENTRY: u64 = 281474976710657;

/// What a new store's image holds: the shape, and the open slot of commit 0.
pub(crate) const CREATED: [(usize, u8); 18] = [
    (0, 70),
    (1, 75),
    (2, 86),
    (3, 83),
    (4, 84),
    (5, 79),
    (6, 82),
    (7, 49),
    (16, 4),
    (24, 2),
    (32, 1),
    (40, 1),
    (56, 8),
    (512, 165),
    (528, 1),
    (536, 1),
    (560, 1),
    (1016, 3),
];

/// What commit 1 adds: its triple in the second area, its slot behind the open gate, and the record at address 1.
const FIRST_COMMIT: [(usize, u8); 15] = [
    (1652, 1),
    (1656, 1),
    (1024, 165),
    (1032, 1),
    (1040, 2),
    (1048, 2),
    (1056, 1),
    (1064, 1),
    (1072, 1),
    (1080, 1),
    (1336, 1),
    (1528, 3),
    (1790, 1),
    (1792, 1),
    (1800, 10),
];

/// What commit 2 adds: its triple in the first area, its slot in place of that of commit 0, and the record at address 2.
const SECOND_COMMIT: [(usize, u8); 15] = [
    (1540, 1),
    (1544, 2),
    (512, 165),
    (520, 2),
    (528, 3),
    (536, 3),
    (544, 1),
    (560, 1),
    (568, 2),
    (824, 2),
    (1016, 3),
    (1808, 1),
    (1814, 2),
    (1816, 1),
    (1824, 11),
];

/// What log commit 2 adds over a store that was opened behind address 4: its slot, which names the checkpoint of commit 1 and one
/// lost range up to address 5, and the record at address 5.
const LOG_COMMIT: [(usize, u8); 17] = [
    (512, 165),
    (520, 2),
    (528, 2),
    (536, 6),
    (544, 1),
    (552, 1),
    (560, 1),
    (568, 2),
    (824, 1),
    (832, 1),
    (840, 5),
    (848, 2),
    (1016, 3),
    (1880, 1),
    (1886, 2),
    (1888, 1),
    (1896, 12),
];

/// A store in memory.
#[derive(Drop)]
pub(crate) struct SmallStore {
    pub(crate) plane: PlainWords,
    pub(crate) keeper: Keeper,
}

fn small_shape() -> Result<Shape, Fault> {
    Shape::new(0, 4, 2, 1, 1, 0, 8)
}

fn store(plane: &mut PlainWords, word: SharedWord, number: u64) {
    plane.perform::<()>(&Ask::Store(word.place(), number));
}

pub(crate) fn store_own(plane: &mut PlainWords, word: SessionWord, number: u64) {
    plane.perform::<()>(&Ask::Store(word.place(0), number));
}

/// The words of a store that was opened behind a commit of the version before this one, with its end.
fn opened_words(alloc: Global, shape: &Shape, version: u64, end: u64) -> Result<PlainWords, Fault> {
    let mut plane = PlainWords::new(alloc, Places::of(shape).word_count())?;
    for word in [
        SharedWord::Tail,
        SharedWord::ReadOnly,
        SharedWord::SafeReadOnly,
        SharedWord::Flushed,
        SharedWord::Head,
        SharedWord::Closed,
    ] {
        store(&mut plane, word, end);
    }
    store(&mut plane, SharedWord::Epoch, 1);
    store(&mut plane, SharedWord::Phase, version);
    let limit = if end < 4 { 8 } else { 12 };
    store(&mut plane, SharedWord::Limit, limit);
    store_own(&mut plane, SessionWord::Epoch, 1);
    Ok(plane)
}

fn no_lost() -> ArrayVec<LostRange, MAX_LOST_IN_HAND> {
    ArrayVec::new()
}

/// Commit 0, which a new store has.
fn created_commit() -> LastCommit {
    LastCommit {
        number: Version(0),
        begin: Addr(1),
        points: ArrayVec::new(),
        checkpoint: Checkpoint {
            number: Version(0),
            first: Addr(1),
            triples: 0,
            area: Area::First,
        },
        gates: (true, false),
    }
}

/// Commit 1, whose checkpoint lies in the second area; the slot of commit 0 stands open still.
fn first_commit() -> LastCommit {
    LastCommit {
        number: Version(1),
        begin: Addr(1),
        points: ArrayVec::new(),
        checkpoint: Checkpoint {
            number: Version(1),
            first: Addr(2),
            triples: 1,
            area: Area::Second,
        },
        gates: (true, true),
    }
}

/// A new store.
pub(crate) fn new_store(alloc: Global) -> Result<SmallStore, Fault> {
    store_of_shape(alloc, small_shape()?)
}

/// A new living store of the same sizes.
pub(crate) fn living_store(alloc: Global) -> Result<SmallStore, Fault> {
    store_of_shape(alloc, Shape::large(0, 4, 2, 1, 1, 0, 8)?)
}

fn store_of_shape(alloc: Global, shape: Shape) -> Result<SmallStore, Fault> {
    let plane = opened_words(alloc, &shape, 1, 1)?;
    let keeper = Keeper::new(alloc, shape, created_commit(), no_lost())?;
    Ok(SmallStore { plane, keeper })
}

/// The device of a new store.
pub(crate) fn created_disk(alloc: Global) -> Result<MemDisk, Fault> {
    MemDisk::from_bytes(alloc, image(alloc, 1536, &[&CREATED])?)
}

/// Writes the record of key 1 with this header and value at the tail, and makes it the entry of its home.
pub(crate) fn append(plane: &mut PlainWords, header: u64, value: u64) {
    let tail = plane.perform::<()>(&Ask::Add(SharedWord::Tail.place(), 1));
    let frame = 48 + tail as usize % 8 * 3;
    plane.perform::<()>(&Ask::Store(frame, header));
    plane.perform::<()>(&Ask::Store(frame + 1, 1));
    plane.perform::<()>(&Ask::Store(frame + 2, value));
    let entry = FIRST_ENTRY.wrapping_add(tail).wrapping_sub(1);
    plane.perform::<()>(&Ask::Store(40, entry));
}

/// An image of so many bytes: zeros, and then the bytes at their places, those of later lists over those of earlier ones.
pub(crate) fn image(
    alloc: Global,
    length: usize,
    lists: &[&[(usize, u8)]],
) -> Result<Vec<u8>, Fault> {
    let mut bytes = vec![in alloc; 0u8; length]?;
    for list in lists {
        for (place, byte) in *list {
            if let Some(at) = bytes.get_mut(*place) {
                *at = *byte;
            }
        }
    }
    Ok(bytes)
}

/// The session has seen the epoch and what was stored before it.
pub(crate) fn sees(plane: &mut PlainWords) {
    let epoch = plane.word(SharedWord::Epoch.place());
    store_own(plane, SessionWord::Epoch, epoch);
}

/// Goes on to the end of a call: what it ends with, and how many calls of the device were made.
fn ends<D: Device>(own: &mut SmallStore, disk: &mut D, begun: KeeperAsk) -> (KeeperAsk, u8) {
    let mut calls = 0u8;
    let mut ask = begun;
    for _ in 0..512 {
        ask = match ask {
            KeeperAsk::Word(Ask::Put(slot, action)) => {
                let _ = own.plane.put(slot, action);
                own.keeper.drive(0)
            }
            KeeperAsk::Word(Ask::Take(slot)) => match own.plane.take(slot) {
                Some(action) => own.keeper.given(action),
                None => return (KeeperAsk::Device, calls),
            },
            KeeperAsk::Word(other) => {
                let reply = own.plane.perform(&other);
                own.keeper.drive(reply)
            }
            KeeperAsk::Device => {
                calls = calls.saturating_add(1);
                own.keeper.device_step(disk)
            }
            end => return (end, calls),
        };
    }
    (KeeperAsk::Device, calls)
}

/// The session refreshes, and the keeper makes a turn.
pub(crate) fn turn<D: Device>(own: &mut SmallStore, disk: &mut D) -> (KeeperAsk, u8) {
    sees(&mut own.plane);
    let begun = own.keeper.start_turn();
    ends(own, disk, begun)
}

pub(crate) fn commit<D: Device>(own: &mut SmallStore, disk: &mut D, kind: CommitKind) -> KeeperAsk {
    let begun = own.keeper.start_commit(kind);
    ends(own, disk, begun).0
}

pub(crate) fn begun(number: u64) -> KeeperAsk {
    KeeperAsk::Begun(Ok(Version(number)))
}

fn turn_refused(why: Fault) -> KeeperAsk {
    KeeperAsk::Turned(Err(why))
}

/// A turn that has finished no commit.
pub(crate) fn turned() -> KeeperAsk {
    KeeperAsk::Turned(Ok(Turn {
        finished: None,
        drain_full: false,
    }))
}

/// A commit of this number, with one point.
pub(crate) fn finished(number: u64, point: u64) -> Option<Finished> {
    let mut points = ArrayVec::new();
    let _ = points.try_push(Serial(point));
    Some(Finished {
        number: Version(number),
        points,
    })
}

/// The turn that has finished it.
pub(crate) fn turned_finished(number: u64, point: u64) -> KeeperAsk {
    KeeperAsk::Turned(Ok(Turn {
        finished: finished(number, point),
        drain_full: false,
    }))
}

/// Turns of a commit up to the one that finishes it, and that one's calls.
fn to_the_finish<D: Device>(own: &mut SmallStore, disk: &mut D) -> (KeeperAsk, u8) {
    for _ in 0..8 {
        let (answer, calls) = turn(own, disk);
        if answer != turned() {
            return (answer, calls);
        }
    }
    (KeeperAsk::Device, 0)
}

pub(crate) fn phase(own: &SmallStore) -> u64 {
    own.plane.word(SharedWord::Phase.place())
}

pub(crate) fn durable(own: &SmallStore) -> u64 {
    own.plane.word(SessionWord::Durable.place(0))
}

/// The turn ends so, with so many calls of the device.
pub(crate) fn turns_to(
    rt: &impl Abort,
    own: &mut SmallStore,
    disk: &mut MemDisk,
    wanted: &KeeperAsk,
    calls: u8,
) {
    let (ended, made) = turn(own, disk);
    assert!(rt; ended == *wanted);
    assert_eq!(rt; made, calls);
}

/// The commit of this number begins.
pub(crate) fn begins(
    rt: &impl Abort,
    own: &mut SmallStore,
    disk: &mut MemDisk,
    kind: CommitKind,
    number: u64,
) {
    assert!(rt; commit(own, disk, kind) == begun(number));
}

pub(crate) fn is_in(rt: &impl Abort, own: &SmallStore, wanted: u64) {
    assert_eq!(rt; phase(own), wanted);
}

pub(crate) fn is_durable(rt: &impl Abort, own: &SmallStore, wanted: u64) {
    assert_eq!(rt; durable(own), wanted);
}

/// No commit runs, and none was finished.
fn is_new(rt: &impl Abort, own: &SmallStore) {
    assert!(rt; !own.keeper.busy());
    assert!(rt; own.keeper.finished().is_none());
}

/// The device holds just these bytes.
fn holds(
    rt: &impl Abort,
    alloc: Global,
    disk: &MemDisk,
    length: usize,
    lists: &[&[(usize, u8)]],
) -> Result<(), Fault> {
    let wanted = image(alloc, length, lists)?;
    assert!(rt; disk.bytes() == wanted.as_slice());
    Ok(())
}

pub(crate) fn holds_first(rt: &impl Abort, alloc: Global, disk: &MemDisk) -> Result<(), Fault> {
    holds(rt, alloc, disk, 1808, &[&CREATED, &FIRST_COMMIT])
}

pub(crate) fn holds_second(rt: &impl Abort, alloc: Global, disk: &MemDisk) -> Result<(), Fault> {
    let lists: [&[(usize, u8)]; 3] = [&CREATED, &FIRST_COMMIT, &SECOND_COMMIT];
    holds(rt, alloc, disk, 1832, &lists)
}

fn holds_log_commit(rt: &impl Abort, alloc: Global, disk: &MemDisk) -> Result<(), Fault> {
    let lists: [&[(usize, u8)]; 3] = [&CREATED, &FIRST_COMMIT, &LOG_COMMIT];
    holds(rt, alloc, disk, 1904, &lists)
}

/// The device behind the first commit, with room for the records up to address 4.
fn disk_of_first(alloc: Global) -> Result<MemDisk, Fault> {
    MemDisk::from_bytes(alloc, image(alloc, 1880, &[&CREATED, &FIRST_COMMIT])?)
}

/// The first commit takes a turn for each phase.
pub(crate) fn phases_pass(rt: &impl Abort, own: &mut SmallStore, disk: &mut MemDisk) {
    append(&mut own.plane, FIRST_HEADER, 10);
    is_new(rt, own);
    begins(rt, own, disk, CommitKind::Full, 1);
    is_in(rt, own, PREPARE);
    for stands in [IN_PROGRESS, WAIT_PENDING, WAIT_FLUSH] {
        store_own(&mut own.plane, SessionWord::OddCut, FIRST_ENTRY);
        turns_to(rt, own, disk, &turned(), 0);
        is_in(rt, own, stands);
    }
    is_durable(rt, own, 0);
}

/// Its last turn makes eight calls: two of the flush and six of the commit.
fn first_commit_is_written(rt: &impl Abort, own: &mut SmallStore, disk: &mut MemDisk) {
    turns_to(rt, own, disk, &turned_finished(1, 1), 8);
    is_in(rt, own, 2);
    is_durable(rt, own, 1);
    assert!(rt; own.keeper.finished() == finished(1, 1));
}

/// Commit 2 of one more record, whose last turn makes so many calls.
fn second_commit_is_written(
    rt: &impl Abort,
    own: &mut SmallStore,
    disk: &mut MemDisk,
    how: (CommitKind, u64, u8),
) {
    let (kind, value, calls) = how;
    append(&mut own.plane, SECOND_HEADER, value);
    begins(rt, own, disk, kind, 2);
    store_own(&mut own.plane, SessionWord::EvenCut, SECOND_CUT);
    assert!(rt; to_the_finish(own, disk) == (turned_finished(2, 2), calls));
    is_in(rt, own, 3);
    is_durable(rt, own, 2);
}

/// The second commit writes over the slot of commit 0, whose gate stands open: ten calls.
fn full_commits_are_written(
    rt: &impl Abort,
    alloc: Global,
    own: &mut SmallStore,
    disk: &mut MemDisk,
) -> Result<(), Fault> {
    phases_pass(rt, own, disk);
    first_commit_is_written(rt, own, disk);
    holds_first(rt, alloc, disk)?;
    second_commit_is_written(rt, own, disk, (CommitKind::Full, 11, 10));
    holds_second(rt, alloc, disk)
}

/// A store that was opened behind commit 1, with one lost range.
fn store_with_loss(alloc: Global) -> Result<SmallStore, Fault> {
    let shape = small_shape()?;
    let plane = opened_words(alloc, &shape, 2, 5)?;
    let mut lost = no_lost();
    let _ = lost.try_push(LostRange {
        to: Addr(5),
        version: Version(2),
    });
    let keeper = Keeper::new(alloc, shape, first_commit(), lost)?;
    Ok(SmallStore { plane, keeper })
}

/// A log commit writes no triples, so it makes a call less, and its slot names the checkpoint of the commit before and the lost range in
/// hand.
fn a_log_commit_keeps_the_checkpoint(
    rt: &impl Abort,
    alloc: Global,
    own: &mut SmallStore,
    disk: &mut MemDisk,
) -> Result<(), Fault> {
    second_commit_is_written(rt, own, disk, (CommitKind::Log, 12, 9));
    holds_log_commit(rt, alloc, disk)
}

fn fill_the_drain(plane: &mut PlainWords, word: u64) {
    for slot in 0..DRAIN_SLOTS {
        plane.perform::<()>(&Ask::Store(drain_place(slot), word));
    }
}

/// The last version of a specified store.
const LAST_VERSION: u64 = 8191;

/// A word that is stored, its number, and why the commit of this kind is refused then.
const REFUSALS: [(SharedWord, u64, CommitKind, Fault); 5] = [
    (
        SharedWord::Phase,
        PREPARE,
        CommitKind::Log,
        Fault::CommitRunning,
    ),
    (
        SharedWord::Phase,
        LAST_VERSION,
        CommitKind::Log,
        Fault::VersionsSpent,
    ),
    (SharedWord::Phase, 1, CommitKind::Log, Fault::LostFull),
    (SharedWord::Phase, 1, CommitKind::Full, Fault::EpochsSpent),
    (SharedWord::Epoch, 1, CommitKind::Full, Fault::DrainFull),
];

/// A store whose epoch is at its last, with no free drain slot and as many lost ranges as there is room for.
fn store_that_refuses(alloc: Global) -> Result<SmallStore, Fault> {
    let shape = small_shape()?;
    let mut plane = opened_words(alloc, &shape, 1, 1)?;
    store(&mut plane, SharedWord::Epoch, LAST_EPOCH);
    fill_the_drain(&mut plane, 1);
    let mut lost = no_lost();
    for _ in 0..MAX_LOST_IN_HAND {
        let _ = lost.try_push(LostRange::default());
    }
    let keeper = Keeper::new(alloc, shape, created_commit(), lost)?;
    Ok(SmallStore { plane, keeper })
}

/// The commit of this kind is refused where this word stands, which stays.
fn is_refused(
    rt: &impl Abort,
    own: &mut SmallStore,
    disk: &mut MemDisk,
    row: (SharedWord, u64, CommitKind, Fault),
) {
    let (word, number, kind, why) = row;
    store(&mut own.plane, word, number);
    assert!(rt; commit(own, disk, kind) == KeeperAsk::Begun(Err(why)));
    assert_eq!(rt; own.plane.word(word.place()), number);
}

/// Each refusal of a commit, in the order in which they are tested. None changes a word.
fn a_commit_is_refused(rt: &impl Abort, own: &mut SmallStore, disk: &mut MemDisk) {
    for row in REFUSALS {
        is_refused(rt, own, disk, row);
    }
    own.plane.perform::<()>(&Ask::Store(drain_place(7), 0));
    begins(rt, own, disk, CommitKind::Full, 1);
}

/// Where no drain slot is free in-progress goes on in a later turn.
fn waits_for_a_slot(rt: &impl Abort, own: &mut SmallStore, disk: &mut MemDisk) {
    store(&mut own.plane, SharedWord::Phase, IN_PROGRESS);
    fill_the_drain(&mut own.plane, 1);
    let full = KeeperAsk::Turned(Ok(Turn {
        finished: None,
        drain_full: true,
    }));
    assert!(rt; turn(own, disk).0 == full);
    fill_the_drain(&mut own.plane, 0);
}

/// Where the epoch is at its last the turn ends as spent, and a later one goes on.
fn is_spent(rt: &impl Abort, own: &mut SmallStore, disk: &mut MemDisk) {
    store(&mut own.plane, SharedWord::Epoch, LAST_EPOCH);
    assert!(rt; turn(own, disk).0 == turn_refused(Fault::EpochsSpent));
    store(&mut own.plane, SharedWord::Epoch, 2);
    for _ in 0..2 {
        assert!(rt; turn(own, disk).0 == turned());
    }
    is_in(rt, own, WAIT_PENDING);
}

fn a_turn_is_refused_and_made_later(rt: &impl Abort, own: &mut SmallStore, disk: &mut MemDisk) {
    commit(own, disk, CommitKind::Full);
    waits_for_a_slot(rt, own, disk);
    is_spent(rt, own, disk);
}

/// What is played over a store and its device.
#[derive(Clone, Copy)]
enum Scene {
    FullCommits,
    LogCommit,
    RefusedCommits,
    RefusedTurns,
    RefusedMemory,
    ToldCalls,
}

const SCENES: [Scene; 6] = [
    Scene::FullCommits,
    Scene::LogCommit,
    Scene::RefusedCommits,
    Scene::RefusedTurns,
    Scene::RefusedMemory,
    Scene::ToldCalls,
];

fn store_of(alloc: Global, scene: Scene) -> Result<SmallStore, Fault> {
    match scene {
        Scene::LogCommit => store_with_loss(alloc),
        Scene::RefusedCommits => store_that_refuses(alloc),
        _ => new_store(alloc),
    }
}

fn disk_of(alloc: Global, scene: Scene) -> Result<MemDisk, Fault> {
    match scene {
        Scene::LogCommit => disk_of_first(alloc),
        Scene::RefusedCommits | Scene::RefusedTurns => Ok(MemDisk::new(alloc)),
        _ => created_disk(alloc),
    }
}

fn plays(
    rt: &impl Abort,
    alloc: Global,
    own: &mut SmallStore,
    disk: &mut MemDisk,
    scene: Scene,
) -> Result<(), Fault> {
    match scene {
        Scene::FullCommits => full_commits_are_written(rt, alloc, own, disk)?,
        Scene::LogCommit => a_log_commit_keeps_the_checkpoint(rt, alloc, own, disk)?,
        Scene::RefusedCommits => a_commit_is_refused(rt, own, disk),
        Scene::RefusedTurns => a_turn_is_refused_and_made_later(rt, own, disk),
        Scene::RefusedMemory => memory_is_asked_for_first(rt, own, disk),
        Scene::ToldCalls => {
            the_call_that_is_told_is_made(rt, own, disk, &mut created_disk(alloc)?);
        }
    }
    Ok(())
}

fn play(rt: &impl Abort, alloc: Global, scene: Scene) -> Result<(), Fault> {
    let mut own = store_of(alloc, scene)?;
    let mut disk = disk_of(alloc, scene)?;
    plays(rt, alloc, &mut own, &mut disk, scene)
}

#[test]
fn scenes_are_played(rt: HostRuntime) -> Result<(), Fail> {
    for scene in SCENES {
        play(&rt, rt.alloc(), scene)?;
    }
    Ok(())
}

/// Where the copy's room is refused that turn ends, and the next one begins the copy again.
fn is_copied(rt: &impl Abort, own: &mut SmallStore, disk: &mut MemDisk) {
    append(&mut own.plane, FIRST_HEADER, 10);
    commit(own, disk, CommitKind::Full);
    turn(own, disk);
    store_own(&mut own.plane, SessionWord::OddCut, FIRST_ENTRY);
    let (copied, _) = turn(own, disk);
    is_in(rt, own, WAIT_PENDING);
    if copied == turn_refused(Fault::Memory) {
        turns_to(rt, own, disk, &turned(), 0);
        is_in(rt, own, WAIT_PENDING);
    }
}

/// The log is flushed, and the commit finishes, unless the device was refused memory.
fn is_finished(rt: &impl Abort, own: &mut SmallStore, disk: &mut MemDisk) {
    turns_to(rt, own, disk, &turned(), 0);
    is_in(rt, own, WAIT_FLUSH);
    let (answer, _) = turn(own, disk);
    assert!(rt; answer == turned_finished(1, 1) || disk.failures() == 1);
}

/// A tool outside lets each request for memory fail in turn and runs this test: whichever it is, the commit finishes, but that the
/// device in memory asks for memory too.
#[test]
fn a_refused_copy_begins_again(rt: HostRuntime) -> Result<(), Fail> {
    let Ok(mut own) = new_store(rt.alloc()) else {
        return Ok(());
    };
    let Ok(mut disk) = created_disk(rt.alloc()) else {
        return Ok(());
    };
    is_copied(&rt, &mut own, &mut disk);
    is_finished(&rt, &mut own, &mut disk);
    Ok(())
}
