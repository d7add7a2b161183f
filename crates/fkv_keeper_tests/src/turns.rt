//! Turns of the keeper by hand over plain words and a device in memory. The log is a ring of two frames of four records each, on
//! a device of eight pages, and there is one session.
use fkv_base::{Addr, DRAIN_SLOTS, Fault, Key, LAST_EPOCH, Phase, Shape, Version};
use fkv_disk::{Device, Fuse, MemDisk, Once};
use fkv_log::{Fill, RecordWords, Reserve, ReserveAnswer};
use fkv_maintain::{Maintain, MaintainAnswer};
use fkv_plane::{Action, Ask, Places, PlainWords, SessionWord, SharedWord, drain_place};
use fkv_words::Header;
use std::alloc::Global;
use std::process::Abort;
use std::test::Fail;

/// Places of words: of the store, of its first drain slots, and of the session.
const EPOCH: usize = 0;

const PHASE: usize = 2;

const FLUSHED: usize = 7;

const FIRST_DRAIN: usize = 16;

const SECOND_DRAIN: usize = 17;

const OWN_EPOCH: usize = 24;

const MAIL_STATE: usize = 29;

const MAIL_ADDRESS: usize = 30;

/// Held, and armed at epoch 1.
const HELD: u64 = 1;

const ARMED: u64 = 3;

/// More calls of the device than a scene makes.
const NEVER: u64 = 100;

fn small_shape() -> Result<Shape, Fault> {
    Shape::new(0, 4, 2, 1, 1, 0, 8)
}

fn store(plane: &mut PlainWords, place: usize, word: u64) {
    plane.perform::<()>(&Ask::Store(place, word));
}

/// The words of a store that was just made, with records at 1 to 7, of which those below 7 are read-only for all.
fn new_words(alloc: Global, shape: &Shape) -> Result<PlainWords, Fault> {
    let mut plane = PlainWords::new(alloc, Places::of(shape).word_count())?;
    for word in [
        SharedWord::Epoch,
        SharedWord::Tail,
        SharedWord::ReadOnly,
        SharedWord::Flushed,
        SharedWord::Head,
        SharedWord::Closed,
    ] {
        store(&mut plane, word.place(), 1);
    }
    store(&mut plane, SharedWord::Limit.place(), 8);
    store(&mut plane, SessionWord::Epoch.place(0), 1);
    for _ in 0..7 {
        append(&mut plane, shape);
    }
    store(&mut plane, SharedWord::SafeReadOnly.place(), 7);
    Ok(plane)
}

/// Takes the next address, and writes a record there whose key is the address, and its value ten times that.
fn append(plane: &mut PlainWords, shape: &Shape) {
    let mut reserve = Reserve::new(shape);
    let mut ask = reserve.start(None);
    let mut taken = None;
    for _ in 0..4 {
        ask = match ask {
            Ask::Done(ReserveAnswer::Reserved(addr)) => {
                taken = Some(addr);
                break;
            }
            Ask::Done(_) => return,
            other => reserve.drive(plane.perform(&other)),
        };
    }
    let Some(addr) = taken else { return };
    let mut fill = Fill::new(Places::of(shape));
    let its_words = RecordWords {
        header: Header {
            previous: Addr(0),
            version: Version(1),
            invalid: false,
        },
        key: Key(addr.0),
        value: addr.0.wrapping_mul(10),
    };
    let mut ask = fill.start(addr, its_words);
    for _ in 0..4 {
        ask = match ask {
            Ask::Done(()) => return,
            other => fill.drive(plane.perform(&other)),
        };
    }
}

/// One turn: how it ends, and how many calls of the device it made.
fn turn<D: Device>(
    plane: &mut PlainWords,
    machine: &mut Maintain,
    disk: &mut D,
) -> Result<(MaintainAnswer, u8), Fault> {
    let mut calls = 0u8;
    let mut ask = machine.start();
    for _ in 0..256 {
        ask = match ask {
            Ask::Done(MaintainAnswer::Device) => {
                calls = calls.saturating_add(1);
                machine.device_step(disk)?
            }
            Ask::Done(answer) => return Ok((answer, calls)),
            Ask::Put(slot, action) => {
                let _ = plane.put(slot, action);
                machine.drive(0)
            }
            Ask::Take(slot) => match plane.take(slot) {
                Some(action) => machine.given(action),
                None => return Ok((MaintainAnswer::Device, calls)),
            },
            other => machine.drive(plane.perform(&other)),
        };
    }
    Ok((MaintainAnswer::Device, calls))
}

/// Goes on up to the next call of the device, or to the end.
fn to_the_device(plane: &mut PlainWords, machine: &mut Maintain) {
    for _ in 0..256 {
        match machine.ask() {
            Ask::Done(_) => return,
            other => machine.drive(plane.perform(&other)),
        };
    }
}

/// The offsets in their order: closed, head, flushed, safe read-only, read-only, tail, limit.
fn offsets(plane: &PlainWords) -> [u64; 7] {
    [
        plane.word(SharedWord::Closed.place()),
        plane.word(SharedWord::Head.place()),
        plane.word(SharedWord::Flushed.place()),
        plane.word(SharedWord::SafeReadOnly.place()),
        plane.word(SharedWord::ReadOnly.place()),
        plane.word(SharedWord::Tail.place()),
        plane.word(SharedWord::Limit.place()),
    ]
}

/// The next call of the device leaves it so long. The flushed offset stays as it is up to the sync.
fn writes(
    rt: &impl Abort,
    plane: &mut PlainWords,
    machine: &mut Maintain,
    disk: &mut Fuse<MemDisk>,
    wanted: usize,
) {
    to_the_device(plane, machine);
    assert!(rt; machine.ask() == Ask::Done(MaintainAnswer::Device));
    assert_eq!(rt; plane.word(FLUSHED), 1);
    assert!(rt; machine.device_step(disk).is_ok());
    assert_eq!(rt; disk.device().bytes().len(), wanted);
}

/// Both pages stand behind a crash.
fn is_synced(rt: &impl Abort, disk: Fuse<MemDisk>) -> Result<(), Fault> {
    let image = disk.crash(165)?;
    assert_eq!(rt; image.bytes().len(), 1928);
    assert_eq!(rt; image.bytes().get(1792), Some(&1));
    assert_eq!(rt; image.bytes().get(1912), Some(&6));
    Ok(())
}

/// The flushed offset is raised behind the sync.
fn flushes(
    rt: &impl Abort,
    plane: &mut PlainWords,
    machine: &mut Maintain,
    disk: &mut Fuse<MemDisk>,
) {
    machine.start();
    for wanted in [1856, 1928, 1928] {
        writes(rt, plane, machine, disk, wanted);
    }
    to_the_device(plane, machine);
    assert_eq!(rt; plane.word(FLUSHED), 7);
}

/// Six records of two pages are flushed: a write for each page, and one sync, after which a crash loses nothing.
#[test]
fn a_write_for_each_page_and_a_sync(rt: HostRuntime) -> Result<(), Fail> {
    let shape = small_shape()?;
    let mut plane = new_words(rt.alloc(), &shape)?;
    let mut machine = Maintain::new(rt.alloc(), shape, Places::of(&shape), Addr(1))?;
    let mut disk = Fuse::new(MemDisk::new(rt.alloc()));
    flushes(&rt, &mut plane, &mut machine, &mut disk);
    is_synced(&rt, disk)?;
    Ok(())
}

/// One step of a scene.
enum Step {
    /// These words are stored.
    Stores(&'static [(usize, u64)]),
    /// Prepare comes into the first drain slot, as an action that is armed.
    Prepares,
    /// Every drain slot gets this word.
    FillsTheDrain(u64),
    /// A turn ends so, with so many calls of the device.
    Turns(MaintainAnswer, u8),
    /// A turn ends since a call of the device fails, and no other call is made until the next turn.
    Fails,
    /// These are the offsets.
    Offsets([u64; 7]),
    /// These words stand.
    Stands(&'static [(usize, u64)]),
    /// Whether the last turn had no drain slot.
    DrainFull(bool),
}

/// Steps of a keeper over a device whose next call behind so many fails.
struct Scene {
    passes: u64,
    steps: &'static [Step],
}

/// What a scene is played on.
#[derive(Drop)]
struct Stage {
    plane: PlainWords,
    machine: Maintain,
    disk: Once<MemDisk>,
}

fn turns(rt: &impl Abort, stage: &mut Stage, wanted: MaintainAnswer, calls: u8) {
    let ended = turn(&mut stage.plane, &mut stage.machine, &mut stage.disk);
    assert_eq!(rt; ended, Ok((wanted, calls)));
    assert!(rt; stage.machine.drive(0) == Ask::Done(wanted));
}

fn fails(rt: &impl Abort, stage: &mut Stage) {
    let ended = turn(&mut stage.plane, &mut stage.machine, &mut stage.disk);
    assert_eq!(rt; ended, Err(Fault::Device));
    let length = stage.disk.device().bytes().len();
    let asked = stage.machine.device_step(&mut stage.disk);
    assert!(rt; asked == Ok(Ask::Done(MaintainAnswer::Broken)));
    assert_eq!(rt; stage.disk.device().bytes().len(), length);
}

fn stands(rt: &impl Abort, plane: &PlainWords, words: &[(usize, u64)]) {
    for (place, word) in words {
        assert_eq!(rt; plane.word(*place), *word, "at place {place}");
    }
}

fn store_all(plane: &mut PlainWords, words: &[(usize, u64)]) {
    for (place, word) in words {
        store(plane, *place, *word);
    }
}

fn fill_the_drain(plane: &mut PlainWords, word: u64) {
    for slot in 0..DRAIN_SLOTS {
        store(plane, drain_place(slot), word);
    }
}

/// Plays one step.
fn plays(rt: &impl Abort, stage: &mut Stage, step: &Step) {
    match step {
        Step::Stores(words) => store_all(&mut stage.plane, words),
        Step::Prepares => {
            let action = Action::Phase(Phase::Prepare, Version(1));
            let _ = stage.plane.put(0, action);
            store(&mut stage.plane, FIRST_DRAIN, ARMED);
        }
        Step::FillsTheDrain(word) => fill_the_drain(&mut stage.plane, *word),
        Step::Turns(wanted, calls) => turns(rt, stage, *wanted, *calls),
        Step::Fails => fails(rt, stage),
        Step::Offsets(wanted) => assert_eq!(rt; offsets(&stage.plane), *wanted),
        Step::Stands(words) => stands(rt, &stage.plane, words),
        Step::DrainFull(wanted) => {
            assert_eq!(rt; stage.machine.is_drain_full(), *wanted);
        }
    }
}

fn new_stage(alloc: Global, passes: u64) -> Result<Stage, Fault> {
    let shape = small_shape()?;
    Ok(Stage {
        plane: new_words(alloc, &shape)?,
        machine: Maintain::new(alloc, shape, Places::of(&shape), Addr(1))?,
        disk: Once::new(MemDisk::new(alloc), passes),
    })
}

fn play(rt: &impl Abort, alloc: Global, scene: &Scene) -> Result<(), Fault> {
    let mut stage = new_stage(alloc, scene.passes)?;
    for step in scene.steps {
        plays(rt, &mut stage, step);
    }
    Ok(())
}

const FLUSHES: Step = Step::Turns(MaintainAnswer::Through, 3);

/// The first turn moves the read-only offset and the head. Once the session has seen both, the next one flushes the last record,
/// closes the first page, and opens another in its frame.
const A_PAGE_IS_OPENED: [Step; 5] = [
    FLUSHES,
    Step::Offsets([1, 4, 7, 7, 8, 8, 8]),
    Step::Stores(&[(OWN_EPOCH, 3)]),
    Step::Turns(MaintainAnswer::Through, 2),
    Step::Offsets([4, 4, 8, 8, 8, 8, 12]),
];

/// A session that asks for a record gets it by one read.
const A_MAILBOX_IS_SERVED: [Step; 4] = [
    FLUSHES,
    Step::Stores(&[(MAIL_ADDRESS, 5), (MAIL_STATE, 1)]),
    Step::Turns(MaintainAnswer::Through, 1),
    Step::Stands(&[(MAIL_STATE, 2), (31, 1 << 48), (32, 5), (33, 50)]),
];

/// A phase that is armed is stored once its epoch is safe, and its drain slot is free then.
const A_PHASE_IS_STORED: [Step; 7] = [
    Step::Prepares,
    Step::Stores(&[(EPOCH, 2)]),
    FLUSHES,
    Step::Stands(&[(PHASE, 0)]),
    Step::Stores(&[(OWN_EPOCH, 2)]),
    Step::Turns(MaintainAnswer::Through, 0),
    Step::Stands(&[(PHASE, 65537), (FIRST_DRAIN, 0), (SECOND_DRAIN, 4)]),
];

/// Where no drain slot is free nothing is moved. The rest of the turn is made, and the next one moves it.
const THE_DRAIN_IS_FULL: [Step; 9] = [
    Step::DrainFull(false),
    Step::FillsTheDrain(HELD),
    FLUSHES,
    Step::DrainFull(true),
    Step::Offsets([1, 1, 7, 7, 1, 8, 8]),
    Step::FillsTheDrain(0),
    Step::Turns(MaintainAnswer::Through, 0),
    Step::DrainFull(false),
    Step::Offsets([1, 4, 7, 7, 8, 8, 8]),
];

/// Where the epoch is at its last the turn ends, and stays so.
const THE_EPOCH_IS_AT_ITS_LAST: [Step; 3] = [
    Step::Stores(&[(EPOCH, LAST_EPOCH)]),
    Step::Turns(MaintainAnswer::Spent, 3),
    Step::Offsets([1, 1, 7, 7, 1, 8, 8]),
];

/// A call that fails ends the turn, and no other call is made until the next one.
const THE_DEVICE_FAILS: [Step; 4] = [
    Step::Fails,
    Step::Stands(&[(FLUSHED, 1)]),
    FLUSHES,
    Step::Stands(&[(FLUSHED, 7)]),
];

const SCENES: [Scene; 8] = [
    Scene {
        passes: NEVER,
        steps: &A_PAGE_IS_OPENED,
    },
    Scene {
        passes: NEVER,
        steps: &A_MAILBOX_IS_SERVED,
    },
    Scene {
        passes: NEVER,
        steps: &A_PHASE_IS_STORED,
    },
    Scene {
        passes: NEVER,
        steps: &THE_DRAIN_IS_FULL,
    },
    Scene {
        passes: NEVER,
        steps: &THE_EPOCH_IS_AT_ITS_LAST,
    },
    Scene {
        passes: 0,
        steps: &THE_DEVICE_FAILS,
    },
    Scene {
        passes: 1,
        steps: &THE_DEVICE_FAILS,
    },
    Scene {
        passes: 2,
        steps: &THE_DEVICE_FAILS,
    },
];

#[test]
fn turns_are_made(rt: HostRuntime) -> Result<(), Fail> {
    for scene in &SCENES {
        play(&rt, rt.alloc(), scene)?;
    }
    Ok(())
}
