//! What a session is told and asks, call after call, as scenes: each is a list of steps over one of the two stores.
use crate::store::{
    ADD, DURABLE, EPOCH, EVEN_CUT, FIFTH, FIRST, IN_PROGRESS, KEY, LATCH, MAIL, MAIL_ADDRESS,
    ODD_CUT, ONE, OWING, PREPARE, READ, SLOT, UPSERT, go_on, seen, shape, shape_of_one, stands,
    store, told, words, words_of_one,
};
use fkv_base::{Addr, Fault, Key, Phase, Serial, Value, Version};
use fkv_map::{Call, Merge, Op, Reply};
use fkv_ops::Reason;
use fkv_pending::Ticket;
use fkv_plane::{Action, Ask, PlainWords};
use fkv_session::{Finished, Session, Told};
use std::alloc::Global;
use std::process::Abort;
use std::test::Fail;

/// One step of a scene.
enum Step {
    /// These words are stored.
    Stores(&'static [(usize, u64)]),
    /// The closing of this address comes into the first drain slot.
    Closes(u64),
    /// The call is told this.
    Tells(Call, Told),
    /// The call makes these asks, of which the last is its end.
    Asks(Call, &'static [Ask<Told>]),
    /// It makes these, part by part.
    AsksInParts(Call, &'static [&'static [Ask<Told>]]),
    /// So many asks of words were counted in the last call.
    Counts(u64),
    /// The last poll has finished these.
    Finishes(&'static [Finished]),
    /// These words stand.
    Stands(&'static [(usize, u64)]),
    /// These calls are refused without an ask. They take no serial, and no request comes or goes.
    Refuses(&'static [(Call, Fault)]),
    /// So many reads of the key come to wait, which are the first ones that do.
    Waits(u64),
    /// So many keys are set, by the first updates of the session.
    Fills(u64),
}

/// A scene of one session, which has seen these offsets of version 1, and has taken serials up to this one.
struct Scene {
    /// Which of the two stores it has.
    is_of_one: bool,
    phase: Phase,
    head: u64,
    read_only: u64,
    serial: u64,
    steps: &'static [Step],
}

/// Moves a call on from this ask, along these, to the ask behind them.
fn follows(
    rt: &impl Abort,
    plane: &mut PlainWords,
    session: &mut Session,
    ask: Ask<Told>,
    asks: &[Ask<Told>],
) -> Ask<Told> {
    let mut ask = ask;
    for (number, wanted) in asks.iter().enumerate() {
        assert!(rt; ask == *wanted, "at ask {number}");
        ask = go_on(plane, session, ask);
    }
    ask
}

/// Moves a call along these asks, of which the last is its end.
fn asks(
    rt: &impl Abort,
    plane: &mut PlainWords,
    session: &mut Session,
    call: Call,
    parts: &[&[Ask<Told>]],
) {
    let mut ask = session.begin(call);
    for part in parts {
        ask = follows(rt, plane, session, ask, part);
    }
    assert!(rt; session.ask() == ask);
}

/// The call is refused without an ask, and takes no serial.
fn refused(rt: &impl Abort, session: &mut Session, call: Call, why: Fault) {
    let serial = session.serial();
    let count = session.pending();
    assert!(rt; session.begin(call) == Ask::Done(Told::Refused(why)));
    assert!(rt; session.asks() == 0);
    assert!(rt; session.serial() == serial);
    assert!(rt; session.pending() == count);
}

fn waits(rt: &impl Abort, plane: &mut PlainWords, session: &mut Session, reads: u64) {
    for number in 0..reads {
        let ticket = Ticket(number + 1);
        assert!(rt; told(plane, session, READ) == Some(Told::PendingRead(ticket)));
    }
    assert!(rt; session.pending() as u64 == reads);
}

fn fills(rt: &impl Abort, plane: &mut PlainWords, session: &mut Session, keys: u64) {
    for before in 0..keys {
        let call = Call::Op(Op::Upsert(Key(before + 1), Value(10)));
        let done = Told::Done(Serial(before + 1), Reply::Nothing);
        assert!(rt; told(plane, session, call) == Some(done));
    }
}

fn finishes(rt: &impl Abort, session: &Session, list: &[Finished]) {
    assert!(rt; session.finished().len() == list.len());
    for (made, wanted) in session.finished().iter().zip(list) {
        assert!(rt; *made == *wanted);
    }
}

/// Plays one step.
fn plays(rt: &impl Abort, plane: &mut PlainWords, session: &mut Session, step: &Step) {
    match step {
        Step::Stores(words) => store(plane, words),
        Step::Closes(addr) => {
            let _ = plane.put(0, Action::Close(Addr(*addr)));
        }
        Step::Tells(call, wanted) => {
            assert!(rt; told(plane, session, *call) == Some(*wanted));
        }
        Step::Asks(call, wanted) => asks(rt, plane, session, *call, &[*wanted]),
        Step::AsksInParts(call, parts) => asks(rt, plane, session, *call, parts),
        Step::Counts(count) => assert!(rt; session.asks() == *count),
        Step::Finishes(list) => finishes(rt, session, list),
        Step::Stands(words) => stands(rt, plane, words),
        Step::Refuses(calls) => {
            for (call, why) in *calls {
                refused(rt, session, *call, *why);
            }
        }
        Step::Waits(reads) => waits(rt, plane, session, *reads),
        Step::Fills(keys) => fills(rt, plane, session, *keys),
    }
}

fn all_play(rt: &impl Abort, plane: &mut PlainWords, session: &mut Session, steps: &[Step]) {
    for step in steps {
        plays(rt, plane, session, step);
    }
}

fn play(rt: &impl Abort, alloc: Global, scene: &Scene) -> Result<(), Fault> {
    let (mut plane, shape) = if scene.is_of_one {
        (words_of_one(alloc)?, shape_of_one()?)
    } else {
        (words(alloc)?, shape()?)
    };
    let seen = seen(scene.phase, scene.head, scene.read_only);
    let serial = Serial(scene.serial.min(Serial::LAST));
    let mut session = Session::new(shape, 0, seen, serial, Addr(1));
    all_play(rt, &mut plane, &mut session, scene.steps);
    Ok(())
}

const REFRESHED: Told = Told::Refreshed(Phase::Rest, Version(1));

const NO_ROOM: Told = Told::Pending(Serial(8), Reason::NoRoom);

const POLLED: Ask<Told> = Ask::Done(Told::Polled(0));

const EIGHTH: Call = Call::Op(Op::Upsert(Key(8), Value(10)));

const NINTH: Call = Call::Op(Op::Upsert(Key(9), Value(10)));

/// Who sleeps stores first where its version ends for it; who wakes is protected before it loads the phase.
const SLEEPS: Scene = Scene {
    is_of_one: false,
    phase: Phase::Rest,
    head: 1,
    read_only: 1,
    serial: 9,
    steps: &[
        Step::Asks(
            Call::Sleep,
            &[
                Ask::Store(ODD_CUT, 9 + ONE),
                Ask::Store(EPOCH, 0),
                Ask::Done(Told::Slept),
            ],
        ),
        Step::Stores(&[(2, 3), (DURABLE, 9)]),
        Step::Asks(
            Call::Durable,
            &[Ask::Load(DURABLE), Ask::Done(Told::Durable(Serial(9)))],
        ),
        Step::Asks(
            Call::Wake,
            &[
                Ask::Load(0),
                Ask::Store(EPOCH, 1),
                Ask::Load(2),
                Ask::Load(5),
                Ask::Load(8),
                Ask::Store(EVEN_CUT, 9 + 2 * ONE),
                Ask::Store(OWING, 0),
                Ask::Done(Told::Woken(Phase::Rest, Version(3))),
            ],
        ),
        Step::Counts(7),
    ],
};

/// An update that waits shares its latch from prepare on, and is owed from the next version on. The poll that finishes it
/// drops the latch and stores that no more is owed.
const TWO_PHASES: Scene = Scene {
    is_of_one: false,
    phase: Phase::Rest,
    head: 1,
    read_only: 5,
    serial: 0,
    steps: &[
        Step::Stores(&[(SLOT, FIRST), (5, 5)]),
        Step::Tells(ADD, Told::Pending(Serial(1), Reason::Fuzzy)),
        Step::Stores(&[(2, PREPARE)]),
        Step::Asks(
            Call::Refresh,
            &[
                Ask::Load(0),
                Ask::Load(2),
                Ask::Load(5),
                Ask::Load(8),
                Ask::Add(LATCH, ONE),
                Ask::Store(EPOCH, 1),
                Ask::Done(Told::Refreshed(Phase::Prepare, Version(1))),
            ],
        ),
        Step::Stores(&[(2, IN_PROGRESS)]),
        Step::Asks(
            Call::Refresh,
            &[
                Ask::Load(0),
                Ask::Load(2),
                Ask::Load(5),
                Ask::Load(8),
                Ask::Store(ODD_CUT, 1 + ONE),
                Ask::Store(OWING, 1),
                Ask::Store(EPOCH, 1),
                Ask::Done(Told::Refreshed(Phase::InProgress, Version(2))),
            ],
        ),
        Step::Stores(&[(6, 5)]),
        Step::Tells(Call::Poll, Told::Polled(0)),
        Step::Finishes(&[Finished::Update(Serial(1), Reply::Number(Value(15)))]),
        Step::Stands(&[(LATCH, 0), (OWING, 0)]),
    ],
};

/// An update of prepare that meets a session of the next version refreshes, and is made in that version.
const SHIFTS: Scene = Scene {
    is_of_one: false,
    phase: Phase::Prepare,
    head: 1,
    read_only: 1,
    serial: 7,
    steps: &[
        Step::Stores(&[
            (SLOT, FIRST),
            (2, IN_PROGRESS),
            (LATCH, 1 << 63),
            (67, 2 * ONE),
        ]),
        Step::Asks(
            ADD,
            &[
                Ask::Add(LATCH, ONE),
                Ask::Add(LATCH, u64::MAX - (ONE - 1)),
                Ask::Load(0),
                Ask::Load(2),
                Ask::Load(5),
                Ask::Load(8),
                Ask::Store(ODD_CUT, 7 + ONE),
                Ask::Store(OWING, 0),
                Ask::Store(EPOCH, 1),
                Ask::Load(SLOT),
                Ask::Load(67),
                Ask::Load(68),
                Ask::Load(69),
                Ask::Cas(69, 10, 15),
                Ask::Done(Told::Done(Serial(8), Reply::Number(Value(15)))),
            ],
        ),
    ],
};

/// A read of a record on the device is answered by the poll that finds it in the mailbox.
const READS_BY_MAIL: Scene = Scene {
    is_of_one: false,
    phase: Phase::Rest,
    head: 5,
    read_only: 5,
    serial: 0,
    steps: &[
        Step::Stores(&[(SLOT, FIRST)]),
        Step::Tells(READ, Told::PendingRead(Ticket(1))),
        Step::Stands(&[(MAIL, 1), (MAIL_ADDRESS, 1)]),
        Step::Asks(Call::Poll, &[Ask::Load(MAIL), Ask::Done(Told::Polled(1))]),
        Step::Stores(&[(31, ONE), (32, KEY.0), (33, 10), (MAIL, 2)]),
        Step::Tells(Call::Poll, Told::Polled(0)),
        Step::Finishes(&[Finished::Read(Ticket(1), Some(Value(10)))]),
        Step::Stands(&[(MAIL, 0)]),
    ],
};

/// A poll that is told that the record of a read is gone: the log begins at 3. It finishes nothing.
const IS_GONE: Step = Step::Asks(
    Call::Poll,
    &[
        Ask::Load(MAIL),
        Ask::Load(31),
        Ask::Load(32),
        Ask::Load(33),
        Ask::Store(MAIL, 0),
        Ask::Done(Told::Polled(1)),
    ],
);

const GONE: &[(usize, u64)] = &[(31, 0), (32, 3), (33, 0), (MAIL, 2)];

/// A read whose record is gone is tried from its entry again: that leads below the begin, so the key is absent. From then on the session knows it.
const READ_GONE: Scene = Scene {
    is_of_one: false,
    phase: Phase::Rest,
    head: 5,
    read_only: 5,
    serial: 0,
    steps: &[
        Step::Stores(&[(SLOT, FIRST)]),
        Step::Tells(READ, Told::PendingRead(Ticket(1))),
        Step::Stores(GONE),
        IS_GONE,
        Step::Finishes(&[]),
        Step::Asks(Call::Poll, &[Ask::Load(SLOT), POLLED]),
        Step::Finishes(&[Finished::Read(Ticket(1), None)]),
        Step::Asks(READ, &[Ask::Load(SLOT), Ask::Done(Told::Absent)]),
        Step::Tells(ADD, Told::Done(Serial(1), Reply::Number(Value(5)))),
    ],
};

/// Its key was kept by a new record before the log began there.
const READ_GONE_OF_A_KEPT_KEY: Scene = Scene {
    is_of_one: false,
    phase: Phase::Rest,
    head: 5,
    read_only: 5,
    serial: 0,
    steps: &[
        Step::Stores(&[(SLOT, FIRST)]),
        Step::Tells(READ, Told::PendingRead(Ticket(1))),
        Step::Stores(&[(SLOT, FIFTH)]),
        Step::Stores(GONE),
        IS_GONE,
        Step::Tells(Call::Poll, Told::Polled(0)),
        Step::Finishes(&[Finished::Read(Ticket(1), Some(Value(20)))]),
    ],
};

/// An update whose record is gone is tried from its entry at once. From then on the session knows the begin too.
const UPDATE_GONE: Scene = Scene {
    is_of_one: false,
    phase: Phase::Rest,
    head: 5,
    read_only: 5,
    serial: 0,
    steps: &[
        Step::Stores(&[(SLOT, FIRST)]),
        Step::Tells(ADD, Told::Pending(Serial(1), Reason::Disk)),
        Step::Stores(GONE),
        Step::Tells(Call::Poll, Told::Polled(0)),
        Step::Finishes(&[Finished::Update(Serial(1), Reply::Number(Value(5)))]),
        Step::Stores(&[(SLOT, FIRST)]),
        Step::Asks(READ, &[Ask::Load(SLOT), Ask::Done(Told::Absent)]),
    ],
};

/// An update that finishes without the record that it asked for leaves it in the mailbox: each later poll looks for it, up to
/// the one that lets it go.
const MAIL_FOR_NOBODY: Scene = Scene {
    is_of_one: false,
    phase: Phase::Rest,
    head: 5,
    read_only: 5,
    serial: 0,
    steps: &[
        Step::Stores(&[(SLOT, FIRST)]),
        Step::Tells(ADD, Told::Pending(Serial(1), Reason::Disk)),
        Step::Stores(&[(SLOT, FIFTH)]),
        Step::Tells(Call::Poll, Told::Polled(0)),
        Step::Asks(Call::Poll, &[Ask::Load(MAIL), POLLED]),
        Step::Stores(&[(MAIL, 2)]),
        Step::Asks(Call::Poll, &[Ask::Load(MAIL), Ask::Store(MAIL, 0), POLLED]),
        Step::Asks(Call::Poll, &[POLLED]),
    ],
};

/// A read that asks for a record asks four times, and a refresh five times.
const COUNTED: Scene = Scene {
    is_of_one: false,
    phase: Phase::Rest,
    head: 5,
    read_only: 5,
    serial: 0,
    steps: &[
        Step::Stores(&[(SLOT, FIRST), (3, 8), (5, 5)]),
        Step::Tells(READ, Told::PendingRead(Ticket(1))),
        Step::Counts(4),
        Step::Tells(UPSERT, Told::Pending(Serial(1), Reason::NoRoom)),
        Step::Tells(Call::Poll, Told::Polled(2)),
        Step::Tells(Call::Refresh, REFRESHED),
        Step::Counts(5),
    ],
};

/// The tries of the updates of keys 8 and 9, each of which finds no room.
const TRY_OF_EIGHTH: &[Ask<Told>] = &[Ask::Load(104), Ask::Load(4), Ask::Load(3)];

const TRY_OF_NINTH: &[Ask<Told>] = &[Ask::Load(112), Ask::Load(4), Ask::Load(3)];

/// What a turn asks first: the epoch, and the session's.
const EPOCHS: &[Ask<Told>] = &[Ask::Load(0), Ask::Load(24)];

/// What it asks behind the first drain slot: the others, the tail and the read-only offset.
const BEHIND_FIRST_SLOT: &[Ask<Told>] = &[
    Ask::Load(17),
    Ask::Load(18),
    Ask::Load(19),
    Ask::Load(20),
    Ask::Load(21),
    Ask::Load(22),
    Ask::Load(23),
    Ask::Load(3),
    Ask::Load(5),
];

/// Seven updates fill the log. The turn stands behind the tries of the call in which one had no room, once, and nothing is tried
/// behind it.
const TURNS_BEHIND_THE_TRIES: Scene = Scene {
    is_of_one: true,
    phase: Phase::Rest,
    head: 1,
    read_only: 1,
    serial: 0,
    steps: &[
        Step::Fills(7),
        Step::AsksInParts(
            EIGHTH,
            &[
                TRY_OF_EIGHTH,
                EPOCHS,
                &[Ask::Max(1, 0), Ask::Load(16)],
                BEHIND_FIRST_SLOT,
                &[
                    Ask::Load(0),
                    Ask::Load(16),
                    Ask::Cas(16, 0, 1),
                    Ask::Max(5, 8),
                    Ask::Add(0, 1),
                    Ask::Put(0, Action::SafeReadOnly(Addr(8))),
                    Ask::Store(16, 3),
                    Ask::Load(4),
                    Ask::Load(9),
                    Ask::Done(NO_ROOM),
                ],
            ],
        ),
        Step::Tells(Call::Refresh, REFRESHED),
        Step::AsksInParts(
            Call::Poll,
            &[
                TRY_OF_EIGHTH,
                EPOCHS,
                &[
                    Ask::Max(1, 1),
                    Ask::Load(16),
                    Ask::Load(1),
                    Ask::Cas(16, 3, 1),
                    Ask::Take(0),
                    Ask::Max(6, 8),
                    Ask::Store(16, 0),
                ],
                BEHIND_FIRST_SLOT,
                &[Ask::Load(4), Ask::Load(9), Ask::Done(Told::Polled(1))],
            ],
        ),
        Step::Counts(22),
    ],
};

/// Two requests find no room in a poll, and one turn is made behind both. It opens the page, and both still wait; the next poll
/// finishes both, and makes none. In between the keeper has flushed, and moved the head.
const ONE_TURN_FOR_TWO: Scene = Scene {
    is_of_one: true,
    phase: Phase::Rest,
    head: 1,
    read_only: 1,
    serial: 7,
    steps: &[
        Step::Stores(&[(3, 8)]),
        Step::Tells(EIGHTH, NO_ROOM),
        Step::Tells(NINTH, Told::Pending(Serial(9), Reason::NoRoom)),
        Step::Tells(Call::Refresh, REFRESHED),
        Step::Stores(&[(0, 3), (1, 1), (6, 8), (7, 8), (8, 4), (16, 4)]),
        Step::Closes(4),
        Step::Tells(Call::Refresh, REFRESHED),
        Step::AsksInParts(
            Call::Poll,
            &[
                TRY_OF_EIGHTH,
                TRY_OF_NINTH,
                EPOCHS,
                &[
                    Ask::Max(1, 2),
                    Ask::Load(16),
                    Ask::Load(1),
                    Ask::Cas(16, 4, 1),
                    Ask::Take(0),
                    Ask::Max(9, 4),
                    Ask::Store(16, 0),
                ],
                BEHIND_FIRST_SLOT,
                &[
                    Ask::Load(4),
                    Ask::Load(9),
                    Ask::Cas(4, 8, 12),
                    Ask::Done(Told::Polled(2)),
                ],
            ],
        ),
        Step::Tells(Call::Poll, Told::Polled(0)),
        Step::Finishes(&[
            Finished::Update(Serial(8), Reply::Nothing),
            Finished::Update(Serial(9), Reply::Nothing),
        ]),
        Step::Counts(16),
    ],
};

const RESERVED: Call = Call::Op(Op::Add(KEY, u64::MAX));

const MAX: Call = Call::Op(Op::Max(KEY, 10));

const RESERVED_MERGE: Call = Call::Op(Op::Merge(KEY, Merge::Or, u64::MAX));

/// Its number is not looked at.
const KEEP: Call = Call::Op(Op::Merge(KEY, Merge::Keep, u64::MAX));

const DELETE: Call = Call::Op(Op::Delete(KEY));

/// The reserved value comes before the full list, and that before the spent serials.
const FULL_AND_SPENT: Scene = Scene {
    is_of_one: false,
    phase: Phase::Rest,
    head: 5,
    read_only: 5,
    serial: Serial::LAST,
    steps: &[
        Step::Stores(&[(SLOT, FIRST)]),
        Step::Refuses(&[
            (RESERVED, Fault::ValueReserved),
            (ADD, Fault::SerialsSpent),
            (MAX, Fault::SerialsSpent),
            (RESERVED_MERGE, Fault::ValueReserved),
            (KEEP, Fault::SerialsSpent),
            (Call::Wake, Fault::Awake),
        ]),
        Step::Waits(64),
        Step::Refuses(&[
            (RESERVED, Fault::ValueReserved),
            (ADD, Fault::PendingFull),
            (DELETE, Fault::PendingFull),
            (RESERVED_MERGE, Fault::ValueReserved),
            (KEEP, Fault::PendingFull),
            (READ, Fault::PendingFull),
            (Call::Sleep, Fault::PendingLeft),
            (Call::Wake, Fault::Awake),
        ]),
    ],
};

/// Who sleeps is refused as asleep whatever else is wrong, but its durable serial is told. Awake again it is refused as before.
const ASLEEP: Scene = Scene {
    is_of_one: false,
    phase: Phase::Rest,
    head: 1,
    read_only: 1,
    serial: Serial::LAST,
    steps: &[
        Step::Tells(READ, Told::Absent),
        Step::Tells(Call::Poll, Told::Polled(0)),
        Step::Tells(Call::Sleep, Told::Slept),
        Step::Stands(&[
            (EPOCH, 0),
            (EVEN_CUT, 0),
            (ODD_CUT, Serial::LAST + ONE),
            (OWING, 0),
        ]),
        Step::Refuses(&[
            (RESERVED, Fault::Asleep),
            (ADD, Fault::Asleep),
            (READ, Fault::Asleep),
            (Call::Refresh, Fault::Asleep),
            (Call::Poll, Fault::Asleep),
            (Call::Sleep, Fault::Asleep),
        ]),
        Step::Tells(Call::Durable, Told::Durable(Serial(0))),
        Step::Tells(Call::Wake, Told::Woken(Phase::Rest, Version(1))),
        Step::Refuses(&[(RESERVED, Fault::ValueReserved), (ADD, Fault::SerialsSpent)]),
    ],
};

const SCENES: [&Scene; 13] = [
    &SLEEPS,
    &TWO_PHASES,
    &SHIFTS,
    &READS_BY_MAIL,
    &MAIL_FOR_NOBODY,
    &READ_GONE,
    &READ_GONE_OF_A_KEPT_KEY,
    &UPDATE_GONE,
    &COUNTED,
    &TURNS_BEHIND_THE_TRIES,
    &ONE_TURN_FOR_TWO,
    &FULL_AND_SPENT,
    &ASLEEP,
];

#[test]
fn scenes_are_played(rt: HostRuntime) -> Result<(), Fail> {
    for scene in SCENES {
        play(&rt, rt.alloc(), scene)?;
    }
    Ok(())
}

/// The session that waits for its update, up to the poll in prepare that finishes it.
const WAITS: [Step; 8] = [
    Step::Stores(&[(SLOT, FIRST), (5, 5)]),
    Step::Tells(ADD, Told::Pending(Serial(1), Reason::Fuzzy)),
    Step::Stores(&[(2, PREPARE)]),
    Step::Tells(Call::Refresh, Told::Refreshed(Phase::Prepare, Version(1))),
    Step::Stands(&[(LATCH, ONE)]),
    Step::Stores(&[(6, 5)]),
    Step::Tells(Call::Poll, Told::Polled(0)),
    Step::Stands(&[(LATCH, 0)]),
];

/// The other session, which copies its record.
const COPIES: [Step; 3] = [
    Step::Stores(&[(2, IN_PROGRESS)]),
    Step::Tells(
        Call::Refresh,
        Told::Refreshed(Phase::InProgress, Version(2)),
    ),
    Step::Tells(
        Call::Op(Op::Add(KEY, 100)),
        Told::Done(Serial(1), Reply::Number(Value(115))),
    ),
];

/// A poll in prepare drops the latch of the update that it finishes, so a session of the next version copies its record.
#[test]
fn poll_drops_latch(rt: HostRuntime) -> Result<(), Fail> {
    let mut plane = words(rt.alloc())?;
    let mut session = Session::new(shape()?, 0, seen(Phase::Rest, 1, 5), Serial(0), Addr(1));
    all_play(&rt, &mut plane, &mut session, &WAITS);
    let mut other = Session::new(shape()?, 1, seen(Phase::Prepare, 1, 5), Serial(0), Addr(1));
    all_play(&rt, &mut plane, &mut other, &COPIES);
    Ok(())
}

/// What a sleep in one phase and a wake in the next one leave: the phase word of the wake, what it is told, and the session's epoch,
/// its cut words and what it owes, asleep and awake.
const PHASES: [PhaseRow; 7] = [
    (PREPARE, Phase::Prepare, 1, [0, 0, 1 + ONE, 7], [1, 0, 0, 7]),
    (
        IN_PROGRESS,
        Phase::InProgress,
        2,
        [0, 0, 2 + ONE, 7],
        [1, 0, 2 + ONE, 0],
    ),
    (
        2 + (3 << 16),
        Phase::WaitPending,
        2,
        [0, 3 + 2 * ONE, 0, 7],
        [1, 0, 0, 7],
    ),
    (
        2 + (4 << 16),
        Phase::WaitFlush,
        2,
        [0, 4 + 2 * ONE, 0, 7],
        [1, 0, 0, 7],
    ),
    (2, Phase::Rest, 2, [0, 5 + 2 * ONE, 0, 7], [1, 0, 0, 7]),
    (
        3,
        Phase::Rest,
        3,
        [0, 6 + 2 * ONE, 0, 7],
        [1, 6 + 2 * ONE, 0, 0],
    ),
    (
        5,
        Phase::Rest,
        5,
        [0, 0, 7 + 3 * ONE, 7],
        [1, 7 + 4 * ONE, 0, 0],
    ),
];

/// In the store of one session, the latch of the bucket of key 8.
const EIGHTH_LATCH: usize = 111;

/// The session has stored no cut word, and owes seven.
const NO_MARKS: [(usize, u64); 3] = [(EVEN_CUT, 0), (ODD_CUT, 0), (OWING, 7)];

/// The call is told this, and leaves these marks.
fn leaves(
    rt: &impl Abort,
    plane: &mut PlainWords,
    session: &mut Session,
    call: Call,
    wanted: Told,
    left: [u64; 4],
) {
    store(plane, &NO_MARKS);
    assert!(rt; told(plane, session, call) == Some(wanted));
    for (place, word) in [EPOCH, EVEN_CUT, ODD_CUT, OWING].iter().zip(left) {
        assert!(rt; plane.word(*place) == word, "at place {place}");
    }
}

type PhaseRow = (u64, Phase, u64, [u64; 4], [u64; 4]);

/// A session sleeps in each phase behind an update, and wakes in the next one. Asleep it has stored where its own version ends; awake,
/// where the version before ends and that none is owed, just where the version has changed: also where it has slept through a commit.
fn sleeps(rt: &impl Abort, plane: &mut PlainWords, session: &mut Session, row: PhaseRow) {
    let (word, phase, version, asleep, awake) = row;
    let _ = told(plane, session, EIGHTH);
    leaves(rt, plane, session, Call::Sleep, Told::Slept, asleep);
    store(plane, &[(2, word)]);
    let woken = Told::Woken(phase, Version(version));
    leaves(rt, plane, session, Call::Wake, woken, awake);
    assert!(rt; plane.word(EIGHTH_LATCH) == 0);
}

#[test]
fn a_session_sleeps_in_each_phase(rt: HostRuntime) -> Result<(), Fail> {
    let mut plane = words_of_one(rt.alloc())?;
    let mut session = Session::new(
        shape_of_one()?,
        0,
        seen(Phase::Rest, 1, 1),
        Serial(0),
        Addr(1),
    );
    for row in PHASES {
        sleeps(&rt, &mut plane, &mut session, row);
    }
    Ok(())
}
