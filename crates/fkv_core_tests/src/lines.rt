//! Lines of a script, and what each is to be answered.
use arrayvec::ArrayVec;
use fkv_base::{CommitKind, Key, MAX_PENDING, Phase, Serial, Value, Version};
use fkv_core::{Actor, Event, Told};
use fkv_keeper::{MAX_POINTS, Turn};
use fkv_map::{Call, Op, Reply};
use fkv_ops::Reason;
use fkv_session::{Answer, Finished};
use fkv_words::{PhaseSaid, phase_said};

/// A call of a session, whose number comes first, or of the keeper.
#[derive(Clone, Copy)]
pub(crate) enum Line {
    Up(usize, u64, u64),
    Add(usize, u64, u64),
    Get(usize, u64),
    Refresh(usize),
    Poll(usize),
    Sleep(usize),
    Wake(usize),
    Commit,
    LogCommit,
    Turn,
    /// Refreshes and polls of all sessions, and turns, up to the one that finishes the commit that runs.
    Finish,
}

/// What a line is answered.
#[derive(Clone, Copy)]
pub(crate) enum Says {
    /// The update of this serial is done.
    Done(u64),
    /// It is, and leaves this value.
    Leaves(u64, u64),
    /// It waits, for this reason.
    Waits(u64, Reason),
    Found(u64),
    /// What a refresh shows: the phase and the version.
    Sees(Phase, u64),
    /// A poll has finished an update, and nothing waits.
    LateDone(u64),
    /// A turn is over, and the store is in this phase and version.
    At(Phase, u64),
    /// The commit of this number has begun.
    Begun(u64),
    /// It is finished, with the points of two sessions.
    Kept(u64, u64, u64),
    /// Nothing is told.
    Nothing,
}

/// The event in which the line's call begins.
pub(crate) fn beginning(line: Line) -> Event {
    match line {
        Line::Up(session, key, value) => operation(session, Op::Upsert(Key(key), Value(value))),
        Line::Add(session, key, number) => operation(session, Op::Add(Key(key), number)),
        Line::Get(session, key) => operation(session, Op::Read(Key(key))),
        Line::Refresh(session) => Event::Call(session, Call::Refresh),
        Line::Poll(session) => Event::Call(session, Call::Poll),
        Line::Sleep(session) => Event::Call(session, Call::Sleep),
        Line::Wake(session) => Event::Call(session, Call::Wake),
        Line::Commit => Event::Commit(CommitKind::Full),
        Line::LogCommit => Event::Commit(CommitKind::Log),
        Line::Turn | Line::Finish => Event::Turn,
    }
}

fn operation(session: usize, op: Op) -> Event {
    Event::Call(session, Call::Op(op))
}

/// The event that moves the actor whose call has begun by this one.
pub(crate) fn moving(begins: Event) -> Event {
    match begins {
        Event::Call(session, _) => Event::Move(session),
        _ => Event::KeeperMove,
    }
}

/// Who moves in the call that this event begins.
pub(crate) fn actor(begins: Event) -> Actor {
    match begins {
        Event::Call(session, _) => Actor::Session(session),
        _ => Actor::Keeper,
    }
}

/// What the engine tells where the line whose call this event begins says this.
pub(crate) fn told(begins: Event, says: Says) -> Option<Told> {
    match begins {
        Event::Call(session, _) => Some(Told::Session(session, answer(says)?)),
        _ => keeper_told(says),
    }
}

/// Whether this is the word of the phase behind the line.
pub(crate) fn is_phase(says: Says, word: u64) -> bool {
    match (says, phase_said(word)) {
        (Says::At(phase, version), PhaseSaid::Says(its_phase, its_version)) => {
            its_phase == phase && its_version.0 == version
        }
        (Says::At(_, _), PhaseSaid::Spoiled) => false,
        _ => true,
    }
}

/// What a session answers.
fn answer(says: Says) -> Option<Answer> {
    let answer = match says {
        Says::Done(serial) => Answer::Done(Serial(serial), Reply::Nothing),
        Says::Leaves(serial, value) => Answer::Done(Serial(serial), Reply::Number(Value(value))),
        Says::Waits(serial, why) => Answer::Pending(Serial(serial), why),
        Says::Found(value) => Answer::Found(Value(value)),
        Says::Sees(phase, version) => Answer::Refreshed(phase, Version(version)),
        Says::LateDone(serial) => late(Finished::Update(Serial(serial), Reply::Nothing)),
        _ => return None,
    };
    Some(answer)
}

/// A poll that has finished this request, behind which nothing waits.
fn late(finished: Finished) -> Answer {
    let mut all: ArrayVec<Finished, MAX_PENDING> = ArrayVec::new();
    let _ = all.try_push(finished);
    Answer::Polled(all, 0)
}

/// What the keeper tells.
fn keeper_told(says: Says) -> Option<Told> {
    match says {
        Says::At(_, _) => turned(None),
        Says::Begun(number) => Some(Told::Commit(Ok(Version(number)))),
        Says::Kept(number, first, second) => turned(Some(kept(number, first, second))),
        _ => None,
    }
}

/// A turn that has finished this commit, if one.
pub(crate) fn turned(finished: Option<fkv_keeper::Finished>) -> Option<Told> {
    let drain_full = false;
    Some(Told::Turn(Ok(Turn {
        finished,
        drain_full,
    })))
}

/// The commit of this number, with these points.
fn kept(number: u64, first: u64, second: u64) -> fkv_keeper::Finished {
    let mut points: ArrayVec<Serial, MAX_POINTS> = ArrayVec::new();
    let _ = points.try_push(Serial(first));
    let _ = points.try_push(Serial(second));
    fkv_keeper::Finished {
        number: Version(number),
        points,
    }
}
