//! Whole answers of a session, and its two machines by themselves.
use crate::store::{EPOCH, OTHER, READ, UPSERT, seen, shape, stands, store, words};
use fkv_base::{Addr, Fault, Phase, Serial, Value};
use fkv_map::{Call, HistoryEntry, Op, Reply};
use fkv_ops::Reason;
use fkv_pending::PendingList;
use fkv_plane::{Action, Ask, Places, PlainWords};
use fkv_session::{
    Answer, CatchUp, OwnTurn, Session, law_of_asks, law_of_cuts, law_of_latches, law_of_reads,
    law_of_refusals, law_of_replies, law_of_requests, law_sessions,
};
use std::process::Abort;
use std::test::Fail;

/// Goes on with the reply to this ask.
fn drive(plane: &mut PlainWords, session: &mut Session, ask: Ask<Answer>) -> Ask<Answer> {
    match ask {
        Ask::Put(slot, action) => {
            let _ = plane.put(slot, action);
            session.drive(0)
        }
        Ask::Take(slot) => match plane.take(slot) {
            Some(action) => session.given(action),
            None => session.drive(0),
        },
        other => session.drive(plane.perform(&other)),
    }
}

/// Moves a call to its end by whole answers, and gives the effect that was told last.
fn answer(
    plane: &mut PlainWords,
    session: &mut Session,
    call: Call,
) -> (Option<Answer>, Option<HistoryEntry>) {
    let mut effect = None;
    let mut ask = session.start(call);
    for _ in 0..200 {
        ask = match ask {
            Ask::Done(answer) => return (Some(answer), effect),
            other => drive(plane, session, other),
        };
        effect = session.effect().or(effect);
    }
    (None, effect)
}

/// The call is answered so, without an effect.
fn answers(
    rt: &impl Abort,
    plane: &mut PlainWords,
    session: &mut Session,
    call: Call,
    wanted: Answer,
) {
    let (answered, effect) = answer(plane, session, call);
    assert!(rt; answered == Some(wanted));
    assert!(rt; effect == None);
}

/// An update that has begun is begun again, and takes effect.
fn takes_effect(rt: &impl Abort, plane: &mut PlainWords, session: &mut Session) {
    let _ = session.start(UPSERT);
    assert!(rt; session.busy());
    let (answered, effect) = answer(plane, session, UPSERT);
    assert!(rt; answered == Some(Answer::Done(Serial(1), Reply::Nothing)));
    let made = HistoryEntry {
        session: 0,
        serial: Serial(1),
        op: Op::Upsert(OTHER, Value(40)),
        reply: Reply::Nothing,
    };
    assert!(rt; effect == Some(made));
}

/// What a session shows of itself behind its first update.
fn has_one_serial(rt: &impl Abort, session: &Session) {
    assert!(rt; !session.busy());
    assert!(rt; session.serial() == Serial(1));
    assert!(rt; session.asks() == 8);
}

/// A read finds what the update has left.
fn reads_find(rt: &impl Abort, plane: &mut PlainWords, session: &mut Session) {
    let found = Answer::Found(Value(40));
    answers(rt, plane, session, Call::Op(Op::Read(OTHER)), found);
    answers(rt, plane, session, READ, Answer::Absent);
}

fn operations_are_answered(rt: &impl Abort, plane: &mut PlainWords) -> Result<(), Fault> {
    let mut session = Session::new(shape()?, 0, seen(Phase::Rest, 1, 1), Serial(0), Addr(1));
    takes_effect(rt, plane, &mut session);
    has_one_serial(rt, &session);
    reads_find(rt, plane, &mut session);
    Ok(())
}

/// The words of a full log whose head and read-only offset have moved on, with an action that is safe by now.
const FULL: [(usize, u64); 9] = [
    (0, 2),
    (EPOCH, 2),
    (40, 2),
    (3, 8),
    (5, 4),
    (7, 8),
    (8, 4),
    (9, 4),
    (16, 3),
];

/// What stands behind the turn that opens a page.
const OPENED: [(usize, u64); 8] = [
    (4, 12),
    (5, 8),
    (6, 4),
    (7, 8),
    (8, 4),
    (9, 4),
    (0, 3),
    (16, 4),
];

/// An update that finds no room waits. Its session runs what is armed and safe, shifts the read-only offset and opens a page. The head
/// stays.
fn opens_a_page(rt: &impl Abort, plane: &mut PlainWords, session: &mut Session) {
    store(plane, &FULL);
    let _ = plane.put(0, Action::SafeReadOnly(Addr(4)));
    let wanted = Answer::Pending(Serial(1), Reason::NoRoom);
    answers(rt, plane, session, UPSERT, wanted);
    stands(rt, plane, &OPENED);
    assert!(rt; plane.take(0) == Some(Action::SafeReadOnly(Addr(8))));
}

/// The next poll finishes it.
fn finishes_its_update(rt: &impl Abort, plane: &mut PlainWords, session: &mut Session) {
    let (answered, effect) = answer(plane, session, Call::Poll);
    assert!(rt; matches!(answered, Some(Answer::Polled(_, 0))));
    assert!(rt; effect.map(|made| made.serial) == Some(Serial(1)));
    assert!(rt; session.finished().len() == 1);
}

fn who_has_no_room_opens_a_page(rt: &impl Abort, plane: &mut PlainWords) -> Result<(), Fault> {
    let mut session = Session::new(shape()?, 0, seen(Phase::Rest, 4, 4), Serial(0), Addr(1));
    opens_a_page(rt, plane, &mut session);
    finishes_its_update(rt, plane, &mut session);
    Ok(())
}

#[test]
fn calls_are_answered(rt: HostRuntime) -> Result<(), Fail> {
    operations_are_answered(&rt, &mut words(rt.alloc())?)?;
    who_has_no_room_opens_a_page(&rt, &mut words(rt.alloc())?)?;
    Ok(())
}

/// A session that catches up, by a refresh or a wake, goes by what it has loaded.
fn catches_up(
    rt: &impl Abort,
    plane: &mut PlainWords,
    machine: &mut CatchUp,
    requests: &mut PendingList,
    is_refresh: bool,
) {
    let was = seen(Phase::Rest, 1, 1);
    let mut ask = if is_refresh {
        machine.refresh(was, Serial(0))
    } else {
        machine.wake(was, Serial(0))
    };
    assert!(rt; machine.seen() == was);
    for _ in 0..5 {
        ask = machine.drive(requests, plane.perform(&ask));
    }
    assert!(rt; ask == Ask::Done(()));
    assert!(rt; machine.seen() == seen(Phase::Rest, 4, 8));
}

#[test]
fn a_session_catches_up(rt: HostRuntime) -> Result<(), Fail> {
    let mut plane = words(rt.alloc())?;
    let mut requests = PendingList::new();
    let shape = shape()?;
    let mut machine = CatchUp::new(Places::of(&shape), shape.bucket_bits, 0);
    assert!(rt; machine.ask(&requests) == Ask::Done(()));
    store(&mut plane, &[(5, 8), (8, 4)]);
    catches_up(&rt, &mut plane, &mut machine, &mut requests, true);
    catches_up(&rt, &mut plane, &mut machine, &mut requests, false);
    Ok(())
}

/// A turn of a session that finds nothing to do but to look.
fn looks(rt: &impl Abort, plane: &mut PlainWords, machine: &mut OwnTurn) {
    assert!(rt; machine.ask() == Ask::Done(()));
    let mut ask = machine.start();
    for _ in 0..40 {
        ask = match ask {
            Ask::Take(_) => machine.given(Action::SafeReadOnly(Addr(4))),
            other => machine.drive(plane.perform(&other)),
        };
    }
    assert!(rt; ask == Ask::Done(()));
    assert!(rt; [plane.word(1), plane.word(6), plane.word(16)] == [1, 4, 0]);
}

#[test]
fn an_own_turn_looks(rt: HostRuntime) -> Result<(), Fail> {
    let mut plane = words(rt.alloc())?;
    store(&mut plane, &[(0, 2), (EPOCH, 2), (40, 2), (5, 8), (16, 3)]);
    let mut machine = OwnTurn::new(shape()?);
    looks(&rt, &mut plane, &mut machine);
    Ok(())
}

/// A law does nothing when it is called.
#[test]
fn laws_can_be_called(_rt: HostRuntime) {
    law_of_asks();
    law_of_cuts();
    law_of_latches();
    law_of_reads();
    law_of_refusals();
    law_of_replies();
    law_of_requests();
    law_sessions();
}
