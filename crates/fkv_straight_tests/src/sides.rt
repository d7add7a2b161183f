//! One call, in a store whose operations, refreshes and polls go straight and in one where the machine makes them.
use crate::actors::step;
use crate::meetings::Trace;
use crate::plain_lines::PlainLine;
use crate::rivals::{Rival, be_quicker};
use crate::wrongs::Wrong;
use fkv_map::{Call, Op};
use fkv_plane::{Ask, PlainWords};
use fkv_session::{Session, Told};
use fkv_straight::{Hot, Line, StraightSession, Went};
use std::process::Abort;

/// How a call has begun.
#[derive(Clone, Copy)]
pub(crate) enum Way {
    /// Straight, to its end, all of it in the hot part.
    Hot,
    /// Straight, to its end.
    Straight,
    /// Straight, up to something unusual: the machine goes on.
    HandedOver,
    /// By the machine.
    Machine,
}

/// How a call has begun, how many steps were made, and what is asked then or was told.
#[derive(Drop)]
pub(crate) struct Begun {
    pub(crate) way: Way,
    pub(crate) steps: usize,
    pub(crate) ask: Ask<Told>,
}

/// Begins an operation's call by its hot part, and goes on with what that leaves. None if it has none: then it has made no step.
pub(crate) fn begin_hot<R: Abort>(
    rt: &R,
    words: &mut PlainWords,
    rival: Option<Rival>,
    session: &mut StraightSession,
    op: Op,
) -> Option<Begun> {
    let mut line = PlainLine::new(rt, words, rival, session);
    let went = session.run_hot(&mut line, op);
    let (way, ask) = match went {
        Hot::Ended(told) => (Way::Hot, Ask::Done(told)),
        Hot::Left(due) => {
            let ended = session.run_due(&mut line, op, due);
            match ended {
                Some(told) => (Way::Straight, Ask::Done(told)),
                None => (Way::HandedOver, session.catch_up(&line, Call::Op(op))),
            }
        }
        Hot::Stayed => return None,
    };
    let steps = line.replies().len();
    Some(Begun { way, steps, ask })
}

/// Begins a call, and makes its steps as far as it goes straight. The machine goes on from there, or makes all of it.
pub(crate) fn begin<R: Abort>(
    rt: &R,
    words: &mut PlainWords,
    rival: Option<Rival>,
    session: &mut StraightSession,
    call: Call,
) -> Begun {
    let mut line = PlainLine::new(rt, words, rival, session);
    let went = session.run(&mut line, call);
    let steps = line.replies().len();
    match went {
        Went::Ended(told) => Begun {
            way: Way::Straight,
            steps,
            ask: Ask::Done(told),
        },
        Went::Stopped => Begun {
            way: Way::HandedOver,
            steps,
            ask: session.catch_up(&line, call),
        },
        Went::Stayed => Begun {
            way: Way::Machine,
            steps,
            ask: session.begin(call),
        },
    }
}

/// Begins a call by the machine, and makes so many of its steps. The rival makes its own before them, as in the other store.
pub(crate) fn begin_by_machine(
    words: &mut PlainWords,
    rival: Option<Rival>,
    machine: &mut Session,
    call: Call,
    steps: usize,
    trace: &mut Trace,
) -> Ask<Told> {
    let mut ask = machine.begin(call);
    for _ in 0..steps {
        trace.note(words, &ask);
        be_quicker(rival, words, &ask);
        ask = step(words, machine, &ask);
    }
    ask
}

/// More asks than a call makes.
const MOST_ASKS: u64 = 1 << 20;

/// Both make their steps up to the call's end: each asks what the other asks. Gives what they were told.
pub(crate) fn end(
    rival: Option<Rival>,
    words: &mut PlainWords,
    session: &mut StraightSession,
    asked: Ask<Told>,
    others: &mut PlainWords,
    machine: &mut Session,
    ask: Ask<Told>,
    trace: &mut Trace,
) -> Result<Told, Wrong> {
    let mut asked = asked;
    let mut ask = ask;
    for _ in 0..MOST_ASKS {
        if asked != ask {
            return Err(Wrong::Asks);
        }
        if let Ask::Done(told) = ask {
            return Ok(told);
        }
        trace.note(others, &ask);
        be_quicker(rival, words, &asked);
        asked = step(words, session, &asked);
        be_quicker(rival, others, &ask);
        ask = step(others, machine, &ask);
    }
    Err(Wrong::Endless)
}
