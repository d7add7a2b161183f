//! Two stores that are given the same events: the operations, refreshes and polls of one go straight, and the machine makes those of the other.
use crate::meetings::{Meetings, Parts, Trace};
use crate::rivals::{Rival, mark_of};
use crate::scripts::{Draws, Event};
use crate::sides::{Begun, Way, begin, begin_by_machine, begin_hot, end};
use crate::stores::Store;
use crate::wrongs::Wrong;
use fkv_base::{Addr, Phase, Shape, Value, Version};
use fkv_map::{Call, Op};
use fkv_ops::{Bounds, Seen};
use fkv_plane::{Places, PlainWords, SharedWord};
use fkv_session::{Session, Told};
use fkv_straight::StraightSession;
use std::alloc::Global;
use std::process::Abort;

/// How operations went, and what they met.
#[derive(Clone, Copy)]
pub(crate) struct Ways {
    /// Straight to their end.
    pub(crate) straight: Meetings,
    /// Those of them that are done in their hot part.
    pub(crate) hot: Meetings,
    /// Straight up to something unusual, and on by the machine.
    pub(crate) handed_over: Meetings,
    /// By the machine from the start on.
    pub(crate) by_machine: Meetings,
    /// Refreshes that went straight, by the phase that they came to.
    pub(crate) refreshed: Meetings,
    /// Polls that went straight to their end, by the phase that the session had seen.
    pub(crate) polled: Meetings,
    /// Polls that went straight up to something unusual, by that phase.
    pub(crate) polled_on: Meetings,
}

impl Ways {
    pub(crate) fn new() -> Ways {
        Ways {
            straight: Meetings::new(),
            hot: Meetings::new(),
            handed_over: Meetings::new(),
            by_machine: Meetings::new(),
            refreshed: Meetings::new(),
            polled: Meetings::new(),
            polled_on: Meetings::new(),
        }
    }

    /// Counts a call, where it is an operation, a refresh or a poll.
    fn add(&mut self, way: Way, call: Call, seen: Seen, trace: &Trace, told: Told) {
        match call {
            Call::Op(op) => self.add_op(way, op, seen, trace, told),
            Call::Refresh => {
                if let (Way::Straight, Told::Refreshed(phase, _)) = (way, told) {
                    self.refreshed.add_phase(phase);
                }
            }
            Call::Poll => self.add_poll(way, seen.phase, trace),
            _ => {}
        }
    }

    fn add_op(&mut self, way: Way, op: Op, seen: Seen, trace: &Trace, told: Told) {
        match way {
            Way::Hot => {
                self.hot.add(op, seen, trace, told);
                self.straight.add(op, seen, trace, told);
            }
            Way::Straight => self.straight.add(op, seen, trace, told),
            Way::HandedOver => self.handed_over.add(op, seen, trace, told),
            Way::Machine => self.by_machine.add(op, seen, trace, told),
        }
    }

    fn add_poll(&mut self, way: Way, phase: Phase, trace: &Trace) {
        match way {
            Way::Straight => self.polled.add_poll(phase, trace),
            Way::HandedOver => self.polled_on.add_poll(phase, trace),
            Way::Hot | Way::Machine => {}
        }
    }

    /// How many operations went.
    pub(crate) fn all(&self) -> u64 {
        let begun_straight = self.straight.all.wrapping_add(self.handed_over.all);
        begun_straight.wrapping_add(self.by_machine.all)
    }
}

/// Both stores, with their sessions.
#[derive(Drop)]
pub(crate) struct Twins {
    straight: Store,
    sessions: Vec<StraightSession>,
    machine: Store,
    machines: Vec<Session>,
    places: Places,
    bounds: Option<Bounds>,
    /// Records below it were aged, where they were in memory.
    aged: Addr,
    /// Records below it are gone, and so many were asked for.
    begin: u64,
    gone: u64,
    /// Whether an operation begins by its hot part now: at each second call it does.
    is_hot: bool,
}

impl Twins {
    /// Two new stores of this shape, which begin at a commit of this number.
    pub(crate) fn open(alloc: Global, shape: Shape, number: u64) -> Result<Twins, Wrong> {
        let (straight, opened) = Store::open(alloc, shape, number)?;
        let (machine, machines) = Store::open(alloc, shape, number)?;
        Ok(Twins {
            straight,
            sessions: straight_sessions(alloc, opened)?,
            machine,
            machines,
            places: Places::of(&shape),
            bounds: Bounds::of(&shape),
            aged: Addr(0),
            begin: 0,
            gone: 0,
            is_hot: false,
        })
    }

    /// The version that the first session has seen, at rest of all. None where a session isn't there yet.
    pub(crate) fn rests(&self) -> Option<Version> {
        for session in self.machines.iter() {
            if session.seen().phase != Phase::Rest {
                return None;
            }
        }
        self.machines.first().map(|session| session.seen().version)
    }

    /// In both stores the records that are in memory and on the device become as if a version with this one's mark had made them.
    pub(crate) fn age(&mut self, version: Version) {
        let mark = mark_of(version);
        let _ = self.straight.age(&self.places, mark);
        self.aged = self.machine.age(&self.places, mark);
    }

    /// From now on the records are gone that aren't in memory.
    pub(crate) fn rise(&mut self) {
        self.begin = self.straight.word(SharedWord::Head);
    }

    /// How many records were gone that mailboxes had asked for.
    pub(crate) fn gone(&self) -> u64 {
        self.gone
    }

    /// The session of this number makes a call in both. A rival leaves the value in both, if there is one.
    fn call<R: Abort>(
        &mut self,
        rt: &R,
        number: usize,
        call: Call,
        value: Option<Value>,
        ways: &mut Ways,
    ) -> Result<(), Wrong> {
        let (Some(session), Some(machine)) = (
            self.sessions.get_mut(number),
            self.machines.get_mut(number),
        ) else {
            return Err(Wrong::NoSession);
        };
        let seen = machine.seen();
        let parts = Parts::of(&self.places, number);
        let mut trace = Trace::new(parts, seen, self.bounds, self.aged);
        let rival = rival_of(self.places, seen, value);
        let words = &mut self.straight.words;
        let Begun { way, steps, ask } = begin_by(rt, words, rival, session, call, self.is_hot);
        let others = &mut self.machine.words;
        let reached = begin_by_machine(others, rival, machine, call, steps, &mut trace);
        let told = end(
            rival,
            &mut self.straight.words,
            session,
            ask,
            &mut self.machine.words,
            machine,
            reached,
            &mut trace,
        )?;
        agree(session, machine)?;
        ways.add(way, call, seen, &trace, told);
        Ok(())
    }

    /// Each word of both is the same, and both keepers are in a call or neither is.
    fn compare(&self) -> Result<(), Wrong> {
        for place in 0..self.places.word_count() {
            if self.straight.words.word(place) != self.machine.words.word(place) {
                return Err(Wrong::Words);
            }
        }
        if self.straight.is_busy() == self.machine.is_busy() {
            Ok(())
        } else {
            Err(Wrong::Keepers)
        }
    }

    /// Gives both this event, and compares them behind it.
    pub(crate) fn play<R: Abort>(
        &mut self,
        rt: &R,
        event: Event,
        ways: &mut Ways,
    ) -> Result<(), Wrong> {
        let gone = self.straight.lose_below(&self.places, self.begin);
        let _ = self.machine.lose_below(&self.places, self.begin);
        self.gone = self.gone.wrapping_add(gone);
        match event {
            Event::Call(number, call, value) => {
                self.is_hot = !self.is_hot;
                self.call(rt, number, call, value, ways)?;
            }
            _ => {
                keep(&mut self.straight, event);
                keep(&mut self.machine, event);
            }
        }
        self.compare()
    }
}

/// Both have finished the same requests, and given the same last serial.
fn agree(session: &StraightSession, machine: &Session) -> Result<(), Wrong> {
    if session.finished() != machine.finished() {
        Err(Wrong::Finished)
    } else if session.serial() != machine.serial() {
        Err(Wrong::Serials)
    } else {
        Ok(())
    }
}

/// Begins a call straight: an operation's by its hot part, if that is wanted and there is one.
fn begin_by<R: Abort>(
    rt: &R,
    words: &mut PlainWords,
    rival: Option<Rival>,
    session: &mut StraightSession,
    call: Call,
    is_hot: bool,
) -> Begun {
    if let (true, Call::Op(op)) = (is_hot, call) {
        if let Some(begun) = begin_hot(rt, words, rival, session, op) {
            return begun;
        }
    }
    begin(rt, words, rival, session, call)
}

/// The rival that leaves this value, in the version that the call's session has seen.
fn rival_of(places: Places, seen: Seen, value: Option<Value>) -> Option<Rival> {
    match value {
        Some(value) => Some(Rival {
            places,
            version: seen.version,
            value,
        }),
        None => None,
    }
}

/// The sessions, by calls that may go straight.
fn straight_sessions(alloc: Global, opened: Vec<Session>) -> Result<Vec<StraightSession>, Wrong> {
    let mut sessions = Vec::new(alloc);
    for session in opened {
        if sessions.push(StraightSession::new(session)).is_err() {
            return Err(Wrong::NoMemory);
        }
    }
    Ok(sessions)
}

/// What the keeper does in a store.
fn keep(store: &mut Store, event: Event) {
    match event {
        Event::Turn(steps) => {
            store.begin_turn();
            store.move_keeper(steps);
        }
        Event::Move(steps) => store.move_keeper(steps),
        Event::Commit(kind) => {
            store.begin_commit(kind);
            store.move_keeper(u64::MAX);
        }
        Event::Call(_, _, _) => {}
    }
}

/// Plays events over two stores until so many operations went.
pub(crate) fn play<R: Abort>(
    rt: &R,
    twins: &mut Twins,
    draws: &mut Draws,
    operations: u64,
    ways: &mut Ways,
) -> Result<(), Wrong> {
    let until = ways.all().wrapping_add(operations);
    for _ in 0..u64::MAX {
        if ways.all() >= until {
            return Ok(());
        }
        twins.play(rt, draws.next(), ways)?;
    }
    Ok(())
}
