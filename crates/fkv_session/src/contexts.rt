//! What a session's calls go by, and how far the one in hand has come: FASTER's execution context.
ghost use Rattle.std.specs.Prelude.{◌≡◌, ◌<◌, ◌≤◌, ◌+◌, ◌*◌, ◌^◌, None, false, length};
ghost use Rattle.fkv_base.specs.Limits.{max_pending, max_sessions, last_serial};
ghost use Rattle.fkv_session.specs.AsksLeft.{session_asks_left, call_bound};
ghost use Rattle.fkv_session.specs.declared.answers.Told.TheVariants.{Slept};
ghost use Rattle.fkv_session.specs.declared.sessions.Sitting.TheVariants.{Idle, Turns};
ghost use Rattle.fkv_session.specs.Sessions.{session_begun, session_ask, sitting_next, sitting_given, asks_after, is_busy, nothing_polled, read_polled, read_waiting, refreshed, request_polled, update_polled, update_waiting, IsOpened};

use crate::answers::{Finished, Told};
use crate::catching_up::CatchUp;
use crate::leading::{request_of, ticket_after};
use crate::own_turns::OwnTurn;
use crate::sessions::Sitting;
use arrayvec::ArrayVec;
use fkv_base::{Addr, Key, MAX_PENDING, Serial, Shape, Value};
use fkv_epoch::Leave;
use fkv_map::{Call, HistoryEntry, Op, Reply};
use fkv_ops::{DiskRecord, Seen};
use fkv_pending::{Attempt, Mail, PendingList, PendingRequest, RequestName, Ticket};
use fkv_plane::{Action, Ask, Places};
use std::marker::Model;

/// What a session's calls go by, with the machines inside it. Each of its steps gives what is asked next.
#[derive(Drop)]
pub(crate) struct Context {
    pub(crate) places: Places,
    pub(crate) shape: Shape,
    pub(crate) number: usize,
    pub(crate) seen: Seen,
    pub(crate) serial: u64,
    pub(crate) ticket: u64,
    pub(crate) floor: Addr,
    pub(crate) requests: PendingList,
    pub(crate) is_orphaned: bool,
    pub(crate) spare: u64,
    pub(crate) is_awake: bool,
    pub(crate) wants_turn: bool,
    pub(crate) asks: u64,
    pub(crate) effect: Option<HistoryEntry>,
    pub(crate) finished: ArrayVec<Finished, MAX_PENDING>,
    pub(crate) op: Op,
    pub(crate) catch: CatchUp,
    pub(crate) mail: Mail,
    pub(crate) attempt: Attempt,
    pub(crate) leave: Leave,
    pub(crate) own_turn: OwnTurn,
    pub(crate) step: Sitting,
}

impl Model for Context {
    ghost use Rattle.std.specs.Prelude.{◌≡◌, ◌<◌, ◌≤◌, ◌*◌, length};
    ghost use Rattle.fkv_base.specs.Limits.{max_sessions, max_pending, last_serial};
    ghost use Rattle.fkv_session.specs.Sessions.{Sitter, Seat, SessionState, IsStepInRange};

    ghost Value = { Sitter };

    ghost view = { λ m. record { seat = record { places = m.places; shape = m.shape; number = m.number }; state = record { seen = m.seen; serial = m.serial; ticket = m.ticket; floor = m.floor; requests = m.requests; is_orphaned = m.is_orphaned; spare = m.spare; is_awake = m.is_awake; wants_turn = m.wants_turn; asks = m.asks; effect = m.effect; finished = m.finished.items; op = m.op; catching = m.catch.state; mailing = m.mail.step; attempt = m.attempt.state; leaving = m.leave.step; own_turn = m.own_turn.state; step = m.step } } };

    ghost invariant = { λ m. (m.number < max_sessions) × (m.catch.places ≡ m.places) × (m.catch.bits ≡ m.shape.bucket_bits) × (m.catch.session ≡ m.number) × (m.mail.session ≡ m.number) × (m.attempt.places ≡ m.places) × (m.attempt.bits ≡ m.shape.bucket_bits) × (m.attempt.room ≡ m.shape.disk_pages * m.shape.page) × (m.attempt.session ≡ m.number) × (m.leave.session ≡ m.number) × (m.own_turn.shape ≡ m.shape) × (m.places.overflow ≡ m.shape.overflow) × (m.places.ring ≡ m.shape.frames * m.shape.page) × (m.serial ≤ last_serial) × (length m.requests ≤ max_pending) × IsStepInRange m.requests m.finished.items m.op m.serial m.step };
}

impl Context {
    /// The context of a session that was opened.
    pub(crate) fn new(
        shape: Shape,
        number: usize,
        seen: Seen,
        serial: Serial,
        floor: Addr,
    ) -> Context
        requires number { number < max_sessions }
        requires serial { serial.0 ≤ last_serial }
        ensures shape { result.seat.shape ≡ shape }
        ensures number { result.seat.number ≡ number }
        ensures sessions { result.seat.places.sessions ≡ shape.sessions }
        ensures buckets { result.seat.places.buckets ≡ 2 ^ shape.bucket_bits }
        ensures overflow { result.seat.places.overflow ≡ shape.overflow }
        ensures ring { result.seat.places.ring ≡ shape.frames * shape.page }
        ensures seen { result.state.seen ≡ seen }
        ensures serial { result.state.serial ≡ serial.0 }
        ensures floor { result.state.floor ≡ floor }
        ensures opened { IsOpened result.state }
        ensures answer { result.state.step ≡ Idle Slept }
    {
        let attempt = Attempt::new(&shape, number);
        let places = attempt.places();
        Context {
            places,
            shape,
            number,
            seen,
            serial: serial.0,
            ticket: 0,
            floor,
            requests: PendingList::new(),
            is_orphaned: false,
            spare: 0,
            is_awake: true,
            wants_turn: false,
            asks: 0,
            effect: None,
            finished: ArrayVec::new(),
            op: Op::Read(Key(0)),
            catch: CatchUp::new(places, shape.bucket_bits, number),
            mail: Mail::new(number),
            attempt,
            leave: Leave::new(number),
            own_turn: OwnTurn::new(shape),
            step: Sitting::Idle(Told::Slept),
        }
    }

    /// Begins a call. What the one before has counted and made is forgotten.
    pub(crate) fn begin(&mut self, call: Call) -> Ask<Told>
        ensures next { self.new ≡ record self.old { state = session_begun self.old.seat self.old.state call } }
        ensures ask { result ≡ session_ask self.old.seat self.new.state }
        ensures bounded { session_asks_left self.old.seat self.new.state ≤ call_bound self.old.seat.shape call }
    {
        self.asks = 0;
        self.effect = None;
        self.wants_turn = false;
        self.begin_call(call)
    }

    /// The next serial is taken by an update that was done outside, between two calls.
    #[inline(always)]
    pub(crate) fn take_serial(&mut self)
        requires left { self.old.state.serial < last_serial }
        requires idle { is_busy self.old.state.step ≡ false }
        ensures { self.new ≡ record self.old { state = record self.old.state { serial = self.old.state.serial + 1 } } }
    {
        self.serial += 1;
    }

    /// The session was refreshed outside, and goes by this.
    #[tactic(auto, unfolding(crate::specs::Sessions::sitting_ask))]
    pub(crate) fn take_seen(&mut self, seen: Seen) -> Ask<Told>
        ensures next { self.new ≡ record self.old { state = refreshed self.old.state seen } }
        ensures ask { result ≡ session_ask self.old.seat self.new.state }
    {
        self.catch.end_refresh(self.seen, seen, Serial(self.serial));
        self.seen = seen;
        self.step = Sitting::Idle(Told::Slept);
        Ask::Done(Told::Slept)
    }

    /// An update was tried outside and waits.
    #[tactic(auto, unfolding(crate::specs::Sessions::sitting_ask))]
    pub(crate) fn take_pending(&mut self, op: Op) -> Ask<Told>
        requires room { length self.old.state.requests < max_pending }
        requires serial { self.old.state.serial < last_serial }
        ensures next { self.new ≡ record self.old { state = update_waiting self.old.state op } }
        ensures ask { result ≡ session_ask self.old.seat self.new.state }
    {
        self.serial += 1;
        self.requests.push(PendingRequest {
            name: RequestName::Update(Serial(self.serial)),
            request: request_of(op, self.seen.version, self.floor),
            sought: None,
            has_asked: false,
        });
        self.step = Sitting::Idle(Told::Slept);
        Ask::Done(Told::Slept)
    }

    /// A read was tried outside and waits for this record of the device.
    #[tactic(auto, unfolding(crate::specs::Sessions::sitting_ask))]
    pub(crate) fn take_pending_read(
        &mut self,
        op: Op,
        sought: DiskRecord,
        has_asked: bool,
    ) -> Ask<Told>
        requires { length self.old.state.requests < max_pending }
        ensures next { self.new ≡ record self.old { state = read_waiting self.old.state op sought has_asked } }
        ensures ask { result ≡ session_ask self.old.seat self.new.state }
    {
        self.ticket = ticket_after(self.ticket);
        self.requests.push(PendingRequest {
            name: RequestName::Read(Ticket(self.ticket)),
            request: request_of(op, self.seen.version, self.floor),
            sought: Some(sought),
            has_asked,
        });
        self.step = Sitting::Idle(Told::Slept);
        Ask::Done(Told::Slept)
    }

    /// The session was polled outside: this update has finished, the first request that waited.
    #[tactic(auto, unfolding(crate::specs::Sessions::sitting_ask))]
    pub(crate) fn take_polled(&mut self, serial: Serial, reply: Reply) -> Ask<Told>
        ensures next { self.new ≡ record self.old { state = update_polled self.old.state serial reply } }
        ensures ask { result ≡ session_ask self.old.seat self.new.state }
    {
        self.finished.clear();
        self.finished.push(Finished::Update(serial, reply));
        self.requests.remove(0);
        self.step = Sitting::Idle(Told::Slept);
        Ask::Done(Told::Slept)
    }

    /// The session was polled outside: this read has finished, the first request that waited.
    #[tactic(auto, unfolding(crate::specs::Sessions::sitting_ask))]
    pub(crate) fn take_polled_read(&mut self, ticket: Ticket, value: Option<Value>) -> Ask<Told>
        ensures next { self.new ≡ record self.old { state = read_polled self.old.state ticket value } }
        ensures ask { result ≡ session_ask self.old.seat self.new.state }
    {
        self.finished.clear();
        self.finished.push(Finished::Read(ticket, value));
        self.requests.remove(0);
        self.step = Sitting::Idle(Told::Slept);
        Ask::Done(Told::Slept)
    }

    /// The session was polled outside: nothing has finished, and the first request waits as this.
    #[tactic(auto, unfolding(crate::specs::Sessions::sitting_ask))]
    pub(crate) fn take_polled_on(&mut self, its: PendingRequest) -> Ask<Told>
        ensures next { self.new ≡ record self.old { state = request_polled self.old.state its } }
        ensures ask { result ≡ session_ask self.old.seat self.new.state }
    {
        self.finished.clear();
        self.requests.set(0, its);
        self.step = Sitting::Idle(Told::Slept);
        Ask::Done(Told::Slept)
    }

    /// The session was polled outside, and nothing has finished.
    #[tactic(auto, unfolding(crate::specs::Sessions::sitting_ask))]
    pub(crate) fn take_unpolled(&mut self) -> Ask<Told>
        ensures next { self.new ≡ record self.old { state = nothing_polled self.old.state } }
        ensures ask { result ≡ session_ask self.old.seat self.new.state }
    {
        self.finished.clear();
        self.step = Sitting::Idle(Told::Slept);
        Ask::Done(Told::Slept)
    }

    /// An ask of a word counts, and what goes with it does not.
    pub(crate) fn count_ask(&mut self, is_word: bool)
        ensures { self.new ≡ record self.old { state = record self.old.state { asks = asks_after self.old.state.asks is_word } } }
    {
        if is_word {
            self.asks = self.asks.saturating_add(1);
        }
    }

    /// Goes on with the reply to the ask, which was counted.
    #[tactic(auto, using(crate::proofs::Ranges::catches_in_range), unfolding(crate::specs::Sessions::sitting_next, crate::specs::Sessions::sitting_ask))]
    pub(crate) fn go_on(&mut self, reply: u64) -> Ask<Told>
        ensures next { self.new ≡ record self.old { state = sitting_next self.old.seat (record self.old.state { effect = None }) self.old.state.step reply } }
        ensures ask { result ≡ session_ask self.old.seat self.new.state }
    {
        self.effect = None;
        match self.step {
            Sitting::Idle(told) => Ask::Done(told),
            Sitting::Attempts(has_shifted) => {
                let ask = self.drive_attempt(reply);
                self.after_attempt(has_shifted, ask)
            }
            Sitting::CatchesUp(cause) => {
                let ask = self.catch.drive(&mut self.requests, reply);
                self.after_catch(cause, ask)
            }
            Sitting::ClearsMail => {
                let ask = self.mail.drive(reply);
                self.after_clear(ask)
            }
            Sitting::Polls(index) => {
                let ask = self.drive_attempt(reply);
                self.after_poll(index, ask)
            }
            Sitting::StoresOwing(index) => self.poll_at(index),
            Sitting::Turns(told) => {
                let ask = self.own_turn.drive(reply);
                self.after_turn(told, ask)
            }
            Sitting::StoresCut => self.leave(),
            Sitting::Leaves => {
                let ask = self.leave.drive(reply);
                self.after_leave(ask)
            }
            Sitting::LoadsDurable => self.answer(Told::Durable(Serial(reply))),
        }
    }

    /// Gets the action of a drain slot that its turn has claimed.
    #[tactic(auto, unfolding(crate::specs::Sessions::sitting_given))]
    pub(crate) fn take(&mut self, told: Told, action: Action) -> Ask<Told>
        requires { self.old.state.step ≡ Turns told }
        ensures next { self.new ≡ record self.old { state = sitting_given self.old.seat self.old.state (Turns told) action } }
        ensures ask { result ≡ session_ask self.old.seat self.new.state }
    {
        let ask = self.own_turn.given(action);
        self.after_turn(told, ask)
    }
}
