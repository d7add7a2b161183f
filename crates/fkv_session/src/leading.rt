//! Where a session goes on by what the machines inside it ask.
ghost use Rattle.std.specs.Prelude.{◌≡◌, ◌<◌, ◌+◌, Option};
ghost use Rattle.fkv_base.specs.Limits.{last_serial};
ghost use Rattle.fkv_ops.specs.Requests.{is_read};
ghost use Rattle.fkv_epoch.specs.Leaving.{leave_ask};
ghost use Rattle.fkv_epoch.specs.declared.leaving.Leaving.TheVariants.{StoresZero};
ghost use Rattle.fkv_pending.specs.Attempting.{attempt_ask};
ghost use Rattle.fkv_session.specs.CatchingUp.{catch_ask, cut_at, cut_of, refresh_begun};
ghost use Rattle.fkv_session.specs.OwnTurns.{own_turn_ask};
ghost use Rattle.fkv_session.specs.declared.sessions.Sitting.TheVariants.{Attempts, CatchesUp, Leaves, StoresCut, Turns};
ghost use Rattle.fkv_session.specs.Sessions.{session_ask, sitting_ask, answers, refuses, answers_after_turn, request_of, ticket_after, name_of, request_in_hand, attempts, attempt_moved, attempt_left, update_done, is_no_room, accepts, shifts, attempted, attempt_ledto, caught_up, catch_ledto, turn_ledto, leave_ledto, entry_of, HasRoom, IsStepInRange};

use crate::answers::Told;
use crate::catching_up::{cut_at, cut_of};
use crate::contexts::Context;
use crate::sessions::{CatchCause, Sitting};
use fkv_base::{Addr, Fault, Serial, Version};
use fkv_map::{HistoryEntry, Op, Reply};
use fkv_ops::{Bounds, Occasion, Reason, Request, TryAnswer};
use fkv_pending::{PendingRequest, RequestName, Ticket};
use fkv_plane::{Ask, passed};

impl Context {
    /// The call is answered.
    #[tactic(auto, unfolding(crate::specs::Sessions::sitting_ask))]
    pub(crate) fn answer(&mut self, told: Told) -> Ask<Told>
        ensures next { self.new ≡ record self.old { state = answers self.old.state told } }
        ensures ask { result ≡ session_ask self.old.seat self.new.state }
    {
        self.step = Sitting::Idle(told);
        Ask::Done(told)
    }

    pub(crate) fn refuse(&mut self, why: Fault) -> Ask<Told>
        ensures next { self.new ≡ record self.old { state = refuses self.old.state why } }
        ensures ask { result ≡ session_ask self.old.seat self.new.state }
    {
        self.answer(Told::Refused(why))
    }

    /// A call in which a try had no room makes a turn before it is answered.
    #[tactic(auto, unfolding(crate::specs::Sessions::sitting_ask))]
    pub(crate) fn answer_after_turn(&mut self, told: Told) -> Ask<Told>
        ensures next { self.new ≡ record self.old { state = answers_after_turn self.old.state told } }
        ensures ask { result ≡ session_ask self.old.seat self.new.state }
    {
        if self.wants_turn {
            self.step = Sitting::Turns(told);
            passed(self.own_turn.start(), told)
        } else {
            self.answer(told)
        }
    }

    /// Attempts the operation in hand, as a request of the session's version.
    #[tactic(auto, unfolding(crate::specs::Sessions::attempts, crate::specs::Sessions::sitting_ask))]
    pub(crate) fn attempt(&mut self, has_shifted: bool) -> Ask<Told>
        requires { HasRoom self.old.state.requests self.old.state.op self.old.state.serial }
        ensures next { self.new ≡ record self.old { state = attempts self.old.seat self.old.state has_shifted } }
        ensures ask { result ≡ session_ask self.old.seat self.new.state }
    {
        let pending = self.request_in_hand();
        let occasion = Occasion::Call(Bounds::of(&self.shape));
        let (seen, spare, is_orphaned) = (self.seen, self.spare, self.is_orphaned);
        self.step = Sitting::Attempts(has_shifted);
        let ask = self
            .attempt
            .start(&pending, seen, occasion, spare, is_orphaned);
        passed(ask, Told::Slept)
    }

    fn request_in_hand(&self) -> PendingRequest
        requires { HasRoom self.now.state.requests self.now.state.op self.now.state.serial }
        ensures { result ≡ request_in_hand self.now.state }
    {
        PendingRequest {
            name: self.name(),
            request: request_of(self.op, self.seen.version, self.floor),
            sought: None,
            has_asked: false,
        }
    }

    /// An update would take the next serial, and a read the next ticket.
    fn name(&self) -> RequestName
        requires { HasRoom self.now.state.requests self.now.state.op self.now.state.serial }
        ensures { result ≡ name_of self.now.state }
    {
        match self.op {
            Op::Read(_) => RequestName::Read(Ticket(ticket_after(self.ticket))),
            _ => RequestName::Update(Serial(self.serial + 1)),
        }
    }

    /// Goes on with the reply to what the attempt asks.
    pub(crate) fn drive_attempt(&mut self, reply: u64) -> Ask<TryAnswer>
        ensures next { self.new ≡ record self.old { state = attempt_moved self.old.seat self.old.state reply } }
        ensures ask { result ≡ attempt_ask self.old.seat.places self.old.seat.number self.new.state.attempt }
    {
        let ask = self.attempt.drive(reply);
        self.effect = match self.attempt.effect() {
            None => None,
            Some(its) => entry_of(self.number, self.attempt.pending(), its),
        };
        ask
    }

    /// What the attempt leaves to the session.
    pub(crate) fn take_back(&mut self)
        ensures { self.new ≡ record self.old { state = attempt_left self.old.state } }
    {
        self.spare = self.attempt.spare();
        self.is_orphaned = self.attempt.is_orphaned();
    }

    /// Goes on by what the attempt at the call asks.
    #[tactic(auto, unfolding(crate::specs::Sessions::attempt_ledto, crate::specs::Sessions::sitting_ask))]
    pub(crate) fn after_attempt(&mut self, has_shifted: bool, ask: Ask<TryAnswer>) -> Ask<Told>
        requires room { HasRoom self.old.state.requests self.old.state.op self.old.state.serial }
        requires step { self.old.state.step ≡ Attempts has_shifted }
        requires ask { ask ≡ attempt_ask self.old.seat.places self.old.seat.number self.old.state.attempt }
        ensures next { self.new ≡ record self.old { state = attempt_ledto self.old.state has_shifted ask } }
        ensures ask { result ≡ session_ask self.old.seat self.new.state }
    {
        match ask {
            Ask::Done(answer) => {
                self.take_back();
                self.end_attempt(has_shifted, answer)
            }
            other => passed(other, Told::Slept),
        }
    }

    fn end_attempt(&mut self, has_shifted: bool, answer: TryAnswer) -> Ask<Told>
        requires { HasRoom self.old.state.requests self.old.state.op self.old.state.serial }
        ensures next { self.new ≡ record self.old { state = attempted self.old.state has_shifted answer } }
        ensures ask { result ≡ session_ask self.old.seat self.new.state }
    {
        match answer {
            TryAnswer::Done(_) if is_read(self.op) => self.answer(Told::Absent),
            TryAnswer::Done(reply) => self.finish_update(reply),
            TryAnswer::Found(value) => self.answer(Told::Found(value)),
            TryAnswer::Absent => self.answer(Told::Absent),
            TryAnswer::Wait(why) => self.accept(why),
            TryAnswer::AwaitsDisk(_) => self.accept(Reason::Disk),
            TryAnswer::Shift => self.shift(has_shifted),
            TryAnswer::IndexFull => self.refuse(Fault::IndexFull),
            TryAnswer::LogFull => self.refuse(Fault::LogFull),
        }
    }

    #[tactic(auto, unfolding(crate::specs::Sessions::sitting_ask))]
    fn finish_update(&mut self, reply: Reply) -> Ask<Told>
        requires serial { self.old.state.serial < last_serial }
        ensures next { self.new ≡ record self.old { state = update_done self.old.state reply } }
        ensures ask { result ≡ session_ask self.old.seat self.new.state }
    {
        self.serial += 1;
        let told = Told::Done(Serial(self.serial), reply);
        self.step = Sitting::Idle(told);
        Ask::Done(told)
    }

    /// The request is accepted and waits.
    #[tactic(auto, unfolding(crate::specs::Sessions::accepts, crate::specs::Sessions::sitting_ask))]
    fn accept(&mut self, why: Reason) -> Ask<Told>
        requires { HasRoom self.old.state.requests self.old.state.op self.old.state.serial }
        ensures next { self.new ≡ record self.old { state = accepts self.old.state why } }
        ensures ask { result ≡ session_ask self.old.seat self.new.state }
    {
        let pending = *self.attempt.pending();
        if is_read(self.op) {
            self.ticket = ticket_after(self.ticket);
            let told = Told::PendingRead(Ticket(self.ticket));
            self.step = Sitting::Idle(told);
            self.requests.push(pending);
            Ask::Done(told)
        } else {
            let told = Told::Pending(Serial(self.serial + 1), why);
            self.step = Sitting::Idle(told);
            self.serial += 1;
            self.wants_turn = why == Reason::NoRoom;
            self.requests.push(pending);
            self.answer_after_turn(told)
        }
    }

    /// It refreshes, and tries once more at its new version.
    #[tactic(auto, unfolding(crate::specs::Sessions::shifts))]
    fn shift(&mut self, has_shifted: bool) -> Ask<Told>
        requires { HasRoom self.old.state.requests self.old.state.op self.old.state.serial }
        ensures next { self.new ≡ record self.old { state = shifts self.old.state has_shifted } }
        ensures ask { result ≡ session_ask self.old.seat self.new.state }
    {
        if has_shifted {
            self.accept(Reason::Contended)
        } else {
            self.catch_up(CatchCause::Shifts)
        }
    }

    /// Begins to refresh.
    #[tactic(auto, unfolding(crate::specs::Sessions::sitting_ask, crate::specs::CatchingUp::catching_ask))]
    pub(crate) fn catch_up(&mut self, cause: CatchCause) -> Ask<Told>
        requires { IsStepInRange self.old.state.requests self.old.state.finished self.old.state.op self.old.state.serial (CatchesUp cause) }
        ensures next { self.new ≡ record self.old { state = record self.old.state { catching = refresh_begun self.old.state.catching self.old.state.seen self.old.state.serial; step = CatchesUp cause } } }
        ensures ask { result ≡ session_ask self.old.seat self.new.state }
    {
        let (seen, serial) = (self.seen, Serial(self.serial));
        self.step = Sitting::CatchesUp(cause);
        passed(self.catch.refresh(seen, serial), Told::Slept)
    }

    /// Goes on by what catching up asks.
    #[tactic(auto, unfolding(crate::specs::Sessions::catch_ledto, crate::specs::Sessions::sitting_ask))]
    pub(crate) fn after_catch(&mut self, cause: CatchCause, ask: Ask<()>) -> Ask<Told>
        requires range { IsStepInRange self.old.state.requests self.old.state.finished self.old.state.op self.old.state.serial (CatchesUp cause) }
        requires step { self.old.state.step ≡ CatchesUp cause }
        requires ask { ask ≡ catch_ask self.old.seat.places self.old.seat.number self.old.state.catching self.old.state.requests }
        ensures next { self.new ≡ record self.old { state = catch_ledto self.old.seat self.old.state cause ask } }
        ensures ask { result ≡ session_ask self.old.seat self.new.state }
    {
        match ask {
            Ask::Done(()) => {
                self.seen = self.catch.seen();
                self.end_catch(cause)
            }
            other => passed(other, Told::Slept),
        }
    }

    fn end_catch(&mut self, cause: CatchCause) -> Ask<Told>
        requires { IsStepInRange self.old.state.requests self.old.state.finished self.old.state.op self.old.state.serial (CatchesUp cause) }
        ensures next { self.new ≡ record self.old { state = caught_up self.old.seat self.old.state cause } }
        ensures ask { result ≡ session_ask self.old.seat self.new.state }
    {
        let (phase, version) = (self.seen.phase, self.seen.version);
        match cause {
            CatchCause::Refreshes => self.answer(Told::Refreshed(phase, version)),
            CatchCause::Wakes => {
                self.is_awake = true;
                self.answer(Told::Woken(phase, version))
            }
            CatchCause::Shifts => self.attempt(true),
        }
    }

    /// Goes on by what the turn asks.
    #[tactic(auto, unfolding(crate::specs::Sessions::turn_ledto, crate::specs::Sessions::sitting_ask))]
    pub(crate) fn after_turn(&mut self, told: Told, ask: Ask<()>) -> Ask<Told>
        requires step { self.old.state.step ≡ Turns told }
        requires ask { ask ≡ own_turn_ask self.old.seat.shape self.old.state.own_turn }
        ensures next { self.new ≡ record self.old { state = turn_ledto self.old.state told ask } }
        ensures ask { result ≡ session_ask self.old.seat self.new.state }
    {
        match ask {
            Ask::Done(()) => self.answer(told),
            other => passed(other, told),
        }
    }

    /// The store of where its version ends, before the session sleeps.
    #[tactic(auto, unfolding(crate::specs::Sessions::sitting_ask))]
    pub(crate) fn cut_ask(&self) -> Ask<Told>
        ensures { result ≡ sitting_ask self.now.seat self.now.state StoresCut }
    {
        let version = self.seen.version.0;
        Ask::Store(
            cut_of(version).place(self.number),
            cut_at(self.serial, version),
        )
    }

    /// Begins to give its epoch back.
    #[tactic(auto, unfolding(crate::specs::Sessions::sitting_ask))]
    pub(crate) fn leave(&mut self) -> Ask<Told>
        ensures next { self.new ≡ record self.old { state = record self.old.state { leaving = StoresZero; step = Leaves } } }
        ensures ask { result ≡ session_ask self.old.seat self.new.state }
    {
        self.step = Sitting::Leaves;
        passed(self.leave.start(), Told::Slept)
    }

    /// Goes on by what the leaving asks.
    #[tactic(auto, unfolding(crate::specs::Sessions::leave_ledto, crate::specs::Sessions::sitting_ask))]
    pub(crate) fn after_leave(&mut self, ask: Ask<()>) -> Ask<Told>
        requires step { self.old.state.step ≡ Leaves }
        requires ask { ask ≡ leave_ask self.old.seat.number self.old.state.leaving }
        ensures next { self.new ≡ record self.old { state = leave_ledto self.old.state ask } }
        ensures ask { result ≡ session_ask self.old.seat self.new.state }
    {
        match ask {
            Ask::Done(()) => {
                self.is_awake = false;
                self.answer(Told::Slept)
            }
            other => passed(other, Told::Slept),
        }
    }
}

fn is_read(op: Op) -> bool
    ensures { result ≡ is_read op }
{
    matches!(op, Op::Read(_))
}

/// The operation as a request of this version, with this floor.
pub(crate) fn request_of(op: Op, version: Version, floor: Addr) -> Request
    ensures { result ≡ request_of op version floor }
{
    Request {
        op,
        version: Version(version.0.min(Version::LAST).max(1)),
        has_latch: false,
        held: None,
        floor,
    }
}

/// After the last ticket comes the first.
pub(crate) fn ticket_after(ticket: u64) -> u64
    ensures { result ≡ ticket_after ticket }
{
    if ticket == u64::MAX { 1 } else { ticket + 1 }
}

/// The entry of the history that this effect makes. A read has none.
fn entry_of(number: usize, pending: &PendingRequest, its: Reply) -> Option<HistoryEntry>
    ensures { result ≡ entry_of number pending.now pending.now.name (Some its) }
{
    match pending.name {
        RequestName::Update(serial) => Some(HistoryEntry {
            session: number,
            serial,
            op: pending.request.op,
            reply: its,
        }),
        RequestName::Read(_) => None,
    }
}
