//! What each call of a session begins, and why it may be refused.
ghost use Rattle.std.specs.Prelude.{◌≡◌, ◌<◌, Option, IfNone, false};
ghost use Rattle.fkv_base.specs.Limits.{last_serial};
ghost use Rattle.fkv_ops.specs.Requests.{is_read};
ghost use Rattle.fkv_session.specs.Sessions.{session_ask, call_begun, op_begun, refusal_of, is_spent, refresh_call, poll_call, sleep_call, wake_call, HasRoom};

use crate::answers::Told;
use crate::contexts::Context;
use crate::sessions::{CatchCause, Sitting};
use fkv_base::{Fault, Serial};
use fkv_map::{Call, Op};
use fkv_plane::{Ask, SessionWord, passed};

impl Context {
    #[tactic(auto, unfolding(crate::specs::Sessions::sitting_ask))]
    pub(crate) fn begin_call(&mut self, call: Call) -> Ask<Told>
        ensures next { self.new ≡ record self.old { state = call_begun self.old.seat self.old.state call } }
        ensures ask { result ≡ session_ask self.old.seat self.new.state }
    {
        match call {
            Call::Op(op) => self.begin_op(op),
            Call::Refresh => self.begin_refresh(),
            Call::Poll => self.begin_poll(),
            Call::Sleep => self.begin_sleep(),
            Call::Wake => self.begin_wake(),
            Call::Durable => {
                self.step = Sitting::LoadsDurable;
                Ask::Load(SessionWord::Durable.place(self.number))
            }
        }
    }

    #[tactic(auto, unfolding(crate::specs::Sessions::op_begun))]
    fn begin_op(&mut self, op: Op) -> Ask<Told>
        ensures next { self.new ≡ record self.old { state = op_begun self.old.seat self.old.state op (refusal_of self.old.state op) } }
        ensures ask { result ≡ session_ask self.old.seat self.new.state }
    {
        match self.refusal_of(op) {
            Some(why) => self.refuse(why),
            None => {
                self.op = op;
                self.attempt(false)
            }
        }
    }

    /// Why an operation is refused before it is tried.
    pub(crate) fn refusal_of(&self, op: Op) -> Option<Fault>
        ensures refusal { result ≡ refusal_of self.now.state op }
        ensures room { IfNone result (HasRoom self.now.state.requests op self.now.state.serial) }
    {
        if !self.is_awake {
            Some(Fault::Asleep)
        } else if op.is_reserved() {
            Some(Fault::ValueReserved)
        } else if self.requests.is_full() {
            Some(Fault::PendingFull)
        } else if self.is_spent(op) {
            Some(Fault::SerialsSpent)
        } else {
            None
        }
    }

    /// An update takes a serial, and the last one is taken.
    fn is_spent(&self, op: Op) -> bool
        ensures spent { result ≡ is_spent self.now.state op }
        ensures left { result ≡ false → is_read op ≡ false → self.now.state.serial < last_serial }
    {
        !matches!(op, Op::Read(_)) && self.serial == Serial::LAST
    }

    #[tactic(auto, unfolding(crate::specs::Sessions::refresh_call))]
    fn begin_refresh(&mut self) -> Ask<Told>
        ensures next { self.new ≡ record self.old { state = refresh_call self.old.state } }
        ensures ask { result ≡ session_ask self.old.seat self.new.state }
    {
        if self.is_awake {
            self.catch_up(CatchCause::Refreshes)
        } else {
            self.refuse(Fault::Asleep)
        }
    }

    #[tactic(auto, unfolding(crate::specs::Sessions::poll_call))]
    fn begin_poll(&mut self) -> Ask<Told>
        ensures next { self.new ≡ record self.old { state = poll_call self.old.seat self.old.state } }
        ensures ask { result ≡ session_ask self.old.seat self.new.state }
    {
        if self.is_awake {
            self.finished.clear();
            self.poll()
        } else {
            self.refuse(Fault::Asleep)
        }
    }

    #[tactic(auto, unfolding(crate::specs::Sessions::sleep_call, crate::specs::Sessions::sitting_ask))]
    fn begin_sleep(&mut self) -> Ask<Told>
        ensures next { self.new ≡ record self.old { state = sleep_call self.old.state } }
        ensures ask { result ≡ session_ask self.old.seat self.new.state }
    {
        if !self.is_awake {
            self.refuse(Fault::Asleep)
        } else if self.requests.is_empty() {
            self.step = Sitting::StoresCut;
            self.cut_ask()
        } else {
            self.refuse(Fault::PendingLeft)
        }
    }

    #[tactic(auto, unfolding(crate::specs::Sessions::wake_call, crate::specs::Sessions::sitting_ask, crate::specs::CatchingUp::catching_ask))]
    fn begin_wake(&mut self) -> Ask<Told>
        ensures next { self.new ≡ record self.old { state = wake_call self.old.state } }
        ensures ask { result ≡ session_ask self.old.seat self.new.state }
    {
        if self.is_awake {
            self.refuse(Fault::Awake)
        } else {
            let (seen, serial) = (self.seen, Serial(self.serial));
            self.step = Sitting::CatchesUp(CatchCause::Wakes);
            passed(self.catch.wake(seen, serial), Told::Slept)
        }
    }
}
