//! A session: the calls that it begins, and what it asks for them.
ghost use Rattle.std.specs.Prelude.{◌≡◌, ◌<◌, ◌≤◌, ◌*◌, ◌^◌, true, false};
ghost use Rattle.fkv_base.specs.Limits.{max_sessions, last_serial};
ghost use Rattle.fkv_epoch.specs.Claiming.{takes_action};
ghost use Rattle.fkv_plane.specs.AsksLeft.{AsksWhereLeft};
ghost use Rattle.fkv_session.specs.declared.answers.Told.{Told};
ghost use Rattle.fkv_session.specs.declared.sessions.Sitting.TheVariants.{Turns};
ghost use Rattle.fkv_session.specs.Answers.{IsAnswered};
ghost use Rattle.fkv_session.specs.AsksLeft.{session_asks_left, call_bound};
ghost use Rattle.fkv_session.specs.Sessions.{session_begun, session_ask, session_next, session_given, IsOpened};

use crate::answers::{Answer, Finished, Told, answered};
use crate::asks::{is_word_ask, same_ask};
use crate::contexts::Context;
use fkv_base::{Addr, Serial, Shape};
use fkv_map::{Call, HistoryEntry};
use fkv_ops::Seen;
use fkv_plane::{Action, Ask};
use std::marker::Model;

/// Why a session catches up with the store.
#[derive(Clone, Copy)]
pub(crate) enum CatchCause {
    Refreshes,
    Wakes,
    /// A try met another session that has gone on to the next version.
    Shifts,
}

/// How far the call in hand has come. What the last call was told is kept up to the next one.
#[derive(Clone, Copy)]
pub(crate) enum Sitting {
    Idle(Told),
    /// The operation is attempted; whether a shift came before.
    Attempts(bool),
    CatchesUp(CatchCause),
    /// A record that nobody waits for any more is let go.
    ClearsMail,
    /// The request at this index is attempted.
    Polls(usize),
    /// How many updates of the version before wait is stored; the request at this index comes next.
    StoresOwing(usize),
    /// The session turns pages, and is answered this then.
    Turns(Told),
    /// Where the session's version ends is stored, before it sleeps.
    StoresCut,
    Leaves,
    LoadsDurable,
}

/// A session: it answers one call after another, by one ask at a time. What it asks is found once, when the reply to the ask
/// before has come, and kept until it is replied to.
#[derive(Drop)]
pub struct Session {
    pub(crate) context: Context,
    pub(crate) ask: Ask<Told>,
}

impl Model for Session {
    ghost use Rattle.std.specs.Prelude.{◌≡◌};
    ghost use Rattle.fkv_session.specs.Sessions.{Sitter, session_ask};

    ghost Value = { Sitter };

    ghost view = { λ m. m.context };

    ghost invariant = { λ m. m.ask ≡ session_ask m.context.seat m.context.state };
}

impl Session {
    /// The session of this number of a store that was opened: it is awake, has seen these values, has taken serials up to this
    /// one, and no call is in hand. The log begins at its floor or above.
    #[tactic(auto, unfolding(crate::specs::Sessions::sitting_ask))]
    pub fn new(shape: Shape, number: usize, seen: Seen, serial: Serial, floor: Addr) -> Session
        requires number { number < max_sessions }
        requires serial { serial.0 ≤ last_serial }
        ensures shape { result.seat.shape ≡ shape }
        ensures number { result.seat.number ≡ number }
        ensures sessions { result.seat.places.sessions ≡ shape.sessions }
        ensures buckets { result.seat.places.buckets ≡ 2 ^ shape.bucket_bits }
        ensures overflow { result.seat.places.overflow ≡ shape.overflow }
        ensures ring { result.seat.places.ring ≡ shape.frames * shape.page }
        ensures seen { result.state.seen ≡ seen }
        ensures serial { result.state.serial ≡ serial.0 }
        ensures floor { result.state.floor ≡ floor }
        ensures opened { IsOpened result.state }
    {
        Session {
            context: Context::new(shape, number, seen, serial, floor),
            ask: Ask::Done(Told::Slept),
        }
    }

    /// Begins a call: its first ask, or its answer where there is none. A call is begun where none is in hand.
    pub fn start(&mut self, call: Call) -> Ask<Answer>
        ensures next { self.new ≡ record self.old { state = session_begun self.old.seat self.old.state call } }
        ensures ask { IsAnswered (session_ask self.old.seat self.new.state) self.new.state.finished result }
        ensures asks { AsksWhereLeft (session_asks_left self.old.seat self.new.state) result }
        ensures bounded { session_asks_left self.old.seat self.new.state ≤ call_bound self.old.seat.shape call }
    {
        let ask = self.begin(call);
        answered(ask, self.finished())
    }

    /// Goes on with the reply to its ask: the next ask, or the answer.
    pub fn drive(&mut self, reply: u64) -> Ask<Answer>
        ensures next { self.new ≡ record self.old { state = session_next self.old.seat self.old.state reply } }
        ensures ask { IsAnswered (session_ask self.old.seat self.new.state) self.new.state.finished result }
        ensures asks { AsksWhereLeft (session_asks_left self.old.seat self.new.state) result }
        ensures fewer { takes_action (session_ask self.old.seat self.old.state) ≡ false → 0 < session_asks_left self.old.seat self.old.state → session_asks_left self.old.seat self.new.state < session_asks_left self.old.seat self.old.state }
    {
        let ask = self.go_on(reply);
        answered(ask, self.finished())
    }

    /// Goes on with the action of a drain slot that it claimed.
    pub fn given(&mut self, action: Action) -> Ask<Answer>
        ensures next { self.new ≡ record self.old { state = session_given self.old.seat self.old.state action } }
        ensures ask { IsAnswered (session_ask self.old.seat self.new.state) self.new.state.finished result }
        ensures asks { AsksWhereLeft (session_asks_left self.old.seat self.new.state) result }
        ensures fewer { (its : Told) → self.old.state.step ≡ Turns its → takes_action (session_ask self.old.seat self.old.state) ≡ true → session_asks_left self.old.seat self.new.state < session_asks_left self.old.seat self.old.state }
    {
        let ask = self.take(action);
        answered(ask, self.finished())
    }

    /// Begins a call and gives its first ask, or its answer where there is none. What a poll finishes stays in the session, in
    /// `finished`, until the next poll.
    pub fn begin(&mut self, call: Call) -> Ask<Told>
        ensures next { self.new ≡ record self.old { state = session_begun self.old.seat self.old.state call } }
        ensures ask { result ≡ session_ask self.old.seat self.new.state }
        ensures asks { AsksWhereLeft (session_asks_left self.old.seat self.new.state) result }
        ensures bounded { session_asks_left self.old.seat self.new.state ≤ call_bound self.old.seat.shape call }
    {
        self.ask = self.context.begin(call);
        self.ask()
    }

    /// Goes on with the reply to its ask. Where no call is in hand it stays as it is.
    pub fn go_on(&mut self, reply: u64) -> Ask<Told>
        ensures next { self.new ≡ record self.old { state = session_next self.old.seat self.old.state reply } }
        ensures ask { result ≡ session_ask self.old.seat self.new.state }
        ensures asks { AsksWhereLeft (session_asks_left self.old.seat self.new.state) result }
        ensures fewer { takes_action (session_ask self.old.seat self.old.state) ≡ false → 0 < session_asks_left self.old.seat self.old.state → session_asks_left self.old.seat self.new.state < session_asks_left self.old.seat self.old.state }
    {
        self.context.count_ask(is_word_ask(&self.ask));
        self.ask = self.context.go_on(reply);
        self.ask()
    }

    /// Gets the action of a drain slot that it claimed.
    #[tactic(auto, unfolding(crate::specs::Sessions::sitting_given))]
    pub fn take(&mut self, action: Action) -> Ask<Told>
        ensures next { self.new ≡ record self.old { state = session_given self.old.seat self.old.state action } }
        ensures ask { result ≡ session_ask self.old.seat self.new.state }
        ensures asks { AsksWhereLeft (session_asks_left self.old.seat self.new.state) result }
        ensures fewer { (its : Told) → self.old.state.step ≡ Turns its → takes_action (session_ask self.old.seat self.old.state) ≡ true → session_asks_left self.old.seat self.new.state < session_asks_left self.old.seat self.old.state }
    {
        if let Sitting::Turns(told) = self.context.step {
            self.ask = self.context.take(told, action);
        }
        self.ask()
    }

    /// What it asks now.
    pub fn ask(&self) -> Ask<Told>
        ensures ask { result ≡ session_ask self.now.seat self.now.state }
        ensures asks { AsksWhereLeft (session_asks_left self.now.seat self.now.state) result }
    {
        same_ask(&self.ask)
    }
}
