//! How a commit goes on to wait-pending.
ghost use Rattle.std.specs.Prelude.{◌≡◌, ◌≤◌, ◌<◌, ◌+◌, ◌*◌};
ghost use Rattle.fkv_base.specs.Limits.{drain_slots};
ghost use Rattle.fkv_plane.specs.AsksLeft.{AsksWhereLeft};
ghost use Rattle.fkv_commit.specs.AsksLeft.{enter_asks_left};
ghost use Rattle.fkv_commit.specs.Entering.{enter_begun, enter_ask, enter_next, seek_led, defer_led};
ghost use Rattle.fkv_commit.specs.declared.entering.Entering.TheVariants.{Ended};
ghost use Rattle.fkv_commit.specs.declared.entering.EnterAnswer.TheVariants.{Idle};

use crate::deferring::{Defer, DeferAnswer, Deferred};
use crate::phase_steps::version_after;
use fkv_base::{Phase, Version};
use fkv_plane::{Ask, passed};
use std::marker::Model;

/// What the machine has come to.
#[derive(Clone, Copy, Debug, PartialEq, Eq)]
pub enum EnterAnswer {
    /// It has not begun.
    Idle,
    /// Wait-pending is deferred until all have seen in-progress.
    Entered,
    /// No drain slot was free when it was met, and nothing has changed.
    DrainFull,
    /// The epoch is at its last, and nothing has changed.
    EpochsSpent,
}

/// How far the machine has come. Its end is kept up to the next start.
#[derive(Clone, Copy)]
pub(crate) enum Entering {
    Ended(EnterAnswer),
    Seeks,
    Defers,
}

/// Defers wait-pending until all have seen in-progress.
#[derive(Drop)]
pub struct EnterWaitPending {
    number: Version,
    defer: Defer,
    step: Entering,
}

impl Model for EnterWaitPending {
    ghost use Rattle.fkv_commit.specs.Entering.{EnterState};

    ghost Value = { EnterState };

    ghost view = { λ m. record { number = m.number; defer = m.defer; step = m.step } };
}

impl EnterWaitPending {
    /// The machine at rest.
    pub fn new() -> EnterWaitPending
        ensures { result.step ≡ Ended Idle }
    {
        EnterWaitPending {
            number: Version(1),
            defer: Defer::new(),
            step: Entering::Ended(EnterAnswer::Idle),
        }
    }

    /// The first ask, for the commit of this number.
    pub fn start(&mut self, number: Version) -> Ask<EnterAnswer>
        ensures next { self.new ≡ enter_begun self.old number }
        ensures ask { result ≡ enter_ask self.new }
        ensures asks { AsksWhereLeft (enter_asks_left self.new) result }
        ensures bounded { enter_asks_left self.new ≤ 2 * drain_slots + 4 }
    {
        self.number = number;
        self.defer.start();
        self.step = Entering::Seeks;
        self.ask()
    }

    /// Goes on with the reply to its ask. At its end it stays where it is.
    #[tactic(auto, unfolding(crate::specs::Entering::entering_next))]
    pub fn drive(&mut self, reply: u64) -> Ask<EnterAnswer>
        ensures next { self.new ≡ enter_next self.old reply }
        ensures ask { result ≡ enter_ask self.new }
        ensures asks { AsksWhereLeft (enter_asks_left self.new) result }
        ensures fewer { 0 < enter_asks_left self.old → enter_asks_left self.new < enter_asks_left self.old }
    {
        match self.step {
            Entering::Ended(_) => {}
            Entering::Seeks => {
                let ask = self.defer.drive(reply);
                self.after_seek(ask);
            }
            Entering::Defers => {
                let ask = self.defer.drive(reply);
                self.after_defer(ask);
            }
        }
        self.ask()
    }

    /// What it asks now.
    #[tactic(auto, unfolding(crate::specs::Entering::entering_ask))]
    pub fn ask(&self) -> Ask<EnterAnswer>
        ensures { result ≡ enter_ask self.now }
    {
        match self.step {
            Entering::Ended(answer) => Ask::Done(answer),
            Entering::Seeks | Entering::Defers => passed(self.defer.ask(), EnterAnswer::Idle),
        }
    }

    /// Goes on by what is asked as a slot is sought.
    #[tactic(auto, unfolding(crate::specs::Entering::seek_led))]
    fn after_seek(&mut self, ask: Ask<DeferAnswer>)
        ensures { self.new ≡ seek_led self.old ask }
    {
        match ask {
            Ask::Done(DeferAnswer::Held) => {
                let next = version_after(self.number);
                self.defer
                    .on(Deferred::EntersPhase(Phase::WaitPending, next));
                self.step = Entering::Defers;
            }
            Ask::Done(DeferAnswer::Spent) => {
                self.step = Entering::Ended(EnterAnswer::EpochsSpent);
            }
            Ask::Done(_) => self.step = Entering::Ended(EnterAnswer::DrainFull),
            _ => {}
        }
    }

    /// Goes on by what is asked as wait-pending is deferred.
    #[tactic(auto, unfolding(crate::specs::Entering::defer_led))]
    fn after_defer(&mut self, ask: Ask<DeferAnswer>)
        ensures { self.new ≡ defer_led self.old ask }
    {
        match ask {
            Ask::Done(DeferAnswer::Armed(_)) => {
                self.step = Entering::Ended(EnterAnswer::Entered);
            }
            Ask::Done(_) => self.step = Entering::Ended(EnterAnswer::Idle),
            _ => {}
        }
    }
}
