//! How a commit waits until it may write its manifest.
ghost use Rattle.std.specs.Prelude.{◌≡◌, ◌≤◌, ◌<◌};
ghost use Rattle.fkv_plane.specs.AsksLeft.{AsksWhereLeft};
ghost use Rattle.fkv_commit.specs.AsksLeft.{wait_asks_left};
ghost use Rattle.fkv_commit.specs.Waiting.{wait_begun, wait_ask, wait_next};
ghost use Rattle.fkv_commit.specs.declared.waiting.Waiting.TheVariants.{Ended};
ghost use Rattle.fkv_commit.specs.declared.waiting.WaitAnswer.TheVariants.{Idle};

use fkv_base::Addr;
use fkv_plane::{Ask, SharedWord};
use std::marker::Model;

/// What the machine has come to.
#[derive(Clone, Copy, Debug, PartialEq, Eq)]
pub enum WaitAnswer {
    /// It has not begun.
    Idle,
    /// Not all have seen wait-flush, or the log isn't flushed so far.
    NotYet,
    /// All have seen wait-flush, and the log is flushed up to the commit's end.
    Flushed,
}

/// How far the machine has come. Its end is kept up to the next start.
#[derive(Clone, Copy)]
pub(crate) enum Waiting {
    Ended(WaitAnswer),
    LoadsSafe,
    LoadsFlushed,
}

/// Tests whether all have seen wait-flush, and whether the log is flushed up to the commit's end.
#[derive(Drop)]
pub struct WaitFlush {
    end: Addr,
    epoch: u64,
    step: Waiting,
}

impl Model for WaitFlush {
    ghost use Rattle.fkv_commit.specs.Waiting.{WaitState};

    ghost Value = { WaitState };

    ghost view = { λ m. record { end = m.end; epoch = m.epoch; step = m.step } };
}

impl WaitFlush {
    /// The machine at rest.
    pub fn new() -> WaitFlush
        ensures { result.step ≡ Ended Idle }
    {
        WaitFlush {
            end: Addr(0),
            epoch: 0,
            step: Waiting::Ended(WaitAnswer::Idle),
        }
    }

    /// The first ask, for a commit that ends here and was armed last at this epoch.
    #[tactic(auto, unfolding(crate::specs::AsksLeft::waiting_asks_left))]
    pub fn start(&mut self, end: Addr, epoch: u64) -> Ask<WaitAnswer>
        ensures next { self.new ≡ wait_begun end epoch }
        ensures ask { result ≡ wait_ask self.new }
        ensures asks { AsksWhereLeft (wait_asks_left self.new) result }
        ensures bounded { wait_asks_left self.new ≤ 2 }
    {
        self.end = end;
        self.epoch = epoch;
        self.step = Waiting::LoadsSafe;
        self.ask()
    }

    /// Goes on with the reply to its ask. At its end it stays where it is.
    #[tactic(auto, unfolding(crate::specs::Waiting::waiting_next))]
    pub fn drive(&mut self, reply: u64) -> Ask<WaitAnswer>
        ensures next { self.new ≡ wait_next self.old reply }
        ensures ask { result ≡ wait_ask self.new }
        ensures asks { AsksWhereLeft (wait_asks_left self.new) result }
        ensures fewer { 0 < wait_asks_left self.old → wait_asks_left self.new < wait_asks_left self.old }
    {
        self.step = match self.step {
            Waiting::Ended(answer) => Waiting::Ended(answer),
            Waiting::LoadsSafe if self.epoch <= reply => Waiting::LoadsFlushed,
            Waiting::LoadsFlushed if self.end.0 <= reply => Waiting::Ended(WaitAnswer::Flushed),
            Waiting::LoadsSafe | Waiting::LoadsFlushed => Waiting::Ended(WaitAnswer::NotYet),
        };
        self.ask()
    }

    /// What it asks now.
    #[tactic(auto, unfolding(crate::specs::Waiting::waiting_ask))]
    pub fn ask(&self) -> Ask<WaitAnswer>
        ensures { result ≡ wait_ask self.now }
    {
        match self.step {
            Waiting::Ended(answer) => Ask::Done(answer),
            Waiting::LoadsSafe => Ask::Load(SharedWord::SafeEpoch.place()),
            Waiting::LoadsFlushed => Ask::Load(SharedWord::Flushed.place()),
        }
    }
}
