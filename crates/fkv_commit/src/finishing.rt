//! How a commit finishes once its manifest is written.
ghost use Rattle.std.specs.Prelude.{◌≡◌, ◌≤◌, ◌<◌, ◌+◌, slice_get};
ghost use Rattle.fkv_base.specs.Limits.{max_sessions};
ghost use Rattle.fkv_plane.specs.AsksLeft.{AsksWhereLeft};
ghost use Rattle.fkv_commit.specs.AsksLeft.{finish_asks_left};
ghost use Rattle.fkv_commit.specs.Finishing.{finish_begun, finish_ask, finish_next, durable_from, point_of, IsFinishInRange};
ghost use Rattle.fkv_commit.specs.declared.finishing.Finishing.TheVariants.{Ended};
ghost use Rattle.fkv_commit.specs.declared.finishing.FinishAnswer.TheVariants.{Idle};

use crate::phase_steps::{phase_stored, version_after};
use fkv_base::{Phase, Serial, Version};
use fkv_plane::{Ask, SessionWord, SharedWord};
use std::marker::Model;

/// What the machine has come to.
#[derive(Clone, Copy, Debug, PartialEq, Eq)]
pub enum FinishAnswer {
    /// It has not begun.
    Idle,
    /// The commit is finished, and the phase is rest.
    Finished,
}

/// How far the machine has come. Its end is kept up to the next start.
#[derive(Clone, Copy)]
pub(crate) enum Finishing {
    Ended(FinishAnswer),
    /// The durable word of this session is stored.
    StoresDurable(usize),
    StoresRest,
}

/// Stores each session's point as its durable word, and then that the phase is rest.
#[derive(Drop)]
pub struct FinishCommit {
    sessions: usize,
    number: Version,
    step: Finishing,
}

impl Model for FinishCommit {
    ghost use Rattle.std.specs.Prelude.{◌≤◌};
    ghost use Rattle.fkv_base.specs.Limits.{max_sessions};
    ghost use Rattle.fkv_commit.specs.Finishing.{FinishState, IsFinishInRange};

    ghost Value = { FinishState };

    ghost view = { λ m. record { sessions = m.sessions; number = m.number; step = m.step } };

    ghost invariant = { λ m. (m.sessions ≤ max_sessions) × IsFinishInRange m.step };
}

impl FinishCommit {
    /// The machine for a store of so many sessions, at rest.
    pub fn new(sessions: usize) -> FinishCommit
        requires { sessions ≤ max_sessions }
        ensures sessions { result.sessions ≡ sessions }
        ensures rest { result.step ≡ Ended Idle }
    {
        FinishCommit {
            sessions,
            number: Version(1),
            step: Finishing::Ended(FinishAnswer::Idle),
        }
    }

    /// The first ask, for the commit of this number, with its points.
    pub fn start(&mut self, points: &[Serial], number: Version) -> Ask<FinishAnswer>
        ensures next { self.new ≡ finish_begun self.old number }
        ensures ask { result ≡ finish_ask points.now self.new }
        ensures asks { AsksWhereLeft (finish_asks_left self.new) result }
        ensures bounded { finish_asks_left self.new ≤ self.old.sessions + 1 }
    {
        self.number = number;
        self.step = durable_from(self.sessions, 0);
        self.ask(points)
    }

    /// Goes on with the reply to its ask. At its end it stays where it is.
    #[tactic(auto, unfolding(crate::specs::Finishing::finishing_next))]
    pub fn drive(&mut self, points: &[Serial], reply: u64) -> Ask<FinishAnswer>
        ensures next { self.new ≡ finish_next self.old reply }
        ensures ask { result ≡ finish_ask points.now self.new }
        ensures asks { AsksWhereLeft (finish_asks_left self.new) result }
        ensures fewer { 0 < finish_asks_left self.old → finish_asks_left self.new < finish_asks_left self.old }
    {
        let _reply = reply;
        self.step = match self.step {
            Finishing::Ended(answer) => Finishing::Ended(answer),
            Finishing::StoresDurable(session) => durable_from(self.sessions, session + 1),
            Finishing::StoresRest => Finishing::Ended(FinishAnswer::Finished),
        };
        self.ask(points)
    }

    /// What it asks now.
    #[tactic(auto, unfolding(crate::specs::Finishing::finishing_ask))]
    pub fn ask(&self, points: &[Serial]) -> Ask<FinishAnswer>
        ensures { result ≡ finish_ask points.now self.now }
    {
        match self.step {
            Finishing::Ended(answer) => Ask::Done(answer),
            Finishing::StoresDurable(session) => Ask::Store(
                SessionWord::Durable.place(session),
                point_of(points, session),
            ),
            Finishing::StoresRest => {
                let next = version_after(self.number);
                Ask::Store(SharedWord::Phase.place(), phase_stored(Phase::Rest, next))
            }
        }
    }
}

/// The durable words from this session's on are stored, and then rest.
#[tactic(auto, unfolding(crate::specs::Finishing::durable_from))]
fn durable_from(sessions: usize, session: usize) -> Finishing
    requires { sessions ≤ max_sessions }
    ensures next { result ≡ durable_from sessions session }
    ensures in_range { IsFinishInRange result }
{
    if session < sessions {
        Finishing::StoresDurable(session)
    } else {
        Finishing::StoresRest
    }
}

/// The point of a session, 0 where it has none.
pub(crate) fn point_of(points: &[Serial], session: usize) -> u64
    ensures { result ≡ point_of (slice_get points.now session) }
{
    match points.get(session) {
        Some(point) => point.0,
        None => 0,
    }
}
