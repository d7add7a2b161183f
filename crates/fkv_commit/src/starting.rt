//! How a commit starts.
ghost use Rattle.std.specs.Prelude.{◌≡◌, ◌≤◌, ◌<◌, ◌+◌, ◌*◌};
ghost use Rattle.fkv_base.specs.Limits.{drain_slots, last_of};
ghost use Rattle.fkv_plane.specs.AsksLeft.{AsksWhereLeft};
ghost use Rattle.fkv_commit.specs.AsksLeft.{start_asks_left};
ghost use Rattle.fkv_commit.specs.Starting.{is_lost_full, is_past_window, start_begun, start_ask, start_next, phase_found, seek_led, defer_led};
ghost use Rattle.fkv_commit.specs.declared.starting.Starting.TheVariants.{Ended};
ghost use Rattle.fkv_commit.specs.declared.starting.StartAnswer.TheVariants.{Idle, Refused};

use crate::deferring::{Defer, DeferAnswer, Deferred};
use crate::phase_steps::{phase_stored, version_after};
use fkv_base::{Addr, CommitKind, Fault, Phase, StoreClass, Version};
use fkv_marks::oldest;
use fkv_plane::{Ask, SharedWord, passed};
use fkv_words::{PhaseSaid, phase_said};
use std::marker::Model;

/// Ranges of lost records that a log commit may store, at most.
const MAX_LOST: usize = 8;

/// So far a log commit's number may lie from the oldest version that a record behind the checkpoint may have.
const WINDOW: u64 = 8189;

/// The commit that is to start, and the store's state that bounds it.
#[derive(Clone, Copy)]
pub struct StartAsked {
    /// The class of the store.
    pub class: StoreClass,
    pub kind: CommitKind,
    /// Ranges of lost records in hand, which a log commit has to store.
    pub lost: usize,
    /// The number of the commit whose checkpoint is in force.
    pub checkpoint: Version,
}

/// What the start of a commit has come to.
#[derive(Clone, Copy, Debug, PartialEq, Eq)]
pub enum StartAnswer {
    /// No commit was asked for yet.
    Idle,
    /// The commit of this number has started. The address is the tail in prepare.
    Begun(Version, Addr),
    /// No commit has started, and nothing has changed.
    Refused(Fault),
}

/// How far the machine has come. Its end is kept up to the next start.
#[derive(Clone, Copy)]
pub(crate) enum Starting {
    Ended(StartAnswer),
    LoadsPhase,
    /// A drain slot is sought for the commit of this number.
    Seeks(Version),
    StoresPrepare(Version),
    LoadsTail(Version),
    /// In-progress is deferred.
    Defers(Version, Addr),
}

/// Starts a commit: stores prepare, loads the tail, and defers in-progress until all have seen prepare. It is refused where a
/// commit runs, the version is the store's last, a log commit would have too many ranges of lost records to store or lie past the
/// window of its checkpoint, the epoch is at its last, or no drain slot is free, in this order.
#[derive(Drop)]
pub struct StartCommit {
    asked: StartAsked,
    defer: Defer,
    step: Starting,
}

impl Model for StartCommit {
    ghost use Rattle.fkv_commit.specs.Starting.{StartState};

    ghost Value = { StartState };

    ghost view = { λ m. record { asked = m.asked; defer = m.defer; step = m.step } };
}

impl StartCommit {
    /// The machine at rest, of a store of this class.
    pub fn new(class: StoreClass) -> StartCommit
        ensures rests { result.step ≡ Ended Idle }
        ensures class { result.asked.class ≡ class }
    {
        StartCommit {
            asked: StartAsked {
                class,
                kind: CommitKind::Full,
                lost: 0,
                checkpoint: Version(0),
            },
            defer: Defer::new(),
            step: Starting::Ended(StartAnswer::Idle),
        }
    }

    /// The first ask, for this commit.
    #[tactic(auto, unfolding(crate::specs::AsksLeft::starting_asks_left))]
    pub fn start(&mut self, asked: StartAsked) -> Ask<StartAnswer>
        ensures next { self.new ≡ start_begun self.old asked }
        ensures ask { result ≡ start_ask self.new }
        ensures asks { AsksWhereLeft (start_asks_left self.new) result }
        ensures bounded { start_asks_left self.new ≤ 2 * drain_slots + 7 }
    {
        self.asked = asked;
        self.step = Starting::LoadsPhase;
        self.ask()
    }

    /// Goes on with the reply to its ask. At its end it stays where it is.
    #[tactic(auto, unfolding(crate::specs::Starting::starting_next))]
    pub fn drive(&mut self, reply: u64) -> Ask<StartAnswer>
        ensures next { self.new ≡ start_next self.old reply }
        ensures ask { result ≡ start_ask self.new }
        ensures asks { AsksWhereLeft (start_asks_left self.new) result }
        ensures fewer { 0 < start_asks_left self.old → start_asks_left self.new < start_asks_left self.old }
    {
        match self.step {
            Starting::Ended(_) => {}
            Starting::LoadsPhase => self.after_phase(phase_said(reply)),
            Starting::Seeks(number) => {
                let ask = self.defer.drive(reply);
                self.after_seek(number, ask);
            }
            Starting::StoresPrepare(number) => self.step = Starting::LoadsTail(number),
            Starting::LoadsTail(number) => {
                let next = version_after(number);
                self.defer
                    .on(Deferred::EntersPhase(Phase::InProgress, next));
                self.step = Starting::Defers(number, Addr(reply));
            }
            Starting::Defers(number, first) => {
                let ask = self.defer.drive(reply);
                self.after_defer(number, first, ask);
            }
        }
        self.ask()
    }

    /// The kind of the commit that was asked for last.
    pub fn kind(&self) -> CommitKind
        ensures { result ≡ self.now.asked.kind }
    {
        self.asked.kind
    }

    /// The class of the store.
    pub fn class(&self) -> StoreClass
        ensures { result ≡ self.now.asked.class }
    {
        self.asked.class
    }

    /// What it asks now.
    #[tactic(auto, unfolding(crate::specs::Starting::starting_ask))]
    pub fn ask(&self) -> Ask<StartAnswer>
        ensures { result ≡ start_ask self.now }
    {
        match self.step {
            Starting::Ended(answer) => Ask::Done(answer),
            Starting::LoadsPhase => Ask::Load(SharedWord::Phase.place()),
            Starting::Seeks(_) | Starting::Defers(_, _) => {
                passed(self.defer.ask(), StartAnswer::Idle)
            }
            Starting::StoresPrepare(number) => Ask::Store(
                SharedWord::Phase.place(),
                phase_stored(Phase::Prepare, number),
            ),
            Starting::LoadsTail(_) => Ask::Load(SharedWord::Tail.place()),
        }
    }

    /// Goes on by what the phase word says.
    fn after_phase(&mut self, said: PhaseSaid)
        ensures { self.new ≡ phase_found self.old said }
    {
        match said {
            PhaseSaid::Says(Phase::Rest, number) => {
                if number.0 >= self.asked.class.last_version() {
                    self.refuse(Fault::VersionsSpent);
                } else if self.is_lost_full(number) {
                    self.refuse(Fault::LostFull);
                } else {
                    self.defer.start();
                    self.step = Starting::Seeks(number);
                }
            }
            _ => self.refuse(Fault::CommitRunning),
        }
    }

    /// A log commit would have too many ranges of lost records to store, or lie past its window.
    fn is_lost_full(&self, number: Version) -> bool
        ensures { result ≡ is_lost_full self.now.asked number.0 }
    {
        self.asked.kind == CommitKind::Log
            && (self.asked.lost > MAX_LOST || self.is_past_window(number))
    }

    /// Some mark would be of two versions behind the checkpoint.
    fn is_past_window(&self, number: Version) -> bool
        ensures { result ≡ is_past_window self.now.asked number.0 }
    {
        let oldest = oldest(self.asked.class, self.asked.checkpoint.0);
        number.0.saturating_sub(oldest) > WINDOW
    }

    fn refuse(&mut self, why: Fault)
        ensures { self.new ≡ record self.old { step = Ended (Refused why) } }
    {
        self.step = Starting::Ended(StartAnswer::Refused(why));
    }

    /// Goes on by what is asked as a slot is sought.
    #[tactic(auto, unfolding(crate::specs::Starting::seek_led))]
    fn after_seek(&mut self, number: Version, ask: Ask<DeferAnswer>)
        ensures { self.new ≡ seek_led number self.old ask }
    {
        match ask {
            Ask::Done(DeferAnswer::Held) => self.step = Starting::StoresPrepare(number),
            Ask::Done(DeferAnswer::Spent) => self.refuse(Fault::EpochsSpent),
            Ask::Done(_) => self.refuse(Fault::DrainFull),
            _ => {}
        }
    }

    /// Goes on by what is asked as in-progress is deferred.
    #[tactic(auto, unfolding(crate::specs::Starting::defer_led))]
    fn after_defer(&mut self, number: Version, first: Addr, ask: Ask<DeferAnswer>)
        ensures { self.new ≡ defer_led number first self.old ask }
    {
        match ask {
            Ask::Done(DeferAnswer::Armed(_)) => {
                self.step = Starting::Ended(StartAnswer::Begun(number, first));
            }
            Ask::Done(_) => self.step = Starting::Ended(StartAnswer::Idle),
            _ => {}
        }
    }
}
