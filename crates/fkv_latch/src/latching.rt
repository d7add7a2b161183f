//! How a latch is taken and dropped.
ghost use Rattle.std.specs.Prelude.{◌≡◌, ◌<◌, ◌≤◌, ◌-◌};

use fkv_plane::Ask;
use std::marker::Model;

/// One of those that share a latch, in the count that begins at bit 48.
const ONE_SHARE: u64 = 1 << 48;
/// The bit of who holds a latch alone.
const EXCLUSIVE_BIT: u64 = 1 << 63;

/// What is to be done with a latch.
#[derive(Clone, Copy)]
pub enum LatchTask {
    TakeShared,
    DropShared,
    TakeExclusive,
    DropExclusive,
}

/// What the machine has come to.
#[derive(Clone, Copy, Debug, PartialEq, Eq)]
pub enum LatchAnswer {
    /// The caller holds the latch, until it begins to drop it.
    Taken,
    /// Others hold it, or another was quicker.
    Busy,
    /// The latch is dropped, or the machine is at rest.
    Dropped,
}

/// How far the machine has come with the latch whose word is at this place.
#[derive(Clone, Copy)]
pub(crate) enum Latching {
    AtRest,
    AddsShare(usize),
    /// One holds the latch alone, so the share that was added is taken off again.
    GivesBack(usize),
    DropsShare(usize),
    LoadsWord(usize),
    /// The word was free.
    SetsExclusive(usize, u64),
    DropsExclusive(usize),
}

/// Takes a latch, shared or exclusive, by one try, or drops one that is held.
#[derive(Drop)]
pub struct Latch {
    step: Latching,
}

impl Model for Latch {
    ghost use Rattle.fkv_latch.specs.Latching.{IsLatchInRange};
    ghost use Rattle.fkv_latch.specs.declared.latching.Latching.{Latching};

    ghost Value = { Latching };

    ghost view = { λ m. m.step };

    ghost invariant = { λ m. IsLatchInRange m.step };
}

impl Latch {
    ghost use Rattle.fkv_latch.specs.Latching.{latch_first, latch_ask, latch_next, latch_next_ask, asks_left, AsksWhereLeft};
    ghost use Rattle.fkv_latch.specs.declared.latching.Latching.TheVariants.{AtRest};

    /// The machine at rest.
    pub fn new() -> Latch
        ensures { result ≡ AtRest }
    {
        Latch {
            step: Latching::AtRest,
        }
    }

    /// The first ask of this task, with the latch whose word is at this place.
    #[tactic(auto, unfolding(crate::specs::Latching::asks_left))]
    pub fn start(&mut self, task: LatchTask, place: usize) -> Ask<LatchAnswer>
        ensures next { self.new ≡ latch_first task place }
        ensures ask { result ≡ latch_ask (latch_first task place) }
        ensures asks { AsksWhereLeft self.new result }
        ensures some { 0 < asks_left self.new }
        ensures bounded { asks_left self.new ≤ 2 }
    {
        self.step = match task {
            LatchTask::TakeShared => Latching::AddsShare(place),
            LatchTask::DropShared => Latching::DropsShare(place),
            LatchTask::TakeExclusive => Latching::LoadsWord(place),
            LatchTask::DropExclusive => Latching::DropsExclusive(place),
        };
        self.ask()
    }

    /// Goes on with the reply to its ask. At rest it stays where it is.
    #[tactic(auto, unfolding(crate::specs::Latching::latch_next, crate::specs::Latching::latch_next_ask, crate::specs::Latching::asks_left))]
    pub fn drive(&mut self, reply: u64) -> Ask<LatchAnswer>
        ensures next { self.new ≡ latch_next self.old reply }
        ensures ask { result ≡ latch_next_ask self.old reply }
        ensures asks { AsksWhereLeft self.new result }
        ensures fewer { asks_left self.new ≤ asks_left self.old - 1 }
    {
        let step = self.step;
        self.step = Latching::AtRest;
        match step {
            Latching::AddsShare(place) if reply >= EXCLUSIVE_BIT => {
                self.step = Latching::GivesBack(place);
                self.ask()
            }
            Latching::LoadsWord(place) if reply < ONE_SHARE => {
                self.step = Latching::SetsExclusive(place, reply);
                self.ask()
            }
            Latching::SetsExclusive(_, word) if reply == word => Ask::Done(LatchAnswer::Taken),
            Latching::AddsShare(_) => Ask::Done(LatchAnswer::Taken),
            Latching::GivesBack(_) | Latching::LoadsWord(_) | Latching::SetsExclusive(_, _) => {
                Ask::Done(LatchAnswer::Busy)
            }
            Latching::AtRest | Latching::DropsShare(_) | Latching::DropsExclusive(_) => {
                Ask::Done(LatchAnswer::Dropped)
            }
        }
    }

    /// What it asks now.
    #[tactic(auto, unfolding(crate::specs::Latching::latch_ask, crate::specs::Latching::asks_left))]
    pub fn ask(&self) -> Ask<LatchAnswer>
        ensures ask { result ≡ latch_ask self.now }
        ensures asks { AsksWhereLeft self.now result }
    {
        match self.step {
            Latching::AtRest => Ask::Done(LatchAnswer::Dropped),
            Latching::AddsShare(place) => Ask::Add(place, ONE_SHARE),
            Latching::GivesBack(place) | Latching::DropsShare(place) => {
                Ask::Add(place, ONE_SHARE.wrapping_neg())
            }
            Latching::LoadsWord(place) => Ask::Load(place),
            Latching::SetsExclusive(place, word) => Ask::Cas(place, word, word + EXCLUSIVE_BIT),
            Latching::DropsExclusive(place) => Ask::Add(place, EXCLUSIVE_BIT),
        }
    }
}
