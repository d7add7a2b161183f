//! How an actor gets a slot, and raises the epoch.
ghost use Rattle.std.specs.Prelude.{◌≡◌, ◌<◌, ◌≤◌, ◌+◌, ◌-◌, ◌*◌};
ghost use Rattle.fkv_base.specs.Limits.{drain_slots};
ghost use Rattle.fkv_epoch.specs.Raising.{raise_ask, raise_next, raise_next_ask, raise_on, raise_asks_left, raise_asks_later, free_after, IsRaiseInRange};
ghost use Rattle.fkv_epoch.specs.declared.raising.Raising.TheVariants.{AtRest, LoadsEpoch};

use fkv_base::{DRAIN_SLOTS, LAST_EPOCH};
use fkv_plane::{Ask, SharedWord, drain_place};
use std::marker::Model;

/// How far the machine has come, and the slot that is met.
#[derive(Clone, Copy)]
pub(crate) enum Raising {
    AtRest,
    LoadsEpoch,
    MeetsSlot(usize),
    HoldsSlot(usize),
    /// The slot is held.
    HasSlot(usize),
    RaisesEpoch(usize),
}

/// What the machine has come to.
#[derive(Clone, Copy, Debug, PartialEq, Eq)]
pub enum RaiseAnswer {
    /// This slot is held. Before `raise` its holder stores what it raises the epoch for.
    HasSlot(usize),
    /// No slot was free when it was met, or the machine is at rest.
    NoSlot,
    /// The epoch is at its last.
    Spent,
    /// The slot, and the epoch from which the epoch was raised: at that one the slot is to be armed.
    Raised(usize, u64),
}

/// Loads the epoch, holds the first slot that is free, and then, once its holder says so, raises the epoch by one.
#[derive(Drop)]
pub struct Raise {
    step: Raising,
}

impl Model for Raise {
    ghost use Rattle.fkv_epoch.specs.Raising.{Raiser, IsRaiseInRange};

    ghost Value = { Raiser };

    ghost view = { λ m. record { step = m.step } };

    ghost invariant = { λ m. IsRaiseInRange m.step };
}

impl Raise {
    /// The machine at rest.
    pub fn new() -> Raise
        ensures { result ≡ record { step = AtRest } }
    {
        Raise {
            step: Raising::AtRest,
        }
    }

    /// The first ask.
    #[tactic(auto, unfolding(crate::specs::Raising::raise_ask, crate::specs::Raising::raise_asks_left, crate::specs::Raising::raise_asks_later))]
    pub fn start(&mut self) -> Ask<RaiseAnswer>
        ensures next { self.new ≡ record { step = LoadsEpoch } }
        ensures ask { result ≡ raise_ask LoadsEpoch }
        ensures bounded { raise_asks_left self.new.step + raise_asks_later self.new.step ≤ 2 * drain_slots + 2 }
    {
        self.step = Raising::LoadsEpoch;
        self.ask()
    }

    /// Goes on to raise the epoch, where a slot is held; else it stays where it is.
    #[tactic(auto, unfolding(crate::specs::Raising::raise_on, crate::specs::Raising::raise_asks_left, crate::specs::Raising::raise_asks_later))]
    pub fn raise(&mut self) -> Ask<RaiseAnswer>
        ensures next { self.new ≡ record { step = raise_on self.old.step } }
        ensures ask { result ≡ raise_ask (raise_on self.old.step) }
        ensures bounded { raise_asks_left self.new.step + raise_asks_later self.new.step ≤ raise_asks_left self.old.step + raise_asks_later self.old.step }
    {
        if let Raising::HasSlot(slot) = self.step {
            self.step = Raising::RaisesEpoch(slot);
        }
        self.ask()
    }

    /// Goes on with the reply to its ask. At rest, and until `raise` is called, it stays where it is.
    #[tactic(auto, unfolding(crate::specs::Raising::raise_next, crate::specs::Raising::raise_next_ask))]
    pub fn drive(&mut self, reply: u64) -> Ask<RaiseAnswer>
        ensures next { self.new ≡ record { step = raise_next self.old.step reply } }
        ensures ask { result ≡ raise_next_ask self.old.step reply }
        ensures fewer { raise_asks_left self.new.step ≤ raise_asks_left self.old.step - 1 }
        ensures later { raise_asks_later self.new.step ≤ raise_asks_later self.old.step }
    {
        match self.step {
            Raising::LoadsEpoch => {
                if reply >= LAST_EPOCH {
                    self.step = Raising::AtRest;
                    return Ask::Done(RaiseAnswer::Spent);
                }
                self.step = Raising::MeetsSlot(0);
            }
            Raising::MeetsSlot(slot) => {
                self.step = if reply == 0 {
                    Raising::HoldsSlot(slot)
                } else {
                    free_after(slot)
                };
            }
            Raising::HoldsSlot(slot) => {
                self.step = if reply == 0 {
                    Raising::HasSlot(slot)
                } else {
                    free_after(slot)
                };
            }
            Raising::RaisesEpoch(slot) => {
                self.step = Raising::AtRest;
                return Ask::Done(RaiseAnswer::Raised(slot, reply));
            }
            Raising::HasSlot(_) | Raising::AtRest => {}
        }
        self.ask()
    }

    /// What it asks now.
    #[tactic(auto, unfolding(crate::specs::Raising::raise_ask))]
    pub fn ask(&self) -> Ask<RaiseAnswer>
        ensures { result ≡ raise_ask self.now.step }
    {
        match self.step {
            Raising::AtRest => Ask::Done(RaiseAnswer::NoSlot),
            Raising::LoadsEpoch => Ask::Load(SharedWord::Epoch.place()),
            Raising::MeetsSlot(slot) => Ask::Load(drain_place(slot)),
            Raising::HoldsSlot(slot) => Ask::Cas(drain_place(slot), 0, 1),
            Raising::HasSlot(slot) => Ask::Done(RaiseAnswer::HasSlot(slot)),
            Raising::RaisesEpoch(_) => Ask::Add(SharedWord::Epoch.place(), 1),
        }
    }
}

/// The slot after one that isn't free is met, if there is one.
#[tactic(auto, unfolding(crate::specs::Raising::free_after))]
fn free_after(slot: usize) -> Raising
    requires { slot < drain_slots }
    ensures next { result ≡ free_after slot }
    ensures in_range { IsRaiseInRange result }
{
    if slot + 1 < DRAIN_SLOTS {
        Raising::MeetsSlot(slot + 1)
    } else {
        Raising::AtRest
    }
}
