//! How what must wait until all have seen a change is deferred.
ghost use Rattle.std.specs.Prelude.{◌≡◌};
ghost use Rattle.fkv_epoch.specs.Raising.{HasSlotInRange};
ghost use Rattle.fkv_commit.specs.Deferring.{action_of, defer_begun, defer_ask, defer_next, defer_on, seek_ledto, raise_ledto, arm_ledto};
ghost use Rattle.fkv_commit.specs.declared.deferring.Deferring.TheVariants.{Ended};
ghost use Rattle.fkv_commit.specs.declared.deferring.DeferAnswer.TheVariants.{NoSlot};

use fkv_base::{Addr, Phase, Version};
use fkv_epoch::{Arm, Raise, RaiseAnswer};
use fkv_plane::{Action, Ask, passed};
use std::marker::Model;

/// What is deferred.
#[derive(Clone, Copy)]
pub(crate) enum Deferred {
    /// The store goes on to this phase.
    EntersPhase(Phase, Version),
    /// The safe read-only offset is raised to this address.
    ShowsReadOnly(Addr),
}

/// What the machine has come to.
#[derive(Clone, Copy)]
pub(crate) enum DeferAnswer {
    /// A slot is held. Before `on` its owner makes the change that all have to see.
    Held,
    /// No slot was free when it was met, or the machine has not begun.
    NoSlot,
    /// The epoch is at its last.
    Spent,
    /// The slot is armed, at this epoch.
    Armed(u64),
}

/// How far the machine has come. Its end is kept up to the next start.
#[derive(Clone, Copy)]
pub(crate) enum Deferring {
    Ended(DeferAnswer),
    Seeks,
    Holds,
    Raises(Deferred),
    /// The action is put into this slot, which is armed at this epoch.
    Puts(Deferred, usize, u64),
    Arms(u64),
}

/// Holds a drain slot, waits until its owner has made a change, raises the epoch, and arms the slot at the epoch before with
/// the action that runs once all have seen the change.
#[derive(Drop)]
pub(crate) struct Defer {
    raise: Raise,
    arm: Arm,
    step: Deferring,
}

impl Model for Defer {
    ghost use Rattle.fkv_epoch.specs.Raising.{IsRaiseInRange};
    ghost use Rattle.fkv_commit.specs.Deferring.{DeferState};

    ghost Value = { DeferState };

    ghost view = { λ m. record { raising = m.raise.step; arming = m.arm.step; step = m.step } };

    ghost invariant = { λ m. IsRaiseInRange m.raise.step };
}

impl Defer {
    /// The machine at rest.
    pub(crate) fn new() -> Defer
        ensures { result.step ≡ Ended NoSlot }
    {
        Defer {
            raise: Raise::new(),
            arm: Arm::new(),
            step: Deferring::Ended(DeferAnswer::NoSlot),
        }
    }

    /// A slot is sought.
    pub(crate) fn start(&mut self)
        ensures { self.new ≡ defer_begun self.old }
    {
        self.raise.start();
        self.step = Deferring::Seeks;
    }

    /// Goes on to defer this, where a slot is held.
    #[tactic(auto, unfolding(crate::specs::Deferring::deferring_on))]
    pub(crate) fn on(&mut self, deferred: Deferred)
        ensures { self.new ≡ defer_on self.old deferred }
    {
        if let Deferring::Holds = self.step {
            self.raise.raise();
            self.step = Deferring::Raises(deferred);
        }
    }

    /// Goes on with the reply to its ask. At its end, and until `on` is called, it stays where it is.
    #[tactic(auto, unfolding(crate::specs::Deferring::deferring_next))]
    pub(crate) fn drive(&mut self, reply: u64) -> Ask<DeferAnswer>
        ensures next { self.new ≡ defer_next self.old reply }
        ensures ask { result ≡ defer_ask self.new }
    {
        match self.step {
            Deferring::Ended(_) | Deferring::Holds => {}
            Deferring::Seeks => {
                let ask = self.raise.drive(reply);
                self.after_seek(ask);
            }
            Deferring::Raises(deferred) => {
                let ask = self.raise.drive(reply);
                self.after_raise(deferred, ask);
            }
            Deferring::Puts(_, _, epoch) | Deferring::Arms(epoch) => {
                let ask = self.arm.drive(reply);
                self.after_arm(epoch, ask);
            }
        }
        self.ask()
    }

    /// What it asks now.
    #[tactic(auto, unfolding(crate::specs::Deferring::deferring_ask))]
    pub(crate) fn ask(&self) -> Ask<DeferAnswer>
        ensures { result ≡ defer_ask self.now }
    {
        match self.step {
            Deferring::Ended(answer) => Ask::Done(answer),
            Deferring::Seeks | Deferring::Raises(_) => {
                passed(self.raise.ask(), DeferAnswer::NoSlot)
            }
            Deferring::Holds => Ask::Done(DeferAnswer::Held),
            Deferring::Puts(deferred, slot, _) => Ask::Put(slot, action_of(deferred)),
            Deferring::Arms(epoch) => passed(self.arm.ask(), DeferAnswer::Armed(epoch)),
        }
    }

    /// Goes on by what the raise asks as it seeks a slot.
    #[tactic(auto, unfolding(crate::specs::Deferring::seek_ledto))]
    fn after_seek(&mut self, ask: Ask<RaiseAnswer>)
        ensures { self.new ≡ seek_ledto self.old ask }
    {
        match ask {
            Ask::Done(RaiseAnswer::HasSlot(_)) => self.step = Deferring::Holds,
            Ask::Done(RaiseAnswer::Spent) => self.step = Deferring::Ended(DeferAnswer::Spent),
            Ask::Done(_) => self.step = Deferring::Ended(DeferAnswer::NoSlot),
            _ => {}
        }
    }

    /// Goes on by what the raise asks as it raises the epoch.
    #[tactic(auto, unfolding(crate::specs::Deferring::raise_ledto))]
    fn after_raise(&mut self, deferred: Deferred, ask: Ask<RaiseAnswer>)
        requires { HasSlotInRange ask }
        ensures { self.new ≡ raise_ledto deferred self.old ask }
    {
        match ask {
            Ask::Done(RaiseAnswer::Raised(slot, epoch)) => {
                let epoch = epoch.min(u64::MAX - 2);
                self.arm.start(slot, epoch, action_of(deferred));
                self.step = Deferring::Puts(deferred, slot, epoch);
            }
            Ask::Done(_) => self.step = Deferring::Ended(DeferAnswer::NoSlot),
            _ => {}
        }
    }

    /// Goes on by what the arming asks.
    #[tactic(auto, unfolding(crate::specs::Deferring::arm_ledto))]
    fn after_arm(&mut self, epoch: u64, ask: Ask<()>)
        ensures { self.new ≡ arm_ledto epoch self.old ask }
    {
        self.step = match ask {
            Ask::Done(()) => Deferring::Ended(DeferAnswer::Armed(epoch)),
            _ => Deferring::Arms(epoch),
        };
    }
}

fn action_of(deferred: Deferred) -> Action
    ensures { result ≡ action_of deferred }
{
    match deferred {
        Deferred::EntersPhase(phase, version) => Action::Phase(phase, version),
        Deferred::ShowsReadOnly(to) => Action::SafeReadOnly(to),
    }
}
