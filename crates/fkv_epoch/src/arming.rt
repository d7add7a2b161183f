//! How a held slot is armed.
ghost use Rattle.std.specs.Prelude.{◌≡◌, ◌<◌, ◌≤◌, ◌+◌, ◌-◌, ◌^◌};
ghost use Rattle.fkv_base.specs.Limits.{drain_slots};
ghost use Rattle.fkv_epoch.specs.Arming.{arm_ask, arm_next, arm_asks_left};
ghost use Rattle.fkv_epoch.specs.declared.arming.Arming.TheVariants.{AtRest, PutsAction};
ghost use Rattle.fkv_plane.specs.declared.asks.Ask.TheVariants.{Put};

use fkv_plane::{Action, Ask, drain_place};
use std::marker::Model;

/// How far the machine has come: the slot, and the epoch at which it is armed.
#[derive(Clone, Copy)]
pub(crate) enum Arming {
    AtRest,
    PutsAction(usize, u64),
    StoresEpoch(usize, u64),
}

/// Puts an action into a slot that its actor holds, and arms the slot at the epoch from which the actor raised.
#[derive(Drop)]
pub struct Arm {
    step: Arming,
}

impl Model for Arm {
    ghost use Rattle.fkv_epoch.specs.Arming.{Armer, IsArmInRange};

    ghost Value = { Armer };

    ghost view = { λ m. record { step = m.step } };

    ghost invariant = { λ m. IsArmInRange m.step };
}

impl Arm {
    /// The machine at rest.
    pub fn new() -> Arm
        ensures { result ≡ record { step = AtRest } }
    {
        Arm {
            step: Arming::AtRest,
        }
    }

    /// The first ask puts the action into the slot.
    #[tactic(auto, unfolding(crate::specs::Arming::arm_asks_left))]
    pub fn start(&mut self, slot: usize, epoch: u64, action: Action) -> Ask<()>
        requires slot { slot < drain_slots }
        requires epoch { epoch + 2 < 2 ^ 64 }
        ensures next { self.new ≡ record { step = PutsAction slot epoch } }
        ensures ask { result ≡ Put slot action }
        ensures bounded { arm_asks_left self.new.step ≤ 2 }
    {
        self.step = Arming::PutsAction(slot, epoch);
        Ask::Put(slot, action)
    }

    /// Goes on with the reply to its ask.
    #[tactic(auto, unfolding(crate::specs::Arming::arm_ask, crate::specs::Arming::arm_next, crate::specs::Arming::arm_asks_left))]
    pub fn drive(&mut self, _reply: u64) -> Ask<()>
        ensures next { self.new ≡ record { step = arm_next self.old.step } }
        ensures ask { result ≡ arm_ask (arm_next self.old.step) }
        ensures fewer { arm_asks_left self.new.step ≤ arm_asks_left self.old.step - 1 }
    {
        self.step = match self.step {
            Arming::PutsAction(slot, epoch) => Arming::StoresEpoch(slot, epoch),
            Arming::StoresEpoch(_, _) | Arming::AtRest => Arming::AtRest,
        };
        self.ask()
    }

    /// What it asks now. The ask that puts the action had it, and so is never made again.
    #[tactic(auto, unfolding(crate::specs::Arming::arm_ask))]
    pub fn ask(&self) -> Ask<()>
        ensures { result ≡ arm_ask self.now.step }
    {
        match self.step {
            Arming::AtRest | Arming::PutsAction(_, _) => Ask::Done(()),
            Arming::StoresEpoch(slot, epoch) => Ask::Store(drain_place(slot), epoch + 2),
        }
    }
}
