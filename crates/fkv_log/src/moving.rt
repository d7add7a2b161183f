//! How an offset is moved that the protected sessions have to see.
ghost use Rattle.std.specs.Prelude.{◌≡◌, ◌<◌, ◌≤◌, ◌-◌, ◌^◌, min};
ghost use Rattle.fkv_plane.specs.Passing.{is_done};
ghost use Rattle.fkv_epoch.specs.Raising.{raise_ask, HasSlotInRange};
ghost use Rattle.fkv_log.specs.Moving.{move_at_rest, move_ask, move_begun, move_next, move_next_ask, raise_led, raise_told, arm_led, offset_place, action_awaited, move_asks_left, move_asks_most};

use fkv_base::Addr;
use fkv_epoch::{Arm, Raise, RaiseAnswer};
use fkv_plane::{Action, Ask, SharedWord, passed};
use std::marker::Model;

/// An offset that is moved before all have seen it.
#[derive(Clone, Copy)]
pub enum Offset {
    /// The read-only offset. Once all have seen it, the safe read-only offset follows.
    ReadOnly,
    /// The head. Once all have seen it, the closed offset follows.
    Head,
}

/// What a machine that moves an offset has come to.
#[derive(Clone, Copy, Debug, PartialEq, Eq)]
pub enum MoveAnswer {
    /// It is through, or at rest.
    Through,
    /// No drain slot was free when it was met, and nothing was moved.
    NoSlot,
    /// The epoch is at its last, and nothing was moved.
    Spent,
}

/// An offset, and where it is moved.
#[derive(Clone, Copy)]
pub(crate) struct Target {
    offset: Offset,
    to: u64,
}

/// How far the machine has come.
#[derive(Clone, Copy)]
pub(crate) enum Moving {
    AtRest,
    /// A slot is sought; or the offset is moved, and the epoch is raised.
    Raises(Target),
    /// A slot is held.
    MovesOffset(Target),
    /// The epoch is raised, and the action is put into this slot.
    Puts(Target, usize),
    Arms,
}

/// Holds a drain slot, moves an offset up, raises the epoch, and arms the slot at the epoch before with the action that
/// waits until every protected session has seen the offset. Where no slot is free it moves nothing.
#[derive(Drop)]
pub struct MoveOffset {
    step: Moving,
    raise: Raise,
    arm: Arm,
}

impl Model for MoveOffset {
    ghost use Rattle.fkv_epoch.specs.Raising.{IsRaiseInRange};
    ghost use Rattle.fkv_log.specs.Moving.{Mover, RaiseAsks};

    ghost Value = { Mover };

    ghost view = { λ m. record { step = m.step; raising = m.raise.step; arming = m.arm.step } };

    ghost invariant = { λ m. IsRaiseInRange m.raise.step × RaiseAsks m.step m.raise.step };
}

impl MoveOffset {
    /// The machine at rest.
    pub fn new() -> MoveOffset
        ensures { result ≡ move_at_rest }
    {
        MoveOffset {
            step: Moving::AtRest,
            raise: Raise::new(),
            arm: Arm::new(),
        }
    }

    /// The first ask: the epoch is loaded.
    #[tactic(auto, unfolding(crate::specs::Moving::moving_ask))]
    pub fn start(&mut self, offset: Offset, to: Addr) -> Ask<MoveAnswer>
        ensures next { self.new ≡ move_begun offset to.0 }
        ensures ask { result ≡ move_ask (move_begun offset to.0) }
        ensures bounded { move_asks_left self.new ≤ move_asks_most }
    {
        self.step = Moving::Raises(Target { offset, to: to.0 });
        self.arm = Arm::new();
        passed(self.raise.start(), MoveAnswer::Through)
    }

    /// Goes on with the reply to its ask.
    #[tactic(auto, unfolding(crate::specs::Moving::moving_next, crate::specs::Moving::moving_next_ask))]
    pub fn drive(&mut self, reply: u64) -> Ask<MoveAnswer>
        ensures next { self.new ≡ move_next self.old reply }
        ensures ask { result ≡ move_next_ask self.old reply }
        ensures fewer { move_asks_left self.new ≤ move_asks_left self.old - 1 }
    {
        // In the step `Raises` the raise is under way, and the reply may end it: what it asks then sets the step.
        let step = self.step;
        self.step = Moving::AtRest;
        match step {
            Moving::AtRest => self.ask(),
            Moving::Raises(target) => {
                let ask = self.raise.drive(reply);
                self.after_raise(target, ask)
            }
            Moving::MovesOffset(target) => {
                let ask = self.raise.raise();
                self.after_raise(target, ask)
            }
            Moving::Puts(_, _) | Moving::Arms => {
                let ask = self.arm.drive(reply);
                self.after_arm(ask)
            }
        }
    }

    /// Goes on by what the raise asks.
    #[tactic(auto, unfolding(crate::specs::Moving::raise_led, crate::specs::Moving::raise_told, crate::specs::Moving::moving_ask, fkv_plane::specs::Passing::passed))]
    fn after_raise(&mut self, target: Target, ask: Ask<RaiseAnswer>) -> Ask<MoveAnswer>
        requires in_range { HasSlotInRange ask }
        requires asks { is_done ask ≡ is_done (raise_ask self.old.raising) }
        ensures next { self.new ≡ raise_led target self.old.raising self.old.arming ask }
        ensures ask { result ≡ raise_told ask self.new }
    {
        self.step = match ask {
            Ask::Done(RaiseAnswer::HasSlot(_)) => Moving::MovesOffset(target),
            Ask::Done(RaiseAnswer::NoSlot) => {
                self.step = Moving::AtRest;
                return Ask::Done(MoveAnswer::NoSlot);
            }
            Ask::Done(RaiseAnswer::Spent) => {
                self.step = Moving::AtRest;
                return Ask::Done(MoveAnswer::Spent);
            }
            Ask::Done(RaiseAnswer::Raised(slot, epoch)) => {
                self.step = Moving::Puts(target, slot);
                let put = self
                    .arm
                    .start(slot, epoch.min(u64::MAX - 2), action_of(target));
                return passed(put, MoveAnswer::Through);
            }
            _ => Moving::Raises(target),
        };
        self.ask()
    }

    /// Goes on by what the arming asks.
    #[tactic(auto, unfolding(crate::specs::Moving::arm_led, crate::specs::Moving::moving_ask))]
    fn after_arm(&mut self, ask: Ask<()>) -> Ask<MoveAnswer>
        ensures next { self.new ≡ arm_led self.old.raising self.old.arming ask }
        ensures ask { result ≡ move_ask self.new }
    {
        self.step = match ask {
            Ask::Done(()) => Moving::AtRest,
            _ => Moving::Arms,
        };
        self.ask()
    }

    /// What it asks now.
    #[tactic(auto, unfolding(crate::specs::Moving::moving_ask))]
    pub fn ask(&self) -> Ask<MoveAnswer>
        ensures { result ≡ move_ask self.now }
    {
        match self.step {
            Moving::AtRest => Ask::Done(MoveAnswer::Through),
            Moving::Raises(_) => passed(self.raise.ask(), MoveAnswer::Through),
            Moving::MovesOffset(target) => Ask::Max(offset_place(target.offset), target.to),
            Moving::Puts(target, slot) => Ask::Put(slot, action_of(target)),
            Moving::Arms => passed(self.arm.ask(), MoveAnswer::Through),
        }
    }
}

fn offset_place(offset: Offset) -> usize
    ensures { result ≡ offset_place offset }
{
    match offset {
        Offset::ReadOnly => SharedWord::ReadOnly.place(),
        Offset::Head => SharedWord::Head.place(),
    }
}

fn action_of(target: Target) -> Action
    ensures { result ≡ action_awaited target.offset target.to }
{
    match target.offset {
        Offset::ReadOnly => Action::SafeReadOnly(Addr(target.to)),
        Offset::Head => Action::Close(Addr(target.to)),
    }
}
