//! How the read-only offset is shifted as the tail goes on.
ghost use Rattle.std.specs.Prelude.{◌≡◌, ◌≤◌, ◌+◌, ◌-◌};
ghost use Rattle.fkv_log.specs.Moving.{move_at_rest, move_asks_left, move_asks_most};
ghost use Rattle.fkv_log.specs.Shifting.{mutable_start, shift_answer, shift_at, shift_begun, shift_ask, shift_next, shift_next_ask, shift_led, move_told, shift_asks_left};
ghost use Rattle.fkv_log.specs.declared.shifting.Shifting.TheVariants.{AtRest};

use crate::moving::{MoveAnswer, MoveOffset, Offset};
use fkv_base::{Addr, Shape};
use fkv_plane::{Ask, SharedWord, passed};
use std::marker::Model;

/// What a shift of the read-only offset has come to. The address is the tail as it was loaded, 0 at rest.
#[derive(Clone, Copy, Debug, PartialEq, Eq)]
pub enum ShiftAnswer {
    /// It is through, or at rest.
    Through(Addr),
    /// No drain slot was free when it was met, and nothing was moved.
    NoSlot(Addr),
    /// The epoch is at its last, and nothing was moved.
    Spent(Addr),
}

/// How far the machine has come, and the tail once it is loaded.
#[derive(Clone, Copy)]
pub(crate) enum Shifting {
    AtRest,
    LoadsTail,
    LoadsReadOnly(u64),
    /// The read-only offset is moved.
    Moves(u64),
}

/// Moves the read-only offset up to where the mutable pages begin, of which the tail's page is the last. The safe
/// read-only offset follows once every protected session has seen it.
#[derive(Drop)]
pub struct ShiftReadOnly {
    shape: Shape,
    step: Shifting,
    mover: MoveOffset,
}

impl Model for ShiftReadOnly {
    ghost use Rattle.fkv_log.specs.Shifting.{Shifter, shift_at};

    ghost Value = { Shifter };

    ghost view = { λ m. record { shape = m.shape; state = shift_at m.step m.mover } };
}

impl ShiftReadOnly {
    /// The machine at rest.
    pub fn new(shape: Shape) -> ShiftReadOnly
        ensures { result ≡ record { shape = shape; state = shift_at AtRest move_at_rest } }
    {
        ShiftReadOnly {
            shape,
            step: Shifting::AtRest,
            mover: MoveOffset::new(),
        }
    }

    /// The first ask. The move inside is at rest then, whatever came before.
    #[tactic(auto, unfolding(crate::specs::Shifting::shifting_asks_left))]
    pub fn start(&mut self) -> Ask<ShiftAnswer>
        ensures next { self.new ≡ record self.old { state = shift_begun } }
        ensures ask { result ≡ shift_ask shift_begun }
        ensures bounded { shift_asks_left self.new.state ≤ move_asks_most + 2 }
    {
        self.step = Shifting::LoadsTail;
        self.mover = MoveOffset::new();
        self.ask()
    }

    /// Goes on with the reply to its ask.
    #[tactic(auto, unfolding(crate::specs::Shifting::shifting_next, crate::specs::Shifting::shifting_next_ask, crate::specs::Shifting::shifting_asks_left))]
    pub fn drive(&mut self, reply: u64) -> Ask<ShiftAnswer>
        ensures next { self.new ≡ record self.old { state = shift_next self.old.shape self.old.state reply } }
        ensures ask { result ≡ shift_next_ask self.old.shape self.old.state reply }
        ensures fewer { shift_asks_left self.new.state ≤ shift_asks_left self.old.state - 1 }
    {
        match self.step {
            Shifting::AtRest => {}
            Shifting::LoadsTail => self.step = Shifting::LoadsReadOnly(reply),
            Shifting::LoadsReadOnly(tail) => {
                let start = mutable_start(&self.shape, tail);
                if reply >= start {
                    self.step = Shifting::AtRest;
                    return Ask::Done(ShiftAnswer::Through(Addr(tail)));
                }
                self.step = Shifting::Moves(tail);
                self.mover.start(Offset::ReadOnly, Addr(start));
            }
            Shifting::Moves(tail) => {
                let ask = self.mover.drive(reply);
                return self.after_move(tail, ask);
            }
        }
        self.ask()
    }

    /// Goes on by what the move asks.
    #[tactic(auto, unfolding(crate::specs::Shifting::shift_led, crate::specs::Shifting::move_told, crate::specs::Shifting::shifting_asks_left))]
    fn after_move(&mut self, tail: u64, ask: Ask<MoveAnswer>) -> Ask<ShiftAnswer>
        ensures next { self.new ≡ record self.old { state = shift_led tail self.old.state.mover ask } }
        ensures ask { result ≡ move_told tail ask self.new.state }
        ensures bounded { shift_asks_left self.new.state ≤ move_asks_left self.old.state.mover }
    {
        if let Ask::Done(answer) = ask {
            self.step = Shifting::AtRest;
            return Ask::Done(shift_answer(answer, tail));
        }
        self.step = Shifting::Moves(tail);
        self.ask()
    }

    /// What it asks now.
    #[tactic(auto, unfolding(crate::specs::Shifting::shifting_ask))]
    pub fn ask(&self) -> Ask<ShiftAnswer>
        ensures { result ≡ shift_ask self.now.state }
    {
        match self.step {
            Shifting::AtRest => Ask::Done(ShiftAnswer::Through(Addr(0))),
            Shifting::LoadsTail => Ask::Load(SharedWord::Tail.place()),
            Shifting::LoadsReadOnly(_) => Ask::Load(SharedWord::ReadOnly.place()),
            Shifting::Moves(tail) => passed(self.mover.ask(), ShiftAnswer::Through(Addr(tail))),
        }
    }
}

/// Where the mutable pages begin. The tail's page is the last of them.
fn mutable_start(shape: &Shape, tail: u64) -> u64
    ensures { result ≡ mutable_start shape.now.page shape.now.mutable tail }
{
    (tail / shape.page + 1).saturating_sub(shape.mutable) * shape.page
}

fn shift_answer(answer: MoveAnswer, tail: u64) -> ShiftAnswer
    ensures { result ≡ shift_answer answer tail }
{
    match answer {
        MoveAnswer::Through => ShiftAnswer::Through(Addr(tail)),
        MoveAnswer::NoSlot => ShiftAnswer::NoSlot(Addr(tail)),
        MoveAnswer::Spent => ShiftAnswer::Spent(Addr(tail)),
    }
}
