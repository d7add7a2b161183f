//! What each step at the table tells.
ghost use Rattle.std.specs.Prelude.{ℕ, List, []};

use crate::happenings::Happening;
use crate::rule::{Knows, Slot};
use atomic_table::Play;
use fkv_disk::Device;
use std::marker::PhantomData;

/// Which starts a step adds before its own event, by what the seat has in hand.
pub(crate) trait Adds {
    ghost use Rattle.fkv_table.specs.Said as said;

    ghost own: { List (ℕ × said.Slot) → List said.Happening };
}

/// The first step of a call, which adds the start that the desk tells.
pub(crate) struct First;

impl Adds for First {
    ghost use Rattle.fkv_table.specs.Said as said;

    ghost own = { said.noted };
}

/// Each later one.
pub(crate) struct Next;

impl Adds for Next {
    ghost own = { λ _. [] };
}

/// A step of a session.
pub(crate) struct Turn<O> {
    kind: PhantomData<O>,
}

impl<D: Device, O: Adds> Play<Slot, Knows<D>> for Turn<O> {
    ghost use Rattle.fkv_table.specs.Said as said;

    ghost then = { said.turned (said.opening_of D.seen) O.own };
}

/// A load that adds what the desk tells, and nothing else: a call that is over before its first ask.
pub(crate) struct Notes;

impl<D: Device> Play<Slot, Knows<D>> for Notes {
    ghost use Rattle.fkv_table.specs.Said as said;

    ghost then = { said.noting (said.opening_of D.seen) };
}

/// A Cas that raises a word. If it finds the expected word it adds two events: the load before it, and the Cas. Else it adds none.
pub(crate) struct Raises;

impl<D: Device> Play<Slot, Knows<D>> for Raises {
    ghost use Rattle.fkv_table.specs.Said as said;

    ghost then = { said.raising (said.opening_of D.seen) };
}
