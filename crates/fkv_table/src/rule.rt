//! The rule of the table, the table and its passes.
use crate::happenings::Happening;
use atomic_table::{Seat, Shared, TableRule};
use fkv_core::World;
use fkv_disk::Device;
use fkv_plane::{Action, Places};
use fkv_seats::{Held, View};
use std::alloc::Global;
use std::marker::PhantomData;
use std::snapshot::Snapshot;

/// What a slot of the table holds: an action of a drain slot, or what a seat notes on its desk.
pub(crate) type Slot = Held<Action, Happening>;

/// The world that the store was opened with.
pub(crate) type Opening<D> = Snapshot<World<D>>;

pub(crate) type Knows<D> = View<Happening, Opening<D>>;

pub(crate) type Words<D> = Shared<Slot, Knows<D>, Opening<D>, Engine<D>>;

pub(crate) type Place<D> = Seat<Slot, Knows<D>>;

/// The words of the table are those of the engine's world after one list of events, over the device that the store was opened from.
pub struct Engine<D> {
    device: PhantomData<D>,
}

impl<D: Device> TableRule<Slot, Knows<D>, Opening<D>> for Engine<D> {
    ghost use Rattle.fkv_table.specs.Said as said;

    ghost holds = { said.Ruled (said.plane (said.opening_of D.seen)) };

    ghost first = { said.first_view (said.plane (said.opening_of D.seen)) };
}

/// The shared words, with the drain slots and the desks. Threads share it by reference.
#[derive(Drop)]
pub struct Table<D: Device> {
    pub(crate) table: atomic_table::Table<Slot, Knows<D>, Opening<D>, Engine<D>, Global>,
    /// Where the words lie, for hints.
    pub(crate) places: Places,
}

/// The right of one session to step at the table. It has no bytes.
#[derive(Drop)]
pub struct Pass<D: Device> {
    pub(crate) seat: Place<D>,
}
