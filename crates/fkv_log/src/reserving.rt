//! How an address is reserved at the tail of the log.
ghost use Rattle.std.specs.Prelude.{◌≡◌, ◌≤◌, ◌-◌, ◌*◌};
ghost use Rattle.fkv_log.specs.Reserving.{limit_within, reserved_where};

use fkv_base::{Addr, Shape};
use fkv_plane::{Ask, SharedWord};
use std::marker::Model;

/// How far the machine has come, with the offsets that it has loaded.
#[derive(Clone, Copy)]
pub(crate) enum Reserving {
    AtRest,
    /// No address from this bound on is to be had, where there is one.
    LoadsLimit(Option<u64>),
    LoadsTail(u64),
    TakesTail(u64),
}

/// What the machine has come to.
#[derive(Clone, Copy, Debug, PartialEq, Eq)]
pub enum ReserveAnswer {
    /// The address is the caller's, and nobody else's.
    Reserved(Addr),
    /// The tail stood at the end of the log: the device has no page for another record.
    Full,
    /// The tail stood at the limit: the page after it isn't open yet. Or it stood at the bound.
    NoRoom,
    /// Another actor moved the tail first, or the machine is at rest.
    Contended,
}

/// Loads the limit and the tail, and where the tail is below the limit moves it up by one, once.
#[derive(Drop)]
pub struct Reserve {
    /// How many addresses the log has on the device.
    room: u64,
    step: Reserving,
}

impl Model for Reserve {
    ghost use Rattle.fkv_log.specs.Reserving.{Reserver, IsReserveInRange};

    ghost Value = { Reserver };

    ghost view = { λ m. record { room = m.room; step = m.step } };

    ghost invariant = { λ m. IsReserveInRange m.step };
}

impl Reserve {
    ghost use Rattle.fkv_log.specs.Reserving.{reserve_ask, reserve_next, reserve_next_ask, reserve_asks_left, no_room_at};
    ghost use Rattle.fkv_log.specs.declared.reserving.Reserving.TheVariants.{AtRest, LoadsLimit};

    /// The machine of a store of this shape, at rest.
    pub fn new(shape: &Shape) -> Reserve
        ensures { result ≡ record { room = shape.now.disk_pages * shape.now.page; step = AtRest } }
    {
        Reserve {
            room: shape.disk_pages * shape.page,
            step: Reserving::AtRest,
        }
    }

    /// Forgets its tail, and rests.
    pub fn rest(&mut self)
        ensures { self.new ≡ record self.old { step = AtRest } }
    {
        self.step = Reserving::AtRest;
    }

    /// The first ask, for an address below this bound, where there is one.
    #[tactic(auto, unfolding(crate::specs::Reserving::reserve_ask, crate::specs::Reserving::reserve_asks_left))]
    pub fn start(&mut self, bound: Option<u64>) -> Ask<ReserveAnswer>
        ensures next { self.new ≡ record self.old { step = LoadsLimit bound } }
        ensures ask { result ≡ reserve_ask (LoadsLimit bound) }
        ensures bounded { reserve_asks_left self.new.step ≤ 3 }
    {
        self.step = Reserving::LoadsLimit(bound);
        Ask::Load(SharedWord::Limit.place())
    }

    /// Goes on with the reply to its ask. At rest it stays where it is.
    #[tactic(auto, unfolding(crate::specs::Reserving::reserve_next, crate::specs::Reserving::reserve_next_ask, crate::specs::Reserving::reserve_asks_left))]
    pub fn drive(&mut self, reply: u64) -> Ask<ReserveAnswer>
        ensures next { self.new ≡ record self.old { step = reserve_next self.old.step reply } }
        ensures ask { result ≡ reserve_next_ask self.old.room self.old.step reply }
        ensures fewer { reserve_asks_left self.new.step ≤ reserve_asks_left self.old.step - 1 }
    {
        match self.step {
            Reserving::LoadsLimit(bound) => {
                self.step = Reserving::LoadsTail(limit_within(bound, reply));
            }
            Reserving::LoadsTail(limit) => {
                if reply >= limit {
                    self.step = Reserving::AtRest;
                    return Ask::Done(self.no_room_at(reply));
                }
                self.step = Reserving::TakesTail(reply);
            }
            Reserving::TakesTail(tail) => {
                self.step = Reserving::AtRest;
                return Ask::Done(reserved_where(tail, reply));
            }
            Reserving::AtRest => {}
        }
        self.ask()
    }

    /// Why the address at this tail can't be had now.
    fn no_room_at(&self, tail: u64) -> ReserveAnswer
        ensures { result ≡ no_room_at self.now.room tail }
    {
        if tail == self.room {
            ReserveAnswer::Full
        } else {
            ReserveAnswer::NoRoom
        }
    }

    /// What it asks now.
    #[tactic(auto, unfolding(crate::specs::Reserving::reserve_ask))]
    pub fn ask(&self) -> Ask<ReserveAnswer>
        ensures { result ≡ reserve_ask self.now.step }
    {
        match self.step {
            Reserving::AtRest => Ask::Done(ReserveAnswer::Contended),
            Reserving::LoadsLimit(_) => Ask::Load(SharedWord::Limit.place()),
            Reserving::LoadsTail(_) => Ask::Load(SharedWord::Tail.place()),
            Reserving::TakesTail(tail) => Ask::Cas(SharedWord::Tail.place(), tail, tail + 1),
        }
    }
}

/// The limit counts up to the bound, where there is one.
#[inline]
pub fn limit_within(bound: Option<u64>, limit: u64) -> u64
    ensures { result ≡ limit_within bound limit }
{
    match bound {
        Some(bound) if bound < limit => bound,
        _ => limit,
    }
}

/// What a Cas of the tail has come to, which found this word.
fn reserved_where(tail: u64, found: u64) -> ReserveAnswer
    ensures { result ≡ reserved_where tail found }
{
    if found == tail {
        ReserveAnswer::Reserved(Addr(tail))
    } else {
        ReserveAnswer::Contended
    }
}
