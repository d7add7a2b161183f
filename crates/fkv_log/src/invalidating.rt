//! How a record that no entry came to name is invalidated.
ghost use Rattle.std.specs.Prelude.{◌≡◌, ◌≤◌, ◌-◌};

use fkv_base::Addr;
use fkv_plane::{Ask, Places, RecordWord};
use fkv_words::Header;
use std::marker::Model;

/// How far the machine has come, with the address and the header that the record has there.
#[derive(Clone, Copy)]
pub(crate) enum Invalidating {
    AtRest,
    StoresHeader(Addr, Header),
}

/// Stores the header of a record once more, as that of an invalid one.
#[derive(Drop)]
pub struct Invalidate {
    places: Places,
    step: Invalidating,
}

impl Model for Invalidate {
    ghost use Rattle.fkv_log.specs.Invalidating.{Invalidator};

    ghost Value = { Invalidator };

    ghost view = { λ m. record { places = m.places; step = m.step } };
}

impl Invalidate {
    ghost use Rattle.fkv_log.specs.Invalidating.{invalidate_begun, invalidate_ask, invalidate_next, invalidate_asks_left};
    ghost use Rattle.fkv_log.specs.declared.invalidating.Invalidating.TheVariants.{AtRest};

    /// The machine of a store with these places, at rest.
    pub fn new(places: Places) -> Invalidate
        ensures { result ≡ record { places = places; step = AtRest } }
    {
        Invalidate {
            places,
            step: Invalidating::AtRest,
        }
    }

    /// The first ask, to invalidate the record at the address, which has this header.
    #[tactic(auto, unfolding(crate::specs::Invalidating::invalidate_asks_left))]
    pub fn start(&mut self, addr: Addr, header: Header) -> Ask<()>
        ensures next { self.new ≡ record self.old { step = invalidate_begun addr header } }
        ensures ask { result ≡ invalidate_ask self.old.places (invalidate_begun addr header) }
        ensures bounded { invalidate_asks_left self.new.step ≤ 1 }
    {
        self.step = Invalidating::StoresHeader(addr, header);
        self.ask()
    }

    /// Goes on with the reply to its ask. At rest it stays where it is.
    #[tactic(auto, unfolding(crate::specs::Invalidating::invalidate_next, crate::specs::Invalidating::invalidate_asks_left))]
    pub fn drive(&mut self, _reply: u64) -> Ask<()>
        ensures next { self.new ≡ record self.old { step = invalidate_next self.old.step } }
        ensures ask { result ≡ invalidate_ask self.old.places (invalidate_next self.old.step) }
        ensures fewer { invalidate_asks_left self.new.step ≤ invalidate_asks_left self.old.step - 1 }
    {
        self.step = Invalidating::AtRest;
        self.ask()
    }

    /// What it asks now.
    #[tactic(auto, unfolding(crate::specs::Invalidating::invalidate_ask))]
    pub fn ask(&self) -> Ask<()>
        ensures { result ≡ invalidate_ask self.now.places self.now.step }
    {
        match self.step {
            Invalidating::AtRest => Ask::Done(()),
            Invalidating::StoresHeader(addr, header) => {
                let invalidated = Header {
                    previous: header.previous,
                    version: header.version,
                    invalid: true,
                };
                Ask::Store(
                    self.places.record(addr, RecordWord::Header),
                    invalidated.pack(),
                )
            }
        }
    }
}
