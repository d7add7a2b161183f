//! How a record is written to the address that was taken for it.
ghost use Rattle.std.specs.Prelude.{◌≡◌, ◌≤◌, ◌-◌};

use crate::record_words::RecordWords;
use fkv_base::Addr;
use fkv_plane::{Ask, Places, RecordWord};
use std::marker::Model;

/// How far the machine has come, with the address and the record.
#[derive(Clone, Copy)]
pub(crate) enum Filling {
    AtRest,
    StoresValue(Addr, RecordWords),
    StoresKey(Addr, RecordWords),
    StoresHeader(Addr, RecordWords),
}

/// Stores the value, the key and then the header of a record.
#[derive(Drop)]
pub struct Fill {
    places: Places,
    step: Filling,
}

impl Model for Fill {
    ghost use Rattle.fkv_log.specs.Filling.{Filler};

    ghost Value = { Filler };

    ghost view = { λ m. record { places = m.places; step = m.step } };
}

impl Fill {
    ghost use Rattle.fkv_log.specs.Filling.{fill_begun, fill_ask, fill_next, fill_asks_left};
    ghost use Rattle.fkv_log.specs.declared.filling.Filling.TheVariants.{AtRest};

    /// The machine of a store with these places, at rest.
    pub fn new(places: Places) -> Fill
        ensures { result ≡ record { places = places; step = AtRest } }
    {
        Fill {
            places,
            step: Filling::AtRest,
        }
    }

    /// The first ask, to write the record at the address.
    #[tactic(auto, unfolding(crate::specs::Filling::fill_asks_left))]
    pub fn start(&mut self, addr: Addr, its_words: RecordWords) -> Ask<()>
        ensures next { self.new ≡ record self.old { step = fill_begun addr its_words } }
        ensures ask { result ≡ fill_ask self.old.places (fill_begun addr its_words) }
        ensures bounded { fill_asks_left self.new.step ≤ 3 }
    {
        self.step = Filling::StoresValue(addr, its_words);
        self.ask()
    }

    /// Goes on with the reply to its ask. At rest it stays where it is.
    #[tactic(auto, unfolding(crate::specs::Filling::fill_next, crate::specs::Filling::fill_asks_left))]
    pub fn drive(&mut self, _reply: u64) -> Ask<()>
        ensures next { self.new ≡ record self.old { step = fill_next self.old.step } }
        ensures ask { result ≡ fill_ask self.old.places (fill_next self.old.step) }
        ensures fewer { fill_asks_left self.new.step ≤ fill_asks_left self.old.step - 1 }
    {
        self.step = match self.step {
            Filling::StoresValue(addr, its_words) => Filling::StoresKey(addr, its_words),
            Filling::StoresKey(addr, its_words) => Filling::StoresHeader(addr, its_words),
            Filling::StoresHeader(_, _) | Filling::AtRest => Filling::AtRest,
        };
        self.ask()
    }

    /// What it asks now.
    #[tactic(auto, unfolding(crate::specs::Filling::fill_ask))]
    pub fn ask(&self) -> Ask<()>
        ensures { result ≡ fill_ask self.now.places self.now.step }
    {
        match self.step {
            Filling::AtRest => Ask::Done(()),
            Filling::StoresValue(addr, its_words) => {
                Ask::Store(self.places.record(addr, RecordWord::Value), its_words.value)
            }
            Filling::StoresKey(addr, its_words) => {
                Ask::Store(self.places.record(addr, RecordWord::Key), its_words.key.0)
            }
            Filling::StoresHeader(addr, its_words) => Ask::Store(
                self.places.record(addr, RecordWord::Header),
                its_words.header.pack(),
            ),
        }
    }
}
