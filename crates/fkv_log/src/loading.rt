//! How the words of a record are loaded.
ghost use Rattle.std.specs.Prelude.{◌≡◌, ◌≤◌, ◌+◌, ◌-◌};

use fkv_base::{Addr, Key};
use fkv_plane::{Ask, Places, RecordWord};
use std::marker::Model;

/// How far the machine has come, with the address and the words that it has loaded.
#[derive(Clone, Copy)]
pub(crate) enum Loading {
    AtRest,
    LoadsHeader(Addr),
    LoadsKey(Addr, u64),
    HasKey(Addr, u64, u64),
    LoadsValue(Addr, u64, u64),
}

/// What the machine has come to.
#[derive(Clone, Copy, Debug, PartialEq, Eq)]
pub enum LoadAnswer {
    /// The word of the record's header, and its key. Where its value is wanted too, `load_value` goes on.
    Met(u64, Key),
    /// The words of the record: header, key and value.
    Whole(u64, Key, u64),
    /// The machine is at rest.
    AtRest,
}

/// Loads the header and the key of a record, and then, where its actor wants it, the value.
#[derive(Drop)]
pub struct LoadRecord {
    places: Places,
    step: Loading,
}

impl Model for LoadRecord {
    ghost use Rattle.fkv_log.specs.Loading.{Loader};

    ghost Value = { Loader };

    ghost view = { λ m. record { places = m.places; step = m.step } };
}

impl LoadRecord {
    ghost use Rattle.fkv_log.specs.Loading.{load_ask, load_next, load_next_ask, load_on, load_asks_left, load_asks_later};
    ghost use Rattle.fkv_log.specs.declared.loading.Loading.TheVariants.{AtRest, LoadsHeader};

    /// The machine of a store with these places, at rest.
    pub fn new(places: Places) -> LoadRecord
        ensures { result ≡ record { places = places; step = AtRest } }
    {
        LoadRecord {
            places,
            step: Loading::AtRest,
        }
    }

    /// The first ask, to load the record at the address.
    #[tactic(auto, unfolding(crate::specs::Loading::load_asks_left, crate::specs::Loading::load_asks_later))]
    pub fn start(&mut self, addr: Addr) -> Ask<LoadAnswer>
        ensures next { self.new ≡ record self.old { step = LoadsHeader addr } }
        ensures ask { result ≡ load_ask self.old.places (LoadsHeader addr) }
        ensures bounded { load_asks_left self.new.step + load_asks_later self.new.step ≤ 3 }
    {
        self.step = Loading::LoadsHeader(addr);
        self.ask()
    }

    /// Goes on to load the value, where header and key are loaded; else it stays where it is.
    #[tactic(auto, unfolding(crate::specs::Loading::load_on, crate::specs::Loading::load_asks_left, crate::specs::Loading::load_asks_later))]
    pub fn load_value(&mut self) -> Ask<LoadAnswer>
        ensures next { self.new ≡ record self.old { step = load_on self.old.step } }
        ensures ask { result ≡ load_ask self.old.places (load_on self.old.step) }
        ensures bounded { load_asks_left self.new.step + load_asks_later self.new.step ≤ load_asks_left self.old.step + load_asks_later self.old.step }
    {
        if let Loading::HasKey(addr, header, key) = self.step {
            self.step = Loading::LoadsValue(addr, header, key);
        }
        self.ask()
    }

    /// Goes on with the reply to its ask. At rest, and until `load_value` is called, it stays where it is.
    #[tactic(auto, unfolding(crate::specs::Loading::load_next, crate::specs::Loading::load_next_ask, crate::specs::Loading::load_asks_left, crate::specs::Loading::load_asks_later))]
    pub fn drive(&mut self, reply: u64) -> Ask<LoadAnswer>
        ensures next { self.new ≡ record self.old { step = load_next self.old.step reply } }
        ensures ask { result ≡ load_next_ask self.old.places self.old.step reply }
        ensures fewer { load_asks_left self.new.step ≤ load_asks_left self.old.step - 1 }
        ensures later { load_asks_later self.new.step ≤ load_asks_later self.old.step }
    {
        match self.step {
            Loading::LoadsHeader(addr) => self.step = Loading::LoadsKey(addr, reply),
            Loading::LoadsKey(addr, header) => self.step = Loading::HasKey(addr, header, reply),
            Loading::LoadsValue(_, header, key) => {
                self.step = Loading::AtRest;
                return Ask::Done(LoadAnswer::Whole(header, Key(key), reply));
            }
            Loading::HasKey(_, _, _) | Loading::AtRest => {}
        }
        self.ask()
    }

    /// What it asks now.
    #[tactic(auto, unfolding(crate::specs::Loading::load_ask))]
    pub fn ask(&self) -> Ask<LoadAnswer>
        ensures { result ≡ load_ask self.now.places self.now.step }
    {
        match self.step {
            Loading::AtRest => Ask::Done(LoadAnswer::AtRest),
            Loading::LoadsHeader(addr) => Ask::Load(self.places.record(addr, RecordWord::Header)),
            Loading::LoadsKey(addr, _) => Ask::Load(self.places.record(addr, RecordWord::Key)),
            Loading::HasKey(_, header, key) => Ask::Done(LoadAnswer::Met(header, Key(key))),
            Loading::LoadsValue(addr, _, _) => {
                Ask::Load(self.places.record(addr, RecordWord::Value))
            }
        }
    }
}
