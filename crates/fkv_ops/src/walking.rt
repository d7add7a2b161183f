//! How the chain of a key's home is walked.
ghost use Rattle.std.specs.Prelude.{◌≡◌, ◌+◌, ◌*◌, ◌<◌, ◌≤◌, ◌^◌, None};
ghost use Rattle.fkv_index.specs.Slots.{home_of};
ghost use Rattle.fkv_ops.specs.Walking.{walk_begun, walk_ask, walk_next, walk_on, reached, slot_found, find_ledto, record_met, first_met, load_ledto, value_ledto};
ghost use Rattle.fkv_plane.specs.AsksLeft.{AsksWhereLeft};
ghost use Rattle.fkv_ops.specs.AsksLeft.{walk_asks_left};

use crate::header_words::{HeaderSaid, header_said};
use fkv_base::{Addr, Key, Version};
use fkv_index::{Find, FindAnswer, Found, Purpose};
use fkv_log::{LoadAnswer, LoadRecord};
use fkv_plane::{Ask, Places, passed};
use std::marker::Model;

/// What a walk has come to.
#[derive(Clone, Copy, Debug, PartialEq, Eq)]
pub enum WalkAnswer {
    /// The newest record of the key, which is in memory: its address, and the version that wrote it. `load_value` goes on to
    /// its value.
    Found(Addr, Version),
    /// The chain ends and has no record of the key, or the home has no entry.
    Nowhere,
    /// The chain goes on at this address, below the head that the session has seen.
    OnDisk(Addr),
    /// The word of the value of the record that was found.
    Value(u64),
    /// The home has no slot, none is empty, and all overflow buckets are taken.
    Full,
    /// The home has no slot, none is empty, and as many overflow buckets are taken as the bound of the update says.
    Kept,
    /// Another actor was quicker, or a word was met that no store writes, or the machine is at rest.
    Contended,
}

/// How far the walk has come. Its end is kept up to the next start.
#[derive(Clone, Copy)]
pub(crate) enum Walking {
    Ended(WalkAnswer),
    /// The home's slot is sought.
    Finds,
    /// The record at this address is met.
    Meets(Addr),
    HasFound(Addr, Version),
    /// The value of the record that was found is loaded.
    LoadsValue,
}

/// Finds the entry of a key's home, and walks its chain from there to the newest record of the key, as far as it lies in
/// memory. The value of the record that is found can be loaded too.
#[derive(Drop)]
pub struct Walk {
    places: Places,
    find: Find,
    load: LoadRecord,
    key: Key,
    head: Addr,
    place: usize,
    entry: u64,
    first: Option<Version>,
    spare: u64,
    step: Walking,
}

impl Model for Walk {
    ghost use Rattle.std.specs.Prelude.{◌≡◌};
    ghost use Rattle.fkv_ops.specs.Walking.{Walker, WalkState};

    ghost Value = { Walker };

    ghost view = { λ m. record { places = m.places; bits = m.find.bits; state = record { key = m.key; head = m.head; place = m.place; entry = m.entry; first = m.first; spare = m.spare; finding = m.find.finding; loading = m.load.step; step = m.step } } };

    ghost invariant = { λ m. (m.find.places ≡ m.places) × (m.load.places ≡ m.places) };
}

impl Walk {
    ghost use Rattle.fkv_index.specs.Finding.{is_beyond};
    ghost use Rattle.fkv_ops.specs.Walking.{walk_rested};

    /// The machine of a store with these places, whose index has 2^bits buckets, at rest.
    #[tactic(auto, unfolding(crate::specs::Walking::walk_rested))]
    pub fn new(places: Places, bits: u64) -> Walk
        requires few { bits < 64 }
        requires buckets { places.buckets ≡ 2 ^ bits }
        ensures places { result.places ≡ places }
        ensures bits { result.bits ≡ bits }
        ensures rest { result.state ≡ walk_rested }
    {
        Walk {
            places,
            find: Find::new(places, bits),
            load: LoadRecord::new(places),
            key: Key(0),
            head: Addr(0),
            place: 0,
            entry: 0,
            first: None,
            spare: 0,
            step: Walking::Ended(WalkAnswer::Contended),
        }
    }

    /// Forgets its walk, and rests.
    #[tactic(auto, unfolding(crate::specs::Walking::walk_rested))]
    pub(crate) fn rest(&mut self)
        ensures { self.new ≡ record self.old { state = walk_rested } }
    {
        self.find.rest();
        self.load = LoadRecord::new(self.places);
        self.key = Key(0);
        self.head = Addr(0);
        self.place = 0;
        self.entry = 0;
        self.first = None;
        self.spare = 0;
        self.step = Walking::Ended(WalkAnswer::Contended);
    }

    /// The first ask, to walk to the record of this key. `head` is the head that the session has seen, and the spare bucket
    /// one that it has taken and not linked, 0 where it has none.
    #[tactic(auto, unfolding(crate::specs::Walking::walk_rested, crate::specs::Walking::walking_ask))]
    pub fn start(&mut self, key: Key, purpose: Purpose, head: Addr, spare: u64) -> Ask<WalkAnswer>
        ensures next { self.new ≡ record self.old { state = walk_begun self.old.places (home_of self.old.bits key) key purpose head spare } }
        ensures ask { result ≡ walk_ask self.old.places self.new.state }
        ensures asks { AsksWhereLeft (walk_asks_left self.old.places self.new.state) result }
        ensures bounded { walk_asks_left self.old.places self.new.state ≤ 8 * (self.old.places.overflow + 1) + 3 + 2 * self.old.places.ring }
    {
        self.rest();
        self.key = key;
        self.head = head;
        self.spare = spare;
        self.step = Walking::Finds;
        passed(self.find.start(key, purpose, spare), WalkAnswer::Contended)
    }

    /// Goes on with the reply to its ask. At its end, and where it has found the record, it stays where it is.
    #[tactic(auto, unfolding(crate::specs::Walking::walking_next))]
    pub fn drive(&mut self, reply: u64) -> Ask<WalkAnswer>
        ensures next { self.new ≡ record self.old { state = walk_next self.old.places self.old.state reply } }
        ensures ask { result ≡ walk_ask self.old.places self.new.state }
        ensures asks { AsksWhereLeft (walk_asks_left self.old.places self.new.state) result }
        ensures fewer { 0 < walk_asks_left self.old.places self.old.state → walk_asks_left self.old.places self.new.state < walk_asks_left self.old.places self.old.state }
    {
        match self.step {
            Walking::Ended(_) | Walking::HasFound(_, _) => {}
            Walking::Finds => {
                let ask = self.find.drive(reply);
                self.after_find(ask);
            }
            Walking::Meets(addr) => {
                let ask = self.load.drive(reply);
                self.after_load(addr, ask);
            }
            Walking::LoadsValue => {
                let ask = self.load.drive(reply);
                self.after_value(ask);
            }
        }
        self.ask()
    }

    /// Goes on to load the value, where the record is found; else it stays where it is.
    #[tactic(auto, unfolding(crate::specs::Walking::walking_on))]
    pub fn load_value(&mut self) -> Ask<WalkAnswer>
        ensures next { self.new ≡ record self.old { state = walk_on self.old.state } }
        ensures ask { result ≡ walk_ask self.old.places self.new.state }
        ensures asks { AsksWhereLeft (walk_asks_left self.old.places self.new.state) result }
        ensures bounded { walk_asks_left self.old.places self.new.state ≤ walk_asks_left self.old.places self.old.state + 2 }
    {
        if let Walking::HasFound(_, _) = self.step {
            self.load.load_value();
            self.step = Walking::LoadsValue;
        }
        self.ask()
    }

    /// What it asks now.
    #[tactic(auto, unfolding(crate::specs::Walking::walking_ask))]
    pub fn ask(&self) -> Ask<WalkAnswer>
        ensures ask { result ≡ walk_ask self.now.places self.now.state }
        ensures asks { AsksWhereLeft (walk_asks_left self.now.places self.now.state) result }
    {
        match self.step {
            Walking::Ended(answer) => Ask::Done(answer),
            Walking::Finds => passed(self.find.ask(), WalkAnswer::Contended),
            Walking::Meets(_) | Walking::LoadsValue => {
                passed(self.load.ask(), WalkAnswer::Contended)
            }
            Walking::HasFound(addr, version) => Ask::Done(WalkAnswer::Found(addr, version)),
        }
    }

    /// The place of the home's slot, once it is found.
    pub fn place(&self) -> usize
        ensures { result ≡ self.now.state.place }
    {
        self.place
    }

    /// The word of the home's entry, once it is found; 0 where the slot is empty.
    pub fn entry(&self) -> u64
        ensures { result ≡ self.now.state.entry }
    {
        self.entry
    }

    /// Whether the slot that was found is in an overflow bucket that others have linked.
    pub(crate) fn is_beyond(&self) -> bool
        ensures { result ≡ is_beyond self.now.places self.now.state.finding }
    {
        self.find.is_beyond()
    }

    /// The version of the first record that the walk has met, if it has met one.
    pub fn first(&self) -> Option<Version>
        ensures { result ≡ self.now.state.first }
    {
        self.first
    }

    /// The overflow bucket that the session has taken and not linked, 0 where it has none.
    pub fn spare(&self) -> u64
        ensures { result ≡ self.now.state.spare }
    {
        self.spare
    }

    /// Goes on by what the search asks.
    #[tactic(auto, unfolding(crate::specs::Walking::find_ledto))]
    fn after_find(&mut self, ask: Ask<FindAnswer>)
        ensures { self.new ≡ record self.old { state = find_ledto self.old.places self.old.state ask } }
    {
        if let Ask::Done(answer) = ask {
            self.spare = answer.spare;
            self.after_slot(answer.found);
        }
    }

    /// The chain is walked from the entry that was found.
    fn after_slot(&mut self, found: Found)
        ensures { self.new ≡ record self.old { state = slot_found self.old.places self.old.state found } }
    {
        match found {
            Found::Slot(place, word) => {
                self.place = place;
                self.entry = word;
                self.reach(word & (1 << 48) - 1);
            }
            Found::NoSlot => self.step = Walking::Ended(WalkAnswer::Nowhere),
            Found::Full => self.step = Walking::Ended(WalkAnswer::Full),
            Found::Kept => self.step = Walking::Ended(WalkAnswer::Kept),
            Found::Contended => self.step = Walking::Ended(WalkAnswer::Contended),
        }
    }

    /// Comes to an address of the chain.
    fn reach(&mut self, addr: u64)
        ensures { self.new ≡ record self.old { state = reached self.old.places self.old.state addr } }
    {
        self.step = if addr == 0 {
            Walking::Ended(WalkAnswer::Nowhere)
        } else if addr < self.head.0 {
            Walking::Ended(WalkAnswer::OnDisk(Addr(addr)))
        } else if addr - self.head.0 < self.places.ring as u64 {
            self.load.start(Addr(addr));
            Walking::Meets(Addr(addr))
        } else {
            Walking::Ended(WalkAnswer::Contended)
        };
    }

    /// Goes on by what the load of a record asks.
    #[tactic(auto, unfolding(crate::specs::Walking::load_ledto))]
    fn after_load(&mut self, addr: Addr, ask: Ask<LoadAnswer>)
        ensures { self.new ≡ record self.old { state = load_ledto self.old.places self.old.state addr ask } }
    {
        match ask {
            Ask::Done(LoadAnswer::Met(header, key)) => {
                self.after_record(addr, key, header_said(header));
            }
            Ask::Done(_) => self.step = Walking::Ended(WalkAnswer::Contended),
            _ => {}
        }
    }

    /// A record of the chain is met.
    fn after_record(&mut self, addr: Addr, key: Key, said: HeaderSaid)
        ensures { self.new ≡ record self.old { state = record_met self.old.places self.old.state addr key said } }
    {
        match said {
            HeaderSaid::Says(previous, version) if previous < addr => {
                self.first = Some(first_met(self.first, version));
                if key == self.key {
                    self.step = Walking::HasFound(addr, version);
                } else {
                    self.reach(previous.0);
                }
            }
            _ => self.step = Walking::Ended(WalkAnswer::Contended),
        }
    }

    /// Goes on by what the load of a value asks.
    #[tactic(auto, unfolding(crate::specs::Walking::value_ledto))]
    fn after_value(&mut self, ask: Ask<LoadAnswer>)
        ensures { self.new ≡ record self.old { state = value_ledto self.old.state ask } }
    {
        match ask {
            Ask::Done(LoadAnswer::Whole(_, _, value)) => {
                self.step = Walking::Ended(WalkAnswer::Value(value));
            }
            Ask::Done(_) => self.step = Walking::Ended(WalkAnswer::Contended),
            _ => {}
        }
    }
}

/// The version of the first record that was met.
fn first_met(first: Option<Version>, version: Version) -> Version
    ensures { Some result ≡ first_met first version }
{
    first.unwrap_or(version)
}
