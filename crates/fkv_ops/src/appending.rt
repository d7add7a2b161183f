//! How a record is appended to the log and published.
ghost use Rattle.std.specs.Prelude.{◌≡◌, ◌<◌, ◌≤◌, ◌*◌, ◌^◌};
ghost use Rattle.fkv_ops.specs.Appending.{no_slot, no_header, no_words, append_begun, append_ask, append_next, addr_reserved, reserve_ledto, fill_ledto, publish_ledto, invalidate_ledto};
ghost use Rattle.fkv_plane.specs.AsksLeft.{AsksWhereLeft};
ghost use Rattle.fkv_ops.specs.AsksLeft.{append_asks_left};

use fkv_base::{Addr, Key, Shape, Version};
use fkv_index::{Publish, PublishAnswer};
use fkv_log::{Fill, Invalidate, RecordWords, Reserve, ReserveAnswer};
use fkv_plane::{Ask, Places, passed};
use fkv_words::{Entry, Header};
use std::marker::Model;

/// The slot in which an entry is to be published: its place, the word that was found there, and the tag of the home.
#[derive(Clone, Copy)]
pub struct FoundSlot {
    pub place: usize,
    pub entry: u64,
    /// Below 2^15.
    pub tag: u16,
}

/// What an append has come to.
#[derive(Clone, Copy, Debug, PartialEq, Eq)]
pub enum AppendAnswer {
    /// The record stands at the head of its chain.
    Published,
    /// The log has no page for another record.
    Full,
    /// The page after the limit isn't open yet, or the tail stood at the bound.
    NoRoom,
    /// Another actor was quicker: the record is invalidated, or none was reserved. Or the machine is at rest.
    Contended,
}

/// How far the append has come. Its end is kept up to the next start.
#[derive(Clone, Copy)]
pub(crate) enum Appending {
    Ended(AppendAnswer),
    Reserves,
    /// The record at this address is written.
    Fills(Addr),
    /// The entry of this address is published.
    Publishes(Addr),
    Invalidates,
}

/// Reserves an address, writes a record there, and publishes its entry in the slot that was found. Where another session
/// published there first the record is invalidated.
#[derive(Drop)]
pub struct Append {
    places: Places,
    reserve: Reserve,
    fill: Fill,
    publish: Publish,
    invalidate: Invalidate,
    slot: FoundSlot,
    its_words: RecordWords,
    step: Appending,
}

impl Model for Append {
    ghost use Rattle.std.specs.Prelude.{◌≡◌, ◌<◌, ◌^◌};
    ghost use Rattle.fkv_ops.specs.Appending.{Appender, AppendState, IsAppendInRange};

    ghost Value = { Appender };

    ghost view = { λ m. record { places = m.places; room = m.reserve.room; state = record { slot = m.slot; its_words = m.its_words; reserving = m.reserve.step; filling = m.fill.step; publishing = m.publish.step; invalidating = m.invalidate.step; step = m.step } } };

    ghost invariant = { λ m. (m.fill.places ≡ m.places) × (m.invalidate.places ≡ m.places) × (m.slot.tag < 2 ^ 15) × IsAppendInRange m.step };
}

impl Append {
    ghost use Rattle.fkv_ops.specs.Appending.{append_rested};

    /// The machine of a store of this shape, with these places, at rest.
    #[tactic(auto, unfolding(crate::specs::Appending::append_rested))]
    pub fn new(places: Places, shape: &Shape) -> Append
        ensures places { result.places ≡ places }
        ensures room { result.room ≡ shape.now.disk_pages * shape.now.page }
        ensures rest { result.state ≡ append_rested }
    {
        Append {
            places,
            reserve: Reserve::new(shape),
            fill: Fill::new(places),
            publish: Publish::new(),
            invalidate: Invalidate::new(places),
            slot: no_slot(),
            its_words: no_words(),
            step: Appending::Ended(AppendAnswer::Contended),
        }
    }

    /// Forgets its record, and rests.
    #[tactic(auto, unfolding(crate::specs::Appending::append_rested))]
    pub(crate) fn rest(&mut self)
        ensures { self.new ≡ record self.old { state = append_rested } }
    {
        self.reserve.rest();
        self.fill = Fill::new(self.places);
        self.publish = Publish::new();
        self.invalidate = Invalidate::new(self.places);
        self.slot = no_slot();
        self.its_words = no_words();
        self.step = Appending::Ended(AppendAnswer::Contended);
    }

    /// The first ask, to append this record below the bound, where there is one, and to publish its entry in the slot.
    #[tactic(auto, unfolding(crate::specs::Appending::append_rested, crate::specs::Appending::appending_ask))]
    pub fn start(
        &mut self,
        slot: FoundSlot,
        its_words: RecordWords,
        bound: Option<u64>,
    ) -> Ask<AppendAnswer>
        requires tag { slot.tag < 2 ^ 15 }
        ensures next { self.new ≡ record self.old { state = append_begun slot its_words bound } }
        ensures ask { result ≡ append_ask self.old.places self.new.state }
        ensures asks { AsksWhereLeft (append_asks_left self.new.state) result }
        ensures bounded { append_asks_left self.new.state ≤ 8 }
    {
        self.rest();
        self.slot = slot;
        self.its_words = its_words;
        self.step = Appending::Reserves;
        passed(self.reserve.start(bound), AppendAnswer::Contended)
    }

    /// Goes on with the reply to its ask. At its end it stays where it is.
    #[tactic(auto, unfolding(crate::specs::Appending::appending_next))]
    pub fn drive(&mut self, reply: u64) -> Ask<AppendAnswer>
        ensures next { self.new ≡ record self.old { state = append_next self.old.places self.old.room self.old.state reply } }
        ensures ask { result ≡ append_ask self.old.places self.new.state }
        ensures asks { AsksWhereLeft (append_asks_left self.new.state) result }
        ensures fewer { 0 < append_asks_left self.old.state → append_asks_left self.new.state < append_asks_left self.old.state }
    {
        match self.step {
            Appending::Ended(_) => {}
            Appending::Reserves => {
                let ask = self.reserve.drive(reply);
                self.after_reserve(ask);
            }
            Appending::Fills(addr) => {
                let ask = self.fill.drive(reply);
                self.after_fill(addr, ask);
            }
            Appending::Publishes(addr) => {
                let ask = self.publish.drive(reply);
                self.after_publish(addr, ask);
            }
            Appending::Invalidates => {
                let ask = self.invalidate.drive(reply);
                self.after_invalidate(ask);
            }
        }
        self.ask()
    }

    /// What it asks now.
    #[tactic(auto, unfolding(crate::specs::Appending::appending_ask))]
    pub fn ask(&self) -> Ask<AppendAnswer>
        ensures ask { result ≡ append_ask self.now.places self.now.state }
        ensures asks { AsksWhereLeft (append_asks_left self.now.state) result }
    {
        let inside = AppendAnswer::Contended;
        match self.step {
            Appending::Ended(answer) => Ask::Done(answer),
            Appending::Reserves => passed(self.reserve.ask(), inside),
            Appending::Fills(_) => passed(self.fill.ask(), inside),
            Appending::Publishes(_) => passed(self.publish.ask(), inside),
            Appending::Invalidates => passed(self.invalidate.ask(), inside),
        }
    }

    /// Goes on by what the reservation asks.
    #[tactic(auto, unfolding(crate::specs::Appending::reserve_ledto))]
    fn after_reserve(&mut self, ask: Ask<ReserveAnswer>)
        ensures { self.new ≡ record self.old { state = reserve_ledto self.old.state ask } }
    {
        match ask {
            Ask::Done(ReserveAnswer::Reserved(addr)) => self.fill_at(addr),
            Ask::Done(ReserveAnswer::Full) => self.step = Appending::Ended(AppendAnswer::Full),
            Ask::Done(ReserveAnswer::NoRoom) => self.step = Appending::Ended(AppendAnswer::NoRoom),
            Ask::Done(ReserveAnswer::Contended) => {
                self.step = Appending::Ended(AppendAnswer::Contended);
            }
            _ => {}
        }
    }

    /// Writes the record at the address that was reserved, which is above that of the entry.
    fn fill_at(&mut self, addr: Addr)
        ensures { self.new ≡ record self.old { state = addr_reserved self.old.state addr } }
    {
        self.step = if self.its_words.header.previous < addr && addr.0 < 1 << 48 {
            self.fill.start(addr, self.its_words);
            Appending::Fills(addr)
        } else {
            Appending::Ended(AppendAnswer::Contended)
        };
    }

    /// Goes on by what the writing of the record asks.
    #[tactic(auto, unfolding(crate::specs::Appending::fill_ledto))]
    fn after_fill(&mut self, addr: Addr, ask: Ask<()>)
        requires some { 0 < addr.0 }
        requires fits { addr.0 < 2 ^ 48 }
        ensures { self.new ≡ record self.old { state = fill_ledto self.old.state addr ask } }
    {
        if let Ask::Done(()) = ask {
            let entry = Entry {
                addr,
                tag: self.slot.tag,
            };
            self.publish.start(self.slot.place, self.slot.entry, entry);
            self.step = Appending::Publishes(addr);
        }
    }

    /// Goes on by what the publishing asks.
    #[tactic(auto, unfolding(crate::specs::Appending::publish_ledto))]
    fn after_publish(&mut self, addr: Addr, ask: Ask<PublishAnswer>)
        ensures { self.new ≡ record self.old { state = publish_ledto self.old.state addr ask } }
    {
        match ask {
            Ask::Done(PublishAnswer::Won) => {
                self.step = Appending::Ended(AppendAnswer::Published);
            }
            Ask::Done(PublishAnswer::Lost) => {
                self.invalidate.start(addr, self.its_words.header);
                self.step = Appending::Invalidates;
            }
            _ => {}
        }
    }

    /// Goes on by what the invalidating asks.
    #[tactic(auto, unfolding(crate::specs::Appending::invalidate_ledto))]
    fn after_invalidate(&mut self, ask: Ask<()>)
        ensures { self.new ≡ record self.old { state = invalidate_ledto self.old.state ask } }
    {
        if let Ask::Done(()) = ask {
            self.step = Appending::Ended(AppendAnswer::Contended);
        }
    }
}

/// What a machine at rest has in place of a slot.
fn no_slot() -> FoundSlot
    ensures { result ≡ no_slot }
{
    FoundSlot {
        place: 0,
        entry: 0,
        tag: 0,
    }
}

/// What a machine at rest has in place of a record.
fn no_words() -> RecordWords
    ensures { result ≡ no_words }
{
    RecordWords {
        header: no_header(),
        key: Key(0),
        value: 0,
    }
}

fn no_header() -> Header
    ensures { result ≡ no_header }
{
    Header {
        previous: Addr(0),
        version: Version(1),
        invalid: false,
    }
}
