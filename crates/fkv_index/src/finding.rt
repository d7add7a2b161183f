//! How the slot of a home is found.
ghost use Rattle.std.specs.Prelude.{◌≡◌, ◌+◌, ◌*◌, ◌^◌, ◌<◌, ◌≤◌};
ghost use Rattle.fkv_index.specs.Slots.{bucket_slots, slot_word, link_of, home_of};
ghost use Rattle.fkv_index.specs.Finding.{rested, first_finding, linking_for, is_made, is_beyond, is_kept, find_ask, find_next, find_next_ask, find_led, slot_led, slot_after, entered, ended_list, link_led, takes_led, taken_led, took_led, linked_led, asks_left, IsInRange, IsLedInRange};
ghost use Rattle.fkv_index.specs.Counted.{IsCounted};

use crate::homes::{Home, home_of};
use crate::slot_words::{SlotWord, slot_word};
use fkv_base::Key;
use fkv_plane::{Ask, Places, SharedWord};
use std::marker::Model;

/// What a slot is sought for.
#[derive(Clone, Copy)]
pub enum Purpose {
    Read,
    Update,
    /// An update that links no bucket where so many overflow buckets are taken.
    UpdateWithin(u64),
}

/// What a search has come to.
#[derive(Clone, Copy, Debug, PartialEq, Eq)]
pub enum Found {
    /// The place of the slot, and the word that was found there: the home's entry, or 0 where the slot is empty.
    Slot(usize, u64),
    /// Of a read: no slot has the home's entry, and none is empty.
    NoSlot,
    /// Of an update: all overflow buckets are taken, the session has none to spare, and the last bucket that was searched is
    /// full of other entries. Another may have linked a bucket behind that one since.
    Full,
    /// Of an update within a bound: as many overflow buckets are taken as the bound says, and the last bucket that was searched is
    /// full of other entries. Another may have linked a bucket behind that one since.
    Kept,
    /// Another actor was first, or the machine is at rest.
    Contended,
}

/// What a search has come to, and the overflow bucket that the session has to spare then, 0 where it has none.
#[derive(Clone, Copy, Debug, PartialEq, Eq)]
pub struct FindAnswer {
    pub found: Found,
    pub spare: u64,
}

/// Whether the search links an overflow bucket where it comes to the end of the list.
#[derive(Clone, Copy)]
pub(crate) enum Linking {
    Never,
    Once,
    /// Once, where fewer overflow buckets are taken than this.
    Within(u64),
    Made,
}

/// How far the search has come in its bucket.
#[derive(Clone, Copy)]
pub(crate) enum FindStep {
    AtRest,
    LoadsSlot(usize),
    LoadsLink,
    /// The eighth word, which leads nowhere, is kept from here on. Within a bound a spare may be there too.
    LoadsTaken(u64),
    TakesBucket(u64, u64),
    LinksBucket(u64),
}

/// A search.
#[derive(Clone, Copy)]
pub(crate) struct Finding {
    pub home: Home,
    /// The place of the first word of the bucket whose slots are loaded.
    pub base: usize,
    /// How many links may still be followed.
    pub links: usize,
    pub linking: Linking,
    /// An overflow bucket that is taken and not linked yet, 0 where there is none.
    pub spare: u64,
    pub step: FindStep,
}

/// Where a reply leads: on, or to an end.
#[derive(Clone, Copy)]
pub(crate) enum Led {
    On(Finding),
    Ends(Finding, Found),
}

/// Finds the slot of a home: the one that has its entry, or else the first empty one. Where there is neither, an update
/// takes an overflow bucket and links it, once; it goes by one pass, and ends where another was first.
#[derive(Drop)]
pub struct Find {
    places: Places,
    /// The index has 2^bits buckets.
    bits: u64,
    finding: Finding,
}

impl Model for Find {
    ghost use Rattle.fkv_index.specs.Finding.{Finder, IsFindInRange};

    ghost Value = { Finder };

    ghost view = { λ m. record { places = m.places; bits = m.bits; finding = m.finding } };

    ghost invariant = { λ m. IsFindInRange (record { places = m.places; bits = m.bits; finding = m.finding }) };
}

impl Find {
    /// The machine of a store with these places, whose index has 2^bits buckets, at rest.
    pub fn new(places: Places, bits: u64) -> Find
        requires few { bits < 64 }
        requires buckets { places.buckets ≡ 2 ^ bits }
        ensures { result ≡ record { places = places; bits = bits; finding = rested 0 } }
    {
        Find {
            places,
            bits,
            finding: at_rest(),
        }
    }

    /// Forgets its search, and rests.
    pub fn rest(&mut self)
        ensures { self.new ≡ record self.old { finding = rested 0 } }
    {
        self.finding = at_rest();
    }

    /// The first ask, for the home of this key. The spare bucket is one that the session took and has not linked, 0 where
    /// it has none.
    pub fn start(&mut self, key: Key, purpose: Purpose, spare: u64) -> Ask<FindAnswer>
        ensures next { self.new ≡ record self.old { finding = first_finding self.old.places (home_of self.old.bits key) purpose spare } }
        ensures ask { result ≡ find_ask (first_finding self.old.places (home_of self.old.bits key) purpose spare) }
        ensures bounded { asks_left self.new.finding ≤ 8 * (self.old.places.overflow + 1) + 3 }
        ensures counted { IsCounted (asks_left self.new.finding) result }
    {
        let home = home_of(key, self.bits);
        let has_spare = spare <= self.places.overflow as u64;
        self.finding = Finding {
            home,
            base: self.places.bucket(home.bucket, 0),
            links: self.places.overflow,
            linking: linking_for(purpose),
            spare: if has_spare { spare } else { 0 },
            step: FindStep::LoadsSlot(0),
        };
        self.ask()
    }

    /// Goes on with the reply to its ask. At rest it stays where it is.
    pub fn drive(&mut self, reply: u64) -> Ask<FindAnswer>
        ensures next { self.new ≡ record self.old { finding = find_next self.old.places self.old.finding reply } }
        ensures ask { result ≡ find_next_ask self.old.places self.old.finding reply }
        ensures fewer { 0 < asks_left self.old.finding → asks_left self.new.finding < asks_left self.old.finding }
        ensures counted { IsCounted (asks_left self.new.finding) result }
    {
        match find_led(&self.places, self.finding, reply) {
            Led::On(finding) => {
                self.finding = finding;
                self.ask()
            }
            Led::Ends(finding, found) => {
                self.finding = Finding {
                    step: FindStep::AtRest,
                    ..finding
                };
                Ask::Done(FindAnswer {
                    found,
                    spare: finding.spare,
                })
            }
        }
    }

    /// Whether its last search has followed a link, and made none.
    pub fn is_beyond(&self) -> bool
        ensures { result ≡ is_beyond self.now.places self.now.finding }
    {
        self.finding.links < self.places.overflow && !is_made(self.finding.linking)
    }

    /// What it asks now.
    #[tactic(auto, unfolding(crate::specs::Finding::find_step_ask, crate::specs::Finding::step_asks_left))]
    pub fn ask(&self) -> Ask<FindAnswer>
        ensures ask { result ≡ find_ask self.now.finding }
        ensures counted { IsCounted (asks_left self.now.finding) result }
    {
        let f = self.finding;
        match f.step {
            FindStep::AtRest => Ask::Done(FindAnswer {
                found: Found::Contended,
                spare: f.spare,
            }),
            FindStep::LoadsSlot(slot) => Ask::Load(f.base + slot),
            FindStep::LoadsLink => Ask::Load(f.base + BUCKET_SLOTS),
            FindStep::LoadsTaken(_) => Ask::Load(SharedWord::Taken.place()),
            FindStep::TakesBucket(_, taken) => {
                Ask::Cas(SharedWord::Taken.place(), taken, taken + 1)
            }
            FindStep::LinksBucket(word) => Ask::Cas(f.base + BUCKET_SLOTS, word, word + f.spare),
        }
    }
}

/// Whether the search has linked a bucket.
fn is_made(linking: Linking) -> bool
    ensures { result ≡ is_made linking }
{
    matches!(linking, Linking::Made)
}

/// What a machine at rest has in place of a search.
fn at_rest() -> Finding
    ensures { result ≡ rested 0 }
{
    Finding {
        home: Home { bucket: 0, tag: 0 },
        base: 0,
        links: 0,
        linking: Linking::Never,
        spare: 0,
        step: FindStep::AtRest,
    }
}

/// The slots of a bucket; its last word leads on.
const BUCKET_SLOTS: usize = 7;

/// An update may link a bucket, a read never does.
fn linking_for(purpose: Purpose) -> Linking
    ensures { result ≡ linking_for purpose }
{
    match purpose {
        Purpose::Read => Linking::Never,
        Purpose::Update => Linking::Once,
        Purpose::UpdateWithin(bound) => Linking::Within(bound),
    }
}

/// Where the reply leads.
#[tactic(auto, unfolding(crate::specs::Finding::find_led))]
fn find_led(places: &Places, f: Finding, reply: u64) -> Led
    requires { IsInRange places.now f }
    ensures led { result ≡ find_led places.now f f.step reply }
    ensures range { IsLedInRange places.now result }
{
    match f.step {
        FindStep::AtRest => Led::Ends(f, Found::Contended),
        FindStep::LoadsSlot(slot) => slot_led(f, slot, reply),
        FindStep::LoadsLink => link_led(places, f, reply),
        FindStep::LoadsTaken(word) => taken_led(places, f, word, reply),
        FindStep::TakesBucket(word, taken) => took_led(f, word, taken, reply),
        FindStep::LinksBucket(word) => linked_led(places, f, word, reply),
    }
}

/// A slot's word ends the search, or the next slot is loaded.
fn slot_led(f: Finding, slot: usize, word: u64) -> Led
    requires base { f.base < 2 ^ 32 }
    requires slot { slot < bucket_slots }
    ensures { result ≡ slot_led f slot word (slot_word word) }
{
    match slot_word(word) {
        SlotWord::Empty => Led::Ends(f, Found::Slot(f.base + slot, 0)),
        SlotWord::Tagged(tag) if tag == f.home.tag => {
            Led::Ends(f, Found::Slot(f.base + slot, word))
        }
        SlotWord::Tagged(_) => Led::On(Finding {
            step: slot_after(slot),
            ..f
        }),
        SlotWord::Spoiled => Led::Ends(f, Found::Contended),
    }
}

/// The next slot, or the link behind the last.
fn slot_after(slot: usize) -> FindStep
    requires { slot < bucket_slots }
    ensures { result ≡ slot_after slot }
{
    if slot + 1 < BUCKET_SLOTS {
        FindStep::LoadsSlot(slot + 1)
    } else {
        FindStep::LoadsLink
    }
}

/// The overflow bucket that follows is entered, or none follows.
fn link_led(places: &Places, f: Finding, word: u64) -> Led
    ensures { result ≡ link_led places.now f word }
{
    let link = word & (1 << 48) - 1;
    if link == 0 {
        ended_list(f, word)
    } else {
        entered(places, f, link)
    }
}

/// What is done where no bucket follows.
fn ended_list(f: Finding, word: u64) -> Led
    ensures { result ≡ ended_list f word f.linking }
{
    match f.linking {
        Linking::Never => Led::Ends(f, Found::NoSlot),
        Linking::Once => {
            let step = if f.spare == 0 {
                FindStep::LoadsTaken(word)
            } else {
                FindStep::LinksBucket(word)
            };
            Led::On(Finding { step, ..f })
        }
        Linking::Within(_) => Led::On(Finding {
            step: FindStep::LoadsTaken(word),
            ..f
        }),
        Linking::Made => Led::Ends(f, Found::Contended),
    }
}

/// The first slot of an overflow bucket, where there is one of that number and a link may still be followed.
fn entered(places: &Places, f: Finding, number: u64) -> Led
    requires { 1 ≤ number }
    ensures { result ≡ entered places.now f number }
{
    if f.links > 0 && number <= places.overflow as u64 {
        Led::On(Finding {
            base: places.overflow(number as usize, 0),
            links: f.links - 1,
            step: FindStep::LoadsSlot(0),
            ..f
        })
    } else {
        Led::Ends(f, Found::Contended)
    }
}

/// Whether so many are taken that the search links none.
fn is_kept(linking: Linking, taken: u64) -> bool
    ensures { result ≡ is_kept linking taken }
{
    match linking {
        Linking::Within(bound) => bound <= taken,
        _ => false,
    }
}

/// The spare is linked, or a bucket is taken before that; or none is linked.
fn taken_led(places: &Places, f: Finding, word: u64, taken: u64) -> Led
    ensures { result ≡ taken_led places.now f word taken }
{
    if is_kept(f.linking, taken) {
        Led::Ends(f, Found::Kept)
    } else if f.spare == 0 {
        takes_led(places, f, word, taken)
    } else {
        Led::On(Finding {
            step: FindStep::LinksBucket(word),
            ..f
        })
    }
}

/// A bucket is taken, where one is left.
fn takes_led(places: &Places, f: Finding, word: u64, taken: u64) -> Led
    ensures { result ≡ takes_led places.now f word taken }
{
    if taken < places.overflow as u64 {
        Led::On(Finding {
            step: FindStep::TakesBucket(word, taken),
            ..f
        })
    } else {
        Led::Ends(f, Found::Full)
    }
}

/// The bucket that was taken is to be linked, or another actor took it.
fn took_led(f: Finding, word: u64, taken: u64, reply: u64) -> Led
    requires { taken + 1 < 2 ^ 64 }
    ensures { result ≡ took_led f word taken reply }
{
    if reply == taken {
        Led::On(Finding {
            spare: taken + 1,
            step: FindStep::LinksBucket(word),
            ..f
        })
    } else {
        Led::Ends(f, Found::Contended)
    }
}

/// The bucket that was linked is entered, or another actor linked one.
fn linked_led(places: &Places, f: Finding, word: u64, reply: u64) -> Led
    requires { 1 ≤ f.spare }
    ensures { result ≡ linked_led places.now f word reply }
{
    if reply != word {
        return Led::Ends(f, Found::Contended);
    }
    let linked = Finding {
        linking: Linking::Made,
        spare: 0,
        ..f
    };
    entered(places, linked, f.spare)
}
