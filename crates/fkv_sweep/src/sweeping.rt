//! The machine that sweeps.
ghost use Rattle.std.specs.Prelude.{◌≡◌, ◌+◌, ◌-◌, ◌<◌, ◌≤◌, ◌^◌, ◌↔◌, ℕ, List, true, is_ok, OnOk, IfOk, OnErr};
ghost use Rattle.fkv_disk.specs.Asks.{asked_call, kinds_by, count_by};
ghost use Rattle.fkv_disk.specs.Bytes.{bytes_at};
ghost use Rattle.fkv_disk.specs.Device.{LeavesNoMore, Elapses, HasCause, MakesCalls};
ghost use Rattle.fkv_sweep.specs.AsksLeft.{GoesOnWhereLeft, is_through, steps_asked, sweep_asks_left, most_sweep_asks};
ghost use Rattle.fkv_sweep.specs.Sweeping.{IsUnderWay, sweep_begun, is_sweeping, turn_begun, coming, holds, next_met, gone_on, record_passed, key_wanted};
ghost use Rattle.fkv_sweep.specs.Sweeping.{reached, led_down, slot_found, find_ledto, key_met, chain_met, record_met, sweep_ask, sweep_next, sweep_read};
ghost use Rattle.fkv_sweep.specs.Sweeping.{sweep_failed, sweep_word_due, read_addr, read_asked, read_place, sweeping_read, piece_bytes};

use crate::record_words::{PIECE_BYTES, Piece, RecordWords, is_counted, previous_in, words_at};
use arrayvec::ArrayVec;
use fkv_base::{Addr, Fault, Key, Shape};
use fkv_disk::{Device, DeviceAsk};
use fkv_index::{Find, FindAnswer, Found, Purpose};
use fkv_plane::{Ask, Places, RecordWord, SharedWord, passed};
use fkv_record::record_place;
use std::marker::Model;

/// What a sweep has come to.
#[derive(Clone, Copy, Debug, PartialEq, Eq)]
pub enum SweepAnswer {
    /// Its next step is one read by the device, which `device_step` makes.
    Device,
    /// Its turn is through, or it is at rest.
    Through,
}

/// How far the sweep has come with the record that it has met: the key that is probed, and the address in the chain of the key's home.
#[derive(Clone, Copy)]
pub(crate) enum Sweeping {
    AtRest,
    LoadsHead,
    /// The record that comes next was read with others. An ask goes before it, whose reply tells nothing.
    Takes,
    /// The record that comes next is read from the device.
    Meets,
    /// The slot of the key's home is sought.
    Finds(Key),
    LoadsKey(Key, Addr),
    LoadsHeader(Key, Addr),
    Reads(Key, Addr),
}

/// Sweeps the records of the log from one address up to another, some in each turn. It passes a record that gives its key no value, and
/// one whose key stands at or above the end too. Other keys are wanted: their records are probed again in the next turn, and by then
/// somebody may have put these keys further on. It changes no word, and makes no call of the device but reads.
#[derive(Drop)]
pub struct Sweep {
    shape: Shape,
    places: Places,
    from: Addr,
    at: Addr,
    to: Addr,
    next: Addr,
    left: u64,
    piece: Piece,
    head: Addr,
    wanted: ArrayVec<Key, MOST_WANTED>,
    find: Find,
    step: Sweeping,
}

impl Model for Sweep {
    ghost use Rattle.std.specs.Prelude.{◌≡◌};
    ghost use Rattle.fkv_sweep.specs.Sweeping.{Sweeper, IsSweepInRange};

    ghost Value = { Sweeper };

    ghost view = { λ m. record { shape = m.shape; places = m.places; from = m.from; at = m.at; to = m.to; next = m.next; left = m.left; piece = m.piece; head = m.head; wanted = m.wanted.items; finding = m.find.finding; step = m.step } };

    ghost invariant = { λ m. (m.find.places ≡ m.places) × (m.find.bits ≡ m.shape.bucket_bits) × IsSweepInRange (record { shape = m.shape; places = m.places; from = m.from; at = m.at; to = m.to; next = m.next; left = m.left; piece = m.piece; head = m.head; wanted = m.wanted.items; finding = m.find.finding; step = m.step }) };
}

/// The records that a turn meets, at most.
const MOST_RECORDS: u64 = 256;

/// The keys that are wanted at once, at most: with so many the turn ends.
pub const MOST_WANTED: usize = 16;

impl Sweep {
    /// A sweep from one address up to another, of a store with these places. It rests.
    pub fn new(shape: Shape, places: Places, from: Addr, to: Addr) -> Sweep
        requires buckets { places.buckets ≡ 2 ^ shape.bucket_bits }
        requires end { from.0 < to.0 → to.0 ≤ 2 ^ 48 }
        ensures { result ≡ sweep_begun shape places from to }
    {
        Sweep {
            shape,
            places,
            from,
            at: from,
            to,
            next: from,
            left: 0,
            piece: Piece::none(),
            head: Addr(0),
            wanted: ArrayVec::new(),
            find: Find::new(places, shape.bucket_bits),
            step: Sweeping::AtRest,
        }
    }

    /// Forgets what it has swept, and is the sweep from one address up to another. It rests.
    pub fn restart(&mut self, from: Addr, to: Addr)
        requires end { from.0 < to.0 → to.0 ≤ 2 ^ 48 }
        ensures { self.new ≡ sweep_begun self.old.shape self.old.places from to }
    {
        self.step = Sweeping::AtRest;
        self.from = from;
        self.at = from;
        self.to = to;
        self.next = from;
        self.left = 0;
        self.piece = Piece::none();
        self.head = Addr(0);
        self.wanted = ArrayVec::new();
        self.find.rest();
    }

    /// The first ask of a turn. The keys that were wanted are forgotten.
    #[tactic(auto, using(crate::proofs::AsksLeft::sweep_asked))]
    pub fn start(&mut self) -> Ask<SweepAnswer>
        ensures next { self.new ≡ turn_begun self.old }
        ensures ask { result ≡ sweep_ask self.new }
        ensures left { GoesOnWhereLeft (sweep_asks_left self.new) result }
        ensures bounded { sweep_asks_left self.new ≤ most_sweep_asks self.old.places }
    {
        self.step = Sweeping::AtRest;
        self.next = self.at;
        self.left = MOST_RECORDS;
        self.wanted.clear();
        if self.is_sweeping() {
            self.step = Sweeping::LoadsHead;
        }
        self.ask()
    }

    /// Goes on with the reply to its ask. Where it needs the device it stays where it is.
    pub fn drive(&mut self, reply: u64) -> Ask<SweepAnswer>
        ensures next { self.new ≡ sweep_next self.old reply }
        ensures ask { result ≡ sweep_ask self.new }
        ensures left { GoesOnWhereLeft (sweep_asks_left self.new) result }
        ensures fewer { 0 < sweep_asks_left self.old → steps_asked (sweep_ask self.old) ≡ 0 → sweep_asks_left self.new < sweep_asks_left self.old }
    {
        self.keep(reply);
        self.ask()
    }

    /// Goes on as `drive` does, and doesn't tell what it asks.
    #[inline(always)]
    #[tactic(auto, unfolding(crate::specs::Sweeping::sweeping_next))]
    pub fn keep(&mut self, reply: u64)
        ensures next { self.new ≡ sweep_next self.old reply }
    {
        match self.step {
            Sweeping::AtRest | Sweeping::Meets | Sweeping::Reads(_, _) => {}
            Sweeping::LoadsHead => {
                self.head = Addr(reply);
                self.step = self.coming();
            }
            Sweeping::Takes => self.take(),
            Sweeping::Finds(key) => {
                let ask = self.find.drive(reply);
                self.after_find(key, ask);
            }
            Sweeping::LoadsKey(key, addr) => self.meet_key(key, addr, reply),
            Sweeping::LoadsHeader(key, addr) => self.lead_down(key, addr, previous_in(reply)),
        }
    }

    /// Goes on by the device: it makes the one read that it needs, of the bytes of records in a row. Where it needs none it stays where it
    /// is. `Fault::Device` where the device failed: the machine is at rest then.
    #[tactic(auto, unfolding(crate::specs::Sweeping::sweeping_read, crate::specs::AsksLeft::sweeping_asks_left))]
    pub fn device_step<D: Device>(&mut self, d: &mut D) -> Result<Ask<SweepAnswer>, Fault>
        ensures next { OnOk result ((bytes : List ℕ) × (self.new ≡ sweep_read self.old bytes)) }
        ensures read { D.honest d.old → OnOk result (self.new ≡ sweep_read self.old (bytes_at (D.seen d.old) (read_place self.old) piece_bytes)) }
        ensures ask { IfOk result (λ ask. ask ≡ sweep_ask self.new) }
        ensures failed { OnErr result (self.new ≡ sweep_failed self.old) }
        ensures left { IfOk result (λ ask. GoesOnWhereLeft (sweep_asks_left self.new) ask) }
        ensures fewer { sweep_asks_left self.new ≤ sweep_asks_left self.old - steps_asked (sweep_ask self.old) }
        ensures cause { HasCause (D.failed d.old) (D.failed d.new) result }
        ensures counted { MakesCalls (count_by (read_asked self.old)) (D.refuses d.old) (D.refuses d.new) result }
        ensures kind { D.expects d.new ≡ kinds_by (read_asked self.old) (is_ok result) (D.expects d.old) }
        ensures honest { D.honest d.old ↔ D.honest d.new }
        ensures seen { D.honest d.old → D.seen d.new ≡ D.seen d.old }
        ensures crash { D.honest d.old → LeavesNoMore (D.may_leave d.old) (D.may_leave d.new) }
        ensures time { D.honest d.old → Elapses (D.moment d.old) (D.moment d.new) (D.left_since d.old) (D.left_since d.new) (D.may_leave d.new) }
    {
        let Some(addr) = self.read_addr() else {
            return Ok(self.ask());
        };
        let step = self.step;
        self.step = Sweeping::AtRest;
        let mut bytes = [0; PIECE_BYTES];
        d.read(record_place(self.shape, addr), &mut bytes)?;
        self.step = step;
        self.after_read(&bytes);
        Ok(self.ask())
    }

    /// The call of the device that `device_step` makes, if it makes one: it does where it asks for `SweepAnswer::Device`, and nowhere else.
    #[tactic(auto, using(crate::proofs::AsksLeft::sweep_calls))]
    pub fn device_ask(&self) -> Option<DeviceAsk<'_>>
        ensures call { asked_call result ≡ read_asked self.now }
        ensures count { steps_asked (sweep_ask self.now) ≡ count_by (asked_call result) }
    {
        let addr = self.read_addr()?;
        Some(DeviceAsk::Read(record_place(self.shape, addr), PIECE_BYTES))
    }

    /// What it asks now.
    #[inline]
    #[tactic(auto, unfolding(crate::specs::Sweeping::sweeping_ask))]
    pub fn ask(&self) -> Ask<SweepAnswer>
        ensures ask { result ≡ sweep_ask self.now }
    {
        match self.step {
            Sweeping::AtRest => Ask::Done(SweepAnswer::Through),
            Sweeping::LoadsHead | Sweeping::Takes => Ask::Load(SharedWord::Head.place()),
            Sweeping::Meets | Sweeping::Reads(_, _) => Ask::Done(SweepAnswer::Device),
            Sweeping::Finds(_) => passed(self.find.ask(), SweepAnswer::Through),
            Sweeping::LoadsKey(_, addr) => Ask::Load(self.places.record(addr, RecordWord::Key)),
            Sweeping::LoadsHeader(_, addr) => {
                Ask::Load(self.places.record(addr, RecordWord::Header))
            }
        }
    }

    /// The place of the word that it loads, if it loads one.
    #[inline(always)]
    pub fn word_due(&self) -> Option<usize>
        ensures { result ≡ sweep_word_due self.now }
    {
        match self.ask() {
            Ask::Load(place) => Some(place),
            _ => None,
        }
    }

    /// Whether its turn is through, or it is at rest.
    #[inline(always)]
    pub fn is_through(&self) -> bool
        ensures { result ≡ is_through (sweep_ask self.now) }
    {
        matches!(self.ask(), Ask::Done(SweepAnswer::Through))
    }

    /// The keys that are wanted: their records lie below the end, and none of a key at or above it was found.
    pub fn wanted(&self) -> &[Key]
        ensures { result.now ≡ self.now.wanted }
    {
        self.wanted.as_slice()
    }

    /// Where the sweep began.
    pub fn from(&self) -> Addr
        ensures { result ≡ self.now.from }
    {
        self.from
    }

    /// The first record that isn't passed.
    pub fn at(&self) -> Addr
        ensures { result ≡ self.now.at }
    {
        self.at
    }

    /// Where the sweep ends.
    pub fn to(&self) -> Addr
        ensures { result ≡ self.now.to }
    {
        self.to
    }

    /// Whether there are records that it hasn't passed.
    pub fn is_sweeping(&self) -> bool
        ensures { result ≡ is_sweeping self.now }
    {
        self.at < self.to
    }
}

// The steps of a turn.
impl Sweep {
    /// The address whose record is read from the device, if one is.
    #[tactic(auto, unfolding(crate::specs::Sweeping::sweeping_addr))]
    fn read_addr(&self) -> Option<Addr>
        ensures addr { result ≡ read_addr self.now }
    {
        match self.step {
            Sweeping::Meets => Some(self.next),
            Sweeping::Reads(_, addr) => Some(addr),
            _ => None,
        }
    }

    /// Goes on by the bytes that were read.
    #[tactic(auto, unfolding(crate::specs::Sweeping::sweeping_read))]
    fn after_read(&mut self, bytes: &[u8; 768])
        ensures { self.new ≡ sweeping_read self.old self.old.step bytes.now }
    {
        match self.step {
            Sweeping::Meets => {
                self.piece = Piece::read(self.next, bytes);
                let words = self.piece.words(self.next);
                self.meet(words);
            }
            Sweeping::Reads(key, addr) => self.meet_in_chain(key, addr, words_at(bytes, 0)),
            _ => {}
        }
    }

    /// How it comes to the next record: that was read with others, or is read from the device.
    fn coming(&self) -> Sweeping
        ensures { result ≡ coming self.now.piece self.now.next }
    {
        if self.piece.holds(self.next) {
            Sweeping::Takes
        } else {
            Sweeping::Meets
        }
    }

    /// Goes on with the next record, which was read with others.
    fn take(&mut self)
        requires way { IsUnderWay self.old }
        requires there { holds self.old.piece self.old.next ≡ true }
        ensures { self.new ≡ next_met self.old }
    {
        let words = self.piece.words(self.next);
        self.meet(words);
    }

    /// The record that comes next has these words.
    fn meet(&mut self, words: RecordWords)
        requires { IsUnderWay self.old }
        ensures { self.new ≡ record_met self.old words }
    {
        if is_counted(words) {
            self.find.start(words.key, Purpose::Read, 0);
            self.step = Sweeping::Finds(words.key);
        } else {
            self.pass();
        }
    }

    /// Goes on by what the search asks.
    #[tactic(auto, unfolding(crate::specs::Sweeping::find_ledto))]
    fn after_find(&mut self, key: Key, ask: Ask<FindAnswer>)
        requires { IsUnderWay self.old }
        ensures { self.new ≡ find_ledto self.old key ask }
    {
        if let Ask::Done(answer) = ask {
            match answer.found {
                Found::Slot(_, word) => self.reach(key, previous_in(word)),
                _ => self.want(key),
            }
        }
    }

    /// A record of the chain in memory has this key.
    fn meet_key(&mut self, key: Key, addr: Addr, word: u64)
        requires { IsUnderWay self.old }
        ensures { self.new ≡ key_met self.old key addr word }
    {
        if word == key.0 {
            self.pass();
        } else {
            self.step = Sweeping::LoadsHeader(key, addr);
        }
    }

    /// A record of the chain on the device has these words.
    fn meet_in_chain(&mut self, key: Key, addr: Addr, words: RecordWords)
        requires { IsUnderWay self.old }
        ensures { self.new ≡ chain_met self.old key addr words }
    {
        if words.key == key {
            self.pass();
        } else {
            self.lead_down(key, addr, previous_in(words.header));
        }
    }

    /// A record of the chain leads on.
    fn lead_down(&mut self, key: Key, addr: Addr, previous: u64)
        requires way { IsUnderWay self.old }
        requires previous { previous < 2 ^ 48 }
        ensures { self.new ≡ led_down self.old key addr previous }
    {
        if previous < addr.0 {
            self.reach(key, previous);
        } else {
            self.want(key);
        }
    }

    /// The chain leads to this address.
    fn reach(&mut self, key: Key, addr: u64)
        requires way { IsUnderWay self.old }
        requires addr { addr < 2 ^ 48 }
        ensures { self.new ≡ reached self.old key addr }
    {
        if addr < self.to.0 {
            self.want(key);
        } else if addr < self.head.0 {
            self.step = Sweeping::Reads(key, Addr(addr));
        } else {
            self.step = Sweeping::LoadsKey(key, Addr(addr));
        }
    }

    /// The record needs no more.
    fn pass(&mut self)
        requires { IsUnderWay self.old }
        ensures { self.new ≡ record_passed self.old }
    {
        if self.wanted.len() == 0 {
            self.at = Addr(self.next.0 + 1);
        }
        self.go_on();
    }

    /// The key of the record is wanted.
    fn want(&mut self, key: Key)
        requires { IsUnderWay self.old }
        ensures { self.new ≡ key_wanted self.old key }
    {
        self.step = Sweeping::AtRest;
        self.wanted.push(key);
        self.go_on();
    }

    /// Goes on to the next record, where there is one for this turn.
    fn go_on(&mut self)
        requires below { self.old.next.0 < self.old.to.0 }
        requires low { self.old.to.0 ≤ 2 ^ 48 }
        requires some { 0 < self.old.left }
        ensures { self.new ≡ gone_on self.old }
    {
        let goes_on = self.next.0 + 1 < self.to.0
            && self.left > 1
            && self.wanted.len() < MOST_WANTED;
        self.step = Sweeping::AtRest;
        self.next = Addr(self.next.0 + 1);
        self.left -= 1;
        if goes_on {
            self.step = self.coming();
        }
    }
}
