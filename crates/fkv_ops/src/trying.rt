//! One try of a request.
ghost use Rattle.std.specs.Prelude.{◌≡◌, ◌+◌, ◌*◌, ◌<◌, ◌≤◌, ◌^◌};
ghost use Rattle.fkv_ops.specs.Trying.{try_begun, try_ask, try_next};
ghost use Rattle.fkv_plane.specs.AsksLeft.{AsksWhereLeft};
ghost use Rattle.fkv_ops.specs.AsksLeft.{try_asks_left};

use crate::answers::{TryAnswer, Waiting};
use crate::appending::Append;
use crate::requests::{Occasion, Request, Seen};
use crate::values::{value_of_word, word_of_value};
use crate::walking::Walk;
use fkv_base::{Addr, Key, Shape, Version};
use fkv_index::{Home, home_of};
use fkv_latch::{Latch, LatchTask};
use fkv_map::Reply;
use fkv_plane::{Ask, Places, RecordWord, SharedWord, passed};
use fkv_words::phase_said;
use std::marker::Model;

/// Where the old value of a copy comes from.
#[derive(Clone, Copy)]
pub(crate) enum OldValue {
    /// It is in the record that the walk has found.
    InMemory,
    /// This is its word.
    Known(u64),
}

/// How far the try has come. Its end is kept up to the next start.
#[derive(Clone, Copy)]
pub(crate) enum Trying {
    Ended(TryAnswer),
    TakesShared,
    /// The latch is shared, and the phase word is loaded.
    LoadsPhase,
    Walks,
    /// An empty slot was found behind a link, and the count of taken overflow buckets is loaded.
    CountsTaken,
    /// The record was found at this address, below the read-only offset that the session has seen.
    LoadsSafe(Addr, Version),
    SwapsValue(Addr),
    /// The value is loaded that is to be changed in place.
    LoadsCurrent(Addr),
    ChangesValue(Addr, u64),
    /// The value is loaded that a read is told.
    LoadsAnswer,
    TakesExclusive(OldValue),
    /// The value is loaded of which a copy is made.
    LoadsOld,
    /// A new record is appended, whose update is told this.
    Appends(Reply),
    /// The update would wait, and the tail is loaded.
    LoadsTail(Waiting),
    /// So it would yet, its key has no entry, and the count of taken overflow buckets is loaded.
    LoadsTaken(Waiting),
    DropsExclusive(TryAnswer),
    DropsShared(TryAnswer),
}

/// One try of a request, by one pass: it shares the latch of its bucket where the session's phase wants it, walks to the record
/// of its key, and changes that in place or publishes a new one. Where it can do neither it tells why.
#[derive(Drop)]
pub struct Try {
    pub(crate) places: Places,
    bits: u64,
    pub(crate) request: Request,
    pub(crate) seen: Seen,
    pub(crate) occasion: Occasion,
    pub(crate) home: Home,
    pub(crate) has_shared: bool,
    pub(crate) has_exclusive: bool,
    pub(crate) effect: Option<Reply>,
    pub(crate) spare: u64,
    pub(crate) walk: Walk,
    pub(crate) latch: Latch,
    pub(crate) append: Append,
    pub(crate) step: Trying,
}

impl Model for Try {
    ghost use Rattle.std.specs.Prelude.{◌≡◌, ◌<◌, ◌^◌};
    ghost use Rattle.fkv_map.specs.Keys.{key_of};
    ghost use Rattle.fkv_index.specs.Slots.{home_of};
    ghost use Rattle.fkv_ops.specs.Trying.{Trier, TryState};

    ghost Value = { Trier };

    ghost view = { λ m. record { places = m.places; bits = m.bits; room = m.append.room; state = record { request = m.request; seen = m.seen; occasion = m.occasion; home = m.home; has_shared = m.has_shared; has_exclusive = m.has_exclusive; effect = m.effect; spare = m.spare; walk = m.walk.state; latching = m.latch; append = m.append.state; step = m.step } } };

    ghost invariant = { λ m. (m.walk.places ≡ m.places) × (m.walk.bits ≡ m.bits) × (m.append.places ≡ m.places) × (m.places.buckets ≡ 2 ^ m.bits) × (m.home ≡ home_of m.bits (key_of m.request.op)) × (m.home.bucket < m.places.buckets) × (m.home.tag < 2 ^ 15) };
}

impl Try {
    ghost use Rattle.fkv_ops.specs.Trying.{try_rested};

    /// The machine of a store of this shape, at rest.
    #[tactic(auto, unfolding(crate::specs::Trying::try_rested))]
    pub fn new(shape: &Shape) -> Try
        ensures sessions { result.places.sessions ≡ shape.now.sessions }
        ensures buckets { result.places.buckets ≡ 2 ^ shape.now.bucket_bits }
        ensures overflow { result.places.overflow ≡ shape.now.overflow }
        ensures ring { result.places.ring ≡ shape.now.frames * shape.now.page }
        ensures bits { result.bits ≡ shape.now.bucket_bits }
        ensures room { result.room ≡ shape.now.disk_pages * shape.now.page }
        ensures rest { result.state ≡ try_rested shape.now.bucket_bits }
    {
        let places = Places::of(shape);
        Try {
            places,
            bits: shape.bucket_bits,
            request: Request::none(),
            seen: Seen::nothing(),
            occasion: Occasion::Call(None),
            home: home_of(Key(0), shape.bucket_bits),
            has_shared: false,
            has_exclusive: false,
            effect: None,
            spare: 0,
            walk: Walk::new(places, shape.bucket_bits),
            latch: Latch::new(),
            append: Append::new(places, shape),
            step: Trying::Ended(TryAnswer::Shift),
        }
    }

    /// Forgets its request, and rests.
    #[tactic(auto, unfolding(crate::specs::Trying::try_rested))]
    pub fn rest(&mut self)
        ensures { self.new ≡ record self.old { state = try_rested self.old.bits } }
    {
        self.request = Request::none();
        self.seen = Seen::nothing();
        self.occasion = Occasion::Call(None);
        self.home = home_of(Key(0), self.bits);
        self.has_shared = false;
        self.has_exclusive = false;
        self.effect = None;
        self.spare = 0;
        self.walk.rest();
        self.latch = Latch::new();
        self.append.rest();
        self.step = Trying::Ended(TryAnswer::Shift);
    }

    /// The first ask, to try this request by what the session has seen. The spare bucket is one that the session took and has
    /// not linked, 0 where it has none.
    pub fn start(
        &mut self,
        request: Request,
        seen: Seen,
        occasion: Occasion,
        spare: u64,
    ) -> Ask<TryAnswer>
        ensures next { self.new ≡ record self.old { state = try_begun self.old.places self.old.bits request seen occasion spare } }
        ensures ask { result ≡ try_ask self.old.places self.new.state }
        ensures asks { AsksWhereLeft (try_asks_left self.old.places self.new.state) result }
        ensures bounded { try_asks_left self.old.places self.new.state ≤ 8 * (self.old.places.overflow + 1) + 2 * self.old.places.ring + 23 }
    {
        self.request = request;
        self.seen = seen;
        self.occasion = occasion;
        self.home = home_of(request.op.key(), self.bits);
        self.has_shared = request.has_latch;
        self.has_exclusive = false;
        self.effect = None;
        self.spare = spare;
        self.append.rest();
        if self.wants_shared() {
            self.walk.rest();
            self.with_latch(LatchTask::TakeShared, Trying::TakesShared);
        } else {
            self.latch = Latch::new();
            self.walks();
        }
        self.ask()
    }

    /// Goes on with the reply to its ask. At its end it stays where it is.
    #[tactic(auto, unfolding(crate::specs::Trying::trying_next))]
    pub fn drive(&mut self, reply: u64) -> Ask<TryAnswer>
        ensures next { self.new ≡ record self.old { state = try_next self.old.places self.old.room self.old.state reply } }
        ensures ask { result ≡ try_ask self.old.places self.new.state }
        ensures asks { AsksWhereLeft (try_asks_left self.old.places self.new.state) result }
        ensures fewer { 0 < try_asks_left self.old.places self.old.state → try_asks_left self.old.places self.new.state < try_asks_left self.old.places self.old.state }
    {
        self.effect = None;
        match self.step {
            Trying::Ended(_) => {}
            Trying::TakesShared => self.after_shared(reply),
            Trying::LoadsPhase => self.after_phase(phase_said(reply)),
            Trying::Walks => self.after_walk(reply),
            Trying::CountsTaken => self.after_count(reply),
            Trying::LoadsSafe(addr, version) => self.after_safe(addr, version, reply),
            Trying::SwapsValue(_) => self.takes_effect(self.request.op.reply_from(None)),
            Trying::LoadsCurrent(addr) => self.after_current(addr, reply),
            Trying::ChangesValue(_, old) => self.after_change(old, reply),
            Trying::LoadsAnswer => self.after_answer(reply),
            Trying::TakesExclusive(old) => self.after_exclusive(old, reply),
            Trying::LoadsOld => self.after_old(reply),
            Trying::Appends(told) => self.after_append(told, reply),
            Trying::LoadsTail(waiting) => self.after_tail(waiting, reply),
            Trying::LoadsTaken(waiting) => self.after_taken(waiting, reply),
            Trying::DropsExclusive(answer) => self.after_exclusive_drop(answer, reply),
            Trying::DropsShared(answer) => self.after_shared_drop(answer, reply),
        }
        self.ask()
    }

    /// What it asks now.
    #[tactic(auto, unfolding(crate::specs::Trying::trying_ask))]
    pub fn ask(&self) -> Ask<TryAnswer>
        ensures ask { result ≡ try_ask self.now.places self.now.state }
        ensures asks { AsksWhereLeft (try_asks_left self.now.places self.now.state) result }
    {
        match self.step {
            Trying::Ended(answer) => Ask::Done(answer),
            Trying::TakesShared | Trying::TakesExclusive(_) => {
                passed(self.latch.ask(), TryAnswer::Shift)
            }
            Trying::DropsExclusive(answer) | Trying::DropsShared(answer) => {
                passed(self.latch.ask(), answer)
            }
            Trying::Walks | Trying::LoadsCurrent(_) | Trying::LoadsAnswer | Trying::LoadsOld =>
                passed(self.walk.ask(), TryAnswer::Shift),
            Trying::LoadsPhase => Ask::Load(SharedWord::Phase.place()),
            Trying::CountsTaken | Trying::LoadsTaken(_) => Ask::Load(SharedWord::Taken.place()),
            Trying::LoadsTail(_) => Ask::Load(SharedWord::Tail.place()),
            Trying::LoadsSafe(_, _) => Ask::Load(SharedWord::SafeReadOnly.place()),
            Trying::SwapsValue(addr) => {
                let value = self.request.op.value_applied(None);
                Ask::Swap(
                    self.places.record(addr, RecordWord::Value),
                    word_of_value(value),
                )
            }
            Trying::ChangesValue(addr, old) => {
                let value = self.request.op.value_applied(value_of_word(old));
                Ask::Cas(
                    self.places.record(addr, RecordWord::Value),
                    old,
                    word_of_value(value),
                )
            }
            Trying::Appends(_) => passed(self.append.ask(), TryAnswer::Shift),
        }
    }

    /// Where the shared words of the store stand.
    pub fn places(&self) -> Places
        ensures { result ≡ self.now.places }
    {
        self.places
    }

    /// What the update was told whose effect the last reply made, if it made one.
    pub fn effect(&self) -> Option<Reply>
        ensures { result ≡ self.now.state.effect }
    {
        self.effect
    }

    /// Whether the request shares the latch of its bucket now.
    pub fn has_shared(&self) -> bool
        ensures { result ≡ self.now.state.has_shared }
    {
        self.has_shared
    }

    /// The overflow bucket that the session has taken and not linked, 0 where it has none.
    pub fn spare(&self) -> u64
        ensures { result ≡ self.now.state.spare }
    {
        self.spare
    }
}
