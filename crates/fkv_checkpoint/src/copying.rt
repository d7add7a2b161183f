//! How the index is copied into triples.
ghost use Rattle.std.specs.Prelude.{◌≡◌, ◌+◌, ◌-◌, ◌*◌, ◌<◌, ◌≤◌, ◌^◌, length, IfOk, OnErr, Err};
ghost use Rattle.fkv_base.specs.declared.faults.Fault.TheVariants.{Memory};
ghost use Rattle.fkv_index.specs.Slots.{bucket_slots};
ghost use Rattle.fkv_index.specs.Counted.{IsCounted};
ghost use Rattle.fkv_checkpoint.specs.Triples.{copied_list, all_bytes};
ghost use Rattle.fkv_checkpoint.specs.Copying.{copy_begun, bucket_entered, copy_ask, slot_after, link_led, copy_next, slot_copied, copied_at, copy_after, copy_asks_left, copy_rests, copy_word_due, is_parted, IsCopyingInRange};

use crate::triple_buffers::TripleBuffer;
use fkv_base::Fault;
use fkv_plane::{Ask, Places};
use fkv_record::Triple;
use fkv_words::Entry;
use std::alloc::Global;
use std::marker::Model;

/// How far the copy has come in its bucket. Its end is kept.
#[derive(Clone, Copy)]
pub(crate) enum CopyStep {
    Ended,
    LoadsSlot(usize),
    LoadsLink,
}

/// How far the copy has come.
#[derive(Clone, Copy)]
pub(crate) struct Copying {
    /// The bucket whose entries are copied, with those of the overflow buckets that follow it.
    pub bucket: usize,
    /// The place of the first word of the one whose slots are loaded.
    pub base: usize,
    /// How many links may still be followed, in all buckets together.
    pub links: usize,
    pub step: CopyStep,
}

/// Memory for all triples that a copy of the index may come to, in a store with these places.
#[derive(Drop)]
pub struct CopyRoom {
    places: Places,
    triples: TripleBuffer,
}

impl Model for CopyRoom {
    ghost use Rattle.std.specs.Prelude.{◌≡◌, [], ◌*◌};
    ghost use Rattle.fkv_plane.specs.declared.places.Places.{Places};
    ghost use Rattle.fkv_checkpoint.specs.Copying.{most_copied};

    ghost Value = { Places };

    ghost view = { λ m. m.places };

    ghost invariant = { λ m. m.triples ≡ record { space = 16 * most_copied m.places; entries = [] } };
}

/// Copies the entries of the index into triples, one load at a time, while others go on.
#[derive(Drop)]
pub struct IndexCopy {
    places: Places,
    copying: Copying,
    triples: TripleBuffer,
}

impl Model for IndexCopy {
    ghost use Rattle.std.specs.Prelude.{length};
    ghost use Rattle.fkv_checkpoint.specs.Copying.{Copier, IsCopyInRange};

    ghost Value = { Copier };

    ghost view = { λ m. record { places = m.places; copying = m.copying; triples = m.triples.entries } };

    ghost invariant = { λ m. IsCopyInRange m.places m.copying m.triples.space (length m.triples.entries) };
}

/// The slots of a bucket; its last word leads on.
const BUCKET_SLOTS: usize = 7;

/// Buckets that are copied without a rest, at most, and overflow buckets too.
const MOST_AT_ONCE: usize = 1024;

impl CopyRoom {
    /// Asks for it, in one request. `Fault::Memory` where that is refused.
    pub fn ask(alloc: Global, places: Places) -> Result<CopyRoom, Fault>
        ensures made { IfOk result (λ room. room ≡ places) }
        ensures err { OnErr result (result ≡ Err Memory) }
    {
        let triples = TripleBuffer::new(alloc, BUCKET_SLOTS * (places.buckets + places.overflow))?;
        Ok(CopyRoom { places, triples })
    }
}

impl IndexCopy {
    /// A copy that is to begin, of the store that this room was got for.
    pub fn begin(room: CopyRoom) -> IndexCopy
        ensures made { result ≡ copy_begun room }
        ensures bounded { copy_asks_left room (copy_begun room).copying ≤ 8 * (room.buckets + room.overflow) }
    {
        let places = room.places;
        let unbegun = Copying {
            bucket: 0,
            base: 0,
            links: places.overflow,
            step: CopyStep::Ended,
        };
        let copying = bucket_entered(&places, unbegun, 0);
        IndexCopy {
            places,
            copying,
            triples: room.triples,
        }
    }

    /// Goes on with the reply to its ask. At its end it stays where it is.
    #[inline]
    pub fn drive(&mut self, reply: u64) -> Ask<()>
        ensures next { self.new ≡ copy_after self.old reply }
        ensures ask { result ≡ copy_ask (copy_next self.old.places self.old.copying reply) }
        ensures asks { IsCounted (copy_asks_left self.new.places self.new.copying) result }
        ensures fewer { copy_asks_left self.new.places self.new.copying ≤ copy_asks_left self.old.places self.old.copying - 1 }
    {
        let triple = copied_at(self.copying, reply);
        self.triples.put(triple);
        self.copying = copy_next(&self.places, self.copying, reply);
        self.ask()
    }

    /// What it asks now.
    #[inline]
    #[tactic(auto, unfolding(crate::specs::Copying::copy_step_ask, crate::specs::Copying::step_asks_left))]
    pub fn ask(&self) -> Ask<()>
        ensures ask { result ≡ copy_ask self.now.copying }
        ensures asks { IsCounted (copy_asks_left self.now.places self.now.copying) result }
    {
        let c = self.copying;
        match c.step {
            CopyStep::Ended => Ask::Done(()),
            CopyStep::LoadsSlot(slot) => Ask::Load(c.base + slot),
            CopyStep::LoadsLink => Ask::Load(c.base + BUCKET_SLOTS),
        }
    }

    /// The place of the word that it loads, if it loads one.
    #[inline(always)]
    #[tactic(auto, unfolding(crate::specs::Copying::step_word_due))]
    pub fn word_due(&self) -> Option<usize>
        ensures { result ≡ copy_word_due self.now.copying }
    {
        let c = self.copying;
        match c.step {
            CopyStep::Ended => None,
            CopyStep::LoadsSlot(slot) => Some(c.base + slot),
            CopyStep::LoadsLink => Some(c.base + BUCKET_SLOTS),
        }
    }

    /// Whether it rests: its owner may do something else before it goes on. A store of more than 1,024 buckets, or of more than 1,024
    /// overflow buckets, is copied in parts, each of 1,024 of both together at most. Any other store is copied without a rest.
    #[tactic(auto, unfolding(crate::specs::Copying::step_rests))]
    pub fn rests(&self) -> bool
        ensures { result ≡ copy_rests self.now.places self.now.copying }
    {
        let c = self.copying;
        match c.step {
            CopyStep::LoadsSlot(slot) => {
                let behind = c.links + (self.places.buckets - (c.bucket + 1));
                slot == 0 && is_parted(&self.places) && (behind + 1) % MOST_AT_ONCE == 0
            }
            CopyStep::LoadsLink | CopyStep::Ended => false,
        }
    }

    /// How many triples were copied so far.
    pub fn triples(&self) -> u64
        ensures { result ≡ length self.now.triples }
    {
        self.triples.count() as u64
    }

    /// The bytes of the triples that were copied, for good.
    pub fn into_bytes(self) -> Vec<u8>
        ensures { result.items ≡ all_bytes self.triples }
    {
        self.triples.into_bytes()
    }

    /// The bytes of the triples that were copied so far.
    pub fn bytes(&self) -> &[u8]
        ensures { result.now ≡ all_bytes self.now.triples }
    {
        self.triples.bytes()
    }
}

/// Whether a store with these places is copied in parts.
fn is_parted(places: &Places) -> bool
    ensures { result ≡ is_parted places.now }
{
    places.buckets > MOST_AT_ONCE || places.overflow > MOST_AT_ONCE
}

/// What a reply gives to copy: the triple of an entry, where a slot was loaded that has one.
#[tactic(auto, unfolding(crate::specs::Copying::copied_at))]
fn copied_at(copying: Copying, reply: u64) -> Option<Triple>
    requires { copying.bucket < 2 ^ 32 }
    ensures { copied_list result ≡ copied_at copying copying.step reply }
{
    match copying.step {
        CopyStep::LoadsSlot(_) => slot_copied(copying.bucket, reply),
        CopyStep::LoadsLink | CopyStep::Ended => None,
    }
}

/// The triple of the entry that a slot of this bucket has, if it has one.
fn slot_copied(bucket: usize, word: u64) -> Option<Triple>
    requires { bucket < 2 ^ 32 }
    ensures { copied_list result ≡ slot_copied bucket word }
{
    let entry = Entry::unpack(word)?;
    Some(Triple {
        bucket: bucket as u32,
        tag: entry.tag,
        addr: entry.addr,
    })
}

/// Where the reply leads.
#[tactic(auto, unfolding(crate::specs::Copying::copy_step_next))]
fn copy_next(places: &Places, copying: Copying, reply: u64) -> Copying
    requires { IsCopyingInRange places.now copying }
    ensures next { result ≡ copy_next places.now copying reply }
    ensures range { IsCopyingInRange places.now result }
{
    match copying.step {
        CopyStep::Ended => copying,
        CopyStep::LoadsSlot(slot) => Copying {
            step: slot_after(slot),
            ..copying
        },
        CopyStep::LoadsLink => link_led(places, copying, reply & (1 << 48) - 1),
    }
}

/// The next slot, or the link behind the last.
fn slot_after(slot: usize) -> CopyStep
    requires { slot < bucket_slots }
    ensures { result ≡ slot_after slot }
{
    if slot + 1 < BUCKET_SLOTS {
        CopyStep::LoadsSlot(slot + 1)
    } else {
        CopyStep::LoadsLink
    }
}

/// The first slot of the overflow bucket that follows, or the next bucket.
fn link_led(places: &Places, copying: Copying, number: u64) -> Copying
    requires bucket { copying.bucket < places.now.buckets }
    requires base { copying.base < 2 ^ 32 }
    ensures { result ≡ link_led places.now copying number }
{
    if number > 0 && number <= places.overflow as u64 && copying.links > 0 {
        Copying {
            base: places.overflow(number as usize, 0),
            links: copying.links - 1,
            step: CopyStep::LoadsSlot(0),
            ..copying
        }
    } else {
        bucket_entered(places, copying, copying.bucket + 1)
    }
}

/// The first slot of a bucket, or the end.
fn bucket_entered(places: &Places, copying: Copying, bucket: usize) -> Copying
    ensures { result ≡ bucket_entered places.now copying bucket }
{
    if bucket < places.buckets {
        Copying {
            bucket,
            base: places.bucket(bucket, 0),
            step: CopyStep::LoadsSlot(0),
            ..copying
        }
    } else {
        Copying {
            step: CopyStep::Ended,
            ..copying
        }
    }
}
