//! Where each shared word stands.
ghost use Rattle.std.specs.Prelude.{◌≡◌, ◌<◌, ◌≤◌, ◌+◌, ◌-◌, ◌*◌, ◌%◌, ◌^◌, ℕ};
ghost use Rattle.std.specs.Int.Bits.{bit_and};
ghost use Rattle.fkv_base.specs.Limits.{max_sessions, max_buckets, max_overflow, max_ring, drain_slots};

use fkv_base::{Addr, Shape};

/// The words that the store has once.
#[derive(Clone, Copy)]
pub enum SharedWord {
    Epoch,
    SafeEpoch,
    Phase,
    Tail,
    Limit,
    ReadOnly,
    SafeReadOnly,
    Flushed,
    Head,
    Closed,
    /// How many overflow buckets are taken.
    Taken,
}

/// The words of one session.
#[derive(Clone, Copy)]
pub enum SessionWord {
    /// The session's epoch, 0 where it is not protected.
    Epoch,
    EvenCut,
    OddCut,
    Owing,
    Durable,
    MailState,
    MailAddress,
    MailHeader,
    MailKey,
    MailValue,
}

/// The three words of a record in memory.
#[derive(Clone, Copy)]
pub enum RecordWord {
    Header,
    Key,
    Value,
}

/// What the places of a store depend on: how many it has of each.
#[derive(Clone, Copy, Debug, PartialEq, Eq)]
pub struct Places {
    pub sessions: usize,
    /// Buckets that are not overflow buckets.
    pub buckets: usize,
    pub overflow: usize,
    /// Records that all frames hold together, a power of two.
    pub ring: usize,
    /// The ring less one: an address masked by it is its place in the ring.
    pub ring_mask: usize,
    pub ghost few_sessions: { sessions ≤ max_sessions },
    pub ghost few_buckets: { buckets ≤ max_buckets },
    pub ghost few_overflow: { overflow ≤ max_overflow },
    pub ghost some_ring: { 0 < ring },
    pub ghost masks: { (a : ℕ) → bit_and a ring_mask ≡ a % ring },
    pub ghost small_ring: { ring ≤ max_ring },
}

impl SharedWord {
    ghost use Rattle.fkv_plane.specs.Places.{shared_place};

    /// The word's place, 0 to 10.
    #[inline(always)]
    pub fn place(self) -> usize
        ensures { result ≡ shared_place self }
    {
        match self {
            SharedWord::Epoch => 0,
            SharedWord::SafeEpoch => 1,
            SharedWord::Phase => 2,
            SharedWord::Tail => 3,
            SharedWord::Limit => 4,
            SharedWord::ReadOnly => 5,
            SharedWord::SafeReadOnly => 6,
            SharedWord::Flushed => 7,
            SharedWord::Head => 8,
            SharedWord::Closed => 9,
            SharedWord::Taken => 10,
        }
    }
}

impl SessionWord {
    ghost use Rattle.fkv_plane.specs.Places.{session_place, session_number};

    fn number(self) -> usize
        ensures { result ≡ session_number self }
    {
        match self {
            SessionWord::Epoch => 0,
            SessionWord::EvenCut => 1,
            SessionWord::OddCut => 2,
            SessionWord::Owing => 3,
            SessionWord::Durable => 4,
            SessionWord::MailState => 5,
            SessionWord::MailAddress => 6,
            SessionWord::MailHeader => 7,
            SessionWord::MailKey => 8,
            SessionWord::MailValue => 9,
        }
    }

    /// The place of the word in the block of this session.
    pub fn place(self, session: usize) -> usize
        requires { session < max_sessions }
        ensures { result ≡ session_place session self }
    {
        24 + 16 * session + self.number()
    }
}

impl RecordWord {
    ghost use Rattle.fkv_plane.specs.Places.{record_number};

    fn number(self) -> usize
        ensures { result ≡ record_number self }
    {
        match self {
            RecordWord::Header => 0,
            RecordWord::Key => 1,
            RecordWord::Value => 2,
        }
    }
}

/// The place of the word of a drain slot, 0 to 7.
pub fn drain_place(slot: usize) -> usize
    requires { slot < drain_slots }
    ensures { result ≡ 16 + slot }
{
    16 + slot
}

impl Places {
    ghost use Rattle.fkv_plane.specs.Places.{bucket_place, overflow_place, record_place, word_count};

    /// The places of a store of this shape.
    pub fn of(shape: &Shape) -> Places
        ensures sessions { result.sessions ≡ shape.now.sessions }
        ensures buckets { result.buckets ≡ 2 ^ shape.now.bucket_bits }
        ensures overflow { result.overflow ≡ shape.now.overflow }
        ensures ring { result.ring ≡ shape.now.frames * shape.now.page }
    {
        let ring = (shape.frames * shape.page) as usize;
        Places {
            sessions: shape.sessions as usize,
            buckets: 1 << shape.bucket_bits,
            overflow: shape.overflow as usize,
            ring,
            ring_mask: ring - 1,
        }
    }

    /// How many words the store has.
    pub fn word_count(&self) -> usize
        ensures { result ≡ word_count self.now }
    {
        self.frames_start() + 3 * self.ring
    }

    #[inline(always)]
    fn buckets_start(&self) -> usize
        ensures { result ≡ 24 + 16 * self.now.sessions }
    {
        24 + 16 * self.sessions
    }

    #[inline(always)]
    fn frames_start(&self) -> usize
        ensures { result ≡ 24 + 16 * self.now.sessions + 8 * (self.now.buckets + self.now.overflow) }
    {
        self.buckets_start() + 8 * (self.buckets + self.overflow)
    }

    /// The place of one of the eight words of a bucket.
    #[inline(always)]
    pub fn bucket(&self, bucket: usize, word: usize) -> usize
        requires bucket { bucket < self.now.buckets }
        requires word { word < 8 }
        ensures { result ≡ bucket_place self.now bucket word }
    {
        self.buckets_start() + 8 * bucket + word
    }

    /// The place of one of the eight words of an overflow bucket, which are numbered from 1.
    #[inline(always)]
    pub fn overflow(&self, number: usize, word: usize) -> usize
        requires some { 1 ≤ number }
        requires number { number ≤ self.now.overflow }
        requires word { word < 8 }
        ensures { result ≡ overflow_place self.now number word }
    {
        self.buckets_start() + 8 * (self.buckets + (number - 1)) + word
    }

    /// The place of a word of the record at this address, which it shares with each address that is a multiple of the
    /// ring away.
    #[inline(always)]
    pub fn record(&self, addr: Addr, word: RecordWord) -> usize
        ensures { result ≡ record_place self.now addr.0 word }
    {
        self.frames_start() + 3 * (addr.0 as usize & self.ring_mask) + word.number()
    }
}
