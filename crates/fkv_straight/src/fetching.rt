//! Where the words stand that a straight call of a key begins with, so that a caller may load their cache lines before.
ghost use Rattle.std.specs.Prelude.{◌≡◌, ◌<◌, ◌≤◌, ◌+◌, ◌^◌, IfSome};
ghost use Rattle.fkv_index.specs.Slots.{home_of};
ghost use Rattle.fkv_plane.specs.Places.{bucket_place};
ghost use Rattle.fkv_straight.specs.Fetching.{record_led_to};

use crate::going::Going;
use crate::words::addr_of;
use fkv_base::{Addr, Key};
use fkv_plane::RecordWord;

/// Where the search for a key's entry begins.
#[derive(Clone, Copy)]
pub struct Start {
    /// The place of the first of the eight words of the key's bucket.
    pub bucket: usize,
    /// What the word of the key's entry has above its low 48 bits.
    pub tag: u64,
}

/// A tag has fifteen bits.
const TAG_MASK: u64 = (1 << 15) - 1;

impl Going {
    /// Where the search for the key's entry begins.
    #[inline(always)]
    pub fn start(&self, key: Key) -> Start
        ensures bucket { result.bucket ≡ bucket_place self.now.places (home_of self.now.bits key).bucket 0 }
        ensures tag { result.tag ≡ (home_of self.now.bits key).tag }
        ensures fits { result.bucket + 8 ≤ 2 ^ 62 }
    {
        let bucket = self.first_bucket + 8 * (key.0 & self.bucket_mask) as usize;
        let tag = (key.0 >> self.bits) & TAG_MASK;
        Start { bucket, tag }
    }

    /// The place of the header of the record to which the word of a slot leads, if the word has this tag and the record's address lies in
    /// memory.
    #[inline(always)]
    #[tactic(auto, unfolding(crate::specs::Fetching::record_led_to))]
    pub fn record_led_to(&self, tag: u64, word: u64) -> Option<usize>
        ensures place { result ≡ record_led_to self.now tag word }
        ensures fits { IfSome result (λ place. place + 2 < 2 ^ 62) }
    {
        if word >> 48 != tag {
            return None;
        }
        let addr = addr_of(word);
        let is_here = self.is_in_memory(addr);
        if !is_here {
            return None;
        }
        let header = self.record(Addr(addr), RecordWord::Header);
        Some(header)
    }
}
