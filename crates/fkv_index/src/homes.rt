//! Where a key belongs in the index.
ghost use Rattle.std.specs.Prelude.{◌≡◌, ◌≤◌};
ghost use Rattle.fkv_base.specs.Limits.{max_bucket_bits};
ghost use Rattle.fkv_words.specs.Home.{bucket_of, tag_of};
ghost use Rattle.fkv_index.specs.Slots.{home_of};

use fkv_base::Key;
use fkv_words::{bucket_of, tag_of};

/// A bucket and a tag.
#[derive(Clone, Copy, Debug, PartialEq, Eq)]
pub struct Home {
    pub bucket: usize,
    pub tag: u16,
}

/// The home of the key where the index has 2^bits buckets.
#[inline(always)]
pub fn home_of(key: Key, bits: u64) -> Home
    ensures home { result ≡ home_of bits key }
    ensures bucket { result.bucket ≡ bucket_of key bits }
    ensures tag { result.tag ≡ tag_of key bits }
{
    Home {
        bucket: bucket_of(key, bits) as usize,
        tag: tag_of(key, bits),
    }
}
