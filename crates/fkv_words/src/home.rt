//! The home of a key in the index.
ghost use Rattle.std.specs.Prelude.{◌≡◌};
ghost use Rattle.fkv_words.specs.Home.{bucket_of, tag_of};

use crate::fields::field;
use fkv_base::Key;

/// The bucket of the key where the index has 2^bits buckets. A shape has few enough; with 64 or more each key has a
/// bucket of its own.
#[inline(always)]
pub fn bucket_of(key: Key, bits: u64) -> u64
    ensures { result ≡ bucket_of key bits }
{
    if bits >= 64 {
        return key.0;
    }
    field(key.0, 0, bits as u32)
}

/// The tag of the key, below 2^15, where the index has 2^bits buckets. A shape has few enough; with 64 or more each
/// tag is 0.
#[inline(always)]
pub fn tag_of(key: Key, bits: u64) -> u16
    ensures { result ≡ tag_of key bits }
{
    if bits >= 64 {
        return 0;
    }
    field(key.0, bits as u32, 15) as u16
}
