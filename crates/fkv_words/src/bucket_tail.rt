//! The last word of a bucket.
ghost use Rattle.std.specs.Prelude.{◌≡◌, ◌<◌, ◌^◌};

use crate::fields::field;

/// Where a bucket goes on, and its latch.
#[derive(Clone, Copy, Debug, PartialEq, Eq)]
pub struct BucketTail {
    /// The number of the overflow bucket that follows, from 1, below 2^48; 0 where none does.
    pub overflow: u64,
    /// How many hold the latch together, below 2^15.
    pub shared: u16,
    /// Whether one holds it alone.
    pub exclusive: bool,
    pub ghost overflow_fits: { overflow < 2 ^ 48 },
    pub ghost shared_fits: { shared < 2 ^ 15 },
}

impl BucketTail {
    ghost use Rattle.fkv_words.specs.Layout.{tail_word};
    ghost use Rattle.fkv_words.specs.Fields.{Reads};

    /// The word of the tail.
    pub fn pack(self) -> u64
        ensures { result ≡ tail_word self }
    {
        self.overflow + (u64::from(self.shared) << 48) + (u64::from(self.exclusive) << 63)
    }

    /// The tail of which this is the word. Every word is one.
    pub fn unpack(word: u64) -> Option<BucketTail>
        ensures { Reads tail_word word result }
    {
        Some(BucketTail {
            overflow: field(word, 0, 48),
            shared: field(word, 48, 15) as u16,
            exclusive: field(word, 63, 1) == 1,
        })
    }
}
