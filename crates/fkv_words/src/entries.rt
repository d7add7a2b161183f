//! The word of a home in the index.
ghost use Rattle.std.specs.Prelude.{◌≡◌, ◌<◌, ◌^◌};

use crate::fields::field;
use fkv_base::Addr;

/// Where the chain of a home begins. The word 0 is an empty slot, and no entry.
#[derive(Clone, Copy, Debug, PartialEq, Eq)]
pub struct Entry {
    /// The address of the newest record of the home, 1 to 2^48 - 1.
    pub addr: Addr,
    /// The tag of the home, below 2^15.
    pub tag: u16,
    pub ghost some_addr: { 0 < addr.0 },
    pub ghost addr_fits: { addr.0 < 2 ^ 48 },
    pub ghost tag_fits: { tag < 2 ^ 15 },
}

impl Entry {
    ghost use Rattle.fkv_words.specs.Layout.{entry_word};
    ghost use Rattle.fkv_words.specs.Fields.{Reads};

    /// The word of the entry.
    pub fn pack(self) -> u64
        ensures { result ≡ entry_word self }
    {
        self.addr.0 + (u64::from(self.tag) << 48)
    }

    /// The entry of which this is the word, if it is one.
    pub fn unpack(word: u64) -> Option<Entry>
        ensures { Reads entry_word word result }
    {
        let addr = field(word, 0, 48);
        if addr == 0 || field(word, 63, 1) != 0 {
            return None;
        }
        Some(Entry {
            addr: Addr(addr),
            tag: field(word, 48, 15) as u16,
        })
    }
}
