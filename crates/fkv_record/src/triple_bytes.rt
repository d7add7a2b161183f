//! The bytes of a triple.
ghost use Rattle.std.specs.Prelude.{◌≡◌};
ghost use Rattle.fkv_words.specs.Fields.{Reads};
ghost use Rattle.fkv_record.specs.Layout.{triple_bytes};

use crate::numbers::{numbers, spell};
use crate::triples::Triple;
use fkv_base::Addr;

/// The triple that the bytes spell, if they spell one: four bytes of bucket, two of tag, two that are zero, eight of
/// address. They spell none where those two are not zero, the tag is 2^15 or more, or the address is 0 or is 2^48 or more.
pub fn read_triple(bytes: &[u8; 16]) -> Option<Triple>
    ensures { Reads triple_bytes bytes.now result }
{
    let [home, addr] = numbers::<2>(bytes);
    let tag = home >> 32;
    if tag >= 1 << 15 || addr == 0 || addr >= 1 << 48 {
        return None;
    }
    Some(Triple {
        bucket: (home & 0xffff_ffff) as u32,
        tag: tag as u16,
        addr: Addr(addr),
    })
}

/// The bytes of the triple.
#[tactic(auto, unfolding(crate::specs::Layout::triple_bytes))]
pub fn write_triple(triple: Triple) -> [u8; 16]
    ensures { result ≡ triple_bytes triple }
{
    let home = u64::from(triple.bucket) + (u64::from(triple.tag) << 32);
    spell(&[home, triple.addr.0])
}
