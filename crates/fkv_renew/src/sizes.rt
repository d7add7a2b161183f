//! The sizes of a new store.
ghost use Rattle.std.specs.Prelude.{◌≡◌, ℕ, None};
ghost use Rattle.fkv_renew.specs.Said as said;

use fkv_base::{Fault, Shape, StoreClass};
use fkv_lines::Sizes;

/// The sizes that seven words spell, for a store of this class.
pub(crate) fn read_sizes(class: StoreClass, words: &[&str]) -> Option<Sizes>
    ensures some { said.IfSome result (said.AreSizesOf class (said.texts words.now)) }
    ensures none { result ≡ None → (sizes : said.TheSizes) → said.AreSizesOf class (said.texts words.now) sizes → ⊥ }
{
    let [
        bucket_bits,
        page,
        frames,
        mutable,
        sessions,
        overflow,
        disk_pages,
    ] = words
    else {
        return None;
    };
    Some(Sizes {
        class,
        bucket_bits: number_of(bucket_bits)?,
        page: number_of(page)?,
        frames: number_of(frames)?,
        mutable: number_of(mutable)?,
        sessions: number_of(sessions)?,
        overflow: number_of(overflow)?,
        disk_pages: number_of(disk_pages)?,
    })
}

/// The number below 2^64 that a word spells.
fn number_of(word: &str) -> Option<u64>
    ensures some { said.IfSome result (said.Spells word.now) }
    ensures none { result ≡ None → (number : ℕ) → said.Spells word.now number → ⊥ }
{
    match word.parse::<u64>() {
        Ok(number) => Some(number),
        Err(_) => None,
    }
}

/// The shape of these sizes, or `BadShape` where no store of their class has them.
pub(crate) fn shape_of(sizes: Sizes) -> Result<Shape, Fault>
    ensures sized { said.IfOk result (said.HasSizes sizes) }
    ensures refused { said.IfErr result (λ fault. (¬ (said.AreSizes sizes)) × (fault ≡ said.BadShape)) }
{
    match sizes.class {
        StoreClass::Specified => Shape::new(
            sizes.bucket_bits,
            sizes.page,
            sizes.frames,
            sizes.mutable,
            sizes.sessions,
            sizes.overflow,
            sizes.disk_pages,
        ),
        StoreClass::Living => Shape::large(
            sizes.bucket_bits,
            sizes.page,
            sizes.frames,
            sizes.mutable,
            sizes.sessions,
            sizes.overflow,
            sizes.disk_pages,
        ),
    }
}
