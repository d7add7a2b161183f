//! The block that begins an image.
ghost use Rattle.std.specs.Prelude.{◌≡◌};
ghost use Rattle.std.specs.Int.{w64, from_le_bytes};
ghost use Rattle.fkv_words.specs.Fields.{Reads};
ghost use Rattle.fkv_record.specs.Layout.{shape_bytes, shape_text};

use crate::numbers::{numbers, spell};
use fkv_base::{Shape, StoreClass};

/// The text that begins the image of a specified store.
const SPECIFIED_TEXT: [u8; 8] = *b"FKVSTOR1";
/// The text that begins the image of a living store.
const LIVING_TEXT: [u8; 8] = *b"FKVSTOR2";

/// The shape that the bytes spell, if they spell one: the text of a class, and seven sizes of eight bytes that a store
/// of this class may have.
pub fn read_shape(bytes: &[u8; 64]) -> Option<Shape>
    ensures { Reads shape_bytes bytes.now result }
{
    let [
        text,
        bucket_bits,
        page,
        frames,
        mutable,
        sessions,
        overflow,
        disk_pages,
    ] = numbers::<8>(bytes);
    if text == u64::from_le_bytes(SPECIFIED_TEXT) {
        return Shape::new(
            bucket_bits,
            page,
            frames,
            mutable,
            sessions,
            overflow,
            disk_pages,
        )
        .ok();
    }
    if text == u64::from_le_bytes(LIVING_TEXT) {
        return Shape::large(
            bucket_bits,
            page,
            frames,
            mutable,
            sessions,
            overflow,
            disk_pages,
        )
        .ok();
    }
    None
}

/// The bytes of the shape.
#[tactic(auto, unfolding(crate::specs::Layout::shape_bytes))]
pub fn write_shape(shape: Shape) -> [u8; 64]
    ensures { result ≡ shape_bytes shape }
{
    spell(&[
        text_of(shape),
        shape.bucket_bits,
        shape.page,
        shape.frames,
        shape.mutable,
        shape.sessions,
        shape.overflow,
        shape.disk_pages,
    ])
}

/// The text that begins the image of a store of this shape, as one number.
fn text_of(shape: Shape) -> u64
    ensures { result ≡ from_le_bytes w64 (shape_text shape) }
{
    match shape.class {
        StoreClass::Specified => u64::from_le_bytes(SPECIFIED_TEXT),
        StoreClass::Living => u64::from_le_bytes(LIVING_TEXT),
    }
}
