//! What the word of a record's header says.
ghost use Rattle.std.specs.Prelude.{◌≡◌};
ghost use Rattle.fkv_ops.specs.HeaderWords.{header_said};

use fkv_base::{Addr, Version};
use fkv_words::Header;

/// What a header's word says.
#[derive(Clone, Copy)]
pub enum HeaderSaid {
    /// The record before it in its chain, and the version that wrote it.
    Says(Addr, Version),
    /// No header: no store writes such a word.
    Spoiled,
}

/// What this word says as a header.
pub fn header_said(word: u64) -> HeaderSaid
    ensures { result ≡ header_said word }
{
    match Header::unpack(word) {
        Some(header) => HeaderSaid::Says(header.previous, header.version),
        None => HeaderSaid::Spoiled,
    }
}
