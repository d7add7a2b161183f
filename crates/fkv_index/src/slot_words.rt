//! What the word of a bucket slot says.
ghost use Rattle.std.specs.Prelude.{◌≡◌};
ghost use Rattle.fkv_index.specs.Slots.{slot_word};

use fkv_words::Entry;

/// What a slot has.
#[derive(Clone, Copy)]
pub enum SlotWord {
    Empty,
    /// An entry of this tag.
    Tagged(u16),
    /// No entry: no store writes such a word.
    Spoiled,
}

/// What a slot with this word has.
pub fn slot_word(word: u64) -> SlotWord
    ensures { result ≡ slot_word word }
{
    if word == 0 {
        return SlotWord::Empty;
    }
    match Entry::unpack(word) {
        Some(entry) => SlotWord::Tagged(entry.tag),
        None => SlotWord::Spoiled,
    }
}
