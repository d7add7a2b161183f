//! Fields of a word.
ghost use Rattle.std.specs.Prelude.{◌≡◌, ◌<◌, ◌≤◌, ◌^◌};
ghost use Rattle.fkv_words.specs.Fields.{field_of};

/// The number in the `len` bits of the word from bit `at` on.
pub(crate) fn field(word: u64, at: u32, len: u32) -> u64
    requires starts { at < 64 }
    requires short { len < 64 }
    ensures { result ≡ field_of word at len }
{
    (word >> at) & ((1 << len) - 1)
}
