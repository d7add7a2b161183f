//! Words that spell numbers.
ghost use Rattle.std.specs.Prelude.{◌≡◌};
ghost use Rattle.std.specs.Char.{is_ascii_digit};
ghost use Rattle.std.specs.List.{list_all};
ghost use Rattle.fkv_lines.specs.Reading.{texts};
ghost use Rattle.fkv_lines.specs.Numbers.{number_of, arguments_of};

use fkv_base::ScriptFault;
use std::str;

/// The number that a word of decimal digits spells, below 2^64; leading zeros are fine.
#[tactic(auto, unfolding(crate::specs::Numbers::number_of))]
pub(super) fn number_of(word: &[u8]) -> Result<u64, ScriptFault>
    ensures { result ≡ number_of word.now }
{
    // `parse` would take a sign too.
    if !are_digits(word) {
        return Err(ScriptFault::Number);
    }
    let Ok(digits) = str::from_utf8(word) else {
        return Err(ScriptFault::Number);
    };
    digits.parse().map_err(|_| ScriptFault::Number)
}

/// Whether each byte is a decimal digit.
fn are_digits(word: &[u8]) -> bool
    ensures { result ≡ list_all is_ascii_digit word.now }
{
    word.iter().all(|byte| byte.is_ascii_digit())
}

/// The numbers that the words spell, one for each, where there are so many words.
#[tactic(auto, unfolding(crate::specs::Numbers::arguments_of))]
pub(super) fn arguments_of<const N: usize>(words: &[&[u8]]) -> Result<[u64; N], ScriptFault>
    ensures { result ≡ arguments_of N (texts words.now) }
{
    if words.len() != N {
        return Err(ScriptFault::Count);
    }
    let mut numbers = [0; N];
    for (i, word) in words.iter().enumerate() {
        numbers[i] = number_of(word)?;
    }
    Ok(numbers)
}
