//! The word of a value.
ghost use Rattle.std.specs.Prelude.{◌≡◌};
ghost use Rattle.fkv_map.specs.Keys.{as_number};
ghost use Rattle.fkv_ops.specs.Values.{value_of, word_of};

use fkv_base::Value;

/// The value that a record's word stands for, `None` where it says that the key has none.
#[inline(always)]
pub fn value_of_word(word: u64) -> Option<Value>
    ensures { as_number result ≡ value_of word }
{
    if word == Value::ABSENT {
        None
    } else {
        Some(Value(word))
    }
}

/// The word that stands for the value in a record.
#[inline(always)]
pub fn word_of_value(value: Option<Value>) -> u64
    ensures { result ≡ word_of (as_number value) }
{
    match value {
        Some(value) => value.0,
        None => Value::ABSENT,
    }
}
