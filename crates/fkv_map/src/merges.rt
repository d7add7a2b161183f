//! Updates that merge a number into a key's value.
ghost use Rattle.std.specs.Prelude.{◌≡◌};
ghost use Rattle.fkv_map.specs.Map.{takes_number, merged, merge_reply, less_with, rest_without, bits_in_both, bits_in_either, first_of};
ghost use Rattle.fkv_map.specs.Keys.{as_number};

use crate::operations::Reply;
use fkv_base::Value;

/// What an update makes of its key's value and its number, where `Op::Add` and `Op::Max` don't serve.
#[derive(Clone, Copy, Debug, PartialEq, Eq)]
pub enum Merge {
    /// Leaves the value as it is, and replies what a read would. The number is not looked at.
    Keep,
    /// Lowers the value to the number. A key with no value gets the number.
    Min,
    /// Takes the number from the value, down to 0. A key with no value gets 0.
    Sub,
    /// Leaves the bits that both have. A key with no value gets 0.
    And,
    /// Leaves the bits that either has, and 2^64 - 2 where these are all. A key with no value gets the number.
    Or,
    /// Gives the number to a key with no value, and leaves another as it is.
    First,
}

impl Merge {
    /// Whether the merge looks at its number.
    pub fn takes_number(self) -> bool
        ensures { result ≡ takes_number self }
    {
        !matches!(self, Merge::Keep)
    }

    /// What the merge makes of its key's value.
    pub(crate) fn value_merged(self, old: Option<Value>, n: u64) -> Option<Value>
        ensures { as_number result ≡ merged self (as_number old) n }
    {
        match self {
            Merge::Keep => old,
            Merge::Min => Some(less_with(old, n)),
            Merge::Sub => Some(rest_without(old, n)),
            Merge::And => Some(bits_in_both(old, n)),
            Merge::Or => Some(bits_in_either(old, n)),
            Merge::First => Some(first_of(old, n)),
        }
    }

    /// What the merge replies where its key has this value.
    pub(crate) fn reply_from(self, old: Option<Value>, n: u64) -> Reply
        ensures { result ≡ merge_reply self (as_number old) n }
    {
        match self {
            Merge::Keep => Reply::of_read(old),
            Merge::Min => Reply::Number(less_with(old, n)),
            Merge::Sub => Reply::Number(rest_without(old, n)),
            Merge::And => Reply::Number(bits_in_both(old, n)),
            Merge::Or => Reply::Number(bits_in_either(old, n)),
            Merge::First => Reply::Number(first_of(old, n)),
        }
    }
}

/// The less of the value and the number; where there was none, the number.
fn less_with(old: Option<Value>, n: u64) -> Value
    ensures { result.0 ≡ less_with (as_number old) n }
{
    match old {
        Some(old) => Value(old.0.min(n)),
        None => Value(n),
    }
}

/// The value without the number, from 0 to the greatest value; where there was none, 0.
fn rest_without(old: Option<Value>, n: u64) -> Value
    ensures { result.0 ≡ rest_without (as_number old) n }
{
    match old {
        Some(old) => Value(old.0.saturating_sub(n).min(Value::ABSENT - 1)),
        None => Value(0),
    }
}

/// The bits that the value and the number both have, up to the greatest value; where there was no value, none.
fn bits_in_both(old: Option<Value>, n: u64) -> Value
    ensures { result.0 ≡ bits_in_both (as_number old) n }
{
    match old {
        Some(old) => Value((old.0 & n).min(Value::ABSENT - 1)),
        None => Value(0),
    }
}

/// The bits that the value or the number has, up to the greatest value; where there was none, the number.
fn bits_in_either(old: Option<Value>, n: u64) -> Value
    ensures { result.0 ≡ bits_in_either (as_number old) n }
{
    match old {
        Some(old) => Value((old.0 | n).min(Value::ABSENT - 1)),
        None => Value(n),
    }
}

/// The value; where there was none, the number.
fn first_of(old: Option<Value>, n: u64) -> Value
    ensures { result.0 ≡ first_of (as_number old) n }
{
    match old {
        Some(old) => old,
        None => Value(n),
    }
}
