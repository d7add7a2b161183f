//! What a session asks, and what it is told.
ghost use Rattle.std.specs.Prelude.{◌≡◌, ◌↔◌, IsTrue};
ghost use Rattle.fkv_map.specs.Map.{IsReserved, is_reserved, sum_with, greater_with};
ghost use Rattle.fkv_map.specs.Keys.{key_of, value_applied, reply_from, as_number};

use crate::merges::Merge;
use fkv_base::{Key, Value};

/// An operation on one key. The numbers of `Upsert`, `Add`, `Max` and `Merge` are 0 to 2^64 - 2.
#[derive(Clone, Copy, Debug, PartialEq, Eq)]
pub enum Op {
    /// Gives the key this value.
    Upsert(Key, Value),
    /// Takes the key's value away.
    Delete(Key),
    /// Adds to the key's value, up to 2^64 - 2. A key with no value gets the number.
    Add(Key, u64),
    /// Raises the key's value to the number. A key with no value gets the number.
    Max(Key, u64),
    /// Asks for the key's value, and changes nothing.
    Read(Key),
    /// Merges the number into the key's value.
    Merge(Key, Merge, u64),
}

/// A call of a session.
#[derive(Clone, Copy, Debug, PartialEq, Eq)]
pub enum Call {
    Op(Op),
    Refresh,
    Poll,
    Sleep,
    Wake,
    Durable,
}

/// The reply to an operation.
#[derive(Clone, Copy, Debug, PartialEq, Eq)]
pub enum Reply {
    /// An upsert or a delete is done.
    Nothing,
    /// The value that an add, a max or a merge left.
    Number(Value),
    /// The value that a read found, or a keep.
    Found(Value),
    /// A read found no value, or a keep did.
    Absent,
}

impl Op {
    /// Whether the operation brings 2^64 - 1, which is no value. Such an operation is refused.
    #[inline(always)]
    pub fn is_reserved(self) -> bool
        ensures reserved { IsTrue result ↔ IsReserved self }
        ensures tested { result ≡ is_reserved self }
    {
        match self {
            Op::Upsert(_, value) => value.0 == Value::ABSENT,
            Op::Add(_, n) | Op::Max(_, n) => n == Value::ABSENT,
            Op::Delete(_) | Op::Read(_) => false,
            Op::Merge(_, merge, n) => merge.takes_number() && n == Value::ABSENT,
        }
    }

    /// The key that the operation is on.
    #[inline(always)]
    pub fn key(self) -> Key
        ensures { result ≡ key_of self }
    {
        match self {
            Op::Upsert(key, _)
            | Op::Delete(key)
            | Op::Add(key, _)
            | Op::Max(key, _)
            | Op::Read(key)
            | Op::Merge(key, _, _) => key,
        }
    }

    /// What the operation makes of its key's value.
    #[inline(always)]
    pub fn value_applied(self, old: Option<Value>) -> Option<Value>
        ensures { as_number result ≡ value_applied (as_number old) self }
    {
        match self {
            Op::Upsert(_, value) => Some(value),
            Op::Delete(_) => None,
            Op::Add(_, n) => Some(sum_with(old, n)),
            Op::Max(_, n) => Some(greater_with(old, n)),
            Op::Read(_) => old,
            Op::Merge(_, merge, n) => merge.value_merged(old, n),
        }
    }

    /// What the operation replies where its key has this value.
    #[inline(always)]
    pub fn reply_from(self, old: Option<Value>) -> Reply
        ensures { result ≡ reply_from (as_number old) self }
    {
        match self {
            Op::Upsert(_, _) | Op::Delete(_) => Reply::Nothing,
            Op::Add(_, n) => Reply::Number(sum_with(old, n)),
            Op::Max(_, n) => Reply::Number(greater_with(old, n)),
            Op::Read(_) => Reply::of_read(old),
            Op::Merge(_, merge, n) => merge.reply_from(old, n),
        }
    }
}

impl Reply {
    ghost use Rattle.fkv_map.specs.Map.{reply_to_read};

    /// What a read replies of a key that has this value.
    pub(crate) fn of_read(value: Option<Value>) -> Reply
        ensures { result ≡ reply_to_read (as_number value) }
    {
        match value {
            Some(value) => Reply::Found(value),
            None => Reply::Absent,
        }
    }
}

/// The value with the number added to it, up to the greatest value; where there was none, the number.
#[inline(always)]
pub(crate) fn sum_with(old: Option<Value>, n: u64) -> Value
    ensures { result.0 ≡ sum_with (as_number old) n }
{
    match old {
        Some(old) => Value(old.0.saturating_add(n).min(Value::ABSENT - 1)),
        None => Value(n),
    }
}

/// The greater of the value and the number; where there was none, the number.
#[inline(always)]
pub(crate) fn greater_with(old: Option<Value>, n: u64) -> Value
    ensures { result.0 ≡ greater_with (as_number old) n }
{
    match old {
        Some(old) => Value(old.0.max(n)),
        None => Value(n),
    }
}
