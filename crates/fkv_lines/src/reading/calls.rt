//! The calls of a session, by their verbs.
ghost use Rattle.std.specs.Prelude.{◌≡◌};
ghost use Rattle.fkv_lines.specs.Reading.{texts};
ghost use Rattle.fkv_lines.specs.Calls.{alone, call_of, operation_of, merge_of};

use crate::reading::numbers::arguments_of;
use crate::scripts::Opening;
use fkv_base::{Key, ScriptFault, Value};
use fkv_map::{Call, Merge, Op};

/// What a line says that no further word may follow.
pub(super) fn alone<T: Drop>(words: &[&[u8]], said: T) -> Result<T, ScriptFault>
    ensures { result ≡ alone (texts words.now) said }
{
    if words.is_empty() {
        Ok(said)
    } else {
        Err(ScriptFault::Count)
    }
}

/// The call that a verb and the words behind it name, where this line opened the store.
#[tactic(auto, unfolding(crate::specs::Calls::call_of))]
pub(super) fn call_of(opening: Opening, verb: &[u8], words: &[&[u8]]) -> Result<Call, ScriptFault>
    ensures { result ≡ call_of opening verb.now (texts words.now) }
{
    let call = if verb == b"refresh".as_slice() {
        Call::Refresh
    } else if verb == b"poll".as_slice() {
        Call::Poll
    } else if verb == b"sleep".as_slice() {
        Call::Sleep
    } else if verb == b"wake".as_slice() {
        Call::Wake
    } else {
        return Ok(Call::Op(operation_of(opening, verb, words)?));
    };
    alone(words, call)
}

/// The operation that a verb and its numbers name, where this line opened the store.
#[tactic(auto, unfolding(crate::specs::Calls::operation_of))]
fn operation_of(opening: Opening, verb: &[u8], words: &[&[u8]]) -> Result<Op, ScriptFault>
    ensures { result ≡ operation_of opening verb.now (texts words.now) }
{
    match verb {
        b"up" => {
            let [key, value] = arguments_of::<2>(words)?;
            Ok(Op::Upsert(Key(key), Value(value)))
        }
        b"add" => {
            let [key, n] = arguments_of::<2>(words)?;
            Ok(Op::Add(Key(key), n))
        }
        b"max" => {
            let [key, n] = arguments_of::<2>(words)?;
            Ok(Op::Max(Key(key), n))
        }
        b"del" => {
            let [key] = arguments_of::<1>(words)?;
            Ok(Op::Delete(Key(key)))
        }
        b"get" => {
            let [key] = arguments_of::<1>(words)?;
            Ok(Op::Read(Key(key)))
        }
        _ if opening.opens_living() => merge_of(verb, words),
        _ => Err(ScriptFault::Word),
    }
}

/// The merge that a verb and its numbers name. A `keep` has no number but its key's.
#[tactic(auto, unfolding(crate::specs::Calls::merge_of))]
fn merge_of(verb: &[u8], words: &[&[u8]]) -> Result<Op, ScriptFault>
    ensures { result ≡ merge_of verb.now (texts words.now) }
{
    let which = match verb {
        b"keep" => {
            let [key] = arguments_of::<1>(words)?;
            return Ok(Op::Merge(Key(key), Merge::Keep, 0));
        }
        b"min" => Merge::Min,
        b"sub" => Merge::Sub,
        b"and" => Merge::And,
        b"or" => Merge::Or,
        b"first" => Merge::First,
        _ => return Err(ScriptFault::Word),
    };
    let [key, n] = arguments_of::<2>(words)?;
    Ok(Op::Merge(Key(key), which, n))
}
