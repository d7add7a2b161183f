//! The pairs that gathered values show.
ghost use Rattle.std.specs.Prelude.{◌≡◌, IfOk, OnErr, Err};
ghost use Rattle.fkv_base.specs.declared.faults.Fault.TheVariants.{Memory};
ghost use Rattle.fkv_pairs.specs.Gathered.{AreShown};

use fkv_base::{Fault, Key, Value};
use std::alloc::Global;
use std::collections::BTreeMap;

/// The keys with their values, ascending, without those whose value is the word of none.
pub(crate) fn present(
    alloc: Global,
    values: &BTreeMap<u64, u64>,
) -> Result<Vec<(Key, Value)>, Fault>
    ensures ok { IfOk result (λ pairs. AreShown values.now pairs.items) }
    ensures err { OnErr result (result ≡ Err Memory) }
{
    let mut pairs = Vec::with_capacity(alloc, values.len())?;
    for (key, value) in values {
        if *value != Value::ABSENT {
            pairs.push((Key(*key), Value(*value)))?;
        }
    }
    Ok(pairs)
}
