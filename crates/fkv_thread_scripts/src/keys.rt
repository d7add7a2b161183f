//! The line of keys in a report.
ghost use Rattle.std.specs.Prelude.{◌≡◌, nat_eq, Err, IfOk, OnErr, OnOk};
ghost use Rattle.std.specs.BTreeMap.{IsOrdered};
ghost use Rattle.std.specs.FinMap.{get};
ghost use Rattle.std.specs.Option.{option_eq};
ghost use Rattle.std.specs.Ordering.{nat_cmp};
ghost use Rattle.fkv_base.specs.declared.faults.Fault.TheVariants.{Memory};
ghost use Rattle.fkv_map.specs.Keys.{as_number};
ghost use Rattle.fkv_thread_scripts.specs.Claims.{IsLineOfClaims};
ghost use Rattle.fkv_thread_scripts.specs.Keys.{IsKeysLine};

use crate::claims::{Claim, claims_of};
use crate::maps::value_in;
use crate::reports::Keys;
use fkv_base::{Fault, Key, Value};
use fkv_lines::Line;
use fkv_map::PlainMap;
use std::alloc::Global;
use std::collections::BTreeMap;

/// Compares each key of these lines that is to be compared.
pub(crate) fn keys_line(
    alloc: Global,
    lines: &[Line],
    told: PlainMap,
    stored: PlainMap,
) -> Result<Keys, Fault>
    ensures ok { IfOk result (IsKeysLine lines.now told stored) }
    ensures err { OnErr result (result ≡ Err Memory) }
{
    let claims = claims_of(alloc, lines)?;
    compare(&claims, told, stored)
}

fn compare(claims: &BTreeMap<u64, Claim>, told: PlainMap, stored: PlainMap) -> Result<Keys, Fault>
    ensures line { IfOk result (IsLineOfClaims claims.now.entries told stored) }
    ensures ordered { IsOrdered nat_cmp claims.now }
    ensures err { OnErr result (result ≡ Err Memory) }
{
    let (mut told, mut stored) = (told, stored);
    let most = claims.len();
    let mut count: u64 = 0;
    for (key, claim) in claims {
        if claim.is_compared() {
            if !are_same(&mut told, &mut stored, Key(*key))? {
                return Ok(Keys::Differs(Key(*key)));
            }
            count = count.saturating_add(1);
        }
    }
    Ok(Keys::Agree(count))
}

/// Whether two maps have the same value of a key.
fn are_same(told: &mut PlainMap, stored: &mut PlainMap, key: Key) -> Result<bool, Fault>
    ensures told { OnOk result (told.new ≡ told.old) }
    ensures stored { OnOk result (stored.new ≡ stored.old) }
    ensures same { IfOk result (λ same. same ≡ option_eq nat_eq (get stored.old key.0) (get told.old key.0)) }
    ensures err { OnErr result (result ≡ Err Memory) }
{
    let its = value_in(stored, key)?;
    let other = value_in(told, key)?;
    Ok(is_value(its, other))
}

fn is_value(its: Option<Value>, other: Option<Value>) -> bool
    ensures { result ≡ option_eq nat_eq (as_number its) (as_number other) }
{
    match (its, other) {
        (Some(its), Some(other)) => its.0 == other.0,
        (None, None) => true,
        _ => false,
    }
}
