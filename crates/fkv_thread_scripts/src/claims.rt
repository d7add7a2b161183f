//! Which keys of a script are compared behind its run.
ghost use Rattle.std.specs.Prelude.{◌≡◌, ◌∷◌, [], ◌||◌, ◌&&◌, nat_lt, Some, Err, IfOk, OnErr, OnOk};
ghost use Rattle.std.specs.BTreeMap.{get};
ghost use Rattle.std.specs.Ordering.{nat_cmp};
ghost use Rattle.fkv_base.specs.declared.faults.Fault.TheVariants.{Memory};
ghost use Rattle.fkv_map.specs.Map.{absent_word};
ghost use Rattle.fkv_thread_scripts.specs.Claims.{AreClaimed, AreClaims, claim_with};
ghost use Rattle.fkv_thread_scripts.specs.Keys.{update_in_line, updates_of};

use fkv_base::{Fault, Value};
use fkv_lines::Line;
use fkv_map::{Call, Op};
use std::alloc::Global;
use std::collections::BTreeMap;

/// Who updates a key in a script.
#[derive(Clone, Copy)]
pub(crate) struct Claim {
    session: u64,
    is_alone: bool,
    only_adds: bool,
    sum: u64,
}

impl Claim {
    /// Whether one session alone updates the key, or sums whose order doesn't tell.
    pub(crate) fn is_compared(&self) -> bool
        ensures { result ≡ (self.now.is_alone || (self.now.only_adds && nat_lt self.now.sum absent_word)) }
    {
        let Claim {
            is_alone,
            only_adds,
            sum,
            ..
        } = self;
        *is_alone || (*only_adds && *sum < Value::ABSENT)
    }
}

/// Each key that a line updates, with who updates it.
pub(crate) fn claims_of(alloc: Global, lines: &[Line]) -> Result<BTreeMap<u64, Claim>, Fault>
    ensures ok { IfOk result (λ claims. AreClaims (get nat_cmp claims) (updates_of lines.now)) }
    ensures err { OnErr result (result ≡ Err Memory) }
{
    let mut claims = BTreeMap::new(alloc);
    for line in lines {
        claim_line(&mut claims, *line)?;
    }
    Ok(claims)
}

fn claim_line(claims: &mut BTreeMap<u64, Claim>, line: Line) -> Result<(), Fault>
    ensures ok { OnOk result (AreClaimed (get nat_cmp claims.old) (get nat_cmp claims.new) (update_in_line line)) }
    ensures err { OnErr result (result ≡ Err Memory) }
{
    match line {
        Line::Call(_, Call::Op(Op::Read(_))) => Ok(()),
        Line::Call(session, Call::Op(op)) => claim_key(claims, session, op),
        _ => Ok(()),
    }
}

fn claim_key(claims: &mut BTreeMap<u64, Claim>, session: u64, op: Op) -> Result<(), Fault>
    ensures ok { OnOk result (AreClaimed (get nat_cmp claims.old) (get nat_cmp claims.new) (record { session = session; op = op } ∷ [])) }
    ensures err { OnErr result (result ≡ Err Memory) }
{
    let key = op.key().0;
    let its = claim_behind(claims.get(&key).copied(), session, op);
    claims.insert(key, its)?;
    Ok(())
}

/// Who updates a key behind one update more.
fn claim_behind(before: Option<Claim>, session: u64, op: Op) -> Claim
    ensures { Some result ≡ claim_with before (record { session = session; op = op }) }
{
    let (adds, n) = match op {
        Op::Add(_, n) => (true, n),
        Op::Upsert(..) | Op::Delete(_) | Op::Max(..) | Op::Read(_) | Op::Merge(..) => (false, 0),
    };
    match before {
        Some(its) => Claim {
            session: its.session,
            is_alone: its.is_alone && session == its.session,
            only_adds: its.only_adds && adds,
            sum: its.sum.saturating_add(n),
        },
        None => Claim {
            session,
            is_alone: true,
            only_adds: adds,
            sum: n,
        },
    }
}
