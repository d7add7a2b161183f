//! The maps that a report compares: what sessions were told, and what is recovered.
ghost use Rattle.std.specs.Prelude.{◌≡◌, ◌++◌, Err, IfErr, IfOk, OnErr, OnOk, slice_get};
ghost use Rattle.std.specs.FinMap.{empty, get};
ghost use Rattle.std.specs.List.{fold};
ghost use Rattle.fkv_base.specs.declared.faults.Fault.TheVariants.{Memory};
ghost use Rattle.fkv_map.specs.Keys.{as_number};
ghost use Rattle.fkv_map.specs.Map.{applied};
ghost use Rattle.fkv_thread_scripts.specs.Keys.{IsUnapplied, map_of, op_told, ops_of, ops_told, told_map, told_ops, upserts_of};

use crate::logs::Log;
use fkv_base::{Fault, Key, Serial, Value};
use fkv_map::{Op, PlainMap, Reply};
use std::alloc::Global;

/// What the updates make that sessions were told, up to their points: session by session, each one's in the order in which their results came.
pub(crate) fn told_map(alloc: Global, points: &[Serial], logs: &[Log]) -> Result<PlainMap, Fault>
    ensures ok { IfOk result (λ map. map ≡ told_map points.now logs.now) }
    ensures cause { IfErr result (IsUnapplied (told_ops points.now logs.now)) }
{
    let ops = told_ops(alloc, points, logs)?;
    made_by(alloc, &ops)
}

/// The map of pairs.
pub(crate) fn map_of(alloc: Global, pairs: &[(Key, Value)]) -> Result<PlainMap, Fault>
    ensures ok { IfOk result (λ map. map ≡ map_of pairs.now) }
    ensures cause { IfErr result (IsUnapplied (upserts_of pairs.now)) }
{
    let ops = upserts_of(alloc, pairs)?;
    made_by(alloc, &ops)
}

/// What operations make, in order. `ValueReserved` where one of them brings 2^64 - 1.
fn made_by(alloc: Global, ops: &[Op]) -> Result<PlainMap, Fault>
    ensures ok { IfOk result (λ map. map ≡ fold applied empty ops.now) }
    ensures cause { IfErr result (IsUnapplied ops.now) }
{
    let mut map = PlainMap::new(alloc);
    for op in ops {
        map.apply(*op)?;
    }
    Ok(map)
}

fn told_ops(alloc: Global, points: &[Serial], logs: &[Log]) -> Result<Vec<Op>, Fault>
    ensures ok { IfOk result (λ ops. ops.items ≡ told_ops points.now logs.now) }
    ensures err { OnErr result (result ≡ Err Memory) }
{
    let mut ops = Vec::new(alloc);
    for number in 0..logs.len() {
        push_number(&mut ops, points, logs, number)?;
    }
    Ok(ops)
}

/// What the session of this number was told up to its point, if it has one.
fn push_number(
    ops: &mut Vec<Op>,
    points: &[Serial],
    logs: &[Log],
    number: usize,
) -> Result<(), Fault>
    ensures ok { OnOk result (ops.new.items ≡ ops.old.items ++ ops_of (slice_get points.now number) (slice_get logs.now number)) }
    ensures err { OnErr result (result ≡ Err Memory) }
{
    match (points.get(number), logs.get(number)) {
        (Some(point), Some(log)) => push_told(ops, log, *point),
        _ => Ok(()),
    }
}

fn push_told(ops: &mut Vec<Op>, log: &Log, point: Serial) -> Result<(), Fault>
    ensures ok { OnOk result (ops.new.items ≡ ops.old.items ++ ops_told point log.now) }
    ensures err { OnErr result (result ≡ Err Memory) }
{
    for serial in &log.told {
        push_one(ops, log, point, *serial)?;
    }
    Ok(())
}

fn push_one(ops: &mut Vec<Op>, log: &Log, point: Serial, serial: Serial) -> Result<(), Fault>
    ensures ok { OnOk result (ops.new.items ≡ ops.old.items ++ op_told point log.now serial) }
    ensures err { OnErr result (result ≡ Err Memory) }
{
    if serial.0 <= point.0 {
        if let Some(op) = log.update(serial) {
            ops.push(op)?;
        }
    }
    Ok(())
}

fn upserts_of(alloc: Global, pairs: &[(Key, Value)]) -> Result<Vec<Op>, Fault>
    ensures ok { IfOk result (λ ops. ops.items ≡ upserts_of pairs.now) }
    ensures err { OnErr result (result ≡ Err Memory) }
{
    let mut ops = Vec::new(alloc);
    for pair in pairs {
        ops.push(Op::Upsert(pair.0, pair.1))?;
    }
    Ok(ops)
}

/// The value of a key.
pub(crate) fn value_in(map: &mut PlainMap, key: Key) -> Result<Option<Value>, Fault>
    ensures same { OnOk result (map.new ≡ map.old) }
    ensures value { IfOk result (λ value. as_number value ≡ get map.old key.0) }
    ensures err { OnErr result (result ≡ Err Memory) }
{
    match map.apply(Op::Read(key))? {
        Reply::Found(value) => Ok(Some(value)),
        _ => Ok(None),
    }
}
