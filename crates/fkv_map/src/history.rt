//! Histories of updates.
ghost use Rattle.std.specs.Prelude.{◌≡◌, ◌↔◌, ◌⊎◌, IfOk, IfErr, OnErr, Err, IsTrue};
ghost use Rattle.std.specs.FinMap.{empty};
ghost use Rattle.fkv_base.specs.declared.faults.Fault.TheVariants.{ValueReserved, Memory};
ghost use Rattle.fkv_map.specs.History.{content, kept, point_of, HasReserved};

use crate::operations::{Op, Reply};
use crate::plain_map::PlainMap;
use fkv_base::{Fault, Serial};
use std::alloc::Global;

/// An update that took effect: whose it is, its serial in that session, what it did, and what it was told.
#[derive(Clone, Copy, Debug, PartialEq, Eq)]
pub struct HistoryEntry {
    pub session: usize,
    pub serial: Serial,
    pub op: Op,
    pub reply: Reply,
}

/// The map that the history's operations make of the empty one. `ValueReserved` where one of them brings 2^64 - 1,
/// and else `Memory` where memory was refused. The entries' replies are not looked at.
pub fn replay(alloc: Global, history: &[HistoryEntry]) -> Result<PlainMap, Fault>
    ensures content { IfOk result (λ map. map ≡ content empty history.now) }
    ensures reserved { (result ≡ Err ValueReserved) ↔ HasReserved history.now }
    ensures cause { IfErr result (λ fault. (fault ≡ ValueReserved) ⊎ (fault ≡ Memory)) }
{
    if has_reserved(history) {
        return Err(Fault::ValueReserved);
    }
    let mut map = PlainMap::new(alloc);
    for entry in history {
        map.apply(entry.op)?;
    }
    Ok(map)
}

/// The entries whose serial is at most their session's point, in order. A session is named by its place in `points`,
/// and one that has no place there has point 0. `Memory` where memory was refused.
pub fn kept(
    alloc: Global,
    history: &[HistoryEntry],
    points: &[Serial],
) -> Result<Vec<HistoryEntry>, Fault>
    ensures kept { IfOk result (λ entries. entries.items ≡ kept history.now points.now) }
    ensures cause { OnErr result (result ≡ Err Memory) }
{
    let mut entries = Vec::new(alloc);
    for entry in history {
        if entry.serial.0 <= point_of(points, entry.session) {
            entries.push(*entry)?;
        }
    }
    Ok(entries)
}

fn has_reserved(history: &[HistoryEntry]) -> bool
    ensures { IsTrue result ↔ HasReserved history.now }
{
    history.iter().any(|entry| entry.op.is_reserved())
}

fn point_of(points: &[Serial], session: usize) -> u64
    ensures { result ≡ point_of points.now session }
{
    match points.get(session) {
        Some(point) => point.0,
        None => 0,
    }
}
