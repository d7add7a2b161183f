//! The pairs of an opened store.
ghost use Rattle.std.specs.Prelude.{◌≡◌, ◌↔◌, IfOk, IfErr, length};
ghost use Rattle.std.specs.Ordering.{nat_cmp};
ghost use Rattle.std.specs.BTreeMap.{get};
ghost use Rattle.fkv_disk.specs.Kinds.{OnlyReads};
ghost use Rattle.fkv_disk.specs.Quiet.{IsQuiet, IsHindrance};
ghost use Rattle.fkv_opening.specs.Opened.{IsStoreOf};
ghost use Rattle.fkv_pairs.specs.Pairs.{log_of_store, ArePairs};
ghost use Rattle.fkv_pairs.specs.Gathered.{AreGathered};

use crate::gathering::gather;
use crate::showing::present;
use fkv_base::{Fault, Key, Value};
use fkv_disk::Device;
use fkv_opening::Opened;
use fkv_record::law_spellings_apart;
use std::alloc::Global;
use std::collections::BTreeMap;

/// The newest values of all keys that have a record which counts, the word of none where that deletes its key.
fn values_of<D: Device>(
    alloc: Global,
    opened: &Opened,
    d: &mut D,
) -> Result<BTreeMap<u64, u64>, Fault>
    ensures ok { D.honest d.old → (store : IsStoreOf (D.seen d.old) opened.now) → IfOk result (λ values. AreGathered (log_of_store (D.seen d.old) opened.now store) (get nat_cmp values) opened.now.entries.items (length opened.now.entries.items)) }
    ensures err { IfErr result (IsHindrance (D.failed d.old) (D.failed d.new)) }
    ensures quiet { IsQuiet D.honest D.seen D.may_leave D.moment D.left_since D.failed d.old d.new }
    ensures reads { OnlyReads D.refuses D.expects d.old d.new }
{
    let mut values = BTreeMap::new(alloc);
    for i in 0..opened.entries.len() {
        let entry = opened.entries[i].entry;
        gather(d, opened.shape, opened.begin, entry.addr, &mut values)?;
    }
    Ok(values)
}

/// The pairs of the store, by ascending keys: each key that has a value, with it, whatever the format of the image and
/// however long its scan. They are those of the opened image where the device reads as that image still: the value of a
/// key is that of its newest record that counts.
///
/// It only reads, each record on the chains of the entries once. `Device` comes only where the device failed in this call,
/// `Memory` where memory was refused.
pub fn content<D: Device>(
    alloc: Global,
    opened: &Opened,
    d: &mut D,
) -> Result<Vec<(Key, Value)>, Fault>
    ensures ok { D.honest d.old → (store : IsStoreOf (D.seen d.old) opened.now) → IfOk result (λ pairs. ArePairs (log_of_store (D.seen d.old) opened.now store) pairs.items) }
    ensures err { IfErr result (IsHindrance (D.failed d.old) (D.failed d.new)) }
    ensures quiet { IsQuiet D.honest D.seen D.may_leave D.moment D.left_since D.failed d.old d.new }
    ensures reads { OnlyReads D.refuses D.expects d.old d.new }
{
    law_spellings_apart();
    let values = values_of(alloc, opened, d)?;
    let pairs = present(alloc, &values)?;
    Ok(pairs)
}
