//! The newest records of a store, as memory is to have them.
ghost use Rattle.std.specs.Prelude.{◌≡◌, ◌-◌, ◌+◌, ◌*◌, ◌<◌, ◌≤◌, ◌^◌, ◌++◌, IfOk, IfErr, OnOk, OnErr, Err, length};
ghost use Rattle.fkv_base.specs.declared.faults.Fault.TheVariants.{Memory};
ghost use Rattle.fkv_disk.specs.Bytes.{bytes_at};
ghost use Rattle.fkv_disk.specs.Kinds.{OnlyReads};
ghost use Rattle.fkv_disk.specs.Quiet.{IsHindrance, IsQuiet};
ghost use Rattle.fkv_record.specs.Places.{number_at, record_place};
ghost use Rattle.fkv_warming.specs.Records.{record_words, records_from};

use fkv_base::{Addr, Fault, Shape, Version};
use fkv_disk::Device;
use fkv_record::{from_or_none, record_place};
use std::alloc::Global;

/// The number whose eight bytes begin at a place.
fn number_at(bytes: &[u8], at: usize) -> u64
    requires { (at + 8) ≤ length bytes.now }
    ensures { result ≡ number_at bytes.now at }
{
    u64::from_le_bytes([
        bytes[at],
        bytes[at + 1],
        bytes[at + 2],
        bytes[at + 3],
        bytes[at + 4],
        bytes[at + 5],
        bytes[at + 6],
        bytes[at + 7],
    ])
}

/// The bytes of the record at an address.
fn record_bytes<D: Device>(d: &mut D, shape: Shape, addr: Addr) -> Result<[u8; 24], Fault>
    requires { addr.0 < 2 ^ 48 }
    ensures ok { D.honest d.old → IfOk result (λ bytes. bytes ≡ bytes_at (D.seen d.old) (record_place shape addr.0) 24) }
    ensures whole { IfOk result (λ bytes. length bytes ≡ 24) }
    ensures err { IfErr result (IsHindrance (D.failed d.old) (D.failed d.new)) }
    ensures quiet { IsQuiet D.honest D.seen D.may_leave D.moment D.left_since D.failed d.old d.new }
    ensures reads { OnlyReads D.refuses D.expects d.old d.new }
{
    let mut bytes = [0; 24];
    d.read(record_place(shape, addr), &mut bytes)?;
    Ok(bytes)
}

/// Pushes the words that memory is to have of a record: what it leads to and this version, its key, and its value.
fn push_record(
    frames: &mut Vec<u64>,
    bytes: &[u8],
    begin: Addr,
    number: Version,
) -> Result<(), Fault>
    requires whole { length bytes.now ≡ 24 }
    requires few { number.0 < 2 ^ 13 }
    ensures ok { OnOk result (frames.new.items ≡ frames.old.items ++ record_words bytes.now begin.0 number.0) }
    ensures err { OnErr result (result ≡ Err Memory) }
{
    let named = number_at(bytes, 0) % (1 << 48);
    let previous = from_or_none(begin, Addr(named));
    let words = [
        previous.0 + (number.0 << 48),
        number_at(bytes, 8),
        number_at(bytes, 16),
    ];
    frames.extend_from_slice(&words)?;
    Ok(())
}

/// The words that memory is to have of the records from one address up to another, as of this version, in a log with this begin. It reads them one after
/// another.
pub(crate) fn records_from<D: Device>(
    alloc: Global,
    shape: Shape,
    begin: Addr,
    number: Version,
    first: Addr,
    end: Addr,
    d: &mut D,
) -> Result<Vec<u64>, Fault>
    requires upwards { first.0 ≤ end.0 }
    requires end { end.0 < 2 ^ 48 }
    requires few { number.0 < 2 ^ 13 }
    ensures ok { D.honest d.old → IfOk result (λ words. words.items ≡ records_from (D.seen d.old) shape begin.0 number.0 first.0 (end.0 - first.0)) }
    ensures many { IfOk result (λ words. length words.items ≡ 3 * (end.0 - first.0)) }
    ensures err { IfErr result (IsHindrance (D.failed d.old) (D.failed d.new)) }
    ensures quiet { IsQuiet D.honest D.seen D.may_leave D.moment D.left_since D.failed d.old d.new }
    ensures reads { OnlyReads D.refuses D.expects d.old d.new }
{
    let mut words = Vec::new(alloc);
    for addr in first.0..end.0 {
        let bytes = record_bytes(d, shape, Addr(addr))?;
        push_record(&mut words, &bytes, begin, number)?;
    }
    Ok(words)
}
