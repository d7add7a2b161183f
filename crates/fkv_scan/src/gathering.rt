//! Reading a part of the scan: what its records tell, by their homes.
ghost use Rattle.std.specs.Prelude.{◌≡◌, ◌≤◌, ◌<◌, ◌^◌, List, IfOk, IfErr};
ghost use Rattle.fkv_record.specs.declared.triples.Triple.{Triple};
ghost use Rattle.fkv_scan.specs.Log.{log_in};
ghost use Rattle.fkv_scan.specs.Parts.{IsFound, IsGathered};
ghost use Rattle.fkv_disk.specs.Kinds.{OnlyReads};
ghost use Rattle.fkv_disk.specs.Quiet.{IsQuiet, IsHindrance};

use crate::homes::record_home;
use crate::met_records::MetRecord;
use crate::readings::record_at;
use fkv_base::{Addr, Fault, Shape};
use fkv_disk::Device;
use fkv_marks::{oldest, version_in};
use fkv_record::{ManifestSlot, from_or_none};
use std::alloc::Global;

/// What is found at an address of the scan.
#[derive(Clone, Copy)]
pub(crate) enum Found {
    /// No record that a store wrote there.
    Unfit,
    /// A record that was given up.
    GivenUp,
    /// A valid record.
    Valid(MetRecord),
}

/// A part of the scan as it was read.
#[derive(Drop)]
pub(crate) struct Gathered {
    /// Its valid records, upwards.
    pub mets: Vec<MetRecord>,
    /// Whether one is newer than the commit.
    pub newer: bool,
    /// The first address that has no record which a store wrote there, or else where the part ends.
    pub end: Addr,
}

/// What is found at the address.
fn found_at<D: Device>(
    d: &mut D,
    shape: Shape,
    slot: &ManifestSlot,
    addr: Addr,
) -> Result<Found, Fault>
    requires small { addr.0 < 2 ^ 48 }
    requires few { slot.now.number < 2 ^ 63 }
    requires from_start { slot.now.first.0 ≤ addr.0 }
    ensures ok { (triples : List Triple) → D.honest d.old → IfOk result (IsFound (log_in (D.seen d.old) shape slot.now triples) addr.0) }
    ensures err { IfErr result (IsHindrance (D.failed d.old) (D.failed d.new)) }
    ensures quiet { IsQuiet D.honest D.seen D.may_leave D.moment D.left_since D.failed d.old d.new }
    ensures reads { OnlyReads D.refuses D.expects d.old d.new }
{
    let Some(found) = record_at(d, shape, addr)? else {
        return Ok(Found::Unfit);
    };
    let version = version_in(slot.number, found.header.version);
    if version.0 < oldest(shape.class, slot.checkpoint) || version.0 > slot.number + 1 {
        return Ok(Found::Unfit);
    }
    let previous = from_or_none(slot.begin, found.header.previous);
    if previous.0 >= addr.0 {
        return Ok(Found::Unfit);
    }
    if found.header.invalid {
        return Ok(Found::GivenUp);
    }
    Ok(Found::Valid(MetRecord {
        home: record_home(&found, shape.bucket_bits),
        addr,
        previous,
        version,
    }))
}

/// Reads the records from one address on and below another, upwards.
pub(crate) fn gather<D: Device>(
    alloc: Global,
    d: &mut D,
    shape: Shape,
    slot: &ManifestSlot,
    from: Addr,
    to: Addr,
) -> Result<Gathered, Fault>
    requires small { to.0 < 2 ^ 48 }
    requires few { slot.now.number < 2 ^ 63 }
    requires from_start { slot.now.first.0 ≤ from.0 }
    requires upwards { from.0 ≤ to.0 }
    ensures ok { (triples : List Triple) → D.honest d.old → IfOk result (IsGathered (log_in (D.seen d.old) shape slot.now triples) from.0 to.0) }
    ensures err { IfErr result (IsHindrance (D.failed d.old) (D.failed d.new)) }
    ensures quiet { IsQuiet D.honest D.seen D.may_leave D.moment D.left_since D.failed d.old d.new }
    ensures reads { OnlyReads D.refuses D.expects d.old d.new }
{
    let mut mets = Vec::with_capacity(alloc, (to.0 - from.0) as usize)?;
    let mut newer = false;
    for addr in from.0..to.0 {
        let found = found_at(d, shape, slot, Addr(addr))?;
        let met = match found {
            Found::Unfit => {
                return Ok(Gathered {
                    mets,
                    newer,
                    end: Addr(addr),
                });
            }
            Found::GivenUp => continue,
            Found::Valid(met) => met,
        };
        mets.push(met)?;
        newer = newer || met.version.0 > slot.number;
    }
    Ok(Gathered {
        mets,
        newer,
        end: to,
    })
}
