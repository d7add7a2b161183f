//! What stands at an address of a store's log.
ghost use Rattle.std.specs.Prelude.{◌≡◌, ◌<◌, ◌≤◌, ◌^◌, ◌↔◌, nat_lt, IfOk, IfErr};
ghost use Rattle.fkv_disk.specs.Kinds.{OnlyReads};
ghost use Rattle.fkv_disk.specs.Quiet.{IsQuiet, IsHindrance};
ghost use Rattle.fkv_scan.specs.Records.{losses};
ghost use Rattle.fkv_looking.specs.Classes.{IsClass, class_of, class_of_valid, is_class, version_at};

use crate::parts::read_part;
use fkv_base::{Addr, Fault, Version};
use fkv_disk::Device;
use fkv_marks::version_in;
use fkv_opening::Opened;
use fkv_record::{LostRange, Record, read_record, record_place};

/// What stands at an address of the log of a store.
#[derive(Clone, Copy)]
pub enum RecordClass {
    /// A valid record that is neither lost nor newer than the commit. It counts if it is reached, as each one of the scan is.
    Valid,
    /// A record that is marked as invalid.
    Invalid,
    /// A valid record of the scan that a lost range has.
    Lost,
    /// A valid record of a version above the commit's number: it is left out.
    Newer,
    /// No record. Recovery leaves such an address out only if nothing leads to it.
    NoRecord,
}

impl RecordClass {
    /// Whether it is this class.
    pub(crate) fn is(self, class: RecordClass) -> bool
        ensures { result ≡ is_class class self }
    {
        matches!(
            (class, self),
            (RecordClass::Valid, RecordClass::Valid)
                | (RecordClass::Invalid, RecordClass::Invalid)
                | (RecordClass::Lost, RecordClass::Lost)
                | (RecordClass::Newer, RecordClass::Newer)
                | (RecordClass::NoRecord, RecordClass::NoRecord)
        )
    }
}

/// Whether a record of this version at the address is lost by one of the ranges.
#[tactic(auto, unfolding(fkv_scan::specs::Records::losses))]
fn is_lost(ranges: &[LostRange], addr: Addr, version: Version) -> bool
    ensures { result ≡ nat_lt 0 (losses ranges.now addr.0 version.0) }
{
    for range in ranges {
        if addr.0 < range.to.0 && version.0 == range.version.0 {
            return true;
        }
    }
    false
}

/// The version of a record at an address: in the scan what its mark is read as, and below that the mark itself.
#[tactic(auto, unfolding(crate::specs::Classes::version_at))]
fn version_at(opened: &Opened, addr: Addr, found: &Record) -> Version
    ensures { result.0 ≡ version_at opened.now addr.0 found.now }
{
    if opened.checkpoint.first.0 <= addr.0 {
        version_in(opened.number.0, found.header.version)
    } else {
        found.header.version
    }
}

/// The class of a valid record at an address.
#[tactic(auto, unfolding(crate::specs::Classes::class_of_valid))]
fn class_of_valid(opened: &Opened, addr: Addr, found: &Record) -> RecordClass
    ensures { result ≡ class_of_valid opened.now addr.0 found.now }
{
    let version = version_at(opened, addr, found);
    if opened.number.0 < version.0 {
        return RecordClass::Newer;
    }
    let is_scanned = opened.checkpoint.first.0 <= addr.0;
    let is_lost = is_lost(&opened.lost, addr, version);
    if is_scanned && is_lost {
        RecordClass::Lost
    } else {
        RecordClass::Valid
    }
}

/// The class of what was read at an address.
fn class_of(opened: &Opened, addr: Addr, read: Option<Record>) -> RecordClass
    ensures { result ≡ class_of opened.now addr.0 read }
{
    let Some(found) = read else {
        return RecordClass::NoRecord;
    };
    if found.header.invalid {
        return RecordClass::Invalid;
    }
    class_of_valid(opened, addr, &found)
}

/// The class of what stands at an address.
pub(crate) fn class_at<D: Device>(
    d: &mut D,
    opened: &Opened,
    addr: Addr,
) -> Result<RecordClass, Fault>
    requires { addr.0 < 2 ^ 48 }
    ensures ok { D.honest d.old → IfOk result (IsClass (D.seen d.old) opened.now addr.0) }
    ensures err { IfErr result (IsHindrance (D.failed d.old) (D.failed d.new)) }
    ensures quiet { IsQuiet D.honest D.seen D.may_leave D.moment D.left_since D.failed d.old d.new }
    ensures reads { OnlyReads D.refuses D.expects d.old d.new }
{
    let bytes = read_part::<D, 24>(d, record_place(opened.shape, addr))?;
    Ok(class_of(opened, addr, read_record(&bytes)))
}
