//! Reading a record from the device, and its home.
ghost use Rattle.std.specs.Prelude.{◌≡◌, ◌<◌, ◌≤◌, ◌^◌, ◌↔◌, IfOk, IfErr};
ghost use Rattle.fkv_base.specs.Limits.{max_bucket_bits};
ghost use Rattle.fkv_words.specs.Fields.{Reads};
ghost use Rattle.fkv_disk.specs.Bytes.{bytes_at};
ghost use Rattle.fkv_disk.specs.Kinds.{OnlyReads};
ghost use Rattle.fkv_record.specs.Layout.{record_bytes};
ghost use Rattle.fkv_record.specs.Places.{record_place};
ghost use Rattle.fkv_scan.specs.Log.{record_home, triple_home};
ghost use Rattle.fkv_disk.specs.Quiet.{IsQuiet};
ghost use Rattle.fkv_chains.specs.Refused.{IsFailure};

use fkv_base::{Addr, Fault, Shape};
use fkv_disk::Device;
use fkv_record::{Record, Triple, read_record, record_place};
use fkv_words::{bucket_of, tag_of};

/// How many tags there are.
const TAGS: u64 = 1 << 15;

/// The home of a record in an index of 2^bits buckets: its bucket and its tag as one number.
#[tactic(auto, unfolding(fkv_scan::specs::Log::record_home))]
pub(crate) fn record_home(found: &Record, bits: u64) -> u64
    requires { bits ≤ max_bucket_bits }
    ensures { result ≡ record_home bits found.now }
{
    bucket_of(found.key, bits) * TAGS + u64::from(tag_of(found.key, bits))
}

/// The home of a triple.
pub(crate) fn triple_home(triple: &Triple) -> u64
    ensures { result ≡ triple_home triple.now }
{
    u64::from(triple.bucket) * TAGS + u64::from(triple.tag)
}

/// The record at the address, or none where the bytes there spell none.
pub(crate) fn record_at<D: Device>(
    d: &mut D,
    shape: Shape,
    addr: Addr,
) -> Result<Option<Record>, Fault>
    requires { addr.0 < 2 ^ 48 }
    ensures ok { D.honest d.old → IfOk result (λ read. Reads record_bytes (bytes_at (D.seen d.old) (record_place shape addr.0) 24) read) }
    ensures err { IfErr result (IsFailure (D.failed d.old) (D.failed d.new)) }
    ensures quiet { IsQuiet D.honest D.seen D.may_leave D.moment D.left_since D.failed d.old d.new }
    ensures reads { OnlyReads D.refuses D.expects d.old d.new }
{
    let mut bytes = [0; 24];
    d.read(record_place(shape, addr), &mut bytes)?;
    Ok(read_record(&bytes))
}
