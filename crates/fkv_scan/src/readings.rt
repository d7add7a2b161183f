//! Reading a record from the device.
ghost use Rattle.std.specs.Prelude.{◌≡◌, ◌<◌, ◌^◌, ◌↔◌, true, IfOk, IfErr};
ghost use Rattle.fkv_base.specs.Limits.{max_bucket_bits};
ghost use Rattle.fkv_words.specs.Fields.{Reads};
ghost use Rattle.fkv_disk.specs.Bytes.{bytes_at};
ghost use Rattle.fkv_disk.specs.Kinds.{OnlyReads};
ghost use Rattle.fkv_record.specs.Layout.{record_bytes};
ghost use Rattle.fkv_record.specs.Places.{record_place};
ghost use Rattle.fkv_disk.specs.Quiet.{IsQuiet, IsHindrance};

use fkv_base::{Addr, Fault, Shape};
use fkv_disk::Device;
use fkv_record::{Record, read_record, record_place};

/// The record at the address, or none where the bytes there spell none.
pub(crate) fn record_at<D: Device>(
    d: &mut D,
    shape: Shape,
    addr: Addr,
) -> Result<Option<Record>, Fault>
    requires { addr.0 < 2 ^ 48 }
    ensures ok { D.honest d.old → IfOk result (λ read. Reads record_bytes (bytes_at (D.seen d.old) (record_place shape addr.0) 24) read) }
    ensures err { IfErr result (IsHindrance (D.failed d.old) (D.failed d.new)) }
    ensures quiet { IsQuiet D.honest D.seen D.may_leave D.moment D.left_since D.failed d.old d.new }
    ensures reads { OnlyReads D.refuses D.expects d.old d.new }
{
    let mut bytes = [0; 24];
    d.read(record_place(shape, addr), &mut bytes)?;
    Ok(read_record(&bytes))
}
