//! Reading a part of an image.
ghost use Rattle.std.specs.Prelude.{◌≡◌, ◌+◌, ◌≤◌, ◌<◌, ◌^◌, ◌↔◌, IfOk, IfErr};
ghost use Rattle.fkv_disk.specs.Bytes.{bytes_at};
ghost use Rattle.fkv_disk.specs.Kinds.{OnlyReads};
ghost use Rattle.fkv_disk.specs.Quiet.{IsQuiet, IsHindrance};

use fkv_base::Fault;
use fkv_disk::Device;

/// So many bytes, from this place on.
pub(crate) fn read_part<D: Device, const N: usize>(d: &mut D, at: u64) -> Result<[u8; N], Fault>
    requires { N ≤ 512 }
    ensures ok { D.honest d.old → IfOk result (λ bytes. bytes ≡ bytes_at (D.seen d.old) at N) }
    ensures err { IfErr result (IsHindrance (D.failed d.old) (D.failed d.new)) }
    ensures quiet { IsQuiet D.honest D.seen D.may_leave D.moment D.left_since D.failed d.old d.new }
    ensures reads { OnlyReads D.refuses D.expects d.old d.new }
{
    let mut bytes = [0; N];
    d.read(at, &mut bytes)?;
    Ok(bytes)
}
