//! The first two stages of recovery.
ghost use Rattle.std.specs.Prelude.{◌≡◌, ◌↔◌, IfOk, OnOk, IfErr};
ghost use Rattle.fkv_disk.specs.Device.{LeavesOnly};
ghost use Rattle.fkv_disk.specs.Kinds.{OneSyncThenReads};
ghost use Rattle.fkv_disk.specs.Quiet.{IsQuiet};
ghost use Rattle.fkv_newest.specs.Counted.{MakesTwoCalls};
ghost use Rattle.fkv_newest.specs.Newest.{IsNewestOf};
ghost use Rattle.fkv_newest.specs.Refused.{IsRefused};

use crate::found::newest_in;
use crate::heads::read_head;
use crate::newest_slots::Newest;
use fkv_base::Fault;
use fkv_disk::Device;

/// The newest slot of the image, whatever bytes it has: those past its end count as 0. It makes one sync and then one
/// read, and takes no memory.
///
/// `NotAStore` and `Damaged` come just where that fault stands, and `Device` only where the device failed in this call.
pub fn read_newest<D: Device>(d: &mut D) -> Result<Newest, Fault>
    ensures ok { D.honest d.old → IfOk result (IsNewestOf (D.seen d.old)) }
    ensures err { IfErr result (IsRefused (D.failed d.old) (D.failed d.new) (D.honest d.old) (D.seen d.old)) }
    ensures synced { D.honest d.old → OnOk result (LeavesOnly (D.seen d.old) (D.may_leave d.new)) }
    ensures quiet { IsQuiet D.honest D.seen D.may_leave D.moment D.left_since D.failed d.old d.new }
    ensures asked { OneSyncThenReads D.refuses D.expects d.old d.new }
    ensures counted { MakesTwoCalls (D.refuses d.old) (D.refuses d.new) result }
{
    let head = read_head(d)?;
    newest_in(&head)
}
