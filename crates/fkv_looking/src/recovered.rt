//! What recovery finds, without why it was hindered.
ghost use Rattle.std.specs.Prelude.{◌≡◌, ◌↔◌, IfOk, IfErr};
ghost use Rattle.fkv_disk.specs.Kinds.{OneSyncThenReads};
ghost use Rattle.fkv_disk.specs.Quiet.{IsQuiet, IsHindrance};
ghost use Rattle.fkv_looking.specs.Recovered.{IsRecovered};

use fkv_base::{Damage, Fault};
use fkv_disk::Device;
use fkv_opening::{Opened, recover};
use std::alloc::Global;

/// What recovery finds.
#[derive(Drop)]
pub(crate) enum Recovered {
    /// No store.
    NoStore,
    /// A store of which this part is damaged.
    Damaged(Damage, u64),
    /// A whole store.
    Store(Opened),
}

/// What recovery finds in the image of the device.
pub(crate) fn find_store<D: Device>(alloc: Global, d: &mut D) -> Result<Recovered, Fault>
    ensures ok { D.honest d.old → IfOk result (IsRecovered (D.seen d.old)) }
    ensures err { IfErr result (IsHindrance (D.failed d.old) (D.failed d.new)) }
    ensures quiet { IsQuiet D.honest D.seen D.may_leave D.moment D.left_since D.failed d.old d.new }
    ensures asked { OneSyncThenReads D.refuses D.expects d.old d.new }
{
    match recover(alloc, d) {
        Ok(opened) => Ok(Recovered::Store(opened)),
        Err(fault) => match fault {
            Fault::NotAStore => Ok(Recovered::NoStore),
            Fault::Damaged(part, place) => Ok(Recovered::Damaged(part, place)),
            _ => Err(fault),
        },
    }
}
