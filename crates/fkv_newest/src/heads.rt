//! The front of an image.
ghost use Rattle.std.specs.Prelude.{◌≡◌, ℕ, ◌+◌, ◌≤◌, ◌↔◌, List, length, slice_range, IfOk, OnOk, IfErr};
ghost use Rattle.fkv_disk.specs.Bytes.{bytes_at};
ghost use Rattle.fkv_disk.specs.Device.{LeavesOnly};
ghost use Rattle.fkv_disk.specs.Kinds.{OneSyncThenReads};
ghost use Rattle.fkv_disk.specs.Quiet.{IsQuiet};
ghost use Rattle.fkv_newest.specs.Counted.{MakesTwoCalls};
ghost use Rattle.fkv_newest.specs.Heads.{IsHeadOf};
ghost use Rattle.fkv_newest.specs.Refused.{IsFailure};

use fkv_base::Fault;
use fkv_disk::Device;

/// What stands before the areas of an image.
#[derive(Drop)]
pub(crate) struct Head {
    /// The block of the shape.
    pub(crate) block: [u8; 64],
    /// The first manifest slot.
    pub(crate) slot_0: [u8; 512],
    /// The second one.
    pub(crate) slot_1: [u8; 512],
}

impl Head {
    ghost use Rattle.fkv_newest.specs.Heads.{slot_of};

    /// The manifest slot with this index, 0 or 1.
    pub(crate) fn slot(&self, index: u64) -> &[u8; 512]
        ensures { result.now ≡ slot_of self.now index }
    {
        if index == 0 {
            &self.slot_0
        } else {
            &self.slot_1
        }
    }
}

/// So many of the bytes, from this one on.
fn part<const N: usize>(bytes: &[u8], at: usize) -> [u8; N]
    requires { at + N ≤ length bytes.now }
    ensures { result ≡ slice_range bytes.now at (at + N) }
{
    let mut part = [0; N];
    part.copy_from_slice(&bytes[at..at + N]);
    part
}

/// What stands before the areas, in the first bytes of an image.
fn head_in(bytes: &[u8; 1536]) -> Head
    ensures { (image : List ℕ) → bytes.now ≡ bytes_at image 0 1536 → IsHeadOf image result }
{
    Head {
        block: part::<64>(bytes, 0),
        slot_0: part::<512>(bytes, 512),
        slot_1: part::<512>(bytes, 1024),
    }
}

/// One sync, and then one read of the front of the image.
pub(crate) fn read_head<D: Device>(d: &mut D) -> Result<Head, Fault>
    ensures ok { D.honest d.old → IfOk result (IsHeadOf (D.seen d.old)) }
    ensures err { IfErr result (IsFailure (D.failed d.old) (D.failed d.new)) }
    ensures synced { D.honest d.old → OnOk result (LeavesOnly (D.seen d.old) (D.may_leave d.new)) }
    ensures quiet { IsQuiet D.honest D.seen D.may_leave D.moment D.left_since D.failed d.old d.new }
    ensures asked { OneSyncThenReads D.refuses D.expects d.old d.new }
    ensures counted { MakesTwoCalls (D.refuses d.old) (D.refuses d.new) result }
{
    d.sync()?;
    let mut bytes = [0; 1536];
    d.read(0, &mut bytes)?;
    Ok(head_in(&bytes))
}
