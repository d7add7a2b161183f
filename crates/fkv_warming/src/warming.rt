//! Memory of an opened store gets its newest records.
ghost use Rattle.std.specs.Prelude.{◌≡◌, ◌+◌, ◌*◌, ◌≤◌, IfOk, IfErr};
ghost use Rattle.fkv_disk.specs.Kinds.{OnlyReads};
ghost use Rattle.fkv_disk.specs.Quiet.{IsHindrance, IsQuiet};
ghost use Rattle.fkv_opening.specs.Opened.{IsStoreOf};
ghost use Rattle.fkv_opening.specs.Opening.{opening_limit};
ghost use Rattle.fkv_warming.specs.Warmed.{IsSameStore, warm_from};

use crate::records::records_from;
use fkv_base::{Addr, Fault};
use fkv_disk::Device;
use fkv_marks::mark;
use fkv_opening::Opened;
use fkv_plane::Places;
use std::alloc::Global;

/// From where on memory is to have the records: the newest ones from the log's begin on, at most so many, and as many as fit beside the room that is open to
/// new ones.
fn first_warm(opened: &Opened, most: u64) -> Addr
    ensures { result.0 ≡ warm_from opened.now most }
{
    let limit = opened.words().limit.0;
    let ring = Places::of(&opened.shape).ring as u64;
    let fits = limit.saturating_sub(ring);
    let wanted = opened.tail.0.saturating_sub(most);
    Addr(fits.max(wanted).max(opened.begin.0))
}

/// Gives memory of an opened store its newest records, at most so many, and as many as its frames have room for. All else stays as it was opened.
///
/// Without this a store opens with nothing in memory, and its first read of each key waits for the keeper. It reads the records one after
/// another, and makes no other call. `Device` comes only where the device failed in this call, `Memory` where memory was refused; then the
/// store is dropped.
pub fn warm<D: Device>(alloc: Global, opened: Opened, most: u64, d: &mut D) -> Result<Opened, Fault>
    ensures ok { D.honest d.old → IsStoreOf (D.seen d.old) opened → IfOk result (IsStoreOf (D.seen d.old)) }
    ensures same { IfOk result (IsSameStore opened) }
    ensures warm { IfOk result (λ warmed. warmed.warm.0 ≡ warm_from opened most) }
    ensures err { IfErr result (IsHindrance (D.failed d.old) (D.failed d.new)) }
    ensures quiet { IsQuiet D.honest D.seen D.may_leave D.moment D.left_since D.failed d.old d.new }
    ensures reads { OnlyReads D.refuses D.expects d.old d.new }
{
    let first = first_warm(&opened, most);
    let version = mark(opened.number);
    let words = records_from(
        alloc,
        opened.shape,
        opened.begin,
        version,
        first,
        opened.tail,
        d,
    )?;
    let Opened {
        shape,
        number,
        begin,
        tail,
        points,
        gates,
        checkpoint,
        lost,
        entries,
        ..
    } = opened;
    Ok(Opened {
        shape,
        number,
        begin,
        tail,
        points,
        gates,
        checkpoint,
        lost,
        entries,
        warm: first,
        frames: words,
    })
}
