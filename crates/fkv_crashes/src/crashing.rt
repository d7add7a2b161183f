//! A device in memory whose calls are made here, and which is crashed behind them.
ghost use Rattle.std.specs.Prelude.{◌≡◌, ◌∷◌, [], IfErr, IfOk, OnOk, length};
ghost use Rattle.fkv_base.specs.declared.faults.Fault.TheVariants as fault;
ghost use Rattle.fkv_crashes.specs.Made.{as_call, as_calls};
ghost use Rattle.fkv_crashes.specs.Refused.{IsCallRefused, IsRefused};
ghost use Rattle.fkv_crashes.specs.Torn.{IsTornBehind, IsTornWithin};
ghost use Rattle.fkv_disk.specs.Memory.{disk_calls, disk_opening};

use fkv_base::Fault;
use fkv_disk::{Device, Fuse, MemDisk};
use std::alloc::Global;

/// A write of these bytes from this offset on, or a sync.
#[derive(Drop)]
pub enum MadeCall {
    Write(u64, Vec<u8>),
    Sync,
}

/// Makes these calls of a new device in memory, and crashes it behind the last one. Each byte that was written and not synced since is torn. Each other one is
/// what was written last. So a memory that syncs behind each write, or that tears a byte more or less, isn't proved. `Device` where one of the
/// calls was refused, and `Memory` where memory was refused for the image.
pub fn crash_behind(alloc: Global, calls: &[MadeCall], torn: u8) -> Result<MemDisk, Fault>
    ensures image { IfOk result (λ disk. IsTornBehind calls.now torn (⟦<MemDisk as Device>⟧.seen disk)) }
    ensures why { IfErr result (λ its. IsRefused calls.now its) }
{
    let mut disk = MemDisk::new(alloc);
    make_all(&mut disk, calls)?;
    Fuse::new(disk).crash(torn)
}

/// Makes these calls of a new device in memory, and crashes it within one write more: the fuse blows at that write. Each byte in the range of the
/// write is torn, and each other one is as `crash_behind` leaves it. So a crash that spares the write at which it comes, or that leaves it
/// whole, isn't proved. It is refused as `crash_behind` is.
pub fn crash_within(
    alloc: Global,
    calls: &[MadeCall],
    at: u64,
    bytes: &[u8],
    torn: u8,
) -> Result<MemDisk, Fault>
    ensures image { IfOk result (λ disk. IsTornWithin calls.now at (length bytes.now) torn (⟦<MemDisk as Device>⟧.seen disk)) }
    ensures why { IfErr result (λ its. IsRefused calls.now its) }
{
    let mut disk = MemDisk::new(alloc);
    make_all(&mut disk, calls)?;
    let mut fuse = Fuse::new(disk);
    fuse.arm(0);
    // Refused: the fuse blows here.
    let _ = fuse.write(at, bytes);
    fuse.crash(torn)
}

/// Makes these calls of a new device in memory, and crashes it at a sync: the fuse blows at that. So the sync hasn't come through, and the image is
/// the one that `crash_behind` leaves. It is refused as `crash_behind` is.
pub fn crash_at_sync(alloc: Global, calls: &[MadeCall], torn: u8) -> Result<MemDisk, Fault>
    ensures image { IfOk result (λ disk. IsTornBehind calls.now torn (⟦<MemDisk as Device>⟧.seen disk)) }
    ensures why { IfErr result (λ its. IsRefused calls.now its) }
{
    let mut disk = MemDisk::new(alloc);
    make_all(&mut disk, calls)?;
    let mut fuse = Fuse::new(disk);
    fuse.arm(0);
    // Refused: the fuse blows here.
    let _ = fuse.sync();
    fuse.crash(torn)
}

/// Makes these calls of a new device in memory, and crashes it while a fuse would let so many more pass. The image is the one that `crash_behind`
/// leaves. It is refused as `crash_behind` is.
pub fn crash_before(
    alloc: Global,
    calls: &[MadeCall],
    left: u64,
    torn: u8,
) -> Result<MemDisk, Fault>
    ensures image { IfOk result (λ disk. IsTornBehind calls.now torn (⟦<MemDisk as Device>⟧.seen disk)) }
    ensures why { IfErr result (λ its. IsRefused calls.now its) }
{
    let mut disk = MemDisk::new(alloc);
    make_all(&mut disk, calls)?;
    let mut fuse = Fuse::new(disk);
    fuse.arm(left);
    fuse.crash(torn)
}

/// Makes these calls, one behind the other.
fn make_all(disk: &mut MemDisk, calls: &[MadeCall]) -> Result<(), Fault>
    requires { disk_calls disk.old ≡ [] }
    ensures opening { OnOk result (disk_opening disk.new ≡ disk_opening disk.old) }
    ensures calls { OnOk result (disk_calls disk.new ≡ as_calls calls.now) }
    ensures why { IfErr result (λ its. IsCallRefused calls.now its) }
{
    for call in calls {
        make(disk, call)?;
    }
    Ok(())
}

fn make(disk: &mut MemDisk, call: &MadeCall) -> Result<(), Fault>
    ensures opening { OnOk result (disk_opening disk.new ≡ disk_opening disk.old) }
    ensures calls { OnOk result (disk_calls disk.new ≡ as_call call.now ∷ disk_calls disk.old) }
    ensures why { IfErr result (λ its. its ≡ fault.Device) }
{
    match call {
        MadeCall::Write(at, bytes) => disk.write(*at, bytes),
        MadeCall::Sync => disk.sync(),
    }
}
