//! What a device in memory may forget: the calls up to its newest sync.
ghost use Rattle.std.specs.Prelude.{◌≡◌, ◌↔◌, ◌+◌, ◌-◌, ◌≤◌, ℕ, List, length, take, drop, IfOk, OnOk, OnErr, Err};
ghost use Rattle.fkv_base.specs.declared.faults.Fault.TheVariants.{Memory};
ghost use Rattle.fkv_disk.specs.Calls.{reads_as};
ghost use Rattle.fkv_disk.specs.Done.{calls_of};
ghost use Rattle.fkv_disk.specs.Forgotten.{since_sync, synced_bytes};

use crate::memory::{DoneCall, put};
use crate::{Device, Fuse, MemDisk};
use fkv_base::Fault;
use std::alloc::{AllocError, Global};

impl MemDisk {
    ghost use Rattle.fkv_disk.specs.Memory.{disk_bytes, disk_opening, disk_calls, disk_forgotten, disk_failures};

    /// Drops the calls up to its newest sync, and takes the bytes of that moment for those that it was made with. What
    /// it reads as and what a crash may leave stays as it was, now and after whatever calls come (`law_forgotten`). Of
    /// the moments from that sync on all is told as before, and of earlier ones nothing any more.
    ///
    /// `Fault::Memory` where memory is refused for a copy, or the count of calls would pass 2^64. Nothing has changed
    /// then.
    pub fn forget_synced(&mut self) -> Result<(), Fault>
        ensures calls { OnOk result (disk_calls self.new ≡ since_sync (disk_calls self.old)) }
        ensures opening { OnOk result (disk_opening self.new ≡ synced_bytes (disk_opening self.old) (disk_calls self.old)) }
        ensures bytes { disk_bytes self.new ≡ disk_bytes self.old }
        ensures failures { disk_failures self.new ≡ disk_failures self.old }
        ensures crash { (image : List ℕ) → ⟦<MemDisk as Device>⟧.may_leave self.old image ↔ ⟦<MemDisk as Device>⟧.may_leave self.new image }
        ensures moment { ⟦<MemDisk as Device>⟧.moment self.new ≡ ⟦<MemDisk as Device>⟧.moment self.old }
        ensures since { (t : ℕ) (image : List ℕ) → disk_forgotten self.new ≤ t → ⟦<MemDisk as Device>⟧.left_since self.old t image ↔ ⟦<MemDisk as Device>⟧.left_since self.new t image }
        ensures err { OnErr result (result ≡ Err Memory) }
        ensures unchanged { OnErr result ((disk_calls self.new ≡ disk_calls self.old) × (disk_opening self.new ≡ disk_opening self.old) × (disk_forgotten self.new ≡ disk_forgotten self.old)) }
    {
        let synced = synced_calls(&self.done);
        let forgotten = self.forgotten.checked_add(synced as u64).ok_or(AllocError)?;
        let opening = replay(self.alloc, &self.opening, &self.done[..synced])?;
        self.opening = opening;
        self.done.drain(..synced);
        self.forgotten = forgotten;
        Ok(())
    }
}

impl Fuse<MemDisk> {
    ghost use Rattle.fkv_disk.specs.Fuses.{fuse_device, fuse_state, fuse_refused};
    ghost use Rattle.fkv_disk.specs.Memory.{disk_bytes, disk_opening, disk_calls, disk_forgotten, disk_failures};

    /// Has its device forget, as `MemDisk::forget_synced` says. This is no call: the fuse stays as it is, and refuses the
    /// calls to come that it would have refused.
    pub fn forget_synced(&mut self) -> Result<(), Fault>
        ensures state { fuse_state self.new ≡ fuse_state self.old }
        ensures refused { fuse_refused self.new ≡ fuse_refused self.old }
        ensures refuses { ⟦<Fuse<MemDisk> as Device>⟧.refuses self.new ≡ ⟦<Fuse<MemDisk> as Device>⟧.refuses self.old }
        ensures calls { OnOk result (disk_calls (fuse_device self.new) ≡ since_sync (disk_calls (fuse_device self.old))) }
        ensures opening { OnOk result (disk_opening (fuse_device self.new) ≡ synced_bytes (disk_opening (fuse_device self.old)) (disk_calls (fuse_device self.old))) }
        ensures bytes { disk_bytes (fuse_device self.new) ≡ disk_bytes (fuse_device self.old) }
        ensures failures { disk_failures (fuse_device self.new) ≡ disk_failures (fuse_device self.old) }
        ensures failed { ⟦<Fuse<MemDisk> as Device>⟧.failed self.new ≡ ⟦<Fuse<MemDisk> as Device>⟧.failed self.old }
        ensures crash { (image : List ℕ) → ⟦<Fuse<MemDisk> as Device>⟧.may_leave self.old image ↔ ⟦<Fuse<MemDisk> as Device>⟧.may_leave self.new image }
        ensures moment { ⟦<Fuse<MemDisk> as Device>⟧.moment self.new ≡ ⟦<Fuse<MemDisk> as Device>⟧.moment self.old }
        ensures since { (t : ℕ) (image : List ℕ) → disk_forgotten (fuse_device self.new) ≤ t → ⟦<Fuse<MemDisk> as Device>⟧.left_since self.old t image ↔ ⟦<Fuse<MemDisk> as Device>⟧.left_since self.new t image }
        ensures err { OnErr result (result ≡ Err Memory) }
        ensures unchanged { OnErr result ((disk_calls (fuse_device self.new) ≡ disk_calls (fuse_device self.old)) × (disk_opening (fuse_device self.new) ≡ disk_opening (fuse_device self.old)) × (disk_forgotten (fuse_device self.new) ≡ disk_forgotten (fuse_device self.old))) }
    {
        self.device.forget_synced()
    }
}

// How many of the first calls the newest sync ends, itself among them.
fn synced_calls(done: &[DoneCall]) -> usize
    ensures within { result ≤ length done.now }
    ensures later { calls_of (drop result done.now) ≡ since_sync (calls_of done.now) }
    ensures first { (opening : List ℕ) → reads_as opening (calls_of (take result done.now)) ≡ synced_bytes opening (calls_of done.now) }
{
    let mut left = done.len();
    while left > 0 {
        match &done[left - 1] {
            DoneCall::Wrote(_, _) => left -= 1,
            DoneCall::Synced => return left,
        }
    }
    left
}

// The bytes after these calls.
fn replay(alloc: Global, opening: &[u8], done: &[DoneCall]) -> Result<Vec<u8>, AllocError>
    ensures { IfOk result (λ bytes. bytes.items ≡ reads_as opening.now (calls_of done.now)) }
{
    let mut bytes = opening.to_vec(alloc)?;
    for call in done {
        match call {
            DoneCall::Wrote(at, written) => put(&mut bytes, *at, written)?,
            DoneCall::Synced => {}
        }
    }
    Ok(bytes)
}
