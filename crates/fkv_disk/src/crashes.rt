//! The image of a crash that tears the most.
ghost use Rattle.std.specs.Prelude.{◌≡◌, ◌<◌, ◌≤◌, ◌+◌, ◌-◌, ◌++◌, [], ℕ, List, length, take, drop, replicate, max, OnOk, IfOk, IfErr, if◌then◌else◌};
ghost use Rattle.fkv_disk.specs.Bytes.{byte_at, covers, range_end, AreBytes};
ghost use Rattle.fkv_disk.specs.Calls.{reads_as, is_untouched, torn_image};
ghost use Rattle.fkv_disk.specs.Done.{calls_of};
ghost use Rattle.fkv_disk.specs.Fuse.{with_refused};

use crate::memory::{DoneCall, grow};
use crate::{Device, Fuse, FuseState, MemDisk};
use fkv_base::Fault;
use std::alloc::{AllocError, Global};

impl Fuse<MemDisk> {
    ghost use Rattle.fkv_disk.specs.Fuses.{fuse_device, fuse_state};
    ghost use Rattle.fkv_disk.specs.Memory.{disk_bytes, disk_opening, disk_calls, disk_forgotten, disk_failures};

    /// A new device with the image of a crash here: what is read, with each byte set to `torn` that was
    /// written since the last sync that succeeded, and each byte of the write at which the fuse blew.
    /// `Fault::Memory` where memory is refused for the image, and nowhere else: the body has no other way to fail.
    pub fn crash(self, torn: u8) -> Result<MemDisk, Fault>
        ensures image { IfOk result (λ disk. disk_bytes disk ≡ torn_image (disk_opening (fuse_device self)) (with_refused (fuse_state self) (disk_calls (fuse_device self))) torn) }
        ensures allowed { IfOk result (λ disk. ⟦<Fuse<MemDisk> as Device>⟧.may_leave self (disk_bytes disk)) }
        ensures synced { IfOk result (λ disk. disk_opening disk ≡ disk_bytes disk) }
        ensures calls { IfOk result (λ disk. disk_calls disk ≡ []) }
        ensures forgotten { IfOk result (λ disk. disk_forgotten disk ≡ 0) }
        ensures failures { IfOk result (λ disk. disk_failures disk ≡ 0) }
        ensures memory { IfErr result (λ fault. fault ≡ Fault.Memory) }
    {
        let Fuse { device, state, .. } = self;
        let alloc = device.alloc;
        let image = image_of(alloc, &device.bytes, &device.done, state, torn)?;
        MemDisk::from_bytes(alloc, image)
    }
}

fn image_of(
    alloc: Global,
    bytes: &[u8],
    done: &[DoneCall],
    state: FuseState,
    torn: u8,
) -> Result<Vec<u8>, AllocError>
    ensures image { IfOk result (λ image. (opening : List ℕ) → bytes.now ≡ reads_as opening (calls_of done.now) → image.items ≡ torn_image opening (with_refused state (calls_of done.now)) torn) }
    ensures were_bytes { AreBytes bytes.now }
{
    let mut image = torn_copy(alloc, bytes, done, torn)?;
    match state {
        FuseState::BlownAt(at, n) => {
            tear_refused(&mut image, at, n, torn)?;
            Ok(image)
        }
        FuseState::Sound | FuseState::Armed(_) | FuseState::Blown => Ok(image),
    }
}

// A copy with each byte torn that was written since the last sync.
fn torn_copy(
    alloc: Global,
    bytes: &[u8],
    done: &[DoneCall],
    torn: u8,
) -> Result<Vec<u8>, AllocError>
    ensures len { IfOk result (λ image. length image.items ≡ length bytes.now) }
    ensures each { IfOk result (λ image. (i : ℕ) → i < length bytes.now → byte_at image.items i ≡ (if is_untouched (calls_of done.now) i then byte_at bytes.now i else torn)) }
{
    let mut image = bytes.to_vec(alloc)?;
    tear_written(&mut image, done, torn);
    Ok(image)
}

// Tears each range that was written since the last sync.
fn tear_written(image: &mut [u8], done: &[DoneCall], torn: u8)
    ensures len { length image.new ≡ length image.old }
    ensures each { (i : ℕ) → i < length image.old → byte_at image.new i ≡ (if is_untouched (calls_of done.now) i then byte_at image.old i else torn) }
{
    let mut left = done.len();
    while left > 0 {
        left -= 1;
        match &done[left] {
            DoneCall::Wrote(at, bytes) => tear(image, *at, bytes.len() as u64, torn),
            DoneCall::Synced => return,
        }
    }
}

// Tears the range of a write that failed, and makes the image as long as it may have become. No vector
// holds a range that passes 2^64.
fn tear_refused(image: &mut Vec<u8>, at: u64, n: u64, torn: u8) -> Result<(), AllocError>
    ensures len { OnOk result (length image.new.items ≡ max (length image.old.items) (range_end at n)) }
    ensures each { OnOk result ((i : ℕ) → i < length image.new.items → byte_at image.new.items i ≡ (if covers at n i then torn else byte_at image.old.items i)) }
{
    if n == 0 {
        return Ok(());
    }
    grow(image, at.saturating_add(n) as usize)?;
    tear(image, at, n, torn);
    Ok(())
}

// Sets the bytes of a range, as far as they are there.
fn tear(image: &mut [u8], at: u64, n: u64, torn: u8)
    ensures len { length image.new ≡ length image.old }
    ensures each { (i : ℕ) → i < length image.old → byte_at image.new i ≡ (if covers at n i then torn else byte_at image.old i) }
{
    let end = at.saturating_add(n).min(image.len() as u64);
    if at < end {
        fill_between(image, at as usize, end as usize, torn);
    }
}

fn fill_between(bytes: &mut [u8], from: usize, end: usize, value: u8)
    requires { (from ≤ end) × (end ≤ length bytes.old) }
    ensures { bytes.new ≡ take from bytes.old ++ replicate (end - from) value ++ drop (from + (end - from)) bytes.old }
{
    bytes[from..end].fill(value);
}
