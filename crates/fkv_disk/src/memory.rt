//! A device in memory. It keeps its calls, so that a crash may leave all that the definition allows.
ghost use Rattle.std.specs.Prelude.{◌≡◌, ◌↔◌, ◌+◌, ◌-◌, ◌<◌, ◌≤◌, ◌^◌, [], ◌∷◌, ◌++◌, length, take, drop, replicate, true, false, ⊤, is_ok, IsOk, IfOk, IfErr, OnOk, OnErr, if◌then◌else◌};
ghost use Rattle.fkv_disk.specs.Bytes.{bytes_at, written, AreBytes};
ghost use Rattle.fkv_disk.specs.Calls.{Write, Sync, reads_as};
ghost use Rattle.fkv_disk.specs.Device.{Writes, LeavesNoMore, LeavesTorn, LeavesOnly, Elapses, HasCause, MakesCalls};
ghost use Rattle.fkv_disk.specs.Kinds.{Reading, Writing, Syncing, after_kind, noted};
ghost use Rattle.fkv_disk.specs.Done.{calls_of, MayLeaveBytes, LeftSince, counts_now, only_now};
ghost use Rattle.fkv_disk.specs.Stays.{seen_left};

use crate::Device;
use crate::refusals::refuse;
use fkv_base::Fault;
use std::alloc::{AllocError, Global};

/// A call that succeeded.
#[derive(Drop)]
pub(crate) enum DoneCall {
    Wrote(u64, Vec<u8>),
    Synced,
}

/// A device in memory. It keeps its bytes, those that it was made with, and each write and sync that
/// succeeded, up to where it is told to forget them. A growth that memory refuses is a failure of the device, which changes nothing.
#[derive(Drop)]
pub struct MemDisk {
    pub(crate) alloc: Global,
    pub(crate) opening: Vec<u8>,
    pub(crate) bytes: Vec<u8>,
    pub(crate) done: Vec<DoneCall>,
    pub(crate) forgotten: u64,
    failures: u64,
    ghost is_replayed: { bytes.items ≡ reads_as opening.items (calls_of done.items) },
    ghost are_bytes: { AreBytes bytes.items },
}

impl MemDisk {
    ghost use Rattle.fkv_disk.specs.Memory.{disk_bytes, disk_opening, disk_calls, disk_forgotten, disk_failures};

    /// An empty device. Its later growth is in `alloc`.
    pub fn new(alloc: Global) -> MemDisk
        ensures bytes { disk_bytes result ≡ [] }
        ensures opening { disk_opening result ≡ [] }
        ensures calls { disk_calls result ≡ [] }
        ensures forgotten { disk_forgotten result ≡ 0 }
        ensures failures { disk_failures result ≡ 0 }
    {
        synced(alloc, Vec::new(alloc), Vec::new(alloc))
    }

    /// A device with these bytes, all of them synced. `Fault::Memory` where memory is refused for a copy.
    pub fn from_bytes(alloc: Global, bytes: Vec<u8>) -> Result<MemDisk, Fault>
        ensures bytes { IfOk result (λ disk. disk_bytes disk ≡ bytes.items) }
        ensures opening { IfOk result (λ disk. disk_opening disk ≡ bytes.items) }
        ensures calls { IfOk result (λ disk. disk_calls disk ≡ []) }
        ensures forgotten { IfOk result (λ disk. disk_forgotten disk ≡ 0) }
        ensures failures { IfOk result (λ disk. disk_failures disk ≡ 0) }
        ensures memory { IfErr result (λ fault. fault ≡ Fault.Memory) }
    {
        let opening = bytes.to_vec(alloc)?;
        Ok(synced(alloc, opening, bytes))
    }

    /// The bytes that it reads as.
    pub fn bytes(&self) -> &[u8]
        ensures { result.now ≡ disk_bytes self.now }
    {
        &self.bytes
    }

    /// The bytes that it reads as, handed out.
    pub fn into_bytes(self) -> Vec<u8>
        ensures { result.items ≡ disk_bytes self }
    {
        self.bytes
    }
}

fn synced(alloc: Global, opening: Vec<u8>, bytes: Vec<u8>) -> MemDisk
    requires { bytes.items ≡ opening.items }
    ensures bytes { result.bytes ≡ bytes }
    ensures opening { result.opening ≡ opening }
    ensures calls { result.done.items ≡ [] }
    ensures forgotten { result.forgotten ≡ 0 }
    ensures failures { result.failures ≡ 0 }
{
    MemDisk {
        alloc,
        opening,
        bytes,
        done: Vec::new(alloc),
        forgotten: 0,
        failures: 0,
    }
}

// Fills with the bytes from an offset on, and past the end with 0.
fn fill(bytes: &[u8], at: u64, into: &mut [u8])
    ensures { into.new ≡ bytes_at bytes.now at (length into.old) }
{
    into.fill(0);
    if at < bytes.len() as u64 {
        let rest = &bytes[at as usize..];
        let count = rest.len().min(into.len());
        overwrite(into, 0, &rest[..count]);
    }
}

fn overwrite(bytes: &mut [u8], at: usize, new: &[u8])
    requires { at + length new.now ≤ length bytes.old }
    ensures { bytes.new ≡ take at bytes.old ++ new.now ++ drop (at + length new.now) bytes.old }
{
    bytes[at..at + new.len()].copy_from_slice(new);
}

pub(crate) fn grow(bytes: &mut Vec<u8>, end: usize) -> Result<(), AllocError>
    ensures ok { OnOk result (bytes.new.items ≡ bytes.old.items ++ replicate (end - length bytes.old.items) 0) }
    ensures err { OnErr result (bytes.new.items ≡ bytes.old.items) }
    ensures fits { OnOk result (end < 2 ^ 63) }
{
    if bytes.len() < end {
        bytes.resize(end, 0)?;
    }
    Ok(())
}

// Puts bytes in their place, with zeros in a gap before them. No vector holds a range that passes 2^64.
pub(crate) fn put(bytes: &mut Vec<u8>, at: u64, new: &[u8]) -> Result<(), AllocError>
    ensures ok { OnOk result (bytes.new.items ≡ written bytes.old.items at new.now) }
    ensures err { OnErr result (bytes.new.items ≡ bytes.old.items) }
    ensures were_bytes { AreBytes bytes.old.items }
{
    if new.is_empty() {
        return Ok(());
    }
    let end = at.saturating_add(new.len() as u64);
    grow(bytes, end as usize)?;
    overwrite(bytes, at as usize, new);
    Ok(())
}

// A write is put down in the record first, and taken out again where the bytes can't grow.
fn put_and_record(
    alloc: Global,
    bytes: &mut Vec<u8>,
    done: &mut Vec<DoneCall>,
    at: u64,
    new: &[u8],
) -> Result<(), AllocError>
    ensures bytes { OnOk result (bytes.new.items ≡ written bytes.old.items at new.now) }
    ensures calls { OnOk result (calls_of done.new.items ≡ Write at new.now true ∷ calls_of done.old.items) }
    ensures bytes_err { OnErr result (bytes.new.items ≡ bytes.old.items) }
    ensures calls_err { OnErr result (done.new.items ≡ done.old.items) }
    ensures were_bytes { AreBytes bytes.old.items }
    ensures are_bytes { AreBytes bytes.new.items }
{
    done.push(DoneCall::Wrote(at, new.to_vec(alloc)?))?;
    if put(bytes, at, new).is_err() {
        done.pop();
        return Err(AllocError);
    }
    Ok(())
}

fn record_sync(done: &mut Vec<DoneCall>) -> Result<(), AllocError>
    ensures calls { OnOk result (calls_of done.new.items ≡ Sync true ∷ calls_of done.old.items) }
    ensures calls_err { OnErr result (done.new.items ≡ done.old.items) }
{
    done.push(DoneCall::Synced)?;
    Ok(())
}

impl Device for MemDisk {
    ghost use Rattle.fkv_disk.specs.Memory.{disk_opening, disk_calls, disk_forgotten};

    ghost honest = { λ _. ⊤ };

    ghost seen = { λ disk. disk.bytes.items };

    ghost may_leave = { λ disk image. MayLeaveBytes disk.opening.items (calls_of disk.done.items) image };

    ghost moment = { λ disk. disk.forgotten + length (calls_of disk.done.items) };

    ghost left_since = { λ disk t image. LeftSince disk.forgotten disk.opening.items (calls_of disk.done.items) t image };

    ghost failed = { λ disk. disk.failures };

    ghost refuses = { λ _ _. false };

    ghost expects = { λ disk later. record { holds = false; opening = disk.opening.items; calls = noted later (calls_of disk.done.items) } };

    ghost counts_now = { λ disk t image claim le left. counts_now disk.forgotten disk.opening.items (calls_of disk.done.items) t image le left };

    ghost only_now = { λ disk image claim left. only_now disk.forgotten disk.opening.items (calls_of disk.done.items) image left };

    ghost leaves_seen = { λ disk claim. seen_left disk.opening.items (calls_of disk.done.items) disk.bytes.items disk.is_replayed disk.are_bytes };

    ghost leaves_bytes = { λ disk image claim left. left.are_bytes };

    fn read(&mut self, at: u64, into: &mut [u8]) -> Result<(), Fault>
        ensures honest { ⟦<MemDisk as Device>⟧.honest self.old ↔ ⟦<MemDisk as Device>⟧.honest self.new }
        ensures bytes { ⟦<MemDisk as Device>⟧.honest self.old → OnOk result (into.new ≡ bytes_at (⟦<MemDisk as Device>⟧.seen self.old) at (length into.old)) }
        ensures seen { ⟦<MemDisk as Device>⟧.honest self.old → ⟦<MemDisk as Device>⟧.seen self.new ≡ ⟦<MemDisk as Device>⟧.seen self.old }
        ensures crash { ⟦<MemDisk as Device>⟧.honest self.old → LeavesNoMore (⟦<MemDisk as Device>⟧.may_leave self.old) (⟦<MemDisk as Device>⟧.may_leave self.new) }
        ensures time { ⟦<MemDisk as Device>⟧.honest self.old → Elapses (⟦<MemDisk as Device>⟧.moment self.old) (⟦<MemDisk as Device>⟧.moment self.new) (⟦<MemDisk as Device>⟧.left_since self.old) (⟦<MemDisk as Device>⟧.left_since self.new) (⟦<MemDisk as Device>⟧.may_leave self.new) }
        ensures cause { HasCause (⟦<MemDisk as Device>⟧.failed self.old) (⟦<MemDisk as Device>⟧.failed self.new) result }
        ensures counted { MakesCalls 1 (⟦<MemDisk as Device>⟧.refuses self.old) (⟦<MemDisk as Device>⟧.refuses self.new) result }
        ensures kind { ⟦<MemDisk as Device>⟧.expects self.new ≡ after_kind Reading (⟦<MemDisk as Device>⟧.expects self.old) }

        ensures succeeds { IsOk result }
        ensures calls { disk_calls self.new ≡ disk_calls self.old }
        ensures opening { disk_opening self.new ≡ disk_opening self.old }
        ensures forgotten { disk_forgotten self.new ≡ disk_forgotten self.old }
    {
        fill(&self.bytes, at, into);
        Ok(())
    }

    fn write(&mut self, at: u64, bytes: &[u8]) -> Result<(), Fault>
        ensures honest { ⟦<MemDisk as Device>⟧.honest self.old ↔ ⟦<MemDisk as Device>⟧.honest self.new }
        ensures seen { ⟦<MemDisk as Device>⟧.honest self.old → Writes at bytes.now (is_ok result) (⟦<MemDisk as Device>⟧.seen self.old) (⟦<MemDisk as Device>⟧.seen self.new) }
        ensures crash { ⟦<MemDisk as Device>⟧.honest self.old → LeavesTorn at (length bytes.now) (⟦<MemDisk as Device>⟧.may_leave self.old) (⟦<MemDisk as Device>⟧.may_leave self.new) }
        ensures time { ⟦<MemDisk as Device>⟧.honest self.old → Elapses (⟦<MemDisk as Device>⟧.moment self.old) (⟦<MemDisk as Device>⟧.moment self.new) (⟦<MemDisk as Device>⟧.left_since self.old) (⟦<MemDisk as Device>⟧.left_since self.new) (⟦<MemDisk as Device>⟧.may_leave self.new) }
        ensures cause { HasCause (⟦<MemDisk as Device>⟧.failed self.old) (⟦<MemDisk as Device>⟧.failed self.new) result }
        ensures counted { MakesCalls 1 (⟦<MemDisk as Device>⟧.refuses self.old) (⟦<MemDisk as Device>⟧.refuses self.new) result }
        ensures kind { ⟦<MemDisk as Device>⟧.expects self.new ≡ after_kind (Writing at bytes.now (is_ok result)) (⟦<MemDisk as Device>⟧.expects self.old) }

        ensures calls { disk_calls self.new ≡ (if is_ok result then Write at bytes.now true ∷ disk_calls self.old else disk_calls self.old) }
        ensures opening { disk_opening self.new ≡ disk_opening self.old }
        ensures forgotten { disk_forgotten self.new ≡ disk_forgotten self.old }
    {
        match put_and_record(self.alloc, &mut self.bytes, &mut self.done, at, bytes) {
            Ok(()) => Ok(()),
            Err(_) => Err(refuse(&mut self.failures)),
        }
    }

    fn sync(&mut self) -> Result<(), Fault>
        ensures honest { ⟦<MemDisk as Device>⟧.honest self.old ↔ ⟦<MemDisk as Device>⟧.honest self.new }
        ensures durable { ⟦<MemDisk as Device>⟧.honest self.old → OnOk result (LeavesOnly (⟦<MemDisk as Device>⟧.seen self.old) (⟦<MemDisk as Device>⟧.may_leave self.new)) }
        ensures seen { ⟦<MemDisk as Device>⟧.honest self.old → ⟦<MemDisk as Device>⟧.seen self.new ≡ ⟦<MemDisk as Device>⟧.seen self.old }
        ensures crash { ⟦<MemDisk as Device>⟧.honest self.old → LeavesNoMore (⟦<MemDisk as Device>⟧.may_leave self.old) (⟦<MemDisk as Device>⟧.may_leave self.new) }
        ensures time { ⟦<MemDisk as Device>⟧.honest self.old → Elapses (⟦<MemDisk as Device>⟧.moment self.old) (⟦<MemDisk as Device>⟧.moment self.new) (⟦<MemDisk as Device>⟧.left_since self.old) (⟦<MemDisk as Device>⟧.left_since self.new) (⟦<MemDisk as Device>⟧.may_leave self.new) }
        ensures cause { HasCause (⟦<MemDisk as Device>⟧.failed self.old) (⟦<MemDisk as Device>⟧.failed self.new) result }
        ensures counted { MakesCalls 1 (⟦<MemDisk as Device>⟧.refuses self.old) (⟦<MemDisk as Device>⟧.refuses self.new) result }
        ensures kind { ⟦<MemDisk as Device>⟧.expects self.new ≡ after_kind (Syncing (is_ok result)) (⟦<MemDisk as Device>⟧.expects self.old) }

        ensures calls { disk_calls self.new ≡ (if is_ok result then Sync true ∷ disk_calls self.old else disk_calls self.old) }
        ensures opening { disk_opening self.new ≡ disk_opening self.old }
        ensures forgotten { disk_forgotten self.new ≡ disk_forgotten self.old }
    {
        match record_sync(&mut self.done) {
            Ok(()) => Ok(()),
            Err(_) => Err(refuse(&mut self.failures)),
        }
    }

    fn failures(&self) -> u64 {
        self.failures
    }
}
