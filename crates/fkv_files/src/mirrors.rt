//! A device that is kept in memory too.
ghost use Rattle.std.specs.Prelude.{◌≡◌, ◌≤◌, ◌+◌, ◌-◌, ◌^◌, [], length, min, false, ⊤, IfOk};
ghost use Rattle.fkv_disk.specs.Device.{IsAfter};
ghost use Rattle.fkv_disk.specs.Done.{calls_of, counts_now, only_now};
ghost use Rattle.fkv_disk.specs.Kinds.{nothing};
ghost use Rattle.fkv_disk.specs.Memory.{disk_calls, disk_opening};
ghost use Rattle.fkv_disk.specs.Stays.{seen_left};
ghost use Rattle.std.proofs.Props.{props};

use fkv_base::Fault;
use fkv_disk::{Device, MemDisk};
use std::alloc::Global;

/// Passes writes and syncs on to a device, and keeps its bytes in memory, where reads find them.
///
/// So it is honest whatever its device is: what it reads as, and what a crash may leave, are what its calls give. If its device is
/// honest too, that reads so, and leaves no more, until it refuses a call. From then on each write and sync is refused.
///
/// Memory has the bytes with which it was made, those that it reads as, and those of each write.
#[derive(Drop)]
pub struct Mirror<D: Device> {
    device: D,
    memory: MemDisk,
    /// The device has refused a call.
    is_lost: bool,
    failures: u64,
    ghost after: { is_lost ≡ false → D.Device.honest device → IsAfter (disk_opening memory) (disk_calls memory) (D.Device.seen device) (D.Device.may_leave device) } by { Prim.hlevel props },
}

impl<D: Device + Drop> Mirror<D> {
    ghost use Rattle.fkv_files.specs.Mirrors.{is_lost, mirror_bytes, mirror_calls, mirror_device, mirror_opening};

    /// A device of so many bytes, which are synced and then read. `Device` where it refuses that, `Memory` where memory is refused.
    pub fn new(alloc: Global, device: D, count: u64) -> Result<Mirror<D>, Fault>
        requires whole { D.honest device → length (D.seen device) ≡ count }
        ensures bytes { D.honest device → IfOk result (λ mirror. mirror_bytes mirror ≡ D.seen device) }
        ensures opening { IfOk result (λ mirror. mirror_opening mirror ≡ mirror_bytes mirror) }
        ensures calls { IfOk result (λ mirror. mirror_calls mirror ≡ []) }
        ensures not_lost { IfOk result (λ mirror. is_lost mirror ≡ false) }
    {
        let mut device = device;
        device.sync()?;
        let mut bytes = Vec::new(alloc);
        bytes.resize(count as usize, 0)?;
        device.read(0, &mut bytes)?;
        let memory = MemDisk::from_bytes(alloc, bytes)?;
        Ok(Mirror {
            device,
            memory,
            is_lost: false,
            failures: 0,
        })
    }

    /// The device that its writes and syncs go on to. If it is honest and has refused no call, it reads as, and may leave, what they give.
    pub fn device(&self) -> &D
        ensures device { result.now ≡ mirror_device self.now }
        ensures after { is_lost self.now ≡ false → D.honest result.now → IsAfter (mirror_opening self.now) (mirror_calls self.now) (D.seen result.now) (D.may_leave result.now) }
    {
        &self.device
    }
}

// Counts a failure, up to 2^64 - 1, and names it.
fn refuse(failures: &mut u64) -> Fault
    ensures named { result ≡ Fault.Device }
    ensures counted { failures.new ≡ min (failures.old + 1) (2 ^ 64 - 1) }
    ensures later { failures.old ≤ failures.new }
{
    *failures = failures.saturating_add(1);
    Fault::Device
}

impl<D: Device> Device for Mirror<D> {
    ghost honest = { λ _. ⊤ };

    ghost seen = { λ mirror. ⟦<MemDisk as Device>⟧.seen mirror.memory };

    ghost may_leave = { λ mirror. ⟦<MemDisk as Device>⟧.may_leave mirror.memory };

    ghost moment = { λ mirror. ⟦<MemDisk as Device>⟧.moment mirror.memory };

    ghost left_since = { λ mirror. ⟦<MemDisk as Device>⟧.left_since mirror.memory };

    ghost failed = { λ mirror. mirror.failures };

    ghost refuses = { λ _ _. false };

    ghost expects = { λ _ _. nothing };

    ghost counts_now = { λ mirror t image claim le left. counts_now mirror.memory.forgotten mirror.memory.opening.items (calls_of mirror.memory.done.items) t image le left };

    ghost only_now = { λ mirror image claim left. only_now mirror.memory.forgotten mirror.memory.opening.items (calls_of mirror.memory.done.items) image left };

    ghost leaves_seen = { λ mirror claim. seen_left mirror.memory.opening.items (calls_of mirror.memory.done.items) mirror.memory.bytes.items mirror.memory.is_replayed mirror.memory.are_bytes };

    ghost leaves_bytes = { λ mirror image claim left. left.are_bytes };

    fn read(&mut self, at: u64, into: &mut [u8]) -> Result<(), Fault> {
        self.memory.read(at, into)
    }

    fn write(&mut self, at: u64, bytes: &[u8]) -> Result<(), Fault> {
        if self.is_lost {
            return Err(refuse(&mut self.failures));
        }
        match self.memory.write(at, bytes) {
            Ok(()) => {}
            // Memory is refused, and nothing has happened.
            Err(_) => return Err(refuse(&mut self.failures)),
        }
        match self.device.write(at, bytes) {
            Ok(()) => Ok(()),
            Err(_) => {
                self.is_lost = true;
                Err(refuse(&mut self.failures))
            }
        }
    }

    fn sync(&mut self) -> Result<(), Fault> {
        if self.is_lost {
            return Err(refuse(&mut self.failures));
        }
        match self.device.sync() {
            Ok(()) => {}
            Err(_) => {
                self.is_lost = true;
                return Err(refuse(&mut self.failures));
            }
        }
        match self.memory.sync() {
            Ok(()) => Ok(()),
            Err(_) => Err(refuse(&mut self.failures)),
        }
    }

    fn failures(&self) -> u64 {
        self.failures
    }
}
