//! A device that fails one call.
ghost use Rattle.std.specs.Prelude.{◌≡◌, ◌≢◌, ◌+◌, ◌-◌, ◌≤◌, ◌^◌, ◌↔◌, length, min, Some, None, Err, is_ok, IsErr, OnOk, OnErr, false};
ghost use Rattle.fkv_disk.specs.Bytes.{bytes_at};
ghost use Rattle.fkv_disk.specs.Countdown.{counted_down, refusals, once_refuses};
ghost use Rattle.fkv_disk.specs.Device.{Writes, LeavesNoMore, LeavesTorn, LeavesOnly, Elapses, HasCause, MakesCalls};
ghost use Rattle.fkv_disk.specs.Kinds.{Reading, Writing, Syncing, after_kind, nothing};

use crate::Device;
use fkv_base::Fault;

/// Passes calls on to a device, but for one, which it refuses and doesn't pass on.
#[derive(Drop)]
pub struct Once<D: Device> {
    device: D,
    left: Option<u64>,
}

impl<D: Device> Once<D> {
    ghost use Rattle.fkv_disk.specs.Once.{once_device, once_left};

    /// `k` calls pass, the next one is refused, and all later ones pass.
    pub fn new(device: D, k: u64) -> Once<D>
        ensures device { once_device result ≡ device }
        ensures left { once_left result ≡ Some k }
    {
        Once {
            device,
            left: Some(k),
        }
    }

    /// The device that it passes calls on to.
    pub fn device(&self) -> &D
        ensures { result.now ≡ once_device self.now }
    {
        &self.device
    }

    /// The device by itself.
    pub fn into_device(self) -> D
        ensures { result ≡ once_device self }
    {
        let Once { device, .. } = self;
        device
    }

    // Counts a call, and refuses the one that fails.
    fn pass(&mut self) -> Result<(), Fault>
        ensures device { once_device self.new ≡ once_device self.old }
        ensures left { once_left self.new ≡ counted_down (once_left self.old) }
        ensures fails { IsErr result ↔ (once_left self.old ≡ Some 0) }
        ensures named { OnErr result (result ≡ Err Fault.Device) }
    {
        match self.left {
            None => Ok(()),
            Some(0) => {
                self.left = None;
                Err(Fault::Device)
            }
            Some(more) => {
                self.left = Some(more - 1);
                Ok(())
            }
        }
    }
}

impl<D: Device> Device for Once<D> {
    ghost use Rattle.fkv_disk.specs.Once.{once_device, once_left};

    ghost honest = { λ once. D.Device.honest once.device };

    ghost seen = { λ once. D.Device.seen once.device };

    ghost may_leave = { λ once. D.Device.may_leave once.device };

    ghost moment = { λ once. D.Device.moment once.device };

    ghost left_since = { λ once. D.Device.left_since once.device };

    ghost failed = { λ once. min (D.Device.failed once.device + refusals once.left) (2 ^ 64 - 1) };

    ghost refuses = { λ once. once_refuses once.left (D.Device.refuses once.device) };

    ghost expects = { λ _ _. nothing };

    ghost counts_now = { λ once. D.Device.counts_now once.device };

    ghost only_now = { λ once. D.Device.only_now once.device };

    ghost leaves_seen = { λ once. D.Device.leaves_seen once.device };

    ghost leaves_bytes = { λ once. D.Device.leaves_bytes once.device };

    fn read(&mut self, at: u64, into: &mut [u8]) -> Result<(), Fault>
        ensures honest { ⟦<Once<D> as Device>⟧.honest self.old ↔ ⟦<Once<D> as Device>⟧.honest self.new }
        ensures bytes { ⟦<Once<D> as Device>⟧.honest self.old → OnOk result (into.new ≡ bytes_at (⟦<Once<D> as Device>⟧.seen self.old) at (length into.old)) }
        ensures seen { ⟦<Once<D> as Device>⟧.honest self.old → ⟦<Once<D> as Device>⟧.seen self.new ≡ ⟦<Once<D> as Device>⟧.seen self.old }
        ensures crash { ⟦<Once<D> as Device>⟧.honest self.old → LeavesNoMore (⟦<Once<D> as Device>⟧.may_leave self.old) (⟦<Once<D> as Device>⟧.may_leave self.new) }
        ensures time { ⟦<Once<D> as Device>⟧.honest self.old → Elapses (⟦<Once<D> as Device>⟧.moment self.old) (⟦<Once<D> as Device>⟧.moment self.new) (⟦<Once<D> as Device>⟧.left_since self.old) (⟦<Once<D> as Device>⟧.left_since self.new) (⟦<Once<D> as Device>⟧.may_leave self.new) }
        ensures cause { HasCause (⟦<Once<D> as Device>⟧.failed self.old) (⟦<Once<D> as Device>⟧.failed self.new) result }
        ensures counted { MakesCalls 1 (⟦<Once<D> as Device>⟧.refuses self.old) (⟦<Once<D> as Device>⟧.refuses self.new) result }
        ensures kind { ⟦<Once<D> as Device>⟧.expects self.new ≡ after_kind Reading (⟦<Once<D> as Device>⟧.expects self.old) }

        ensures left { once_left self.new ≡ counted_down (once_left self.old) }
        ensures fails { once_left self.old ≡ Some 0 → IsErr result }
        ensures untouched { once_left self.old ≡ Some 0 → once_device self.new ≡ once_device self.old }
        ensures lets_pass { once_left self.old ≢ Some 0 → HasCause (D.failed (once_device self.old)) (D.failed (once_device self.new)) result }
        ensures passed_on { once_left self.old ≢ Some 0 → MakesCalls 1 (D.refuses (once_device self.old)) (D.refuses (once_device self.new)) result }
    {
        self.pass()?;
        self.device.read(at, into)
    }

    fn write(&mut self, at: u64, bytes: &[u8]) -> Result<(), Fault>
        ensures honest { ⟦<Once<D> as Device>⟧.honest self.old ↔ ⟦<Once<D> as Device>⟧.honest self.new }
        ensures seen { ⟦<Once<D> as Device>⟧.honest self.old → Writes at bytes.now (is_ok result) (⟦<Once<D> as Device>⟧.seen self.old) (⟦<Once<D> as Device>⟧.seen self.new) }
        ensures crash { ⟦<Once<D> as Device>⟧.honest self.old → LeavesTorn at (length bytes.now) (⟦<Once<D> as Device>⟧.may_leave self.old) (⟦<Once<D> as Device>⟧.may_leave self.new) }
        ensures time { ⟦<Once<D> as Device>⟧.honest self.old → Elapses (⟦<Once<D> as Device>⟧.moment self.old) (⟦<Once<D> as Device>⟧.moment self.new) (⟦<Once<D> as Device>⟧.left_since self.old) (⟦<Once<D> as Device>⟧.left_since self.new) (⟦<Once<D> as Device>⟧.may_leave self.new) }
        ensures cause { HasCause (⟦<Once<D> as Device>⟧.failed self.old) (⟦<Once<D> as Device>⟧.failed self.new) result }
        ensures counted { MakesCalls 1 (⟦<Once<D> as Device>⟧.refuses self.old) (⟦<Once<D> as Device>⟧.refuses self.new) result }
        ensures kind { ⟦<Once<D> as Device>⟧.expects self.new ≡ after_kind (Writing at bytes.now (is_ok result)) (⟦<Once<D> as Device>⟧.expects self.old) }

        ensures left { once_left self.new ≡ counted_down (once_left self.old) }
        ensures fails { once_left self.old ≡ Some 0 → IsErr result }
        ensures untouched { once_left self.old ≡ Some 0 → once_device self.new ≡ once_device self.old }
        ensures lets_pass { once_left self.old ≢ Some 0 → HasCause (D.failed (once_device self.old)) (D.failed (once_device self.new)) result }
        ensures passed_on { once_left self.old ≢ Some 0 → MakesCalls 1 (D.refuses (once_device self.old)) (D.refuses (once_device self.new)) result }
    {
        self.pass()?;
        self.device.write(at, bytes)
    }

    fn sync(&mut self) -> Result<(), Fault>
        ensures honest { ⟦<Once<D> as Device>⟧.honest self.old ↔ ⟦<Once<D> as Device>⟧.honest self.new }
        ensures durable { ⟦<Once<D> as Device>⟧.honest self.old → OnOk result (LeavesOnly (⟦<Once<D> as Device>⟧.seen self.old) (⟦<Once<D> as Device>⟧.may_leave self.new)) }
        ensures seen { ⟦<Once<D> as Device>⟧.honest self.old → ⟦<Once<D> as Device>⟧.seen self.new ≡ ⟦<Once<D> as Device>⟧.seen self.old }
        ensures crash { ⟦<Once<D> as Device>⟧.honest self.old → LeavesNoMore (⟦<Once<D> as Device>⟧.may_leave self.old) (⟦<Once<D> as Device>⟧.may_leave self.new) }
        ensures time { ⟦<Once<D> as Device>⟧.honest self.old → Elapses (⟦<Once<D> as Device>⟧.moment self.old) (⟦<Once<D> as Device>⟧.moment self.new) (⟦<Once<D> as Device>⟧.left_since self.old) (⟦<Once<D> as Device>⟧.left_since self.new) (⟦<Once<D> as Device>⟧.may_leave self.new) }
        ensures cause { HasCause (⟦<Once<D> as Device>⟧.failed self.old) (⟦<Once<D> as Device>⟧.failed self.new) result }
        ensures counted { MakesCalls 1 (⟦<Once<D> as Device>⟧.refuses self.old) (⟦<Once<D> as Device>⟧.refuses self.new) result }
        ensures kind { ⟦<Once<D> as Device>⟧.expects self.new ≡ after_kind (Syncing (is_ok result)) (⟦<Once<D> as Device>⟧.expects self.old) }

        ensures left { once_left self.new ≡ counted_down (once_left self.old) }
        ensures fails { once_left self.old ≡ Some 0 → IsErr result }
        ensures untouched { once_left self.old ≡ Some 0 → once_device self.new ≡ once_device self.old }
        ensures lets_pass { once_left self.old ≢ Some 0 → HasCause (D.failed (once_device self.old)) (D.failed (once_device self.new)) result }
        ensures passed_on { once_left self.old ≢ Some 0 → MakesCalls 1 (D.refuses (once_device self.old)) (D.refuses (once_device self.new)) result }
    {
        self.pass()?;
        self.device.sync()
    }

    fn failures(&self) -> u64 {
        self.device
            .failures()
            .saturating_add(self.left.is_none() as u64)
    }
}
