//! A device that fails from some call on, as where the power is cut.
ghost use Rattle.std.specs.Prelude.{◌≡◌, ◌+◌, ◌-◌, ◌≤◌, ◌^◌, ◌↔◌, ◌||◌, ℕ, nat_le, length, min, true, false, is_ok, IsErr, OnOk};
ghost use Rattle.fkv_disk.specs.Bytes.{bytes_at};
ghost use Rattle.fkv_disk.specs.Device.{Rose, Writes, LeavesNoMore, LeavesTorn, LeavesOnly, Elapses, HasCause, MakesCalls};
ghost use Rattle.fkv_disk.specs.Kinds.{Reading, Writing, Syncing, after_kind};
ghost use Rattle.fkv_disk.specs.Fuse.{passes, burned, burned_at, armed, is_blown, FuseLeaves, FuseLeftSince, fuse_counts_now, fuse_only_now, fuse_leaves_whole, fuse_leaves_bytes, fuse_refuses, fuse_foretells};

use crate::Device;
use crate::refusals::refuse;
use fkv_base::Fault;

/// How far a fuse is from blowing.
#[derive(Clone, Copy, Debug, PartialEq, Eq)]
pub enum FuseState {
    /// Every call passes.
    Sound,
    /// So many calls still pass.
    Armed(u64),
    /// Blown at a read or a sync.
    Blown,
    /// Blown at a write: its offset and its length.
    BlownAt(u64, u64),
}

/// Passes calls on to a device until it blows; then it refuses each call, for good. The write at which it
/// blew counts as failed: a crash may leave anything in its range.
#[derive(Drop)]
pub struct Fuse<D: Device> {
    pub(crate) device: D,
    pub(crate) state: FuseState,
    refused: u64,
}

impl<D: Device> Fuse<D> {
    ghost use Rattle.fkv_disk.specs.Fuses.{fuse_device, fuse_state, fuse_refused};

    /// A fuse that isn't armed.
    pub fn new(device: D) -> Fuse<D>
        ensures device { fuse_device result ≡ device }
        ensures state { fuse_state result ≡ FuseState.Sound }
        ensures refused { fuse_refused result ≡ 0 }
    {
        Fuse {
            device,
            state: FuseState::Sound,
            refused: 0,
        }
    }

    /// From now on `k` calls pass, and then each is refused: the calls numbered `k` and more, counted from the next one
    /// on, and of those before it the ones that its device says that it refuses. A fuse that has blown stays so.
    pub fn arm(&mut self, k: u64)
        ensures device { fuse_device self.new ≡ fuse_device self.old }
        ensures state { fuse_state self.new ≡ armed k (fuse_state self.old) }
        ensures refused { fuse_refused self.new ≡ fuse_refused self.old }
        ensures passes { is_blown (fuse_state self.old) ≡ false → (i : ℕ) → ⟦<Fuse<D> as Device>⟧.refuses self.new i ≡ (nat_le k i || D.refuses (fuse_device self.old) i) }
        ensures stays_blown { is_blown (fuse_state self.old) ≡ true → (fuse_state self.new ≡ fuse_state self.old) × ((i : ℕ) → ⟦<Fuse<D> as Device>⟧.refuses self.new i ≡ true) }
    {
        self.state = match self.state {
            FuseState::Sound | FuseState::Armed(_) => FuseState::Armed(k),
            blown => blown,
        };
    }

    /// How far it is from blowing.
    pub fn state(&self) -> FuseState
        ensures { result ≡ fuse_state self.now }
    {
        let Fuse { state, .. } = self;
        *state
    }

    /// The device that it passes calls on to.
    pub fn device(&self) -> &D
        ensures { result.now ≡ fuse_device self.now }
    {
        &self.device
    }

    /// The device, without the fuse.
    pub fn into_device(self) -> D
        ensures { result ≡ fuse_device self }
    {
        let Fuse { device, .. } = self;
        device
    }
}

// Lets a read or a sync pass, or blows.
fn burn(state: &mut FuseState) -> bool
    ensures passes { result ≡ passes state.old }
    ensures burned { state.new ≡ burned state.old }
{
    match *state {
        FuseState::Sound => true,
        FuseState::Armed(0) => {
            *state = FuseState::Blown;
            false
        }
        FuseState::Armed(left) => {
            *state = FuseState::Armed(left - 1);
            true
        }
        FuseState::Blown | FuseState::BlownAt(_, _) => false,
    }
}

// Lets a write pass, or blows at it.
fn burn_at(state: &mut FuseState, at: u64, n: u64) -> bool
    ensures passes { result ≡ passes state.old }
    ensures burned { state.new ≡ burned_at at n state.old }
{
    if *state == FuseState::Armed(0) {
        *state = FuseState::BlownAt(at, n);
        return false;
    }
    burn(state)
}

impl<D: Device> Device for Fuse<D> {
    ghost use Rattle.fkv_disk.specs.Fuses.{fuse_device, fuse_state, fuse_refused};

    ghost honest = { λ fuse. D.Device.honest fuse.device };

    ghost seen = { λ fuse. D.Device.seen fuse.device };

    ghost may_leave = { λ fuse image. FuseLeaves fuse.state (D.Device.may_leave fuse.device) image };

    ghost moment = { λ fuse. D.Device.moment fuse.device };

    ghost left_since = { λ fuse t image. FuseLeftSince fuse.state (D.Device.left_since fuse.device) (D.Device.may_leave fuse.device) t image };

    ghost failed = { λ fuse. min (D.Device.failed fuse.device + fuse.refused) (2 ^ 64 - 1) };

    ghost refuses = { λ fuse. fuse_refuses fuse.state (D.Device.refuses fuse.device) };

    ghost expects = { λ fuse. fuse_foretells fuse.state (D.Device.expects fuse.device) };

    ghost counts_now = { λ fuse t image claim le left. fuse_counts_now fuse.state (D.Device.left_since fuse.device) (D.Device.may_leave fuse.device) t image (D.Device.counts_now fuse.device t image claim le) left };

    ghost only_now = { λ fuse image claim left. fuse_only_now fuse.state (D.Device.left_since fuse.device) (D.Device.may_leave fuse.device) (D.Device.moment fuse.device) image (D.Device.only_now fuse.device image claim) (D.Device.leaves_bytes fuse.device image claim) left };

    ghost leaves_seen = { λ fuse claim. fuse_leaves_whole fuse.state (D.Device.may_leave fuse.device) (D.Device.seen fuse.device) (D.Device.leaves_bytes fuse.device (D.Device.seen fuse.device) claim (D.Device.leaves_seen fuse.device claim)) (D.Device.leaves_seen fuse.device claim) };

    ghost leaves_bytes = { λ fuse image claim left. fuse_leaves_bytes fuse.state (D.Device.may_leave fuse.device) image (D.Device.leaves_bytes fuse.device image claim) left };

    fn read(&mut self, at: u64, into: &mut [u8]) -> Result<(), Fault>
        ensures honest { ⟦<Fuse<D> as Device>⟧.honest self.old ↔ ⟦<Fuse<D> as Device>⟧.honest self.new }
        ensures bytes { ⟦<Fuse<D> as Device>⟧.honest self.old → OnOk result (into.new ≡ bytes_at (⟦<Fuse<D> as Device>⟧.seen self.old) at (length into.old)) }
        ensures seen { ⟦<Fuse<D> as Device>⟧.honest self.old → ⟦<Fuse<D> as Device>⟧.seen self.new ≡ ⟦<Fuse<D> as Device>⟧.seen self.old }
        ensures crash { ⟦<Fuse<D> as Device>⟧.honest self.old → LeavesNoMore (⟦<Fuse<D> as Device>⟧.may_leave self.old) (⟦<Fuse<D> as Device>⟧.may_leave self.new) }
        ensures time { ⟦<Fuse<D> as Device>⟧.honest self.old → Elapses (⟦<Fuse<D> as Device>⟧.moment self.old) (⟦<Fuse<D> as Device>⟧.moment self.new) (⟦<Fuse<D> as Device>⟧.left_since self.old) (⟦<Fuse<D> as Device>⟧.left_since self.new) (⟦<Fuse<D> as Device>⟧.may_leave self.new) }
        ensures cause { HasCause (⟦<Fuse<D> as Device>⟧.failed self.old) (⟦<Fuse<D> as Device>⟧.failed self.new) result }
        ensures counted { MakesCalls 1 (⟦<Fuse<D> as Device>⟧.refuses self.old) (⟦<Fuse<D> as Device>⟧.refuses self.new) result }
        ensures kind { ⟦<Fuse<D> as Device>⟧.expects self.new ≡ after_kind Reading (⟦<Fuse<D> as Device>⟧.expects self.old) }

        ensures state { fuse_state self.new ≡ burned (fuse_state self.old) }
        ensures refuses { passes (fuse_state self.old) ≡ false → IsErr result }
        ensures counts { passes (fuse_state self.old) ≡ false → fuse_refused self.new ≡ min (fuse_refused self.old + 1) (2 ^ 64 - 1) }
        ensures untouched { passes (fuse_state self.old) ≡ false → fuse_device self.new ≡ fuse_device self.old }
        ensures lets_pass { passes (fuse_state self.old) ≡ true → HasCause (D.failed (fuse_device self.old)) (D.failed (fuse_device self.new)) result }
        ensures passed_on { passes (fuse_state self.old) ≡ true → MakesCalls 1 (D.refuses (fuse_device self.old)) (D.refuses (fuse_device self.new)) result }
    {
        if burn(&mut self.state) {
            return self.device.read(at, into);
        }
        Err(refuse(&mut self.refused))
    }

    fn write(&mut self, at: u64, bytes: &[u8]) -> Result<(), Fault>
        ensures honest { ⟦<Fuse<D> as Device>⟧.honest self.old ↔ ⟦<Fuse<D> as Device>⟧.honest self.new }
        ensures seen { ⟦<Fuse<D> as Device>⟧.honest self.old → Writes at bytes.now (is_ok result) (⟦<Fuse<D> as Device>⟧.seen self.old) (⟦<Fuse<D> as Device>⟧.seen self.new) }
        ensures crash { ⟦<Fuse<D> as Device>⟧.honest self.old → LeavesTorn at (length bytes.now) (⟦<Fuse<D> as Device>⟧.may_leave self.old) (⟦<Fuse<D> as Device>⟧.may_leave self.new) }
        ensures time { ⟦<Fuse<D> as Device>⟧.honest self.old → Elapses (⟦<Fuse<D> as Device>⟧.moment self.old) (⟦<Fuse<D> as Device>⟧.moment self.new) (⟦<Fuse<D> as Device>⟧.left_since self.old) (⟦<Fuse<D> as Device>⟧.left_since self.new) (⟦<Fuse<D> as Device>⟧.may_leave self.new) }
        ensures cause { HasCause (⟦<Fuse<D> as Device>⟧.failed self.old) (⟦<Fuse<D> as Device>⟧.failed self.new) result }
        ensures counted { MakesCalls 1 (⟦<Fuse<D> as Device>⟧.refuses self.old) (⟦<Fuse<D> as Device>⟧.refuses self.new) result }
        ensures kind { ⟦<Fuse<D> as Device>⟧.expects self.new ≡ after_kind (Writing at bytes.now (is_ok result)) (⟦<Fuse<D> as Device>⟧.expects self.old) }

        ensures state { fuse_state self.new ≡ burned_at at (length bytes.now) (fuse_state self.old) }
        ensures refuses { passes (fuse_state self.old) ≡ false → IsErr result }
        ensures counts { passes (fuse_state self.old) ≡ false → fuse_refused self.new ≡ min (fuse_refused self.old + 1) (2 ^ 64 - 1) }
        ensures untouched { passes (fuse_state self.old) ≡ false → fuse_device self.new ≡ fuse_device self.old }
        ensures lets_pass { passes (fuse_state self.old) ≡ true → HasCause (D.failed (fuse_device self.old)) (D.failed (fuse_device self.new)) result }
        ensures passed_on { passes (fuse_state self.old) ≡ true → MakesCalls 1 (D.refuses (fuse_device self.old)) (D.refuses (fuse_device self.new)) result }
    {
        if burn_at(&mut self.state, at, bytes.len() as u64) {
            return self.device.write(at, bytes);
        }
        Err(refuse(&mut self.refused))
    }

    fn sync(&mut self) -> Result<(), Fault>
        ensures honest { ⟦<Fuse<D> as Device>⟧.honest self.old ↔ ⟦<Fuse<D> as Device>⟧.honest self.new }
        ensures durable { ⟦<Fuse<D> as Device>⟧.honest self.old → OnOk result (LeavesOnly (⟦<Fuse<D> as Device>⟧.seen self.old) (⟦<Fuse<D> as Device>⟧.may_leave self.new)) }
        ensures seen { ⟦<Fuse<D> as Device>⟧.honest self.old → ⟦<Fuse<D> as Device>⟧.seen self.new ≡ ⟦<Fuse<D> as Device>⟧.seen self.old }
        ensures crash { ⟦<Fuse<D> as Device>⟧.honest self.old → LeavesNoMore (⟦<Fuse<D> as Device>⟧.may_leave self.old) (⟦<Fuse<D> as Device>⟧.may_leave self.new) }
        ensures time { ⟦<Fuse<D> as Device>⟧.honest self.old → Elapses (⟦<Fuse<D> as Device>⟧.moment self.old) (⟦<Fuse<D> as Device>⟧.moment self.new) (⟦<Fuse<D> as Device>⟧.left_since self.old) (⟦<Fuse<D> as Device>⟧.left_since self.new) (⟦<Fuse<D> as Device>⟧.may_leave self.new) }
        ensures cause { HasCause (⟦<Fuse<D> as Device>⟧.failed self.old) (⟦<Fuse<D> as Device>⟧.failed self.new) result }
        ensures counted { MakesCalls 1 (⟦<Fuse<D> as Device>⟧.refuses self.old) (⟦<Fuse<D> as Device>⟧.refuses self.new) result }
        ensures kind { ⟦<Fuse<D> as Device>⟧.expects self.new ≡ after_kind (Syncing (is_ok result)) (⟦<Fuse<D> as Device>⟧.expects self.old) }

        ensures state { fuse_state self.new ≡ burned (fuse_state self.old) }
        ensures refuses { passes (fuse_state self.old) ≡ false → IsErr result }
        ensures counts { passes (fuse_state self.old) ≡ false → fuse_refused self.new ≡ min (fuse_refused self.old + 1) (2 ^ 64 - 1) }
        ensures untouched { passes (fuse_state self.old) ≡ false → fuse_device self.new ≡ fuse_device self.old }
        ensures lets_pass { passes (fuse_state self.old) ≡ true → HasCause (D.failed (fuse_device self.old)) (D.failed (fuse_device self.new)) result }
        ensures passed_on { passes (fuse_state self.old) ≡ true → MakesCalls 1 (D.refuses (fuse_device self.old)) (D.refuses (fuse_device self.new)) result }
    {
        if burn(&mut self.state) {
            return self.device.sync();
        }
        Err(refuse(&mut self.refused))
    }

    fn failures(&self) -> u64 {
        self.device.failures().saturating_add(self.refused)
    }
}
