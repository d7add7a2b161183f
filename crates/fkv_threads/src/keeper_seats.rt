//! A keeper that watches over its table: with its pass, its device, and a share of the table.
ghost use Rattle.std.specs.Prelude.{◌≡◌, true, false};
ghost use Rattle.fkv_threads.specs.Said as said;

use fkv_base::{Addr, CommitKind, Fault, Key, Version};
use fkv_disk::{Device, DeviceAsk};
use fkv_keeper::Turn;
use fkv_posted::{Posted, Told};
use law_threads::{Keeper, KeeperPass, Leave, Table, TurnAsk, World, law_threads};
use std::alloc::Global;
use std::marker::Model;
use std::snapshot::Snapshot;
use std::sync::Arc;

/// The keeper with its pass, the device that the store was opened from, and its share of the table. In the middle of a turn it may wait for a call of the
/// device that its caller makes. A contract sees it as the store and the table, what its pass has seen, the machine, the device, and whether a call of the
/// device is due.
#[derive(Drop)]
pub struct KeeperSeat<D: Device + Drop> {
    table: Arc<Table<D>, Global>,
    keeper: Keeper,
    pass: KeeperPass<D>,
    device: D,
    in_turn: bool,
    /// What this turn lets go on.
    leave: Leave,
}

impl<D: Device + Drop> Model for KeeperSeat<D> {
    ghost use Rattle.fkv_threads.specs.Modelled as model;

    ghost Value = { model.Watch (model.Opening D) D };

    ghost view = { λ s. model.watch_of s.table.value.table.shared.key s.table.value.table.shared.table_id s.keeper.machine s.pass.seat.me s.device s.in_turn };

    ghost invariant = { λ s. model.IsAtTable D.Device s.table.value.table.shared.key s.table.value.table.shared.table_id s.keeper.machine
        s.pass.seat.table_id s.pass.seat.me s.device s.in_turn };
}

impl<D: Device + Drop> KeeperSeat<D> {
    /// The keeper between two calls, with its pass, at the table.
    pub(crate) fn new(
        table: Arc<Table<D>, Global>,
        keeper: Keeper,
        pass: KeeperPass<D>,
        device: D,
    ) -> KeeperSeat<D>
        requires ready { said.IsKeeperReady (said.opening D.Device) table.value.table.shared.key table.value.table.shared.table_id pass.seat.table_id
            pass.seat.me keeper.machine }
        requires honest { D.honest device }
        requires after { said.IsAfterSeen (said.opening D.Device) table.value.table.shared.key pass.seat.me.0.seen (D.seen device) (D.may_leave device) }
        ensures value { result ≡ said.watch_of table.value.table.shared.key table.value.table.shared.table_id keeper.machine pass.seat.me device false }
    {
        KeeperSeat {
            table,
            keeper,
            pass,
            device,
            in_turn: false,
            leave: Leave {
                rests: false,
                sweep: false,
            },
        }
    }

    /// Makes a turn to its end, with each call of the device that it needs: it flushes, serves and carries a commit on. It ends early with
    /// `Broken`, `Device`, `EpochsSpent` or `Memory`. An image that a crash leaves in the middle of the turn is one that the life may leave at some moment of
    /// it. It holds a prefix of the life as it was then (`recovered`). A commit that the turn tells as finished is sealed, with its number and points. Each
    /// point was fair as the commit was in hand (`finished`). Both are so if fewer than 2^64 - 1 calls of sessions begin. What is said of images also asks that
    /// the life began with one that reaches far. A refusal has its cause: a call of the device has failed, in this turn or before it, the epoch's word that the
    /// turn has loaded is the last, or no memory was granted for a copy of the index (`refused`). It ends with `Device` only if the device itself has counted a
    /// failure in a call of this turn. Where the device refuses such a call it ends so, and with no other fault (`counted`).
    pub fn turn(&mut self) -> Result<Turn, Fault>
        requires idle { self.old.in_turn ≡ false }
        ensures turned { said.IsTurnOf D.Device self.old result self.new }
    {
        law_threads::<Snapshot<World<D>>>();
        self.keeper
            .make_turn(&self.table, &mut self.pass, &mut self.device)
    }

    /// Begins a turn, and carries it on up to its next call of the device, which isn't made, or to its end. So it ends with any of the turn's faults but
    /// `Device`. Where a call of the device is due nothing changes, and `Device` is answered again. While the writes of a commit rest, or a flush
    /// does, a turn serves and does nothing else. If the caller lets what rests go on, writes go on behind that, and a flush in the next turn. With no
    /// commit in hand a sweep goes on if the caller lets it, behind a commit of `ask_trim`.
    pub fn drive(&mut self, leave: Leave) -> TurnAsk
        ensures driven { said.IsDriven D.Device self.old result self.new }
    {
        if self.in_turn {
            return TurnAsk::Device;
        }
        law_threads::<Snapshot<World<D>>>();
        self.leave = leave;
        self.keeper.start_turn(&self.table, &mut self.pass);
        let next = self.keeper.drive(&self.table, &mut self.pass, leave);
        self.in_turn = is_due(&next);
        next
    }

    /// Whether the next turn only serves: the writes of the commit in hand rest before a sync, or a flush does, and weren't let go on. (A hint:
    /// no clause speaks of it.)
    pub fn rests(&self) -> bool {
        self.keeper.rests()
    }

    /// The call of the device that is due, in the middle of a turn.
    pub fn posted(&self) -> Option<DeviceAsk<'_>>
        ensures { said.asked_call result ≡ said.keeper_due self.now.machine }
    {
        self.keeper.device_ask()
    }

    /// Makes the call of the device that is due, and carries the turn on as `drive` does. Where the call fails the turn is over, with `Device`. It is over so
    /// only if the device itself has counted a failure in this very call (`counted`).
    pub fn step(&mut self) -> TurnAsk
        requires due { self.old.in_turn ≡ true }
        ensures stepped { said.HasStepped D.Device self.old self.old.device result self.new }
    {
        law_threads::<Snapshot<World<D>>>();
        self.keeper
            .device_step(&self.table, &mut self.pass, &mut self.device);
        let next = self.keeper.drive(&self.table, &mut self.pass, self.leave);
        self.in_turn = is_due(&next);
        next
    }

    /// Begins a commit of this kind and gives its number; later turns carry it through. It is refused with `Broken`, `CommitRunning`, also in the middle of a
    /// turn, `VersionsSpent`, `LostFull`, `EpochsSpent` or `DrainFull`. Each refusal but in the middle of a turn has its cause: a call of the device has failed
    /// before, or the words that this call has loaded show why (`refused`). The device isn't called.
    pub fn ask_commit(&mut self, kind: CommitKind) -> Result<Version, Fault>
        ensures asked { said.IsAskedToCommit D.Device kind self.old result self.new }
    {
        if self.in_turn {
            return Err(Fault::CommitRunning);
        }
        law_threads::<Snapshot<World<D>>>();
        self.keeper.start_commit(&self.table, &mut self.pass, kind)
    }

    /// Begins a full commit, as `ask_commit` does. Once it is finished turns sweep the records below its first address, as far as `drive` lets them go on: 256
    /// at most in a turn, with no commit in hand. When all are passed, the log of the next commit begins there. Up to then a later full commit goes on with it.
    pub fn ask_trim(&mut self) -> Result<Version, Fault>
        ensures asked { said.IsAskedToCommit D.Device said.Full self.old result self.new }
    {
        let answer = self.ask_commit(CommitKind::Full);
        if answer.is_ok() {
            self.keeper.let_sweep(true);
        }
        answer
    }

    /// The keys that the sweep's last turn has found wanted, 16 at most. The log's front can't be given up before somebody has written them anew, as by a
    /// merge of the kind `Keep`. The next turn probes each again.
    pub fn wanted(&self) -> &[Key]
        ensures { result.now ≡ self.now.machine.state.sweep.wanted }
    {
        self.keeper.wanted()
    }

    /// Where the log of the newest finished commit begins. No record below that counts any more, in memory or behind a crash.
    pub fn begin(&self) -> Addr
        ensures { result ≡ self.now.machine.state.last.begin }
    {
        self.keeper.begin()
    }

    /// The device. The share of the table is given up.
    pub fn into_device(self) -> D
        ensures device { result ≡ self.device }
        ensures watching { said.IsWatching D.Device self }
    {
        let KeeperSeat { device, .. } = self;
        device
    }
}

impl KeeperSeat<Posted<'static>> {
    /// Tells how the call has gone that is posted, and carries the turn on as `drive` does. What is told of a read is what was last written
    /// there. Where no call is posted nothing is told, and this is `drive`.
    pub fn told(&mut self, told: Told) -> TurnAsk
        requires honest { said.IsHonestlyTold told self.old }
        ensures told { said.IsTold ⟦<Posted<'static> as Device>⟧ told self.old result self.new }
    {
        if !self.in_turn {
            let leave = self.leave;
            return self.drive(leave);
        }
        self.device.tell(told);
        self.step()
    }
}

/// Whether the next piece of a turn is a call of the device.
fn is_due(next: &TurnAsk) -> bool
    ensures { result ≡ said.is_posted next.now }
{
    match next {
        TurnAsk::Device => true,
        TurnAsk::Over(_) => false,
    }
}
