//! A turn of the keeper, whole or in pieces.
ghost use Rattle.std.specs.Prelude.{◌≡◌, ◌<◌, ◌≤◌, ℕ, true, false, not};
ghost use Rattle.fkv_table.specs.Said as said;

use crate::keepers::{Keeper, KeeperPass, begin_turn, call_device, word_steps};
use crate::rule::Table;
use fkv_base::Fault;
use fkv_disk::{Device, DeviceAsk};
use fkv_keeper::{KeeperAsk, KeeperTold, Turn};
use fkv_plane::Ask;

/// What comes next of a turn that is made in pieces.
#[derive(Debug, PartialEq, Eq, Drop)]
pub enum TurnAsk {
    /// One call of the device, which `Keeper::device_ask` tells and `Keeper::device_step` makes.
    Device,
    /// Nothing: the turn is over.
    Over(Result<Turn, Fault>),
}

/// What a turn lets go on that need not.
#[derive(Clone, Copy, Debug, PartialEq, Eq, Drop)]
pub struct Leave {
    /// The writes of a commit, or a flush, that rest before a sync.
    pub rests: bool,
    /// A sweep of the log's front, if that was let (`Keeper::let_sweep`) and no commit is in hand.
    pub sweep: bool,
}

impl Keeper {
    /// Begins a turn. `drive` and `device_step` carry it on, by turns, until `drive` tells that it is over. The device isn't called.
    pub fn start_turn<D: Device>(&mut self, table: &Table<D>, pass: &mut KeeperPass<D>)
        requires ready { said.IsKeeperReady (said.opening_of D.seen) table.now.table.shared.key table.now.table.shared.table_id pass.old.seat.table_id
            pass.old.seat.me self.old.machine }
        ensures at_work { said.IsKeeperAtWork (said.opening_of D.seen) table.now.table.shared.key table.now.table.shared.table_id pass.new.seat.table_id
            pass.new.seat.me self.new.machine }
        ensures kept { said.HasKept said.Turns pass.old.seat.me.0.seen pass.new.seat.me.0.seen }
        ensures device { said.LeavesDevice (said.opening_of D.seen) table.now.table.shared.key pass.old.seat.me.0.seen pass.new.seat.me.0.seen }
        ensures by_device { said.ended_by_device self.new.machine.state.step ≡ false }
    {
        begin_turn(&table.table.shared, &mut pass.seat, &mut self.machine);
    }

    /// Makes the turn's steps of words up to the next call of the device, or to the turn's end, and tells which. The device isn't called.
    /// What rests, and a sweep, go on as the caller lets them.
    pub fn drive<D: Device>(
        &mut self,
        table: &Table<D>,
        pass: &mut KeeperPass<D>,
        leave: Leave,
    ) -> TurnAsk
        requires at_work { said.IsKeeperAtWork (said.opening_of D.seen) table.now.table.shared.key table.now.table.shared.table_id pass.old.seat.table_id
            pass.old.seat.me self.old.machine }
        ensures at_work { said.IsKeeperAtWork (said.opening_of D.seen) table.now.table.shared.key table.now.table.shared.table_id pass.new.seat.table_id
            pass.new.seat.me self.new.machine }
        ensures went { said.HasGoneOn pass.old.seat.me.0.seen pass.new.seat.me.0.seen }
        ensures device { said.LeavesDevice (said.opening_of D.seen) table.now.table.shared.key pass.old.seat.me.0.seen pass.new.seat.me.0.seen }
        ensures told { said.IsTurnAsked self.new.machine result }
        ensures by_device { said.over_by_device result ≡ said.ended_by_device self.old.machine.state.step }
        ensures left { said.keeper_asks_left self.new.machine.shape self.new.machine.places self.new.machine.state ≤ said.keeper_asks_left
            self.old.machine.shape self.old.machine.places self.old.machine.state }
    {
        let leave = Leave {
            sweep: leave.sweep && self.sweeps,
            ..leave
        };
        match word_steps(
            &table.table.shared,
            &mut pass.seat,
            &mut self.machine,
            leave,
        ) {
            KeeperTold::Device => TurnAsk::Device,
            _ => TurnAsk::Over(turn_told(&mut self.machine)),
        }
    }

    /// Whether the next turn only serves: the writes of the commit in hand rest before a sync, or a flush does, and weren't let go on.
    pub fn rests(&self) -> bool
        ensures { result ≡ said.serves_alone self.now.machine.state }
    {
        self.machine.rests()
    }

    /// Whether the next piece is a call of the device.
    pub fn asks_device(&self) -> bool
        ensures { result ≡ said.asks_device (said.keeper_ask self.now.machine.shape self.now.machine.places self.now.machine.state) }
    {
        match self.machine.ask() {
            Ask::Done(KeeperTold::Device) => true,
            Ask::Done(_) => false,
            _ => false,
        }
    }

    /// The call of the device that the next piece makes, if it makes one. A caller that makes calls of the device himself makes this one, and
    /// then gives `device_step` a device that answers it with what came of that.
    pub fn device_ask(&self) -> Option<DeviceAsk<'_>>
        ensures { said.asked_call result ≡ said.keeper_due self.now.machine }
    {
        self.machine.device_ask()
    }

    /// Makes the one call of the device that `device_ask` tells. Where it fails the turn is over, with `Device`. It is over so only if the device itself
    /// has counted a failure in this call. The device is the one that the store was opened from, and it is honest. What a crash leaves in the middle of
    /// the call is what the life's calls may leave, with it or without it.
    pub fn device_step<D: Device>(&mut self, table: &Table<D>, pass: &mut KeeperPass<D>, d: &mut D)
        requires at_work { said.IsKeeperAtWork (said.opening_of D.seen) table.now.table.shared.key table.now.table.shared.table_id pass.old.seat.table_id
            pass.old.seat.me self.old.machine }
        requires asked { said.asks_device (said.keeper_ask self.old.machine.shape self.old.machine.places self.old.machine.state) ≡ true }
        requires honest { D.honest d.old }
        requires after { said.IsAfterSeen (said.opening_of D.seen) table.now.table.shared.key pass.old.seat.me.0.seen (D.seen d.old) (D.may_leave d.old) }
        ensures at_work { said.IsKeeperAtWork (said.opening_of D.seen) table.now.table.shared.key table.now.table.shared.table_id pass.new.seat.table_id
            pass.new.seat.me self.new.machine }
        ensures went { said.HasGoneOn pass.old.seat.me.0.seen pass.new.seat.me.0.seen }
        ensures honest { D.honest d.new }
        ensures after { said.IsAfterSeen (said.opening_of D.seen) table.now.table.shared.key pass.new.seat.me.0.seen (D.seen d.new) (D.may_leave d.new) }
        ensures moments { said.AtEachMoment D.moment D.left_since d.old d.new (said.IsLeftWithin (said.opening_of D.seen) table.now.table.shared.key
            pass.old.seat.me.0.seen pass.new.seat.me.0.seen) }
        ensures due { D.expects d.new ≡ said.kinds_by (said.keeper_due self.old.machine) (not (said.ended_by_device self.new.machine.state.step))
            (D.expects d.old) }
        ensures counted { said.IsCounted 1 (said.ended_by_device self.new.machine.state.step) (D.failed d.old) (D.failed d.new) (D.refuses d.old)
            (D.refuses d.new) }
        ensures fewer { said.keeper_asks_left self.new.machine.shape self.new.machine.places self.new.machine.state < said.keeper_asks_left
            self.old.machine.shape self.old.machine.places self.old.machine.state }
    {
        call_device(&table.table.shared, &mut pass.seat, &mut self.machine, d);
    }

    /// Makes a turn to its end, with each call of the device that it needs. Its answers are those of the keeper's machine: it ends early
    /// with `Broken`, `Device`, `EpochsSpent` or `Memory`, and with `Device` only if the device itself has counted a failure in a call of it. The device
    /// is the one that the store was opened from, and it is honest. What a crash leaves in the middle of a turn is what the life's calls may leave
    /// behind a part of what the turn adds to the list.
    pub fn turn<D: Device>(
        &mut self,
        table: &Table<D>,
        mut pass: KeeperPass<D>,
        d: &mut D,
    ) -> (KeeperPass<D>, Result<Turn, Fault>)
        requires ready { said.IsKeeperReady (said.opening_of D.seen) table.now.table.shared.key table.now.table.shared.table_id pass.seat.table_id
            pass.seat.me self.old.machine }
        requires honest { D.honest d.old }
        requires after { said.IsAfterSeen (said.opening_of D.seen) table.now.table.shared.key pass.seat.me.0.seen (D.seen d.old) (D.may_leave d.old) }
        ensures ready { said.IsKeeperReady (said.opening_of D.seen) table.now.table.shared.key table.now.table.shared.table_id result.0.seat.table_id
            result.0.seat.me self.new.machine }
        ensures kept { said.HasKept said.Turns pass.seat.me.0.seen result.0.seat.me.0.seen }
        ensures honest { D.honest d.new }
        ensures after { said.IsAfterSeen (said.opening_of D.seen) table.now.table.shared.key result.0.seat.me.0.seen (D.seen d.new) (D.may_leave d.new) }
        ensures moments { said.AtEachMoment D.moment D.left_since d.old d.new (said.IsLeftWithin (said.opening_of D.seen) table.now.table.shared.key
            pass.seat.me.0.seen result.0.seat.me.0.seen) }
        ensures counted { (count : ℕ) × said.IsCounted count (said.told_by_device result.1) (D.failed d.old) (D.failed d.new) (D.refuses d.old)
            (D.refuses d.new) }
        ensures told { said.IsTurnTold self.new.machine.state.last (said.keeper_ask self.new.machine.shape self.new.machine.places self.new.machine.state)
            result.1 }
    {
        let answer = self.make_turn(table, &mut pass, d);
        (pass, answer)
    }

    /// Makes a turn to its end, as `turn` does.
    pub fn make_turn<D: Device>(
        &mut self,
        table: &Table<D>,
        pass: &mut KeeperPass<D>,
        d: &mut D,
    ) -> Result<Turn, Fault>
        requires ready { said.IsKeeperReady (said.opening_of D.seen) table.now.table.shared.key table.now.table.shared.table_id pass.old.seat.table_id
            pass.old.seat.me self.old.machine }
        requires honest { D.honest d.old }
        requires after { said.IsAfterSeen (said.opening_of D.seen) table.now.table.shared.key pass.old.seat.me.0.seen (D.seen d.old) (D.may_leave d.old) }
        ensures ready { said.IsKeeperReady (said.opening_of D.seen) table.now.table.shared.key table.now.table.shared.table_id pass.new.seat.table_id
            pass.new.seat.me self.new.machine }
        ensures kept { said.HasKept said.Turns pass.old.seat.me.0.seen pass.new.seat.me.0.seen }
        ensures honest { D.honest d.new }
        ensures after { said.IsAfterSeen (said.opening_of D.seen) table.now.table.shared.key pass.new.seat.me.0.seen (D.seen d.new) (D.may_leave d.new) }
        ensures moments { said.AtEachMoment D.moment D.left_since d.old d.new (said.IsLeftWithin (said.opening_of D.seen) table.now.table.shared.key
            pass.old.seat.me.0.seen pass.new.seat.me.0.seen) }
        ensures counted { (count : ℕ) × said.IsCounted count (said.told_by_device result) (D.failed d.old) (D.failed d.new) (D.refuses d.old)
            (D.refuses d.new) }
        ensures told { said.IsTurnTold self.new.machine.state.last (said.keeper_ask self.new.machine.shape self.new.machine.places self.new.machine.state)
            result }
    {
        let leave = Leave {
            rests: true,
            sweep: true,
        };
        self.start_turn(table, pass);
        'pieces: loop {
            match self.drive(table, pass, leave) {
                TurnAsk::Device => self.device_step(table, pass, d),
                TurnAsk::Over(answer) => return answer,
            }
        }
    }
}

/// How a turn has ended. At rest a reply changes nothing, and the last answer is told again.
#[tactic(auto, unfolding(fkv_keeper::specs::Keeping::keeping_next))]
fn turn_told(machine: &mut fkv_keeper::Keeper) -> Result<Turn, Fault>
    requires over { said.is_busy (said.keeper_ask machine.old.shape machine.old.places machine.old.state) ≡ false }
    requires idle { said.is_in_hand machine.old.state.step ≡ false }
    ensures same { machine.new ≡ machine.old }
    ensures told { said.IsTurnTold machine.old.state.last (said.keeper_ask machine.old.shape machine.old.places machine.old.state) result }
{
    match machine.drive(0) {
        KeeperAsk::Turned(result) => result,
        _ => Err(Fault::DrainFull),
    }
}
