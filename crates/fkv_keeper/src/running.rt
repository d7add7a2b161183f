//! Whole calls of the keeper over plain words.
ghost use Rattle.std.specs.Prelude.{◌≡◌, ◌↔◌, Err, false, true};
ghost use Rattle.fkv_base.specs.declared.faults.Fault.TheVariants.{Broken};
ghost use Rattle.fkv_plane.specs.declared.asks.Ask.TheVariants.{Done};
ghost use Rattle.fkv_keeper.specs.Answers.{is_busy};
ghost use Rattle.fkv_keeper.specs.Keeping.{commit_asked, keeper_ask, turn_asked};
ghost use Rattle.fkv_keeper.specs.Running.{IsBeginTold, IsTurnTold, IsTurnMade, IsCommitBegun};
ghost use Rattle.fkv_keeper.specs.WholeCalls.{HasStopped, IsCallSoFar, IsHonestTurnSoFar, IsTurnSoFar};

use crate::answers::{KeeperAsk, KeeperTold, Turn};
use crate::keepers::Keeper;
use fkv_base::{CommitKind, Fault, Version};
use fkv_disk::Device;
use fkv_plane::{Ask, PlainWords};

impl Keeper {
    /// Begins a commit over plain words, up to its number or to its refusal, which `start_commit` lists. What is stored in the words
    /// the contract leaves to the machine's tables; where the device has failed in an earlier call nothing is stored.
    pub fn ask_commit(&mut self, plane: &mut PlainWords, kind: CommitKind) -> Result<Version, Fault>
        ensures told { IsBeginTold (keeper_ask self.old.shape self.old.places self.new.state) result }
        ensures ended { is_busy (keeper_ask self.old.shape self.old.places self.new.state) ≡ false }
        ensures asked { IsCallSoFar self.old.shape self.old.places (commit_asked self.old.state kind) plane.old self.new.state plane.new }
        ensures begun { IsCommitBegun self.old.state.commit self.new.state.commit result }
        ensures broken { self.old.state.is_broken ≡ true → (result ≡ Err Broken) × (plane.new ≡ plane.old) }
    {
        self.begin_commit(kind);
        if self.is_broken {
            return Err(Fault::Broken);
        }
        'asks: loop {
            match self.ask() {
                Ask::Done(told) => return begin_told(told),
                Ask::Take(_) => return Err(Fault::CommitRunning),
                Ask::Put(slot, action) => {
                    let _ = plane.put(slot, action);
                    self.go_on(0);
                }
                word => {
                    let reply = plane.perform(&word);
                    self.go_on(reply);
                }
            }
        }
    }

    /// Makes a whole turn over plain words and a device. It ends early with `Broken` where the device has failed in an earlier call, with
    /// `Device` where it fails in this one, with `EpochsSpent` where the epoch is at its last, and with `Memory` where memory is refused for
    /// the copy of a commit. Where a drain slot that it claimed has no action, which no store gives, it stops there with `DrainFull`.
    pub fn turn<D: Device>(&mut self, plane: &mut PlainWords, d: &mut D) -> Result<Turn, Fault>
        ensures told { IsTurnTold self.new.state.last (keeper_ask self.old.shape self.old.places self.new.state) result }
        ensures made { IsTurnMade self.old.state self.new.state result }
        ensures stopped { HasStopped plane.new (keeper_ask self.old.shape self.old.places self.new.state) }
        ensures asked { IsTurnSoFar self.old.shape self.old.places (turn_asked self.old.state) plane.old self.new.state plane.new (D.failed d.old) (D.failed d.new) (D.refuses d.old) (D.refuses d.new) }
        ensures device { D.honest d.old → IsHonestTurnSoFar self.old.shape self.old.places (turn_asked self.old.state) plane.old self.new.state plane.new (D.seen d.old) (D.seen d.new) (D.may_leave d.old) (D.may_leave d.new) }
        ensures honest { D.honest d.old ↔ D.honest d.new }
    {
        self.begin_turn();
        'asks: loop {
            match self.ask() {
                Ask::Done(told) => match told {
                    KeeperTold::Device => {
                        let _ = self.call_device(d);
                    }
                    end => return self.turn_told(end),
                },
                Ask::Take(slot) => match plane.take(slot) {
                    Some(action) => {
                        self.take(action);
                    }
                    None => return Err(Fault::DrainFull),
                },
                Ask::Put(slot, action) => {
                    let _ = plane.put(slot, action);
                    self.go_on(0);
                }
                word => {
                    let reply = plane.perform(&word);
                    self.go_on(reply);
                }
            }
        }
    }

    /// How a turn has ended.
    fn turn_told(&self, told: KeeperTold) -> Result<Turn, Fault>
        ensures { IsTurnTold self.now.state.last (Done told) result }
    {
        match self.told(told) {
            KeeperAsk::Turned(result) => result,
            _ => Err(Fault::DrainFull),
        }
    }
}

/// How the beginning of a commit has ended.
fn begin_told(told: KeeperTold) -> Result<Version, Fault>
    ensures { IsBeginTold (Done told) result }
{
    match told {
        KeeperTold::Begun(number) => Ok(number),
        KeeperTold::CommitRefused(why) => Err(why),
        _ => Err(Fault::CommitRunning),
    }
}
