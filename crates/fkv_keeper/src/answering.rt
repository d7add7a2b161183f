//! The keeper's public calls, with whole answers.
ghost use Rattle.std.specs.Prelude.{◌≡◌, ◌<◌, ◌≤◌, ◌↔◌, true, false};
ghost use Rattle.fkv_keeper.specs.Answers.{AreFinishesTold, IsAsked, IsFinishTold, IsKeeperTold, is_busy};
ghost use Rattle.fkv_disk.specs.Device.{Elapses};
ghost use Rattle.fkv_keeper.specs.KeeperAsks.{IsBusyWhereLeft, IsDeviceStep, MakesDue, keeper_asks_left, keeper_calls_asked, keeper_made, most_begin_asks, most_turn_asks};
ghost use Rattle.fkv_epoch.specs.Claiming.{takes_action};
ghost use Rattle.fkv_plane.specs.declared.asks.Ask.TheVariants.{Done};
ghost use Rattle.fkv_plane.specs.Passing.{is_done};
ghost use Rattle.fkv_keeper.specs.declared.answers.KeeperTold.TheVariants.{Device as AtDevice};
ghost use Rattle.fkv_keeper.specs.KeeperRun.{is_in_hand};
ghost use Rattle.fkv_keeper.specs.Keeping.{commit_asked, turn_asked, keeper_ask, keeper_next, keeper_given};

use crate::answers::{Finished, KeeperAsk, KeeperTold, Turn};
use crate::keepers::{Keeper, Keeping};
use arrayvec::ArrayVec;
use fkv_base::CommitKind;
use fkv_disk::Device;
use fkv_plane::{Action, Ask, passed};

impl Keeper {
    /// Begins a turn. `Broken` where the device has failed in an earlier call.
    pub fn start_turn(&mut self) -> KeeperAsk
        ensures next { self.new ≡ record self.old { state = turn_asked self.old.state } }
        ensures ask { IsAsked self.new.state.last (keeper_ask self.old.shape self.old.places self.new.state) result }
        ensures bounded { keeper_asks_left self.old.shape self.old.places self.new.state ≤ most_turn_asks self.old.shape self.old.places }
    {
        let ask = self.begin_turn();
        self.asked(ask)
    }

    /// Begins a commit. It is refused, by the first cause that stands, as `Broken` where the device has failed in an earlier call,
    /// `CommitRunning` where a commit runs, `VersionsSpent` at the store's last version, `LostFull` where a log commit would have too many
    /// lost ranges to store or lie past the window of its checkpoint, `EpochsSpent` where the epoch is at its last, and `DrainFull` where no
    /// drain slot is free.
    pub fn start_commit(&mut self, kind: CommitKind) -> KeeperAsk
        ensures next { self.new ≡ record self.old { state = commit_asked self.old.state kind } }
        ensures ask { IsAsked self.new.state.last (keeper_ask self.old.shape self.old.places self.new.state) result }
        ensures bounded { keeper_asks_left self.old.shape self.old.places self.new.state ≤ most_begin_asks }
    {
        let ask = self.begin_commit(kind);
        self.asked(ask)
    }

    /// Goes on with the reply to its ask. Memory for a copy that the step may begin is asked for first.
    pub fn drive(&mut self, reply: u64) -> KeeperAsk
        ensures next { self.new ≡ record self.old { state = keeper_next self.old.shape self.old.places self.old.state reply self.new.state.is_granted } }
        ensures ask { IsAsked self.new.state.last (keeper_ask self.old.shape self.old.places self.new.state) result }
        ensures fewer { is_done (keeper_ask self.old.shape self.old.places self.old.state) ≡ false → takes_action (keeper_ask self.old.shape self.old.places self.old.state) ≡ false → keeper_asks_left self.old.shape self.old.places self.new.state < keeper_asks_left self.old.shape self.old.places self.old.state }
    {
        let ask = self.go_on(reply);
        self.asked(ask)
    }

    /// Gets the action of the drain slot that it claimed.
    pub fn given(&mut self, action: Action) -> KeeperAsk
        ensures next { self.new ≡ record self.old { state = keeper_given self.old.shape self.old.places self.old.state action } }
        ensures ask { IsAsked self.new.state.last (keeper_ask self.old.shape self.old.places self.new.state) result }
        ensures fewer { takes_action (keeper_ask self.old.shape self.old.places self.old.state) ≡ true → keeper_asks_left self.old.shape self.old.places self.new.state < keeper_asks_left self.old.shape self.old.places self.old.state }
    {
        let ask = self.take(action);
        self.asked(ask)
    }

    /// Makes the one call of the device that it asks for, which is the one that `device_ask` tells. Where it asks for none it makes none, and stays where it is. Where the
    /// device fails the turn ends with `Device`, and no call of the device is ever made again.
    pub fn device_step<D: Device>(&mut self, d: &mut D) -> KeeperAsk
        ensures step { IsDeviceStep self.old (D.honest d.old) (D.failed d.old) (D.failed d.new) (D.refuses d.old) (D.refuses d.new) (D.expects d.old) (D.expects d.new) (D.seen d.old) (D.seen d.new) (D.may_leave d.old) (D.may_leave d.new) self.new }
        ensures due { MakesDue self.old }
        ensures asked { keeper_made self.old.places self.old.state ≡ keeper_calls_asked (keeper_ask self.old.shape self.old.places self.old.state) }
        ensures ask { IsAsked self.new.state.last (keeper_ask self.old.shape self.old.places self.new.state) result }
        ensures fewer { keeper_ask self.old.shape self.old.places self.old.state ≡ Done AtDevice → keeper_asks_left self.old.shape self.old.places self.new.state < keeper_asks_left self.old.shape self.old.places self.old.state }
        ensures honest { D.honest d.old ↔ D.honest d.new }
        ensures time { D.honest d.old → Elapses (D.moment d.old) (D.moment d.new) (D.left_since d.old) (D.left_since d.new) (D.may_leave d.new) }
    {
        let _ = self.call_device(d);
        let ask = self.ask();
        self.asked(ask)
    }

    /// Whether a call is in hand: then it goes on, and else it may begin one.
    #[tactic(auto, using(crate::proofs::KeeperLeft::keeper_left))]
    pub fn busy(&self) -> bool
        ensures value { result ≡ is_busy (keeper_ask self.now.shape self.now.places self.now.state) }
        ensures left { IsBusyWhereLeft (keeper_asks_left self.now.shape self.now.places self.now.state) (keeper_ask self.now.shape self.now.places self.now.state) }
    {
        match self.ask() {
            Ask::Done(KeeperTold::Device) => true,
            Ask::Done(_) => false,
            _ => true,
        }
    }

    /// Whether it stands between a call's beginning and its end, whatever it asks there. In each run of a store that is where a call is
    /// in hand.
    pub fn is_in_hand(&self) -> bool
        ensures { result ≡ is_in_hand self.now.state.step }
    {
        !matches!(self.step, Keeping::Ended(_))
    }

    /// The newest commit that it has finished, if it has finished one since the store was opened.
    pub fn finished(&self) -> Option<Finished>
        ensures { AreFinishesTold self.now.state.last self.now.state.has_finished result }
    {
        if self.has_finished {
            Some(self.newest())
        } else {
            None
        }
    }

    /// The newest finished commit.
    fn newest(&self) -> Finished
        ensures { IsFinishTold self.now.state.last result }
    {
        let mut points = ArrayVec::new();
        let _ = points.try_extend_from_slice(self.last.points.as_slice());
        Finished {
            number: self.last.number,
            points,
        }
    }

    /// The ask as it is, and at a call's end its answer.
    fn asked(&self, ask: Ask<KeeperTold>) -> KeeperAsk
        ensures { IsAsked self.now.state.last ask result }
    {
        match ask {
            Ask::Done(told) => self.told(told),
            other => KeeperAsk::Word(passed(other, ())),
        }
    }

    /// What it has come to, with the points of a finished commit.
    pub(crate) fn told(&self, told: KeeperTold) -> KeeperAsk
        ensures { IsKeeperTold self.now.state.last told result }
    {
        match told {
            KeeperTold::Device => KeeperAsk::Device,
            KeeperTold::Turned(has_finished, drain_full) => {
                let finished = if has_finished {
                    Some(self.newest())
                } else {
                    None
                };
                KeeperAsk::Turned(Ok(Turn {
                    finished,
                    drain_full,
                }))
            }
            KeeperTold::TurnRefused(why) => KeeperAsk::Turned(Err(why)),
            KeeperTold::Begun(number) => KeeperAsk::Begun(Ok(number)),
            KeeperTold::CommitRefused(why) => KeeperAsk::Begun(Err(why)),
        }
    }
}
