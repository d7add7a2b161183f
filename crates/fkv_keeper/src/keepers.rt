//! The keeper: its turns and its commits.
ghost use Rattle.std.specs.Prelude.{◌≡◌, ◌&&◌, ◌||◌, ◌<◌, ◌≤◌, ◌↔◌, ℕ, Bool, List, [], is_ok, is_some, true, false, IfOk, OnErr, Err, None, Some};
ghost use Rattle.fkv_checkpoint.specs.Copying.{IsRoomFor};
ghost use Rattle.fkv_disk.specs.Asks.{asked_call, count_by, first_asked, kinds_by};
ghost use Rattle.fkv_manifest.specs.Committing.{commit_answer, commit_call};
ghost use Rattle.fkv_manifest.specs.Devices.{calls_next};
ghost use Rattle.fkv_manifest.specs.Made.{with_call};
ghost use Rattle.fkv_maintain.specs.Maintaining.{is_flush_resting, maintain_asked, maintain_calls, maintain_made};
ghost use Rattle.fkv_sweep.specs.Sweeping.{is_sweeping, read_asked};
ghost use Rattle.fkv_base.specs.declared.faults.Fault.TheVariants.{Memory, Device as Failed};
ghost use Rattle.fkv_epoch.specs.Claiming.{takes_action};
ghost use Rattle.fkv_plane.specs.declared.asks.Ask.TheVariants.{Done};
ghost use Rattle.fkv_plane.specs.Passing.{is_done};
ghost use Rattle.fkv_keeper.specs.declared.answers.KeeperTold.TheVariants.{Device as AtDevice, TurnRefused};
ghost use Rattle.fkv_disk.specs.Device.{Elapses, HasCause, MakesCalls};
ghost use Rattle.fkv_flush.specs.Devices.{Adds};
ghost use Rattle.fkv_keeper.specs.KeeperAsks.{IsBusyWhereLeft, keeper_asks_left, most_begin_asks, most_turn_asks, keeper_calls, keeper_calls_asked, keeper_due, keeper_made, keeper_read};
ghost use Rattle.fkv_keeper.specs.Keeping.{commit_asked, turn_asked, keeper_ask, keeper_next, keeper_given, keeper_called, granted_for, goes_by_word, is_resting, serves_alone, may_copy, turn_called, writes_called, sweep_called, keeper_word_due};
ghost use Rattle.fkv_keeper.specs.KeeperRun.{IsOpened};
ghost use Rattle.fkv_keeper.specs.NewKeepers.{IsNewKeeper};
ghost use Rattle.fkv_keeper.specs.declared.keepers.Keeping.TheVariants.{Ended, Maintains, Sweeps};

use crate::answers::KeeperTold;
use crate::last_commits::{Checkpoint, LastCommit};
use crate::leading::{
    copy_driven, device_passed, end_told, no_writes, sweep_passed, write_asked, write_due,
};
use arrayvec::ArrayVec;
use fkv_base::{Addr, CommitKind, Fault, Key, Shape};
use fkv_checkpoint::{CopyRoom, IndexCopy};
use fkv_commit::{
    Commit, EnterWaitPending, FinishCommit, SeekPoints, StartAsked, StartCommit, WaitFlush,
};
use fkv_disk::{Device, DeviceAsk};
use fkv_maintain::Maintain;
use fkv_manifest::CommitWrites;
use fkv_plane::{Action, Ask, Places, SharedWord, passed};
use fkv_record::LostRange;
use fkv_sweep::Sweep;
use fkv_words::phase_said;
use std::alloc::Global;
use std::marker::Model;

/// Lost ranges in hand, at most: those of a slot, and one more that the recovery of an opened store has found.
pub const MAX_LOST_IN_HAND: usize = 9;

/// How far the call in hand has come. What the last call was told is kept up to the next one.
#[derive(Clone, Copy)]
pub(crate) enum Keeping {
    Ended(KeeperTold),
    /// A commit starts.
    Starts,
    /// What every turn does.
    Maintains,
    /// The phase is loaded, which says what comes next of the commit in hand.
    LoadsPhase,
    /// Wait-pending is deferred.
    Enters,
    /// The index is copied, up to where the copy rests or ends.
    Copies,
    /// The points are sought.
    Seeks,
    /// Whether the log is flushed up to the commit's end is tested.
    Waits,
    /// The triples and the slot are written.
    Writes,
    /// The durable words and rest are stored.
    Finishes,
    /// The log's front is swept.
    Sweeps,
}

/// The background actor: it makes turns, begins commits, and makes every call of the device that there is. In a turn it does
/// what every turn does, and then at most one thing for the commit in hand.
#[derive(Drop)]
pub struct Keeper {
    pub(crate) alloc: Global,
    pub(crate) shape: Shape,
    pub(crate) places: Places,
    pub(crate) maintain: Maintain,
    pub(crate) start: StartCommit,
    pub(crate) enter: EnterWaitPending,
    /// What was got for the copy that comes next.
    pub(crate) room: Option<CopyRoom>,
    pub(crate) copy: Option<IndexCopy>,
    pub(crate) seek: SeekPoints,
    pub(crate) wait: WaitFlush,
    pub(crate) writes: CommitWrites,
    pub(crate) finish: FinishCommit,
    pub(crate) sweep: Sweep,
    pub(crate) commit: Option<Commit>,
    pub(crate) has_entered: bool,
    pub(crate) has_points: bool,
    pub(crate) is_granted: bool,
    pub(crate) is_broken: bool,
    pub(crate) is_drain_full: bool,
    pub(crate) has_finished: bool,
    /// The writes of the commit in hand rest: the turn ended before a sync.
    pub(crate) rests: bool,
    pub(crate) used: Checkpoint,
    pub(crate) last: LastCommit,
    pub(crate) lost: ArrayVec<LostRange, MAX_LOST_IN_HAND>,
    pub(crate) step: Keeping,
}

impl Model for Keeper {
    ghost use Rattle.std.specs.Prelude.{◌≡◌};
    ghost use Rattle.fkv_checkpoint.specs.Copying.{IsRoomFor};
    ghost use Rattle.fkv_keeper.specs.Keeping.{KeeperModel};

    ghost Value = { KeeperModel };

    ghost view = { λ m. record { shape = m.shape; places = m.places; state = record { maintain = m.maintain.state; start = m.start; enter = m.enter; copy = m.copy; seek = m.seek; wait = m.wait; writes = m.writes; finish = m.finish; sweep = m.sweep; commit = m.commit; has_entered = m.has_entered; has_points = m.has_points; is_granted = m.is_granted; is_broken = m.is_broken; is_drain_full = m.is_drain_full; has_finished = m.has_finished; rests = m.rests; used = m.used; last = record { number = m.last.number; begin = m.last.begin; points = m.last.points.items; checkpoint = m.last.checkpoint; gates = m.last.gates }; lost = m.lost.items; step = m.step } } };

    ghost invariant = { λ m. (m.maintain.shape ≡ m.shape) × (m.maintain.places ≡ m.places) × (m.seek.sessions ≡ m.shape.sessions) × (m.finish.sessions ≡ m.shape.sessions) × (m.sweep.shape ≡ m.shape) × (m.sweep.places ≡ m.places) × IsRoomFor m.places m.room };
}

impl Keeper {
    /// The keeper of a store that was opened, with room for the bytes of one page. `Fault::Memory` where memory is refused for it;
    /// later only the copy of a commit takes some.
    pub fn new(
        alloc: Global,
        shape: Shape,
        last: LastCommit,
        lost: ArrayVec<LostRange, MAX_LOST_IN_HAND>,
    ) -> Result<Keeper, Fault>
        ensures made { IfOk result (λ keeper. IsNewKeeper shape (record { number = last.number; begin = last.begin; points = last.points.items; checkpoint = last.checkpoint; gates = last.gates }) lost.items keeper) }
        ensures opened { IfOk result (λ keeper. IsOpened keeper.state) }
        ensures err { OnErr result (result ≡ Err Memory) }
    {
        let places = Places::of(&shape);
        let maintain = Maintain::new(alloc, shape, places, last.begin)?;
        let used = last.checkpoint;
        Ok(Keeper {
            alloc,
            shape,
            places,
            maintain,
            start: StartCommit::new(shape.class),
            enter: EnterWaitPending::new(),
            room: None,
            copy: None,
            seek: SeekPoints::new(shape.sessions as usize),
            wait: WaitFlush::new(),
            writes: no_writes(alloc),
            finish: FinishCommit::new(shape.sessions as usize),
            sweep: Sweep::new(shape, places, last.begin, last.begin),
            commit: None,
            has_entered: false,
            has_points: false,
            is_granted: true,
            is_broken: false,
            is_drain_full: false,
            has_finished: false,
            rests: false,
            used,
            last,
            lost,
            step: Keeping::Ended(KeeperTold::Turned(false, false)),
        })
    }

    /// Begins a commit and gives its first ask, or its refusal where there is none. While the writes of a commit rest none begins.
    #[tactic(auto, unfolding(crate::specs::Keeping::keeping_ask))]
    pub fn begin_commit(&mut self, kind: CommitKind) -> Ask<KeeperTold>
        ensures next { self.new ≡ record self.old { state = commit_asked self.old.state kind } }
        ensures ask { result ≡ keeper_ask self.old.shape self.old.places self.new.state }
        ensures left { IsBusyWhereLeft (keeper_asks_left self.old.shape self.old.places self.new.state) result }
        ensures bounded { keeper_asks_left self.old.shape self.old.places self.new.state ≤ most_begin_asks }
    {
        if self.is_broken {
            self.step = Keeping::Ended(KeeperTold::CommitRefused(Fault::Broken));
        } else if self.rests {
            self.step = Keeping::Ended(KeeperTold::CommitRefused(Fault::CommitRunning));
        } else {
            self.start.start(StartAsked {
                class: self.start.class(),
                kind,
                lost: self.lost.len(),
                checkpoint: self.last.checkpoint.number,
            });
            self.step = Keeping::Starts;
        }
        self.ask()
    }

    /// Begins a turn and gives its first ask, or its refusal where there is none. While the writes of a commit rest, or a flush
    /// that wasn't granted to go on, it only serves.
    #[tactic(auto, unfolding(crate::specs::Keeping::keeping_ask))]
    pub fn begin_turn(&mut self) -> Ask<KeeperTold>
        ensures next { self.new ≡ record self.old { state = turn_asked self.old.state } }
        ensures ask { result ≡ keeper_ask self.old.shape self.old.places self.new.state }
        ensures left { IsBusyWhereLeft (keeper_asks_left self.old.shape self.old.places self.new.state) result }
        ensures bounded { keeper_asks_left self.old.shape self.old.places self.new.state ≤ most_turn_asks self.old.shape self.old.places }
    {
        if self.is_broken {
            self.step = Keeping::Ended(KeeperTold::TurnRefused(Fault::Broken));
        } else {
            self.is_drain_full = false;
            self.begins_parts();
            self.step = Keeping::Maintains;
        }
        self.ask()
    }

    /// Goes on with the reply to its ask. At a call's end, and where it needs the device, it stays where it is. Memory for a copy that
    /// the step may begin is asked for first. What rests goes on, and no sweep does.
    #[tactic(auto, using(crate::proofs::Granted::is_granted_so, crate::proofs::NoSweep::none_let))]
    pub fn go_on(&mut self, reply: u64) -> Ask<KeeperTold>
        ensures next { self.new ≡ record self.old { state = keeper_next self.old.shape self.old.places self.old.state reply self.new.state.is_granted } }
        ensures no_sweep { self.new.state.step ≡ Sweeps → self.old.state.step ≡ Sweeps }
        ensures ask { result ≡ keeper_ask self.old.shape self.old.places self.new.state }
        ensures left { IsBusyWhereLeft (keeper_asks_left self.old.shape self.old.places self.new.state) result }
        ensures fewer { is_done (keeper_ask self.old.shape self.old.places self.old.state) ≡ false → takes_action (keeper_ask self.old.shape self.old.places self.old.state) ≡ false → keeper_asks_left self.old.shape self.old.places self.new.state < keeper_asks_left self.old.shape self.old.places self.old.state }
    {
        let room = self.room();
        let goes_on = self.rests_on();
        self.go_on_with(reply, room, goes_on)
    }

    /// Whether something rests that may go on: a flush, or the writes of the commit in hand.
    fn rests_on(&self) -> bool
        ensures { result ≡ (is_flush_resting self.now.state.maintain || (self.now.state.rests && is_some self.now.state.commit)) }
    {
        self.maintain.is_flush_resting() || (self.rests && self.commit.is_some())
    }

    /// Memory for the copy of the index that its next step may begin: where it loads the phase, wait-pending is deferred, the commit in
    /// hand isn't copied, and no copy rests. `None` elsewhere, and where memory is refused. What a commit has got once it isn't asked for again.
    ///
    /// It is for a caller that has to know whether memory is granted before the step: others may see a step that is made before its
    /// reply is gone on with. No clause says when memory is granted, nor that a room is kept.
    pub fn room(&mut self) -> Option<CopyRoom>
        ensures same { self.new ≡ self.old }
        ensures none { may_copy self.old.state ≡ false → result ≡ None }
        ensures fits { IsRoomFor self.old.places result }
    {
        if !self.may_copy() {
            return None;
        }
        let kept = self.room.take();
        if kept.is_some() {
            return kept;
        }
        CopyRoom::ask(self.alloc, self.places).ok()
    }

    /// Whether its next step may begin a copy.
    #[tactic(auto, unfolding(crate::specs::Keeping::step_may_copy))]
    fn may_copy(&self) -> bool
        ensures { result ≡ may_copy self.now.state }
    {
        match (self.step, self.commit) {
            (Keeping::LoadsPhase, Some(commit)) => {
                self.has_entered && !commit.is_copied && !self.is_copy_resting()
            }
            _ => false,
        }
    }

    /// Goes on as `go_on` does, and a copy begins in this room, which `room` has given. Where none begins the room is kept; where one
    /// is to begin and there is no room, the turn ends with `Memory`. A copy that rests takes none. Where the caller says so writes that rest go
    /// on, a flush that rests does in the next turn, and with no commit in hand a sweep does.
    #[tactic(auto, using(fkv_commit::proofs::Shown::seek_keeps), unfolding(crate::specs::Keeping::keeping_next))]
    pub fn go_on_with(
        &mut self,
        reply: u64,
        room: Option<CopyRoom>,
        goes_on: bool,
    ) -> Ask<KeeperTold>
        requires { IsRoomFor self.old.places room }
        ensures next { self.new ≡ record self.old { state = keeper_next self.old.shape self.old.places self.old.state reply (granted_for self.old.state (is_some room) goes_on) } }
        ensures ask { result ≡ keeper_ask self.old.shape self.old.places self.new.state }
        ensures left { IsBusyWhereLeft (keeper_asks_left self.old.shape self.old.places self.new.state) result }
        ensures fewer { is_done (keeper_ask self.old.shape self.old.places self.old.state) ≡ false → takes_action (keeper_ask self.old.shape self.old.places self.old.state) ≡ false → keeper_asks_left self.old.shape self.old.places self.new.state < keeper_asks_left self.old.shape self.old.places self.old.state }
    {
        match self.step {
            Keeping::Ended(_) | Keeping::Writes => {}
            Keeping::Starts => {
                let ask = self.start.drive(reply);
                self.after_start(ask);
            }
            Keeping::Maintains => return self.go_on_maintaining(reply),
            Keeping::LoadsPhase => self.after_phase(phase_said(reply), room, goes_on),
            Keeping::Enters => {
                let ask = self.enter.drive(reply);
                self.after_enter(ask);
            }
            Keeping::Copies => {
                let ask = copy_driven(&mut self.copy, reply);
                self.after_copy(ask);
            }
            Keeping::Seeks => {
                let ask = self.seek.drive(reply);
                self.after_seek(ask);
            }
            Keeping::Waits => {
                let ask = self.wait.drive(reply);
                self.after_wait(ask);
            }
            Keeping::Finishes => {
                let ask = self.finish.drive(self.seek.points(), reply);
                self.after_finish(ask);
            }
            Keeping::Sweeps => {
                let ask = self.sweep.drive(reply);
                self.after_sweep(ask);
            }
        }
        self.ask()
    }

    /// Whether the next turn only serves: the writes of the commit in hand rest before a sync, or a flush does, and weren't let go on.
    pub fn rests(&self) -> bool
        ensures { result ≡ serves_alone self.now.state }
    {
        self.rests || (self.maintain.is_flush_resting() && !self.is_granted)
    }

    /// Whether a sweep of the log's front isn't done. It goes on in turns with no commit in hand, where a caller of `go_on_with` lets it.
    pub fn is_sweeping(&self) -> bool
        ensures { result ≡ is_sweeping self.now.state.sweep }
    {
        self.sweep.is_sweeping()
    }

    /// The keys that the sweep's last turn has found wanted, 16 at most: the log's front can't be given up before somebody has written them
    /// anew, as by a merge of the kind `Keep`. Each is probed again in the sweep's next turn.
    pub fn wanted(&self) -> &[Key]
        ensures { result.now ≡ self.now.state.sweep.wanted }
    {
        self.sweep.wanted()
    }

    /// The address at which the log of the newest finished commit begins. No record below it counts any more, in memory or behind a crash.
    pub fn begin(&self) -> Addr
        ensures { result ≡ self.now.state.last.begin }
    {
        self.last.begin
    }

    /// Whether the writes of the commit in hand rest, or a flush does. There a step is granted that they go on, and no memory.
    pub fn is_resting(&self) -> bool
        ensures { result ≡ is_resting self.now.state }
    {
        self.rests || self.maintain.is_flush_resting()
    }

    /// Whether a step goes by what the caller of `go_on_with` says: writes or a flush rest, or no commit is in hand. Elsewhere it goes by the room.
    pub fn goes_by_word(&self) -> bool
        ensures { result ≡ goes_by_word self.now.state }
    {
        self.is_resting() || self.commit.is_none()
    }

    /// Goes on with what every turn does. What that asks is passed on at once, and not asked for again.
    #[tactic(auto, using(crate::proofs::GoesOn::maintain_goes_on), unfolding(crate::specs::Keeping::keeping_next, crate::specs::Keeping::keeping_ask))]
    fn go_on_maintaining(&mut self, reply: u64) -> Ask<KeeperTold>
        requires { self.old.state.step ≡ Maintains }
        ensures next { (granted : Bool) → self.new ≡ record self.old { state = keeper_next self.old.shape self.old.places self.old.state reply granted } }
        ensures ask { result ≡ keeper_ask self.old.shape self.old.places self.new.state }
    {
        let ask = self.maintain.drive(reply);
        if let Ask::Done(_) = ask {
            self.after_maintain(ask);
            return self.ask();
        }
        device_passed(ask, KeeperTold::Turned(false, self.is_drain_full))
    }

    /// The place of the word that its flush loads of a record, or that its copy of the index or its sweep loads, if it loads one.
    #[inline(always)]
    pub fn word_due(&self) -> Option<usize>
        ensures { result ≡ keeper_word_due self.now.places self.now.state }
    {
        match self.step {
            Keeping::Maintains => self.maintain.word_due(),
            Keeping::Copies => self.copy_word_due(),
            Keeping::Sweeps => self.sweep.word_due(),
            _ => None,
        }
    }

    /// Goes on with the word that was due, as `go_on` does, and doesn't tell what it asks. A flush loads three words of each record, a sweep some more, and a
    /// copy eight of each bucket.
    #[inline(always)]
    #[tactic(auto, using(crate::proofs::GoesOn::word_goes_on, crate::proofs::GoesOn::led_through), unfolding(crate::specs::Keeping::keeping_next))]
    pub fn keep(&mut self, word: u64)
        requires due { (place : ℕ) × (keeper_word_due self.old.places self.old.state ≡ Some place) }
        ensures next { (granted : Bool) → self.new ≡ record self.old { state = keeper_next self.old.shape self.old.places self.old.state word granted } }
    {
        match self.step {
            Keeping::Maintains => self.maintain.keep(word),
            Keeping::Copies => {
                let ask = copy_driven(&mut self.copy, word);
                self.after_copy(ask);
            }
            Keeping::Sweeps => {
                self.sweep.keep(word);
                if self.sweep.is_through() {
                    self.turns();
                }
            }
            _ => {}
        }
    }

    /// Gets the action of the slot that it claimed.
    #[tactic(auto, unfolding(crate::specs::Keeping::keeping_given))]
    pub fn take(&mut self, action: Action) -> Ask<KeeperTold>
        ensures next { self.new ≡ record self.old { state = keeper_given self.old.shape self.old.places self.old.state action } }
        ensures ask { result ≡ keeper_ask self.old.shape self.old.places self.new.state }
        ensures left { IsBusyWhereLeft (keeper_asks_left self.old.shape self.old.places self.new.state) result }
        ensures fewer { takes_action (keeper_ask self.old.shape self.old.places self.old.state) ≡ true → keeper_asks_left self.old.shape self.old.places self.new.state < keeper_asks_left self.old.shape self.old.places self.old.state }
    {
        if let Keeping::Maintains = self.step {
            let ask = self.maintain.given(action);
            self.after_maintain(ask);
        }
        self.ask()
    }

    /// Makes the one call of the device that it needs, and goes on. Where it needs none it makes none, and stays where it is.
    /// Where the device fails the turn ends, and no other call of the device is ever made.
    #[tactic(auto, using(crate::proofs::KeeperDevice::keeper_asked_calls), unfolding(crate::specs::Keeping::keeping_called, crate::specs::KeeperAsks::keeping_made, crate::specs::KeeperAsks::keeping_calls, crate::specs::KeeperAsks::keeping_due))]
    pub fn call_device<D: Device>(&mut self, d: &mut D) -> Result<Ask<KeeperTold>, Fault>
        ensures next { (bytes : List ℕ) × (self.new ≡ record self.old { state = keeper_called self.old.shape self.old.places self.old.state (is_ok result) bytes }) }
        ensures ask { IfOk result (λ ask. ask ≡ keeper_ask self.old.shape self.old.places self.new.state) }
        ensures left { IfOk result (λ ask. IsBusyWhereLeft (keeper_asks_left self.old.shape self.old.places self.new.state) ask) }
        ensures fewer { keeper_ask self.old.shape self.old.places self.old.state ≡ Done AtDevice → keeper_asks_left self.old.shape self.old.places self.new.state < keeper_asks_left self.old.shape self.old.places self.old.state }
        ensures refused { OnErr result (self.new.state.step ≡ Ended (TurnRefused Failed)) }
        ensures none { OnErr result (keeper_asks_left self.old.shape self.old.places self.new.state ≡ 0) }
        ensures cause { HasCause (D.failed d.old) (D.failed d.new) result }
        ensures counted { MakesCalls (keeper_made self.old.places self.old.state) (D.refuses d.old) (D.refuses d.new) result }
        ensures kind { D.expects d.new ≡ kinds_by (keeper_due self.old) (is_ok result) (D.expects d.old) }
        ensures asked { keeper_made self.old.places self.old.state ≡ keeper_calls_asked (keeper_ask self.old.shape self.old.places self.old.state) }
        ensures honest { D.honest d.old ↔ D.honest d.new }
        ensures read { D.honest d.old → self.new ≡ record self.old { state = keeper_called self.old.shape self.old.places self.old.state (is_ok result) (keeper_read self.old (D.seen d.old)) } }
        ensures calls { D.honest d.old → Adds (keeper_calls self.old.shape self.old.state (is_ok result)) (D.seen d.old) (D.seen d.new) (D.may_leave d.old) (D.may_leave d.new) }
        ensures time { D.honest d.old → Elapses (D.moment d.old) (D.moment d.new) (D.left_since d.old) (D.left_since d.new) (D.may_leave d.new) }
    {
        match self.step {
            Keeping::Maintains => return self.call_for_turn(d),
            Keeping::Writes => return self.call_for_commit(d),
            Keeping::Sweeps => return self.call_for_sweep(d),
            _ => {}
        }
        Ok(self.ask())
    }

    /// The call of the device that a part of every turn makes.
    fn call_for_turn<D: Device>(&mut self, d: &mut D) -> Result<Ask<KeeperTold>, Fault>
        requires { self.old.state.step ≡ Maintains }
        ensures next { (bytes : List ℕ) × (self.new ≡ record self.old { state = turn_called self.old.shape self.old.places self.old.state (is_ok result) bytes }) }
        ensures ask { IfOk result (λ ask. ask ≡ keeper_ask self.old.shape self.old.places self.new.state) }
        ensures refused { OnErr result (self.new.state.step ≡ Ended (TurnRefused Failed)) }
        ensures cause { HasCause (D.failed d.old) (D.failed d.new) result }
        ensures counted { MakesCalls (maintain_made self.old.places self.old.state.maintain) (D.refuses d.old) (D.refuses d.new) result }
        ensures kind { D.expects d.new ≡ kinds_by (maintain_asked self.old.shape self.old.state.maintain) (is_ok result) (D.expects d.old) }
        ensures honest { D.honest d.old ↔ D.honest d.new }
        ensures read { D.honest d.old → self.new ≡ record self.old { state = turn_called self.old.shape self.old.places self.old.state (is_ok result) (keeper_read self.old (D.seen d.old)) } }
        ensures calls { D.honest d.old → Adds (maintain_calls self.old.shape self.old.state.maintain (is_ok result)) (D.seen d.old) (D.seen d.new) (D.may_leave d.old) (D.may_leave d.new) }
        ensures time { D.honest d.old → Elapses (D.moment d.old) (D.moment d.new) (D.left_since d.old) (D.left_since d.new) (D.may_leave d.new) }
    {
        let called = self.maintain.device_step(d);
        let ask = self.maintain.ask();
        self.after_maintain(ask);
        match called {
            Ok(_) => Ok(self.ask()),
            Err(fault) => Err(fault),
        }
    }

    /// The call of the device that the writes of a commit make.
    fn call_for_commit<D: Device>(&mut self, d: &mut D) -> Result<Ask<KeeperTold>, Fault>
        ensures next { self.new ≡ record self.old { state = writes_called self.old.state (is_ok result) } }
        ensures ask { IfOk result (λ ask. ask ≡ keeper_ask self.old.shape self.old.places self.new.state) }
        ensures refused { OnErr result (self.new.state.step ≡ Ended (TurnRefused Failed)) }
        ensures cause { HasCause (D.failed d.old) (D.failed d.new) result }
        ensures counted { MakesCalls (calls_next (commit_answer self.old.state.writes)) (D.refuses d.old) (D.refuses d.new) result }
        ensures kind { D.expects d.new ≡ kinds_by (first_asked (with_call (commit_call self.old.state.writes true) [])) (is_ok result) (D.expects d.old) }
        ensures honest { D.honest d.old ↔ D.honest d.new }
        ensures calls { D.honest d.old → Adds (with_call (commit_call self.old.state.writes (is_ok result)) []) (D.seen d.old) (D.seen d.new) (D.may_leave d.old) (D.may_leave d.new) }
        ensures time { D.honest d.old → Elapses (D.moment d.old) (D.moment d.new) (D.left_since d.old) (D.left_since d.new) (D.may_leave d.new) }
    {
        match self.writes.device_step(d) {
            Ok(()) => {
                self.after_write();
                Ok(self.ask())
            }
            Err(fault) => {
                self.breaks();
                Err(fault)
            }
        }
    }

    /// The read of the device that a sweep makes.
    fn call_for_sweep<D: Device>(&mut self, d: &mut D) -> Result<Ask<KeeperTold>, Fault>
        requires { self.old.state.step ≡ Sweeps }
        ensures next { (bytes : List ℕ) × (self.new ≡ record self.old { state = sweep_called self.old.state (is_ok result) bytes }) }
        ensures ask { IfOk result (λ ask. ask ≡ keeper_ask self.old.shape self.old.places self.new.state) }
        ensures refused { OnErr result (self.new.state.step ≡ Ended (TurnRefused Failed)) }
        ensures cause { HasCause (D.failed d.old) (D.failed d.new) result }
        ensures counted { MakesCalls (count_by (read_asked self.old.state.sweep)) (D.refuses d.old) (D.refuses d.new) result }
        ensures kind { D.expects d.new ≡ kinds_by (read_asked self.old.state.sweep) (is_ok result) (D.expects d.old) }
        ensures honest { D.honest d.old ↔ D.honest d.new }
        ensures read { D.honest d.old → self.new ≡ record self.old { state = sweep_called self.old.state (is_ok result) (keeper_read self.old (D.seen d.old)) } }
        ensures calls { D.honest d.old → Adds [] (D.seen d.old) (D.seen d.new) (D.may_leave d.old) (D.may_leave d.new) }
        ensures time { D.honest d.old → Elapses (D.moment d.old) (D.moment d.new) (D.left_since d.old) (D.left_since d.new) (D.may_leave d.new) }
    {
        match self.sweep.device_step(d) {
            Ok(ask) => {
                self.after_sweep(ask);
                Ok(self.ask())
            }
            Err(fault) => {
                self.breaks();
                Err(fault)
            }
        }
    }

    /// The call of the device that its next step makes, if it makes one. A caller that makes calls of the device himself makes this one,
    /// and then gives `call_device` or `device_step` a device that answers it with what came of that.
    #[tactic(auto, unfolding(crate::specs::KeeperAsks::keeping_due))]
    pub fn device_ask(&self) -> Option<DeviceAsk<'_>>
        ensures { asked_call result ≡ keeper_due self.now }
    {
        match self.step {
            Keeping::Maintains => self.maintain.device_ask(),
            Keeping::Writes => write_due(self.writes.next_call()),
            Keeping::Sweeps => self.sweep.device_ask(),
            _ => None,
        }
    }

    /// What it asks now.
    #[tactic(auto, unfolding(crate::specs::Keeping::keeping_ask))]
    pub fn ask(&self) -> Ask<KeeperTold>
        ensures { result ≡ keeper_ask self.now.shape self.now.places self.now.state }
    {
        let over = KeeperTold::Turned(false, self.is_drain_full);
        match self.step {
            Keeping::Ended(told) => Ask::Done(end_told(told, over)),
            Keeping::Starts => passed(
                self.start.ask(),
                KeeperTold::CommitRefused(Fault::CommitRunning),
            ),
            Keeping::Maintains => device_passed(self.maintain.ask(), over),
            Keeping::LoadsPhase => Ask::Load(SharedWord::Phase.place()),
            Keeping::Enters => passed(self.enter.ask(), over),
            Keeping::Copies => passed(self.copy_ask(), over),
            Keeping::Seeks => passed(self.seek.ask(), over),
            Keeping::Waits => passed(self.wait.ask(), over),
            Keeping::Writes => write_asked(self.writes.answer(), over),
            Keeping::Finishes => passed(self.finish.ask(self.seek.points()), over),
            Keeping::Sweeps => sweep_passed(self.sweep.ask(), over),
        }
    }
}
