//! Where the keeper goes on by what the machines inside it come to.
ghost use Rattle.std.specs.Prelude.{◌≡◌, [], is_some, true, None, Some};
ghost use Rattle.fkv_checkpoint.specs.Copying.{IsRoomFor};
ghost use Rattle.fkv_disk.specs.Asks.{asked_call, first_asked};
ghost use Rattle.fkv_manifest.specs.Committing.{commit_answer};
ghost use Rattle.fkv_manifest.specs.Devices.{next_made};
ghost use Rattle.fkv_manifest.specs.Made.{with_call};
ghost use Rattle.fkv_keeper.specs.Keeping.{device_passed, end_told, write_asked, copy_asked, copy_driven, copy_told, copy_due, is_copy_resting, points_known, ended, turned, turned_full, start_ledto, maintain_ledto, broken, granted_for, must_rest, parts_begun, serves_alone, phase_ledto, part_begun, rested, writes_taken_up, sweeps_next, sweep_ledto, sweep_passed, sweep_set, may_set, begin_next, copies_next, copies, enter_ledto, copy_ledto, seek_ledto, wait_ledto, writes_begun, gate_writes_of, write_ledto, finish_ledto, finished, no_writes, checkpoint_used, triples_written, lost_left};

use crate::answers::KeeperTold;
use crate::keepers::{Keeper, Keeping};
use crate::last_commits::Checkpoint;
use crate::manifests::{slot_place, slot_written};
use fkv_base::{Addr, CommitKind, Fault, Phase, StoreClass};
use fkv_checkpoint::{CopyRoom, IndexCopy};
use fkv_commit::{Commit, EnterAnswer, FinishAnswer, SeekAnswer, StartAnswer, WaitAnswer};
use fkv_disk::DeviceAsk;
use fkv_maintain::MaintainAnswer;
use fkv_manifest::{CommitWrites, GateWrites, NextCall, WriteAnswer};
use fkv_plane::{Ask, passed};
use fkv_record::{LostRange, area_place};
use fkv_sweep::SweepAnswer;
use fkv_words::PhaseSaid;
use std::alloc::Global;

/// Writes of nothing: they keep no bytes of triples.
#[tactic(auto, unfolding(crate::specs::Keeping::no_writes))]
pub(crate) fn no_writes(alloc: Global) -> CommitWrites
    ensures { result ≡ no_writes }
{
    CommitWrites::new(0, Vec::new(alloc), GateWrites::new(0, 0, [0; 512], false))
}

/// Drives the copy with the reply to its ask, where there is one. Where it then rests nothing more is asked in this turn.
#[inline]
pub(crate) fn copy_driven(copy: &mut Option<IndexCopy>, reply: u64) -> Ask<()>
    ensures next { copy.new ≡ copy_driven copy.old reply }
    ensures ask { result ≡ copy_told copy.new }
{
    match copy {
        Some(copy) => {
            let ask = copy.drive(reply);
            if copy.rests() { Ask::Done(()) } else { ask }
        }
        None => Ask::Done(()),
    }
}

/// What a part of every turn asks, passed on; its call of the device is the keeper's.
#[tactic(auto, unfolding(crate::specs::Keeping::device_passed))]
pub(crate) fn device_passed(ask: Ask<MaintainAnswer>, told: KeeperTold) -> Ask<KeeperTold>
    ensures { result ≡ device_passed ask told }
{
    match ask {
        Ask::Done(MaintainAnswer::Device) => Ask::Done(KeeperTold::Device),
        other => passed(other, told),
    }
}

/// What a sweep asks, passed on; its read of the device is the keeper's.
#[tactic(auto, unfolding(crate::specs::Keeping::sweep_passed))]
pub(crate) fn sweep_passed(ask: Ask<SweepAnswer>, told: KeeperTold) -> Ask<KeeperTold>
    ensures { result ≡ sweep_passed ask told }
{
    match ask {
        Ask::Done(SweepAnswer::Device) => Ask::Done(KeeperTold::Device),
        other => passed(other, told),
    }
}

/// What the writes of a commit need.
pub(crate) fn write_asked(answer: WriteAnswer, told: KeeperTold) -> Ask<KeeperTold>
    ensures { result ≡ write_asked answer told }
{
    match answer {
        WriteAnswer::Device => Ask::Done(KeeperTold::Device),
        _ => Ask::Done(told),
    }
}

/// The call of the device that the writes of a commit make next, if they make one.
pub(crate) fn write_due<'a>(next: Option<NextCall<'a>>) -> Option<DeviceAsk<'a>>
    ensures { asked_call result ≡ first_asked (with_call (next_made next.entry true) []) }
{
    match next {
        Some(NextCall::Writes(at, bytes)) => Some(DeviceAsk::Write(at, bytes)),
        Some(NextCall::Syncs) => Some(DeviceAsk::Sync),
        None => None,
    }
}

/// How a call has ended, which needs no device any more.
pub(crate) fn end_told(its: KeeperTold, told: KeeperTold) -> KeeperTold
    ensures { result ≡ end_told its told }
{
    match its {
        KeeperTold::Device => told,
        other => other,
    }
}

impl Keeper {
    /// What the copy asks, where there is one.
    pub(crate) fn copy_ask(&self) -> Ask<()>
        ensures { result ≡ copy_asked self.now.state.copy }
    {
        match &self.copy {
            Some(copy) => copy.ask(),
            None => Ask::Done(()),
        }
    }

    /// The place of the word that the copy loads, where there is one.
    #[inline]
    pub(crate) fn copy_word_due(&self) -> Option<usize>
        ensures { result ≡ copy_due self.now.state.copy }
    {
        match &self.copy {
            Some(copy) => copy.word_due(),
            None => None,
        }
    }

    /// Whether the copy rests, where there is one.
    pub(crate) fn is_copy_resting(&self) -> bool
        ensures { result ≡ is_copy_resting self.now.state.copy }
    {
        match &self.copy {
            Some(copy) => copy.rests(),
            None => false,
        }
    }

    fn ends(&mut self, told: KeeperTold)
        ensures { self.new ≡ record self.old { state = ended self.old.state told } }
    {
        self.step = Keeping::Ended(told);
    }

    /// The turn is over.
    pub(crate) fn turns(&mut self)
        ensures { self.new ≡ record self.old { state = turned self.old.state } }
    {
        self.ends(KeeperTold::Turned(false, self.is_drain_full));
    }

    /// The turn is over, and a part of it was left out.
    fn turns_full(&mut self)
        ensures { self.new ≡ record self.old { state = turned_full self.old.state } }
    {
        self.is_drain_full = true;
        self.ends(KeeperTold::Turned(false, true));
    }

    /// The device has failed.
    pub(crate) fn breaks(&mut self)
        ensures { self.new ≡ record self.old { state = broken self.old.state } }
    {
        self.is_broken = true;
        self.rests = false;
        self.ends(KeeperTold::TurnRefused(Fault::Device));
    }

    #[tactic(auto, unfolding(crate::specs::Keeping::start_ledto))]
    pub(crate) fn after_start(&mut self, ask: Ask<StartAnswer>)
        ensures { self.new ≡ record self.old { state = start_ledto self.old.state ask } }
    {
        if let Ask::Done(answer) = ask {
            match answer {
                StartAnswer::Begun(number, first) => {
                    self.commit = Some(Commit::begun(
                        number,
                        self.start.kind(),
                        self.begin_next(first),
                        first,
                    ));
                    self.copy = None;
                    self.has_entered = false;
                    self.has_points = false;
                    self.rests = false;
                    self.ends(KeeperTold::Begun(number));
                }
                StartAnswer::Refused(why) => self.ends(KeeperTold::CommitRefused(why)),
                StartAnswer::Idle => self.ends(KeeperTold::CommitRefused(Fault::CommitRunning)),
            }
        }
    }

    /// Where the log of a commit begins that starts with this first address.
    fn begin_next(&self, first: Addr) -> Addr
        ensures { result ≡ begin_next self.now.state first }
    {
        let to = self.sweep.to();
        if self.sweep.at().0 == to.0 && to <= self.last.checkpoint.first && to <= first {
            to
        } else {
            self.last.begin
        }
    }

    /// Begins the parts of a turn.
    pub(crate) fn begins_parts(&mut self)
        ensures { self.new ≡ record self.old { state = record self.old.state { maintain = parts_begun (serves_alone self.old.state) self.old.state.maintain } } }
    {
        if self.rests() {
            self.maintain.start_serving();
        } else {
            self.maintain.start();
        }
    }

    #[tactic(auto, unfolding(crate::specs::Keeping::maintain_ledto))]
    pub(crate) fn after_maintain(&mut self, ask: Ask<MaintainAnswer>)
        ensures { self.new ≡ record self.old { state = maintain_ledto self.old.state ask } }
    {
        if let Ask::Done(answer) = ask {
            match answer {
                MaintainAnswer::Device => {}
                MaintainAnswer::Through => {
                    self.is_drain_full = self.maintain.is_drain_full();
                    self.step = Keeping::LoadsPhase;
                }
                MaintainAnswer::Spent => self.ends(KeeperTold::TurnRefused(Fault::EpochsSpent)),
                MaintainAnswer::Broken => self.breaks(),
            }
        }
    }

    /// Goes on by what the phase word says, or with the writes that rest. Where a flush rests the turn is over, and with no commit in hand
    /// a sweep may go on. A copy takes the room; where none begins it is kept.
    #[tactic(auto, unfolding(crate::specs::Keeping::phase_ledto))]
    pub(crate) fn after_phase(&mut self, said: PhaseSaid, room: Option<CopyRoom>, goes_on: bool)
        requires { IsRoomFor self.old.places room }
        ensures { self.new ≡ record self.old { state = phase_ledto self.old.places self.old.state self.old.state.commit said (granted_for self.old.state (is_some room) goes_on) } }
    {
        let mut room = room;
        match self.commit {
            Some(_) if self.rests => self.takes_up(goes_on),
            _ if self.maintain.is_flush_resting() => self.lets_flush(goes_on),
            Some(commit) => self.begins_part(commit, said, &mut room),
            None => self.sweeps(goes_on),
        }
        self.keeps(room);
    }

    /// The writes that rest go on, or rest still.
    fn takes_up(&mut self, goes_on: bool)
        ensures { self.new ≡ record self.old { state = writes_taken_up self.old.state goes_on } }
    {
        self.is_granted = goes_on;
        if goes_on {
            self.rests = false;
            self.step = Keeping::Writes;
        } else {
            self.turns();
        }
    }

    /// The turn is over. If the flush that rests is let go on, the next turn takes it up.
    fn lets_flush(&mut self, goes_on: bool)
        ensures { self.new ≡ record self.old { state = turned (record self.old.state { is_granted = goes_on }) } }
    {
        self.is_granted = goes_on;
        self.turns();
    }

    /// A sweep that isn't done goes on, if it is let. Else the turn is over.
    fn sweeps(&mut self, goes_on: bool)
        ensures { self.new ≡ record self.old { state = sweeps_next self.old.state goes_on } }
    {
        self.is_granted = goes_on;
        if goes_on && self.sweep.is_sweeping() {
            self.sweep.start();
            self.step = Keeping::Sweeps;
        } else {
            self.turns();
        }
    }

    /// The sweep's turn goes on, or is through.
    #[tactic(auto, unfolding(crate::specs::Keeping::sweep_ledto))]
    pub(crate) fn after_sweep(&mut self, ask: Ask<SweepAnswer>)
        ensures { self.new ≡ record self.old { state = sweep_ledto self.old.state ask } }
    {
        if let Ask::Done(SweepAnswer::Through) = ask {
            self.turns();
        }
    }

    /// Keeps room for a later copy, if there is some.
    fn keeps(&mut self, room: Option<CopyRoom>)
        requires { IsRoomFor self.old.places room }
        ensures { self.new ≡ self.old }
    {
        if room.is_some() {
            self.room = room;
        }
    }

    /// Begins what the phase calls for.
    fn begins_part(&mut self, commit: Commit, said: PhaseSaid, room: &mut Option<CopyRoom>)
        requires { IsRoomFor self.old.places room.old }
        ensures next { self.new ≡ record self.old { state = part_begun self.old.places self.old.state commit said (is_some room.old) } }
        ensures left { IsRoomFor self.old.places room.new }
    {
        match said {
            PhaseSaid::Says(Phase::InProgress, _) => {
                if !self.has_entered {
                    self.enter.start(commit.number);
                    self.step = Keeping::Enters;
                } else if commit.is_copied {
                    self.turns();
                } else {
                    self.copies(room);
                }
            }
            PhaseSaid::Says(Phase::WaitPending, _) => {
                if commit.is_copied {
                    self.seek.start(commit.number, self.last.points.as_slice());
                    self.has_points = false;
                    self.step = Keeping::Seeks;
                } else {
                    self.copies(room);
                }
            }
            PhaseSaid::Says(Phase::WaitFlush, _) if self.has_points => {
                self.wait.start(commit.end, commit.epoch);
                self.step = Keeping::Waits;
            }
            _ => self.turns(),
        }
    }

    /// The copy that rests goes on. Where none rests one begins, if there is room for it.
    fn copies(&mut self, room: &mut Option<CopyRoom>)
        requires { IsRoomFor self.old.places room.old }
        ensures next { self.new ≡ record self.old { state = copies self.old.places self.old.state (is_some room.old) } }
        ensures left { IsRoomFor self.old.places room.new }
    {
        if !self.is_copy_resting() {
            match room.take() {
                Some(room) => self.copy = Some(IndexCopy::begin(room)),
                None => {
                    self.is_granted = false;
                    self.ends(KeeperTold::TurnRefused(Fault::Memory));
                    return;
                }
            }
        }
        self.is_granted = true;
        self.step = Keeping::Copies;
    }

    #[tactic(auto, unfolding(crate::specs::Keeping::enter_ledto))]
    pub(crate) fn after_enter(&mut self, ask: Ask<EnterAnswer>)
        ensures { self.new ≡ record self.old { state = enter_ledto self.old.state ask } }
    {
        if let Ask::Done(answer) = ask {
            match answer {
                EnterAnswer::Entered => {
                    self.has_entered = true;
                    self.turns();
                }
                EnterAnswer::DrainFull => self.turns_full(),
                EnterAnswer::EpochsSpent => self.ends(KeeperTold::TurnRefused(Fault::EpochsSpent)),
                EnterAnswer::Idle => self.turns(),
            }
        }
    }

    #[tactic(auto, unfolding(crate::specs::Keeping::copy_ledto))]
    pub(crate) fn after_copy(&mut self, ask: Ask<()>)
        ensures { self.new ≡ record self.old { state = copy_ledto self.old.state ask } }
    {
        if let Ask::Done(()) = ask {
            if let Some(commit) = self.commit {
                self.commit = Some(Commit {
                    is_copied: commit.is_copied || !self.is_copy_resting(),
                    ..commit
                });
            }
            self.turns();
        }
    }

    #[tactic(auto, unfolding(crate::specs::Keeping::seek_ledto))]
    pub(crate) fn after_seek(&mut self, ask: Ask<SeekAnswer>)
        ensures { self.new ≡ record self.old { state = seek_ledto self.old.state ask } }
    {
        if let Ask::Done(answer) = ask {
            match answer {
                SeekAnswer::Taken(end, epoch) => {
                    self.knows_points(end, epoch);
                    self.turns();
                }
                SeekAnswer::DrainFull => self.turns_full(),
                SeekAnswer::EpochsSpent => self.ends(KeeperTold::TurnRefused(Fault::EpochsSpent)),
                SeekAnswer::Owing | SeekAnswer::Idle => self.turns(),
            }
        }
    }

    /// The points were taken.
    fn knows_points(&mut self, end: Addr, epoch: u64)
        ensures { self.new ≡ record self.old { state = record self.old.state { commit = points_known self.old.state.commit end epoch; has_points = true } } }
    {
        if let Some(commit) = self.commit {
            self.commit = Some(Commit {
                end,
                epoch,
                ..commit
            });
        }
        self.has_points = true;
    }

    #[tactic(auto, unfolding(crate::specs::Keeping::wait_ledto))]
    pub(crate) fn after_wait(&mut self, ask: Ask<WaitAnswer>)
        ensures { self.new ≡ record self.old { state = wait_ledto self.old.shape self.old.state ask } }
    {
        if let Ask::Done(answer) = ask {
            match (answer, self.commit) {
                (WaitAnswer::Flushed, Some(commit)) => self.writes(commit),
                _ => self.turns(),
            }
        }
    }

    /// Begins to write the commit.
    fn writes(&mut self, commit: Commit)
        ensures { self.new ≡ record self.old { state = writes_begun self.old.shape self.old.state (Some commit) } }
    {
        self.used = self.checkpoint_used(commit);
        let gate = self.gate_writes(commit);
        let area = area_place(self.shape, self.used.area.number());
        let triples = self.triples_written(commit.kind);
        self.writes = CommitWrites::new(area, triples, gate);
        self.step = Keeping::Writes;
    }

    /// The writes of the commit's slot, for the checkpoint that it uses.
    fn gate_writes(&self, commit: Commit) -> GateWrites
        ensures { result ≡ gate_writes_of self.now.shape self.now.state commit self.now.state.used }
    {
        let slot = slot_written(
            self.shape.sessions,
            commit.number,
            commit.begin,
            commit.end,
            &self.used,
            self.seek.points(),
            self.lost_left(commit.kind),
        );
        let is_open = self.last.is_gate_open(commit.number);
        GateWrites::new(slot_place(commit.number), 1, slot, is_open)
    }

    /// The lost ranges that lie behind the checkpoint of a commit.
    fn lost_left(&self, kind: CommitKind) -> &[LostRange]
        ensures { result.now ≡ lost_left kind self.now.state.lost }
    {
        match kind {
            CommitKind::Full => &self.lost[..0],
            CommitKind::Log => self.lost.as_slice(),
        }
    }

    /// The checkpoint that the commit uses.
    fn checkpoint_used(&self, commit: Commit) -> Checkpoint
        ensures { result ≡ checkpoint_used commit commit.kind self.now.state.last self.now.state.copy }
    {
        match commit.kind {
            CommitKind::Full => Checkpoint {
                number: commit.number,
                first: commit.first,
                triples: self.copy.as_ref().map_or(0, |copy| copy.triples()),
                area: self.last.checkpoint.area.other(),
            },
            CommitKind::Log => self.last.checkpoint,
        }
    }

    /// Gives up the copy for what it has copied, where the commit writes that.
    fn triples_written(&mut self, kind: CommitKind) -> Vec<u8>
        ensures next { self.new ≡ record self.old { state = record self.old.state { copy = None } } }
        ensures bytes { result.items ≡ triples_written kind self.old.state.copy }
    {
        let copy = self.copy.take();
        match (kind, copy) {
            (CommitKind::Full, Some(copy)) => copy.into_bytes(),
            _ => Vec::new(self.alloc),
        }
    }

    #[tactic(auto, unfolding(crate::specs::Keeping::write_ledto))]
    pub(crate) fn after_write(&mut self)
        ensures { self.new ≡ record self.old { state = write_ledto self.old.state self.old.state.commit (commit_answer self.old.state.writes) } }
    {
        match self.commit {
            None => self.turns(),
            Some(commit) => match self.writes.answer() {
                WriteAnswer::Written => {
                    self.finish.start(self.seek.points(), commit.number);
                    self.step = Keeping::Finishes;
                }
                WriteAnswer::Device => self.rests_before_sync(),
                WriteAnswer::Broken(_) => {}
            },
        }
    }

    /// The turn is over where the writes of a living store come to a sync. So mailboxes are served while the bytes become durable.
    fn rests_before_sync(&mut self)
        ensures { self.new ≡ record self.old { state = rested self.old.state } }
    {
        if self.must_rest() {
            self.rests = true;
            self.turns();
        }
    }

    /// Whether the next call of the writes is a sync, in a living store.
    fn must_rest(&self) -> bool
        ensures { result ≡ must_rest self.now.state }
    {
        match self.start.class() {
            StoreClass::Specified => false,
            StoreClass::Living => matches!(self.writes.next_call(), Some(NextCall::Syncs)),
        }
    }

    #[tactic(auto, unfolding(crate::specs::Keeping::finish_ledto))]
    pub(crate) fn after_finish(&mut self, ask: Ask<FinishAnswer>)
        ensures { self.new ≡ record self.old { state = finish_ledto self.old.state ask } }
    {
        if let Ask::Done(_) = ask {
            match self.commit {
                None => self.turns(),
                Some(commit) => self.finishes(commit),
            }
        }
    }

    /// The commit is finished.
    fn finishes(&mut self, commit: Commit)
        ensures { self.new ≡ record self.old { state = finished self.old.state (Some commit) } }
    {
        self.sets_sweep(commit);
        self.maintain.serve_from(commit.begin);
        self.commit = None;
        self.last.number = commit.number;
        self.last.begin = commit.begin;
        self.last.points.clear();
        let _ = self.last.points.try_extend_from_slice(self.seek.points());
        self.last.checkpoint = self.used;
        self.last.opens_gate(commit.number);
        if commit.kind == CommitKind::Full {
            self.lost.clear();
        }
        self.writes = no_writes(self.alloc);
        self.has_finished = true;
        self.ends(KeeperTold::Turned(true, self.is_drain_full));
    }

    /// Where a full commit of a living store is finished, the next sweep goes up to its first address, unless one is under way.
    fn sets_sweep(&mut self, commit: Commit)
        ensures { self.new ≡ record self.old { state = record self.old.state { sweep = sweep_set self.old.state commit } } }
    {
        if self.may_set(commit) {
            self.sweep.restart(commit.begin, commit.first);
        }
    }

    fn may_set(&self, commit: Commit) -> bool
        ensures { result ≡ may_set self.now.state commit }
    {
        let is_free = self.sweep.at().0 == self.sweep.from().0
            || self.sweep.to().0 == commit.begin.0;
        self.start.class() != StoreClass::Specified
            && commit.kind == CommitKind::Full
            && is_free
            && commit.begin.0 <= commit.first.0
            && commit.first.0 <= 1 << 48
    }
}
