//! How a commit finds each session's point.
ghost use Rattle.std.specs.Prelude.{◌≡◌, ◌≤◌, ◌<◌, ◌+◌, ◌*◌, length};
ghost use Rattle.fkv_base.specs.Limits.{max_sessions, drain_slots};
ghost use Rattle.fkv_plane.specs.AsksLeft.{AsksWhereLeft};
ghost use Rattle.fkv_commit.specs.AsksLeft.{seek_asks_left};
ghost use Rattle.fkv_commit.specs.Seeking.{IsSeekInRange, seek_begun, seek_ask, seek_next, owing_from, points_from, point_taken, cut_met, other_met, slot_led, defer_led};
ghost use Rattle.fkv_commit.specs.declared.seeking.Seeking.TheVariants.{Ended};
ghost use Rattle.fkv_commit.specs.declared.seeking.SeekAnswer.TheVariants.{Idle};

use crate::cuts::{cut_of, cut_said, mark_after, other_cut_of};
use crate::deferring::{Defer, DeferAnswer, Deferred};
use crate::finishing::point_of;
use crate::phase_steps::{phase_stored, version_after};
use arrayvec::ArrayVec;
use fkv_base::{Addr, MAX_SESSIONS, Phase, Serial, Version};
use fkv_marks::mark;
use fkv_plane::{Ask, SessionWord, SharedWord, passed};
use std::marker::Model;

/// Points of a commit, at most.
const MAX_POINTS: usize = MAX_SESSIONS as usize;

/// What the machine has come to.
#[derive(Clone, Copy, Debug, PartialEq, Eq)]
pub enum SeekAnswer {
    /// It has not begun.
    Idle,
    /// An update of the version that is committed still waits somewhere, and nothing has changed.
    Owing,
    /// No drain slot was free when it was met, and nothing has changed.
    DrainFull,
    /// The epoch is at its last, and nothing has changed.
    EpochsSpent,
    /// The points are taken, and the phase is wait-flush: where the committed part of the log ends, and the epoch of the
    /// arming.
    Taken(Addr, u64),
}

/// How far the machine has come. Its end is kept up to the next start.
#[derive(Clone, Copy)]
pub(crate) enum Seeking {
    Ended(SeekAnswer),
    /// The owing word of this session is loaded.
    LoadsOwing(usize),
    /// A drain slot is sought.
    SeeksSlot,
    /// The cut word of the version that is committed is loaded, of the first session that has no point yet.
    LoadsCut,
    /// Its other cut word is loaded. This was the first one.
    LoadsOther(u64),
    /// The first one is loaded again.
    LoadsAgain,
    StoresWaitFlush,
    LoadsTail,
    RaisesReadOnly(Addr),
    /// That the safe read-only offset follows is deferred.
    Defers(Addr),
}

/// Finds each session's point once no session owes an update of the version that is committed; then stores wait-flush, and
/// makes the log read-only up to its tail, which is the commit's end.
#[derive(Drop)]
pub struct SeekPoints {
    sessions: usize,
    number: Version,
    /// The points of the newest finished commit.
    floor: ArrayVec<Serial, MAX_POINTS>,
    points: ArrayVec<Serial, MAX_POINTS>,
    defer: Defer,
    step: Seeking,
}

impl Model for SeekPoints {
    ghost use Rattle.std.specs.Prelude.{◌≤◌};
    ghost use Rattle.fkv_base.specs.Limits.{max_sessions};
    ghost use Rattle.fkv_commit.specs.Seeking.{SeekState, IsSeekInRange};

    ghost Value = { SeekState };

    ghost view = { λ m. record { sessions = m.sessions; number = m.number; floor = m.floor.items; points = m.points.items; defer = m.defer; step = m.step } };

    ghost invariant = { λ m. (m.sessions ≤ max_sessions) × IsSeekInRange m.points.items m.step };
}

impl SeekPoints {
    /// The machine for a store of so many sessions, at rest.
    pub fn new(sessions: usize) -> SeekPoints
        requires { sessions ≤ max_sessions }
        ensures sessions { result.sessions ≡ sessions }
        ensures rest { result.step ≡ Ended Idle }
    {
        SeekPoints {
            sessions,
            number: Version(1),
            floor: ArrayVec::new(),
            points: ArrayVec::new(),
            defer: Defer::new(),
            step: Seeking::Ended(SeekAnswer::Idle),
        }
    }

    /// The first ask, for the commit of this number. No session's point will be below its floor, which is its point of the newest
    /// finished commit.
    pub fn start(&mut self, number: Version, floor: &[Serial]) -> Ask<SeekAnswer>
        requires fits { length floor.now ≤ max_sessions }
        ensures next { self.new ≡ seek_begun self.old number floor.now }
        ensures ask { result ≡ seek_ask self.new }
        ensures asks { AsksWhereLeft (seek_asks_left self.new) result }
        ensures bounded { seek_asks_left self.new ≤ 4 * self.old.sessions + 2 * drain_slots + 7 }
    {
        self.number = number;
        self.floor.clear();
        let _ = self.floor.try_extend_from_slice(floor);
        self.points.clear();
        self.owing_from(0);
        self.ask()
    }

    /// Goes on with the reply to its ask. At its end it stays where it is.
    #[tactic(auto, unfolding(crate::specs::Seeking::seeking_next))]
    pub fn drive(&mut self, reply: u64) -> Ask<SeekAnswer>
        ensures next { self.new ≡ seek_next self.old reply }
        ensures ask { result ≡ seek_ask self.new }
        ensures asks { AsksWhereLeft (seek_asks_left self.new) result }
        ensures fewer { 0 < seek_asks_left self.old → seek_asks_left self.new < seek_asks_left self.old }
    {
        match self.step {
            Seeking::Ended(_) => {}
            Seeking::LoadsOwing(session) => {
                if reply == 0 {
                    self.owing_from(session + 1);
                } else {
                    self.step = Seeking::Ended(SeekAnswer::Owing);
                }
            }
            Seeking::SeeksSlot => {
                let ask = self.defer.drive(reply);
                self.after_slot(ask);
            }
            Seeking::LoadsCut => self.after_cut(reply),
            Seeking::LoadsOther(first) => self.after_other(first, reply),
            Seeking::LoadsAgain => self.takes(cut_said(reply).serial),
            Seeking::StoresWaitFlush => self.step = Seeking::LoadsTail,
            Seeking::LoadsTail => self.step = Seeking::RaisesReadOnly(Addr(reply)),
            Seeking::RaisesReadOnly(end) => {
                self.defer.on(Deferred::ShowsReadOnly(end));
                self.step = Seeking::Defers(end);
            }
            Seeking::Defers(end) => {
                let ask = self.defer.drive(reply);
                self.after_defer(end, ask);
            }
        }
        self.ask()
    }

    /// What it asks now.
    #[tactic(auto, unfolding(crate::specs::Seeking::seeking_ask))]
    pub fn ask(&self) -> Ask<SeekAnswer>
        ensures { result ≡ seek_ask self.now }
    {
        let session = self.points.len();
        match self.step {
            Seeking::Ended(answer) => Ask::Done(answer),
            Seeking::LoadsOwing(owing) => Ask::Load(SessionWord::Owing.place(owing)),
            Seeking::SeeksSlot | Seeking::Defers(_) => passed(self.defer.ask(), SeekAnswer::Idle),
            Seeking::LoadsCut | Seeking::LoadsAgain => {
                Ask::Load(cut_of(self.number).place(session))
            }
            Seeking::LoadsOther(_) => Ask::Load(other_cut_of(self.number).place(session)),
            Seeking::StoresWaitFlush => {
                let next = version_after(self.number);
                Ask::Store(
                    SharedWord::Phase.place(),
                    phase_stored(Phase::WaitFlush, next),
                )
            }
            Seeking::LoadsTail => Ask::Load(SharedWord::Tail.place()),
            Seeking::RaisesReadOnly(end) => Ask::Max(SharedWord::ReadOnly.place(), end.0),
        }
    }

    /// The points, in the order of the sessions.
    pub fn points(&self) -> &[Serial]
        ensures value { result.now ≡ self.now.points }
        ensures fits { length result.now ≤ max_sessions }
    {
        self.points.as_slice()
    }

    /// The owing words are loaded from this session's on, and then a slot is sought.
    fn owing_from(&mut self, session: usize)
        ensures { self.new ≡ owing_from self.old session }
    {
        if session < self.sessions {
            self.step = Seeking::LoadsOwing(session);
        } else {
            self.defer.start();
            self.step = Seeking::SeeksSlot;
        }
    }

    /// Goes on by what is asked as a slot is sought.
    #[tactic(auto, unfolding(crate::specs::Seeking::slot_led))]
    fn after_slot(&mut self, ask: Ask<DeferAnswer>)
        ensures { self.new ≡ slot_led self.old ask }
    {
        match ask {
            Ask::Done(DeferAnswer::Held) => self.points_from(),
            Ask::Done(DeferAnswer::Spent) => self.step = Seeking::Ended(SeekAnswer::EpochsSpent),
            Ask::Done(_) => self.step = Seeking::Ended(SeekAnswer::DrainFull),
            _ => {}
        }
    }

    /// The point of the next session is sought, or wait-flush is stored behind the last.
    fn points_from(&mut self)
        ensures { self.new ≡ points_from self.old }
    {
        self.step = if self.points.len() < self.sessions {
            Seeking::LoadsCut
        } else {
            Seeking::StoresWaitFlush
        };
    }

    /// Goes on by the cut word of the version that is committed.
    fn after_cut(&mut self, word: u64)
        requires { length self.old.points < max_sessions }
        ensures { self.new ≡ cut_met self.old word }
    {
        let cut = cut_said(word);
        if cut.version == mark(self.number).0 {
            self.takes(cut.serial);
        } else {
            self.step = Seeking::LoadsOther(word);
        }
    }

    /// Goes on by the other cut word: that of a session which has slept through the version says how far it came before.
    fn after_other(&mut self, first: u64, word: u64)
        requires { length self.old.points < max_sessions }
        ensures { self.new ≡ other_met self.old first word }
    {
        let other = cut_said(word);
        if other.version != mark_after(self.number) {
            self.takes(cut_said(first).serial.max(other.serial));
        } else {
            self.step = Seeking::LoadsAgain;
        }
    }

    /// The point of a session is this serial, or its floor if that is greater.
    fn takes(&mut self, serial: u64)
        requires { length self.old.points < max_sessions }
        ensures { self.new ≡ point_taken self.old serial }
    {
        let floor = point_of(self.floor.as_slice(), self.points.len());
        // The last point leaves no session of which a word might be loaded.
        self.step = Seeking::StoresWaitFlush;
        self.points.push(Serial(floor.max(serial)));
        self.points_from();
    }

    /// Goes on by what is asked as the safe read-only offset is deferred.
    #[tactic(auto, unfolding(crate::specs::Seeking::defer_led))]
    fn after_defer(&mut self, end: Addr, ask: Ask<DeferAnswer>)
        ensures { self.new ≡ defer_led end self.old ask }
    {
        match ask {
            Ask::Done(DeferAnswer::Armed(epoch)) => {
                self.step = Seeking::Ended(SeekAnswer::Taken(end, epoch));
            }
            Ask::Done(_) => self.step = Seeking::Ended(SeekAnswer::Idle),
            _ => {}
        }
    }
}
