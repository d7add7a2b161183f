//! How a session catches up with the store.
ghost use Rattle.std.specs.Prelude.{◌≡◌, ◌<◌, ◌≤◌, ◌^◌, ◌-◌, Option, Bool, List, [], length};
ghost use Rattle.fkv_base.specs.Limits.{max_sessions};
ghost use Rattle.fkv_plane.specs.AsksLeft.{AsksWhereLeft};
ghost use Rattle.fkv_pending.specs.declared.pending_requests.PendingRequest.{PendingRequest};
ghost use Rattle.fkv_session.specs.declared.catching_up.Catching.TheVariants.{Ended};
ghost use Rattle.fkv_session.specs.AsksLeft.{catch_asks_left, most_catch_asks};
ghost use Rattle.fkv_session.specs.CatchingUp.{refresh_begun, refresh_ended, wake_begun, catch_ask, catch_next, catch_requests, cut_of, cut_at, seen_after, finishes, latch_wanted, latches, cuts, takes_up, enters_prepare, owing, refresh_ledto, protect_ledto, latch_ledto, finish_ledto, latch_marked};

use fkv_base::{Phase, Serial, Version};
use fkv_epoch::{Protect, Refresh, RefreshAnswer, Seen as LoadedValues};
use fkv_index::home_of;
use fkv_latch::{Latch, LatchAnswer, LatchTask};
use fkv_log::SeenOffsets;
use fkv_marks::mark;
use fkv_ops::Seen;
use fkv_pending::PendingList;
use fkv_plane::{Ask, Places, SessionWord, passed};
use fkv_words::{CutWord, PhaseSaid, phase_said};
use std::marker::Model;

/// How far the machine has come.
#[derive(Clone, Copy)]
pub(crate) enum Catching {
    Ended,
    Refreshes,
    Protects,
    /// Where the version before ends is stored.
    StoresCut,
    StoresOwing,
    /// The request at this index takes its latch.
    Latches(usize),
    /// The epoch word is stored, last.
    Finishes,
}

/// Refreshes or wakes, and takes up the phase that was loaded. Where the version has changed, it stores where the version
/// before ends for the session, and how many updates of that version wait. Where it enters prepare, each update that waits
/// takes its bucket's latch.
#[derive(Drop)]
pub struct CatchUp {
    places: Places,
    bits: u64,
    session: usize,
    seen: Seen,
    serial: u64,
    is_refresh: bool,
    is_entering: bool,
    refresh: Refresh,
    protect: Protect,
    latch: Latch,
    step: Catching,
}

impl Model for CatchUp {
    ghost use Rattle.std.specs.Prelude.{◌≡◌, ◌<◌, ◌^◌};
    ghost use Rattle.fkv_base.specs.Limits.{max_sessions};
    ghost use Rattle.fkv_session.specs.CatchingUp.{Catcher, CatchState};

    ghost Value = { Catcher };

    ghost view = { λ m. record { places = m.places; bits = m.bits; session = m.session; state = record { seen = m.seen; serial = m.serial; is_refresh = m.is_refresh; is_entering = m.is_entering; refreshing = m.refresh.step; protecting = m.protect.step; latching = m.latch; step = m.step } } };

    ghost invariant = { λ m. (m.session < max_sessions) × (m.refresh.session ≡ m.session) × (m.protect.session ≡ m.session) × (m.places.buckets ≡ 2 ^ m.bits) };
}

impl CatchUp {
    /// The machine of a session, at rest. The index has 2^bits buckets.
    pub fn new(places: Places, bits: u64, session: usize) -> CatchUp
        requires session { session < max_sessions }
        requires buckets { places.buckets ≡ 2 ^ bits }
        ensures places { result.places ≡ places }
        ensures bits { result.bits ≡ bits }
        ensures session { result.session ≡ session }
        ensures rest { result.state.step ≡ Ended }
    {
        let nothing = fkv_base::Addr(0);
        CatchUp {
            places,
            bits,
            session,
            seen: Seen {
                phase: Phase::Rest,
                version: Version(1),
                offsets: SeenOffsets {
                    head: nothing,
                    read_only: nothing,
                },
            },
            serial: 0,
            is_refresh: false,
            is_entering: false,
            refresh: Refresh::new(session),
            protect: Protect::new(session),
            latch: Latch::new(),
            step: Catching::Ended,
        }
    }

    /// Where the shared words of the store stand.
    pub fn places(&self) -> Places
        ensures value { result ≡ self.now.places }
        ensures buckets { result.buckets ≡ 2 ^ self.now.bits }
    {
        self.places
    }

    /// The first ask of a refresh. The session has seen these values, and taken serials up to this one.
    #[tactic(auto, unfolding(crate::specs::CatchingUp::catching_ask))]
    pub fn refresh(&mut self, seen: Seen, serial: Serial) -> Ask<()>
        ensures next { self.new ≡ record self.old { state = refresh_begun self.old.state seen serial.0 } }
        ensures ask { result ≡ catch_ask self.old.places self.old.session self.new.state [] }
        ensures asks { (requests : List PendingRequest) → AsksWhereLeft (catch_asks_left self.new.state requests) result }
        ensures bounded { (requests : List PendingRequest) → catch_asks_left self.new.state requests ≤ most_catch_asks requests }
    {
        self.seen = seen;
        self.serial = serial.0;
        self.is_refresh = true;
        self.is_entering = false;
        self.step = Catching::Refreshes;
        passed(self.refresh.start(), ())
    }

    /// A refresh has come to its end without the machine, where no request waits: the session went by the one, and goes by the other.
    pub(crate) fn end_refresh(&mut self, before: Seen, after: Seen, serial: Serial)
        ensures { self.new ≡ record self.old { state = refresh_ended self.old.state before after serial.0 } }
    {
        self.seen = after;
        self.serial = serial.0;
        self.is_refresh = true;
        self.is_entering = enters_prepare(before, after);
        self.refresh = Refresh::new(self.session);
        self.step = Catching::Ended;
    }

    /// The first ask of a wake.
    #[tactic(auto, unfolding(crate::specs::CatchingUp::catching_ask))]
    pub fn wake(&mut self, seen: Seen, serial: Serial) -> Ask<()>
        ensures next { self.new ≡ record self.old { state = wake_begun self.old.state seen serial.0 } }
        ensures ask { result ≡ catch_ask self.old.places self.old.session self.new.state [] }
        ensures asks { (requests : List PendingRequest) → AsksWhereLeft (catch_asks_left self.new.state requests) result }
        ensures bounded { (requests : List PendingRequest) → catch_asks_left self.new.state requests ≤ most_catch_asks requests }
    {
        self.seen = seen;
        self.serial = serial.0;
        self.is_refresh = false;
        self.is_entering = false;
        self.step = Catching::Protects;
        passed(self.protect.start(), ())
    }

    /// Goes on with the reply to its ask, over the requests of the session that wait: those whose latches are taken are
    /// marked. At its end it stays where it is.
    #[tactic(auto, unfolding(crate::specs::CatchingUp::catching_next, crate::specs::CatchingUp::catching_requests))]
    pub fn drive(&mut self, requests: &mut PendingList, reply: u64) -> Ask<()>
        ensures requests { requests.new ≡ catch_requests self.old.state requests.old reply }
        ensures next { self.new ≡ record self.old { state = catch_next self.old.places self.old.bits self.old.session self.old.state requests.old reply } }
        ensures ask { result ≡ catch_ask self.old.places self.old.session self.new.state requests.new }
        ensures asks { AsksWhereLeft (catch_asks_left self.new.state requests.new) result }
        ensures fewer { 0 < catch_asks_left self.old.state requests.old → catch_asks_left self.new.state requests.new < catch_asks_left self.old.state requests.old }
        ensures same_length { length requests.new ≡ length requests.old }
    {
        match self.step {
            Catching::Ended => {}
            Catching::Refreshes => {
                let ask = self.refresh.drive(reply);
                self.after_refresh(requests, ask);
            }
            Catching::Protects => {
                let ask = self.protect.drive(reply);
                self.after_protect(requests, ask);
            }
            Catching::StoresCut => self.step = Catching::StoresOwing,
            Catching::StoresOwing => self.latches(requests),
            Catching::Latches(index) => {
                let ask = self.latch.drive(reply);
                mark_latched(requests, index, &ask);
                self.after_latch(requests, ask);
            }
            Catching::Finishes => {
                let ask = self.refresh.drive(reply);
                self.after_finish(ask);
            }
        }
        self.ask(requests)
    }

    /// What it asks now, with these requests that wait.
    #[tactic(auto, unfolding(crate::specs::CatchingUp::catching_ask))]
    pub fn ask(&self, requests: &PendingList) -> Ask<()>
        ensures ask { result ≡ catch_ask self.now.places self.now.session self.now.state requests.now }
        ensures asks { AsksWhereLeft (catch_asks_left self.now.state requests.now) result }
    {
        match self.step {
            Catching::Ended => Ask::Done(()),
            Catching::Refreshes | Catching::Finishes => passed(self.refresh.ask(), ()),
            Catching::Protects => passed(self.protect.ask(), ()),
            Catching::StoresCut => {
                let before = self.version_before();
                Ask::Store(
                    cut_of(before).place(self.session),
                    cut_at(self.serial, before),
                )
            }
            Catching::StoresOwing => {
                let owing = owing(self.seen, requests);
                Ask::Store(SessionWord::Owing.place(self.session), owing)
            }
            Catching::Latches(_) => passed(self.latch.ask(), ()),
        }
    }

    /// What the session goes by now.
    pub fn seen(&self) -> Seen
        ensures { result ≡ self.now.state.seen }
    {
        self.seen
    }

    fn version_before(&self) -> u64
        ensures { result ≡ self.now.state.seen.version.0 - 1 }
    {
        self.seen.version.0.saturating_sub(1)
    }

    /// Goes on by what the refresh asks.
    #[tactic(auto, unfolding(crate::specs::CatchingUp::refresh_ledto))]
    fn after_refresh(&mut self, requests: &PendingList, ask: Ask<RefreshAnswer>)
        ensures { self.new ≡ record self.old { state = refresh_ledto self.old.places self.old.bits self.old.state requests.now ask } }
    {
        match ask {
            Ask::Done(RefreshAnswer::Loaded(values)) => {
                let after = seen_after(self.seen, values, phase_said(values.phase));
                self.takes_up(requests, after);
            }
            Ask::Done(RefreshAnswer::Stored) => self.step = Catching::Ended,
            _ => {}
        }
    }

    /// Goes on by what the wake asks.
    #[tactic(auto, unfolding(crate::specs::CatchingUp::protect_ledto))]
    fn after_protect(&mut self, requests: &PendingList, ask: Ask<LoadedValues>)
        ensures { self.new ≡ record self.old { state = protect_ledto self.old.places self.old.bits self.old.state requests.now ask } }
    {
        if let Ask::Done(values) = ask {
            let after = seen_after(self.seen, values, phase_said(values.phase));
            self.takes_up(requests, after);
        }
    }

    /// What was loaded is taken up.
    fn takes_up(&mut self, requests: &PendingList, after: Seen)
        ensures { self.new ≡ record self.old { state = takes_up self.old.places self.old.bits self.old.state requests.now after } }
    {
        let before = self.seen;
        self.is_entering = enters_prepare(before, after);
        self.seen = after;
        if before.version == after.version {
            self.latches(requests);
        } else {
            self.step = Catching::StoresCut;
        }
    }

    /// The next update that waits without its latch takes it, where the session enters prepare.
    fn latches(&mut self, requests: &PendingList)
        ensures { self.new ≡ record self.old { state = latches self.old.places self.old.bits self.old.state requests.now } }
    {
        if !self.is_entering {
            self.finishes();
            return;
        }
        let wanted = requests.first_unlatched();
        self.latch_wanted(requests, wanted);
    }

    fn latch_wanted(&mut self, requests: &PendingList, wanted: Option<usize>)
        ensures { self.new ≡ record self.old { state = latch_wanted self.old.places self.old.bits self.old.state requests.now wanted } }
    {
        if let Some(index) = wanted {
            if let Some(pending) = requests.get(index) {
                let home = home_of(pending.request.op.key(), self.bits);
                let place = self.places.bucket(home.bucket, 7);
                self.latch.start(LatchTask::TakeShared, place);
                self.step = Catching::Latches(index);
                return;
            }
        }
        self.finishes();
    }

    /// Goes on by what the latch asks.
    #[tactic(auto, unfolding(crate::specs::CatchingUp::latch_ledto))]
    fn after_latch(&mut self, requests: &PendingList, ask: Ask<LatchAnswer>)
        ensures { self.new ≡ record self.old { state = latch_ledto self.old.places self.old.bits self.old.state requests.now ask } }
    {
        match ask {
            Ask::Done(LatchAnswer::Taken) => self.latches(requests),
            Ask::Done(_) => self.finishes(),
            _ => {}
        }
    }

    /// The epoch word is stored last; who wakes has stored it first.
    fn finishes(&mut self)
        ensures { self.new ≡ record self.old { state = finishes self.old.state } }
    {
        if self.is_refresh {
            self.refresh.finish();
            self.step = Catching::Finishes;
        } else {
            self.step = Catching::Ended;
        }
    }

    /// Goes on by what the store of the epoch word asks.
    #[tactic(auto, unfolding(crate::specs::CatchingUp::finish_ledto))]
    fn after_finish(&mut self, ask: Ask<RefreshAnswer>)
        ensures { self.new ≡ record self.old { state = finish_ledto self.old.state ask } }
    {
        if let Ask::Done(_) = ask {
            self.step = Catching::Ended;
        }
    }
}

/// The request of which the latch is taken shares it from then on.
#[tactic(auto, unfolding(crate::specs::CatchingUp::latch_marked))]
fn mark_latched(requests: &mut PendingList, index: usize, ask: &Ask<LatchAnswer>)
    ensures marked { requests.new ≡ latch_marked requests.old index ask.now }
    ensures same_length { length requests.new ≡ length requests.old }
{
    if let Ask::Done(LatchAnswer::Taken) = ask {
        if let Some(pending) = requests.get(index) {
            requests.set(index, pending.with_latch(true));
        }
    }
}

/// How many updates of the version before the session's wait.
pub(crate) fn owing(seen: Seen, requests: &PendingList) -> u64
    ensures { result ≡ owing seen requests.now }
{
    let before = Version(seen.version.0.saturating_sub(1));
    requests.updates_of(before) as u64
}

/// Which of a session's two cut words is this version's: there is one of even versions, and one of odd ones.
pub fn cut_of(version: u64) -> SessionWord
    ensures { result ≡ cut_of version }
{
    if version % 2 == 0 {
        SessionWord::EvenCut
    } else {
        SessionWord::OddCut
    }
}

/// The cut word that says that a version ends for the session at this serial. It has the version's mark.
pub fn cut_at(serial: u64, version: u64) -> u64
    ensures { result ≡ cut_at serial version }
{
    let cut = CutWord {
        serial: Serial(serial.min(Serial::LAST)),
        version: mark(Version(version)),
    };
    cut.pack()
}

/// What a session goes by once it has loaded these values, of which the phase's word says this. One that is spoiled changes neither phase nor version.
pub fn seen_after(seen: Seen, values: LoadedValues, said: PhaseSaid) -> Seen
    ensures { result ≡ seen_after seen values said }
{
    let offsets = SeenOffsets {
        head: values.head,
        read_only: values.read_only,
    };
    match said {
        PhaseSaid::Spoiled => Seen { offsets, ..seen },
        PhaseSaid::Says(phase, version) => Seen {
            phase,
            version,
            offsets,
        },
    }
}

fn enters_prepare(before: Seen, after: Seen) -> bool
    ensures { result ≡ enters_prepare before after }
{
    let was_prepare = before.phase == Phase::Prepare && before.version == after.version;
    after.phase == Phase::Prepare && !was_prepare
}
