//! What a turn of the keeper does whether a commit is in hand or not.
ghost use Rattle.std.specs.Prelude.{◌≡◌, ◌<◌, ◌≤◌, ◌↔◌, ℕ, List, [], is_ok, true, false, IfOk, OnOk, OnErr, Err, Some};
ghost use Rattle.fkv_base.specs.declared.faults.Fault.TheVariants.{Memory};
ghost use Rattle.fkv_disk.specs.Asks.{asked_call, kinds_by};
ghost use Rattle.fkv_disk.specs.Bytes.{bytes_at};
ghost use Rattle.fkv_disk.specs.Device.{Elapses, HasCause, MakesCalls};
ghost use Rattle.fkv_epoch.specs.Claiming.{takes_action};
ghost use Rattle.fkv_flush.specs.Devices.{Adds};
ghost use Rattle.fkv_flush.specs.Flushing.{flush_ask};
ghost use Rattle.fkv_flush.specs.Serving.{mail_place};
ghost use Rattle.fkv_maintain.specs.AsksLeft.{maintain_asks_left, most_maintain_asks, GoesOnWhereLeft};
ghost use Rattle.fkv_maintain.specs.declared.maintaining.MaintainAnswer.TheVariants.{Device as AtDevice};
ghost use Rattle.fkv_maintain.specs.declared.maintaining.Maintaining.TheVariants.{Through, Broken, Flushes};
ghost use Rattle.fkv_plane.specs.Passing.{is_done};
ghost use Rattle.fkv_plane.specs.declared.asks.Ask.TheVariants.{Done};
ghost use Rattle.fkv_maintain.specs.Maintaining.{maintain_begun, maintain_from, maintain_serving, maintain_ask, maintain_next, maintain_given, maintain_called, maintain_asked, maintain_calls, maintain_calls_asked, maintain_made, device_asked, flush_told, is_flush_resting, is_sync_asked, scan_ledto, claim_ledto, flush_ledto, shift_ledto, turn_ledto, serve_begun, serve_ledto, turn_form, maintain_word_due};

use fkv_base::{Addr, Fault, Shape, StoreClass};
use fkv_disk::{Device, DeviceAsk};
use fkv_epoch::{Claim, Scan};
use fkv_flush::{DeviceAnswer, Flush, Serve};
use fkv_log::{MoveAnswer, ShiftAnswer, ShiftReadOnly, TurnForm, TurnPage};
use fkv_plane::{Action, Ask, Places, passed};
use std::alloc::Global;
use std::marker::Model;

/// What the machine has come to.
#[derive(Clone, Copy, Debug, PartialEq, Eq)]
pub enum MaintainAnswer {
    /// Its next step is one call of the device, which `device_step` makes.
    Device,
    Through,
    /// The epoch is at its last: nobody raises it any more.
    Spent,
    /// The device failed.
    Broken,
}

/// How far the machine has come. At rest it says how the last turn ended.
#[derive(Clone, Copy)]
pub(crate) enum Maintaining {
    Through,
    Spent,
    Broken,
    Scans,
    /// What is armed and safe is run.
    Claims,
    /// The log is flushed up to the safe read-only offset.
    Flushes,
    /// The read-only offset is shifted.
    Shifts,
    /// A page is opened, or the head is moved for it.
    Turns,
    /// The sessions' mailboxes are served.
    Serves,
}

/// Finds the safe epoch, runs the actions whose epoch is safe, flushes the log, shifts the read-only offset, opens a page or moves
/// the head for it, and serves the mailboxes.
#[derive(Drop)]
pub struct Maintain {
    shape: Shape,
    places: Places,
    scan: Scan,
    claim: Claim,
    flush: Flush,
    shift: ShiftReadOnly,
    turn: TurnPage,
    serve: Serve,
    is_drain_full: bool,
    step: Maintaining,
}

impl Model for Maintain {
    ghost use Rattle.std.specs.Prelude.{◌≡◌};
    ghost use Rattle.fkv_maintain.specs.Maintaining.{Maintainer, MaintainState};

    ghost Value = { Maintainer };

    ghost view = { λ m. record { shape = m.shape; places = m.places; state = record { scanning = m.scan.step; claiming = m.claim.step; bytes = m.flush.bytes; flushing = m.flush.step; shift = m.shift.state; turn = m.turn.state; begin = m.serve.begin; serving = m.serve.step; is_drain_full = m.is_drain_full; step = m.step } } };

    ghost invariant = { λ m. (m.scan.sessions ≡ m.shape.sessions) × (m.flush.shape ≡ m.shape) × (m.flush.places ≡ m.places) × (m.shift.shape ≡ m.shape) × (m.turn.shape ≡ m.shape) × (m.serve.shape ≡ m.shape) };
}

impl Maintain {
    /// The machine of a store of this shape, whose log begins at this address, at rest, with room for the bytes of one page.
    /// `Fault::Memory` where memory is refused for it; later no more is taken.
    pub fn new(alloc: Global, shape: Shape, places: Places, begin: Addr) -> Result<Maintain, Fault>
        ensures shape { IfOk result (λ made. made.shape ≡ shape) }
        ensures places { IfOk result (λ made. made.places ≡ places) }
        ensures begin { IfOk result (λ made. made.state.begin ≡ begin) }
        ensures rest { IfOk result (λ made. made.state.step ≡ Through) }
        ensures none_flushed { IfOk result (λ made. is_flush_resting made.state ≡ false) }
        ensures err { OnErr result (result ≡ Err Memory) }
    {
        let flush = Flush::new(alloc, shape, places)?;
        Ok(Maintain {
            shape,
            places,
            scan: Scan::new(shape.sessions as usize),
            claim: Claim::new(),
            flush,
            shift: ShiftReadOnly::new(shape),
            turn: TurnPage::new(shape),
            serve: Serve::new(shape, begin),
            is_drain_full: false,
            step: Maintaining::Through,
        })
    }

    /// The first ask.
    pub fn start(&mut self) -> Ask<MaintainAnswer>
        ensures next { self.new ≡ record self.old { state = maintain_begun self.old.state } }
        ensures ask { result ≡ maintain_ask self.old.shape self.old.places self.new.state }
        ensures left { GoesOnWhereLeft (maintain_asks_left self.old.shape self.new.state) result }
        ensures bounded { maintain_asks_left self.old.shape self.new.state ≤ most_maintain_asks self.old.shape }
    {
        self.is_drain_full = false;
        self.step = Maintaining::Scans;
        self.scan.start();
        self.ask()
    }

    /// The first ask of a turn that only serves: it scans, flushes and moves nothing.
    #[tactic(auto, using(crate::proofs::PartsFollow::serve_begins))]
    pub fn start_serving(&mut self) -> Ask<MaintainAnswer>
        ensures next { self.new ≡ record self.old { state = maintain_serving self.old.state } }
        ensures ask { result ≡ maintain_ask self.old.shape self.old.places self.new.state }
        ensures left { GoesOnWhereLeft (maintain_asks_left self.old.shape self.new.state) result }
        ensures bounded { maintain_asks_left self.old.shape self.new.state ≤ most_maintain_asks self.old.shape }
    {
        self.is_drain_full = false;
        self.serves();
        self.ask()
    }

    /// From now on the mailboxes are served of a log that begins at this address. It is called between two turns: a serving that is under
    /// way is given up.
    pub fn serve_from(&mut self, begin: Addr)
        ensures { self.new ≡ record self.old { state = maintain_from begin self.old.state } }
    {
        self.serve = Serve::new(self.shape, begin);
    }

    /// Goes on with the reply to its ask. At its end, and where it needs the device, it stays where it is.
    #[tactic(auto, unfolding(crate::specs::Maintaining::maintaining_next))]
    pub fn drive(&mut self, reply: u64) -> Ask<MaintainAnswer>
        ensures next { self.new ≡ record self.old { state = maintain_next self.old.shape self.old.places self.old.state reply } }
        ensures ask { result ≡ maintain_ask self.old.shape self.old.places self.new.state }
        ensures left { GoesOnWhereLeft (maintain_asks_left self.old.shape self.new.state) result }
        ensures fewer { is_done (maintain_ask self.old.shape self.old.places self.old.state) ≡ false → takes_action (maintain_ask self.old.shape self.old.places self.old.state) ≡ false → maintain_asks_left self.old.shape self.new.state < maintain_asks_left self.old.shape self.old.state }
    {
        match self.step {
            Maintaining::Through | Maintaining::Spent | Maintaining::Broken => {}
            Maintaining::Scans => {
                let ask = self.scan.drive(reply);
                self.after_scan(ask);
            }
            Maintaining::Claims => {
                let ask = self.claim.drive(reply);
                self.after_claim(ask);
            }
            Maintaining::Flushes => return self.go_on_flushing(reply),
            Maintaining::Shifts => {
                let ask = self.shift.drive(reply);
                self.after_shift(ask);
            }
            Maintaining::Turns => {
                let ask = self.turn.drive(reply);
                self.after_turn(ask);
            }
            Maintaining::Serves => {
                let ask = self.serve.drive(reply);
                self.after_serve(ask);
            }
        }
        self.ask()
    }

    /// Goes on with the flush, which loads each word of each record: what it asks is passed on at once, and not asked for again.
    #[tactic(auto, using(crate::proofs::GoesOn::flush_goes_on), unfolding(crate::specs::Maintaining::maintaining_next, crate::specs::Maintaining::maintaining_ask))]
    fn go_on_flushing(&mut self, reply: u64) -> Ask<MaintainAnswer>
        requires { self.old.state.step ≡ Flushes }
        ensures next { self.new ≡ record self.old { state = maintain_next self.old.shape self.old.places self.old.state reply } }
        ensures ask { result ≡ maintain_ask self.old.shape self.old.places self.new.state }
    {
        let ask = self.flush.drive(reply);
        if let Ask::Done(_) = ask {
            self.after_flush(ask);
            return self.ask();
        }
        device_asked(ask)
    }

    /// The place of the record's word that the flush loads, if it loads one.
    #[inline(always)]
    pub fn word_due(&self) -> Option<usize>
        ensures { result ≡ maintain_word_due self.now.places self.now.state }
    {
        match self.step {
            Maintaining::Flushes => self.flush.word_due(),
            _ => None,
        }
    }

    /// Goes on with the record's word that the flush has loaded, as `drive` does, and doesn't tell what it asks.
    #[inline(always)]
    #[tactic(auto, using(crate::proofs::GoesOn::word_goes_on))]
    pub fn keep(&mut self, word: u64)
        requires due { (place : ℕ) × (maintain_word_due self.old.places self.old.state ≡ Some place) }
        ensures next { self.new ≡ record self.old { state = maintain_next self.old.shape self.old.places self.old.state word } }
    {
        self.flush.keep(word);
    }

    /// Gets the action of the slot that it claimed.
    #[tactic(auto, unfolding(crate::specs::Maintaining::maintaining_given))]
    pub fn given(&mut self, action: Action) -> Ask<MaintainAnswer>
        ensures next { self.new ≡ record self.old { state = maintain_given self.old.state action } }
        ensures ask { result ≡ maintain_ask self.old.shape self.old.places self.new.state }
        ensures left { GoesOnWhereLeft (maintain_asks_left self.old.shape self.new.state) result }
        ensures fewer { takes_action (maintain_ask self.old.shape self.old.places self.old.state) ≡ true → maintain_asks_left self.old.shape self.new.state < maintain_asks_left self.old.shape self.old.state }
    {
        if let Maintaining::Claims = self.step {
            let ask = self.claim.given(action);
            self.after_claim(ask);
        }
        self.ask()
    }

    /// Makes the one call of the device that it needs, and goes on. Where it needs none it makes none, and stays where it is.
    /// Where the device failed it ends as broken.
    #[tactic(auto, unfolding(crate::specs::Maintaining::maintaining_called, crate::specs::Maintaining::maintaining_made, crate::specs::Maintaining::maintaining_calls, crate::specs::Maintaining::maintaining_asked))]
    pub fn device_step<D: Device>(&mut self, d: &mut D) -> Result<Ask<MaintainAnswer>, Fault>
        ensures next { (bytes : List ℕ) × (self.new ≡ record self.old { state = maintain_called self.old.shape self.old.places self.old.state (is_ok result) bytes }) }
        ensures ask { IfOk result (λ ask. ask ≡ maintain_ask self.old.shape self.old.places self.new.state) }
        ensures left { IfOk result (λ ask. GoesOnWhereLeft (maintain_asks_left self.old.shape self.new.state) ask) }
        ensures fewer { maintain_ask self.old.shape self.old.places self.old.state ≡ Done AtDevice → maintain_asks_left self.old.shape self.new.state < maintain_asks_left self.old.shape self.old.state }
        ensures broken { OnErr result (self.new.state.step ≡ Broken) }
        ensures none { OnErr result (maintain_asks_left self.old.shape self.new.state ≡ 0) }
        ensures cause { HasCause (D.failed d.old) (D.failed d.new) result }
        ensures counted { MakesCalls (maintain_made self.old.places self.old.state) (D.refuses d.old) (D.refuses d.new) result }
        ensures kind { D.expects d.new ≡ kinds_by (maintain_asked self.old.shape self.old.state) (is_ok result) (D.expects d.old) }
        ensures asked { maintain_made self.old.places self.old.state ≡ maintain_calls_asked (maintain_ask self.old.shape self.old.places self.old.state) }
        ensures honest { D.honest d.old ↔ D.honest d.new }
        ensures read { D.honest d.old → self.new ≡ record self.old { state = maintain_called self.old.shape self.old.places self.old.state (is_ok result) (bytes_at (D.seen d.old) (mail_place self.old.shape self.old.state.serving) 24) } }
        ensures calls { D.honest d.old → Adds (maintain_calls self.old.shape self.old.state (is_ok result)) (D.seen d.old) (D.seen d.new) (D.may_leave d.old) (D.may_leave d.new) }
        ensures time { D.honest d.old → Elapses (D.moment d.old) (D.moment d.new) (D.left_since d.old) (D.left_since d.new) (D.may_leave d.new) }
    {
        match self.step {
            Maintaining::Flushes => match self.flush.device_step(d) {
                Ok(ask) => {
                    let told = self.told_by_flush(ask);
                    self.after_flush(told);
                }
                Err(fault) => return self.breaks(fault),
            },
            Maintaining::Serves => match self.serve.device_step(d) {
                Ok(ask) => self.after_serve(ask),
                Err(fault) => return self.breaks(fault),
            },
            _ => {}
        }
        Ok(self.ask())
    }

    /// The call of the device that `device_step` makes, if it makes one.
    #[tactic(auto, unfolding(crate::specs::Maintaining::maintaining_asked))]
    pub fn device_ask(&self) -> Option<DeviceAsk<'_>>
        ensures { asked_call result ≡ maintain_asked self.now.shape self.now.state }
    {
        match self.step {
            Maintaining::Flushes => self.flush.device_ask(),
            Maintaining::Serves => self.serve.device_ask(),
            _ => None,
        }
    }

    /// What it asks now.
    #[tactic(auto, unfolding(crate::specs::Maintaining::maintaining_ask))]
    pub fn ask(&self) -> Ask<MaintainAnswer>
        ensures { result ≡ maintain_ask self.now.shape self.now.places self.now.state }
    {
        match self.step {
            Maintaining::Through => Ask::Done(MaintainAnswer::Through),
            Maintaining::Spent => Ask::Done(MaintainAnswer::Spent),
            Maintaining::Broken => Ask::Done(MaintainAnswer::Broken),
            Maintaining::Scans => passed(self.scan.ask(), MaintainAnswer::Through),
            Maintaining::Claims => passed(self.claim.ask(), MaintainAnswer::Through),
            Maintaining::Flushes => device_asked(self.flush.ask()),
            Maintaining::Shifts => passed(self.shift.ask(), MaintainAnswer::Through),
            Maintaining::Turns => passed(self.turn.ask(), MaintainAnswer::Through),
            Maintaining::Serves => device_asked(self.serve.ask()),
        }
    }

    /// Whether a part was left out in this turn because no drain slot was free.
    pub fn is_drain_full(&self) -> bool
        ensures { result ≡ self.now.state.is_drain_full }
    {
        self.is_drain_full
    }

    /// Whether a flush has written all of its records, and its sync is due. Between two turns of a living store it rests there.
    pub fn is_flush_resting(&self) -> bool
        ensures { result ≡ is_flush_resting self.now.state }
    {
        match self.flush.device_ask() {
            Some(ask) => is_sync(&ask),
            None => false,
        }
    }

    /// What the flush asks next, behind its call of the device. In a living store its part of the turn is over before the sync, so
    /// that mailboxes are served while the bytes become durable. A later turn takes it up.
    fn told_by_flush(&self, ask: Ask<DeviceAnswer>) -> Ask<DeviceAnswer>
        requires { ask ≡ flush_ask self.now.places self.now.state.flushing }
        ensures { result ≡ flush_told self.now.shape self.now.places self.now.state.flushing }
    {
        match self.shape.class {
            StoreClass::Living if self.is_flush_resting() => Ask::Done(DeviceAnswer::Through),
            _ => ask,
        }
    }

    fn breaks(&mut self, fault: Fault) -> Result<Ask<MaintainAnswer>, Fault>
        ensures next { self.new ≡ record self.old { state = record self.old.state { step = Broken } } }
        ensures told { result ≡ Err fault }
    {
        self.step = Maintaining::Broken;
        Err(fault)
    }

    #[tactic(auto, unfolding(crate::specs::Maintaining::scan_ledto))]
    fn after_scan(&mut self, ask: Ask<()>)
        ensures { self.new ≡ record self.old { state = scan_ledto self.old.state ask } }
    {
        if let Ask::Done(()) = ask {
            self.claim.start();
            self.step = Maintaining::Claims;
        }
    }

    #[tactic(auto, unfolding(crate::specs::Maintaining::claim_ledto))]
    fn after_claim(&mut self, ask: Ask<()>)
        ensures { self.new ≡ record self.old { state = claim_ledto self.old.state ask } }
    {
        if let Ask::Done(()) = ask {
            if !self.is_flush_resting() {
                self.flush.start();
            }
            self.step = Maintaining::Flushes;
        }
    }

    #[tactic(auto, unfolding(crate::specs::Maintaining::flush_ledto))]
    fn after_flush(&mut self, ask: Ask<DeviceAnswer>)
        ensures { self.new ≡ record self.old { state = flush_ledto self.old.state ask } }
    {
        if let Ask::Done(DeviceAnswer::Through) = ask {
            self.shift.start();
            self.step = Maintaining::Shifts;
        }
    }

    #[tactic(auto, unfolding(crate::specs::Maintaining::shift_ledto))]
    fn after_shift(&mut self, ask: Ask<ShiftAnswer>)
        ensures { self.new ≡ record self.old { state = shift_ledto self.old.state ask } }
    {
        if let Ask::Done(answer) = ask {
            match answer {
                ShiftAnswer::Through(tail) => self.turns(tail),
                ShiftAnswer::NoSlot(tail) => {
                    self.is_drain_full = true;
                    self.turns(tail);
                }
                ShiftAnswer::Spent(_) => self.step = Maintaining::Spent,
            }
        }
    }

    fn turns(&mut self, tail: Addr)
        ensures { self.new ≡ record self.old { state = turn_form self.old.state tail } }
    {
        self.turn.start(TurnForm::Whole, tail);
        self.step = Maintaining::Turns;
    }

    #[tactic(auto, unfolding(crate::specs::Maintaining::turn_ledto))]
    fn after_turn(&mut self, ask: Ask<MoveAnswer>)
        ensures { self.new ≡ record self.old { state = turn_ledto self.old.shape self.old.state ask } }
    {
        if let Ask::Done(answer) = ask {
            match answer {
                MoveAnswer::Through => self.serves(),
                MoveAnswer::NoSlot => {
                    self.is_drain_full = true;
                    self.serves();
                }
                MoveAnswer::Spent => self.step = Maintaining::Spent,
            }
        }
    }

    fn serves(&mut self)
        ensures { self.new ≡ record self.old { state = serve_begun self.old.shape self.old.state } }
    {
        self.step = Maintaining::Serves;
        let ask = self.serve.start();
        self.after_serve(ask);
    }

    #[tactic(auto, unfolding(crate::specs::Maintaining::serve_ledto))]
    fn after_serve(&mut self, ask: Ask<DeviceAnswer>)
        ensures { self.new ≡ record self.old { state = serve_ledto self.old.state ask } }
    {
        if let Ask::Done(DeviceAnswer::Through) = ask {
            self.step = Maintaining::Through;
        }
    }
}

// Whether the call of the device is a sync.
fn is_sync(ask: &DeviceAsk<'_>) -> bool
    ensures { result ≡ is_sync_asked (Some ask.now) }
{
    match ask {
        DeviceAsk::Sync => true,
        DeviceAsk::Read(_, _) | DeviceAsk::Write(_, _) => false,
    }
}

/// What a flush or a serving asks, passed on.
#[tactic(auto, unfolding(crate::specs::Maintaining::device_asked))]
fn device_asked(ask: Ask<DeviceAnswer>) -> Ask<MaintainAnswer>
    ensures { result ≡ device_asked ask }
{
    match ask {
        Ask::Done(DeviceAnswer::Device) => Ask::Done(MaintainAnswer::Device),
        other => passed(other, MaintainAnswer::Through),
    }
}
