//! What is attempted for one request.
ghost use Rattle.std.specs.Prelude.{◌≡◌, ◌<◌, ◌≤◌, ◌+◌, ◌*◌, ◌^◌, Option};
ghost use Rattle.fkv_base.specs.Limits.{max_sessions};
ghost use Rattle.fkv_map.specs.Keys.{as_number};
ghost use Rattle.fkv_plane.specs.AsksLeft.{AsksWhereLeft};
ghost use Rattle.fkv_pending.specs.AsksLeft.{attempt_asks_left};
ghost use Rattle.fkv_pending.specs.Attempting.{attempt_rested, attempt_begun, attempt_ask, attempt_next, puts, tries, waits_for_disk, is_seeking_read, held_of, held_kept, moved_on, read_on, record_taken, goes_anew, mail_taken, not_ready, look_ledto, awaits_record, tried, try_ledto, put_ledto};

use crate::mailing::{Mail, MailAnswer, MailRecord, MailTask};
use crate::pending_requests::PendingRequest;
use fkv_base::{Addr, Shape};
use fkv_map::Reply;
use fkv_ops::{
    DiskRecord, HeaderSaid, HeldRecord, Occasion, Reason, Seen, Try, TryAnswer, header_said,
    told_value, value_of_word,
};
use fkv_plane::{Ask, Places, passed};
use std::marker::Model;

/// How far the attempt has come. Its end is kept up to the next start.
#[derive(Clone, Copy)]
pub(crate) enum Attempting {
    Ended(TryAnswer),
    /// The record that it has asked for is looked for in the mailbox.
    Looks,
    Tries,
    /// The address of the record that it awaits is put into the mailbox.
    Puts,
}

/// Attempts one request: where it has asked for a record it looks into the mailbox, then it is tried, and where it awaits a
/// record of the device it asks for that, if the mailbox is empty. A pending read that seeks a record is not tried again: it is
/// answered by the records that come. One that awaits the device ends as `Wait(Reason::Disk)`.
#[derive(Drop)]
pub struct Attempt {
    pending: PendingRequest,
    seen: Seen,
    occasion: Occasion,
    spare: u64,
    is_orphaned: bool,
    is_emptied: bool,
    effect: Option<Reply>,
    mail: Mail,
    trial: Try,
    step: Attempting,
}

impl Model for Attempt {
    ghost use Rattle.fkv_pending.specs.Attempting.{Attempter, AttemptState};

    ghost Value = { Attempter };

    ghost view = { λ m. record { places = m.trial.places; bits = m.trial.bits; room = m.trial.room; session = m.mail.session; state = record { pending = m.pending; seen = m.seen; occasion = m.occasion; spare = m.spare; is_orphaned = m.is_orphaned; is_emptied = m.is_emptied; effect = m.effect; mailing = m.mail.step; trial = m.trial.state; step = m.step } } };
}

impl Attempt {
    /// The machine of this session in a store of this shape, at rest.
    pub fn new(shape: &Shape, session: usize) -> Attempt
        requires { session < max_sessions }
        ensures sessions { result.places.sessions ≡ shape.now.sessions }
        ensures buckets { result.places.buckets ≡ 2 ^ shape.now.bucket_bits }
        ensures overflow { result.places.overflow ≡ shape.now.overflow }
        ensures ring { result.places.ring ≡ shape.now.frames * shape.now.page }
        ensures bits { result.bits ≡ shape.now.bucket_bits }
        ensures room { result.room ≡ shape.now.disk_pages * shape.now.page }
        ensures session { result.session ≡ session }
        ensures rest { result.state ≡ attempt_rested shape.now.bucket_bits }
    {
        Attempt {
            pending: PendingRequest::default(),
            seen: Seen::nothing(),
            occasion: Occasion::Call(None),
            spare: 0,
            is_orphaned: false,
            is_emptied: false,
            effect: None,
            mail: Mail::new(session),
            trial: Try::new(shape),
            step: Attempting::Ended(TryAnswer::Shift),
        }
    }

    /// The first ask, to attempt this request by what the session has seen. The spare bucket is one that the session took and
    /// has not linked, 0 where it has none; `is_orphaned` tells whether a record is asked for that nobody waits for any more.
    #[tactic(auto, unfolding(crate::specs::Attempting::attempting_ask))]
    pub fn start(
        &mut self,
        pending: &PendingRequest,
        seen: Seen,
        occasion: Occasion,
        spare: u64,
        is_orphaned: bool,
    ) -> Ask<TryAnswer>
        ensures next { self.new ≡ record self.old { state = attempt_begun self.old.places self.old.bits pending.now seen occasion spare is_orphaned } }
        ensures ask { result ≡ attempt_ask self.old.places self.old.session self.new.state }
        ensures asks { AsksWhereLeft (attempt_asks_left self.old.places self.new.state) result }
        ensures bounded { attempt_asks_left self.old.places self.new.state ≤ 8 * (self.old.places.overflow + 1) + 2 * self.old.places.ring + 31 }
    {
        self.pending = *pending;
        self.seen = seen;
        self.occasion = occasion;
        self.spare = spare;
        self.is_orphaned = is_orphaned;
        self.is_emptied = false;
        self.effect = None;
        self.mail.rest();
        if self.pending.has_asked {
            self.trial.rest();
            self.mail.start(MailTask::Take);
            self.step = Attempting::Looks;
        } else if self.is_seeking_read() {
            self.trial.rest();
            self.puts();
        } else {
            self.tries();
        }
        self.ask()
    }

    /// Goes on with the reply to its ask. At its end it stays where it is.
    #[tactic(auto, unfolding(crate::specs::Attempting::attempting_next))]
    pub fn drive(&mut self, reply: u64) -> Ask<TryAnswer>
        ensures next { self.new ≡ record self.old { state = attempt_next self.old.places self.old.bits self.old.room self.old.session self.old.state reply } }
        ensures ask { result ≡ attempt_ask self.old.places self.old.session self.new.state }
        ensures asks { AsksWhereLeft (attempt_asks_left self.old.places self.new.state) result }
        ensures fewer { 0 < attempt_asks_left self.old.places self.old.state → attempt_asks_left self.old.places self.new.state < attempt_asks_left self.old.places self.old.state }
    {
        self.effect = None;
        match self.step {
            Attempting::Ended(_) => {}
            Attempting::Looks => {
                let ask = self.mail.drive(reply);
                self.after_look(ask);
            }
            Attempting::Tries => {
                let ask = self.trial.drive(reply);
                self.effect = self.trial.effect();
                self.after_try(ask);
            }
            Attempting::Puts => {
                let ask = self.mail.drive(reply);
                self.after_put(ask);
            }
        }
        self.ask()
    }

    /// What it asks now.
    #[tactic(auto, unfolding(crate::specs::Attempting::attempting_ask))]
    pub fn ask(&self) -> Ask<TryAnswer>
        ensures ask { result ≡ attempt_ask self.now.places self.now.session self.now.state }
        ensures asks { AsksWhereLeft (attempt_asks_left self.now.places self.now.state) result }
    {
        match self.step {
            Attempting::Ended(answer) => Ask::Done(answer),
            Attempting::Looks | Attempting::Puts => passed(self.mail.ask(), TryAnswer::Shift),
            Attempting::Tries => passed(self.trial.ask(), TryAnswer::Shift),
        }
    }

    /// Where the shared words of the store stand.
    pub fn places(&self) -> Places
        ensures { result ≡ self.now.places }
    {
        self.trial.places()
    }

    /// The request, and what it waits for by now.
    pub fn pending(&self) -> &PendingRequest
        ensures { result.now ≡ self.now.state.pending }
    {
        &self.pending
    }

    /// What the update was told whose effect the last reply made, if it made one.
    pub fn effect(&self) -> Option<Reply>
        ensures { result ≡ self.now.state.effect }
    {
        self.effect
    }

    /// The overflow bucket that the session has taken and not linked, 0 where it has none.
    pub fn spare(&self) -> u64
        ensures { result ≡ self.now.state.spare }
    {
        self.spare
    }

    /// Whether a record is asked for whose request has finished without it.
    pub fn is_orphaned(&self) -> bool
        ensures { result ≡ self.now.state.is_orphaned }
    {
        self.is_orphaned
    }

    fn is_seeking_read(&self) -> bool
        ensures { result ≡ is_seeking_read self.now.state }
    {
        matches!(self.occasion, Occasion::Poll)
            && self.pending.request.is_read()
            && self.pending.sought.is_some()
    }

    fn tries(&mut self)
        ensures { self.new ≡ record self.old { state = tries self.old.places self.old.bits self.old.state } }
    {
        let request = self.pending.request;
        self.trial
            .start(request, self.seen, self.occasion, self.spare);
        self.step = Attempting::Tries;
    }

    /// Puts the address of the record that is awaited into the mailbox.
    fn puts(&mut self)
        ensures { self.new ≡ record self.old { state = puts self.old.state } }
    {
        match self.pending.sought {
            None => self.waits_for_disk(),
            Some(sought) => {
                if self.is_emptied {
                    self.mail.put(sought.addr);
                } else {
                    self.mail.start(MailTask::Put(sought.addr));
                }
                self.step = Attempting::Puts;
            }
        }
    }

    fn waits_for_disk(&mut self)
        ensures { self.new ≡ record self.old { state = waits_for_disk self.old.state } }
    {
        self.step = Attempting::Ended(TryAnswer::Wait(Reason::Disk));
    }

    /// Goes on by what the look into the mailbox asks.
    #[tactic(auto, unfolding(crate::specs::Attempting::look_ledto))]
    fn after_look(&mut self, ask: Ask<MailAnswer>)
        ensures { self.new ≡ record self.old { state = look_ledto self.old.places self.old.bits self.old.state ask } }
    {
        match ask {
            Ask::Done(MailAnswer::Taken(record)) => {
                self.is_emptied = true;
                self.pending.set_asked(false);
                self.mail_taken(record);
            }
            Ask::Done(_) => self.not_ready(),
            _ => {}
        }
    }

    /// Goes on by what the mailbox had: a record, or that it is gone.
    fn mail_taken(&mut self, its: MailRecord)
        ensures { self.new ≡ record self.old { state = mail_taken self.old.places self.old.bits self.old.state its } }
    {
        match its.gone() {
            Some(begin) => self.goes_anew(begin),
            None => self.record_taken(its, header_said(its.header)),
        }
    }

    /// A record that is gone tells nothing of the key: a read waits, and its next attempt tries it from its entry again. Any other request is tried
    /// from there at once.
    fn goes_anew(&mut self, begin: Addr)
        ensures { self.new ≡ record self.old { state = goes_anew self.old.places self.old.bits self.old.state begin } }
    {
        let is_seeking_read = self.is_seeking_read();
        self.pending.lose(begin);
        if is_seeking_read {
            self.waits_for_disk();
        } else {
            self.tries();
        }
    }

    /// A read goes on from the record, and any other request holds it and is tried with it.
    fn record_taken(&mut self, its: MailRecord, said: HeaderSaid)
        ensures { self.new ≡ record self.old { state = record_taken self.old.places self.old.bits self.old.state its said } }
    {
        if self.is_seeking_read() {
            self.read_on(its, said);
        } else {
            let held = held_of(self.pending.sought, its, said);
            self.pending.hold(held);
            self.tries();
        }
    }

    /// A read is answered by its key's record, or by the end of the chain; else it asks for the record before.
    fn read_on(&mut self, its: MailRecord, said: HeaderSaid)
        ensures { self.new ≡ record self.old { state = read_on self.old.state its said } }
    {
        match said {
            HeaderSaid::Spoiled => self.puts(),
            HeaderSaid::Says(previous, _) => {
                if its.key == self.pending.request.op.key() {
                    self.step = Attempting::Ended(told_value(value_of_word(its.value)));
                } else if self.pending.request.is_chain_end(previous) {
                    self.step = Attempting::Ended(TryAnswer::Absent);
                } else {
                    let sought = moved_on(self.pending.sought, previous);
                    self.pending.seek(sought);
                    self.puts();
                }
            }
        }
    }

    /// A read that seeks a record goes on waiting, and any other request is tried all the same.
    fn not_ready(&mut self)
        ensures { self.new ≡ record self.old { state = not_ready self.old.places self.old.bits self.old.state } }
    {
        if self.is_seeking_read() {
            self.waits_for_disk();
        } else {
            self.tries();
        }
    }

    /// Goes on by what the try asks.
    #[tactic(auto, unfolding(crate::specs::Attempting::try_ledto))]
    fn after_try(&mut self, ask: Ask<TryAnswer>)
        ensures { self.new ≡ record self.old { state = try_ledto self.old.state ask } }
    {
        if let Ask::Done(answer) = ask {
            self.spare = self.trial.spare();
            self.pending.set_latch(self.trial.has_shared());
            self.tried(answer);
        }
    }

    /// Where the try has ended.
    fn tried(&mut self, answer: TryAnswer)
        ensures { self.new ≡ record self.old { state = tried self.old.state answer } }
    {
        match answer {
            TryAnswer::AwaitsDisk(sought) => self.awaits_record(sought),
            TryAnswer::Wait(_) | TryAnswer::Shift => self.step = Attempting::Ended(answer),
            _ => {
                self.is_orphaned = self.is_orphaned || self.pending.has_asked;
                self.step = Attempting::Ended(answer);
            }
        }
    }

    /// The try awaits a record: it is asked for, but where an ask of the request is under way.
    fn awaits_record(&mut self, sought: DiskRecord)
        ensures { self.new ≡ record self.old { state = awaits_record self.old.state sought } }
    {
        let held = held_kept(self.pending.request.held, sought.entry);
        let has_asked = self.pending.has_asked;
        self.pending.hold(held);
        if has_asked {
            self.waits_for_disk();
        } else {
            self.pending.seek(Some(sought));
            self.puts();
        }
    }

    /// Goes on by what the put into the mailbox asks.
    #[tactic(auto, unfolding(crate::specs::Attempting::put_ledto))]
    fn after_put(&mut self, ask: Ask<MailAnswer>)
        ensures { self.new ≡ record self.old { state = put_ledto self.old.state ask } }
    {
        if let Ask::Done(answer) = ask {
            if answer == MailAnswer::Asked {
                self.pending.set_asked(true);
            }
            self.waits_for_disk();
        }
    }
}

/// A record that came goes with the entry from which the walk to it began.
fn held_of(sought: Option<DiskRecord>, its: MailRecord, said: HeaderSaid) -> Option<HeldRecord>
    ensures { result ≡ held_of sought its said }
{
    match (sought, said) {
        (Some(sought), HeaderSaid::Says(previous, _)) => Some(HeldRecord {
            entry: sought.entry,
            previous,
            key: its.key,
            value: its.value,
        }),
        _ => None,
    }
}

/// A record that was read along a walk from another entry is of no use any more.
fn held_kept(held: Option<HeldRecord>, entry: u64) -> Option<HeldRecord>
    ensures { result ≡ held_kept held entry }
{
    held.filter(|held| held.entry == entry)
}

/// A read goes on at the record before.
fn moved_on(sought: Option<DiskRecord>, addr: Addr) -> Option<DiskRecord>
    ensures { result ≡ moved_on sought addr }
{
    sought.map(|sought| DiskRecord { addr, ..sought })
}
