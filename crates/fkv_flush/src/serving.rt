//! How the sessions' mailboxes are served.
ghost use Rattle.std.specs.Prelude.{◌≡◌, ◌+◌, ◌-◌, ◌<◌, ◌≤◌, ◌↔◌, ℕ, List, length, is_ok, IfOk, OnOk, OnErr};
ghost use Rattle.fkv_base.specs.Limits.{max_sessions};
ghost use Rattle.fkv_disk.specs.Asks.{asked_call, kinds_by};
ghost use Rattle.fkv_disk.specs.Bytes.{bytes_at};
ghost use Rattle.fkv_disk.specs.Device.{LeavesNoMore, Elapses, HasCause, MakesCalls};
ghost use Rattle.fkv_flush.specs.AsksLeft.{serve_asks_left, most_serve_asks, GoesOnWhereLeft};
ghost use Rattle.fkv_flush.specs.Devices.{calls_asked};
ghost use Rattle.fkv_record.specs.Places.{number_at};
ghost use Rattle.fkv_flush.specs.Serving.{serve_ask, serve_next, serve_read, address_met, gone_mail, mailbox_from, mail_place, mail_read, mail_of, IsServeInRange};
ghost use Rattle.fkv_flush.specs.declared.serving.Serving.TheVariants.{AtRest};

use crate::answers::DeviceAnswer;
use fkv_base::{Addr, Fault, Shape};
use fkv_disk::{Device, DeviceAsk};
use fkv_plane::{Ask, SessionWord};
use fkv_record::record_place;
use std::marker::Model;

/// The words of a record that was read for a session.
#[derive(Clone, Copy)]
pub(crate) struct Mail {
    header: u64,
    key: u64,
    value: u64,
}

/// How far the machine has come: the session that is met, the address that it asks for, and what was read there.
#[derive(Clone, Copy)]
pub(crate) enum Serving {
    AtRest,
    LoadsState(usize),
    LoadsAddress(usize),
    Reads(usize, u64),
    StoresHeader(usize, Mail),
    StoresKey(usize, Mail),
    StoresValue(usize, Mail),
    StoresReady(usize),
}

/// Goes over the sessions' mailboxes once. Where a session asks for a record, the record is read from the device and its
/// words are put into the mailbox, which is ready then. Below the log's begin nothing is read: there the words say that the record is gone.
#[derive(Drop)]
pub struct Serve {
    shape: Shape,
    begin: Addr,
    step: Serving,
}

impl Model for Serve {
    ghost use Rattle.fkv_flush.specs.Serving.{Server, IsServeInRange};

    ghost Value = { Server };

    ghost view = { λ m. record { shape = m.shape; begin = m.begin; step = m.step } };

    ghost invariant = { λ m. IsServeInRange m.step };
}

/// The bytes of a record that is read for a session.
const MAIL_BYTES: usize = 24;

/// The state of a mailbox in which a record is asked for.
const ASKED: u64 = 1;

/// The state of a mailbox in which the record is ready.
const READY: u64 = 2;

impl Serve {
    /// The machine at rest, of a log that begins at this address.
    pub fn new(shape: Shape, begin: Addr) -> Serve
        ensures { result ≡ record { shape = shape; begin = begin; step = AtRest } }
    {
        Serve {
            shape,
            begin,
            step: Serving::AtRest,
        }
    }

    /// The first ask.
    #[tactic(auto, using(crate::proofs::AsksLeft::serve_begun_left, crate::proofs::AsksLeft::serve_asked))]
    pub fn start(&mut self) -> Ask<DeviceAnswer>
        ensures next { self.new ≡ record self.old { step = mailbox_from self.old.shape.sessions 0 } }
        ensures ask { result ≡ serve_ask (mailbox_from self.old.shape.sessions 0) }
        ensures left { GoesOnWhereLeft (serve_asks_left self.old.shape.sessions self.new.step) result }
        ensures bounded { serve_asks_left self.old.shape.sessions self.new.step ≤ most_serve_asks self.old.shape.sessions }
    {
        self.step = mailbox_from(&self.shape, 0);
        self.ask()
    }

    /// Goes on with the reply to its ask. Where it needs the device it stays where it is.
    #[tactic(auto, unfolding(crate::specs::Serving::serve_next))]
    pub fn drive(&mut self, reply: u64) -> Ask<DeviceAnswer>
        ensures next { self.new ≡ record self.old { step = serve_next self.old.shape.sessions self.old.begin.0 self.old.step reply } }
        ensures ask { result ≡ serve_ask (serve_next self.old.shape.sessions self.old.begin.0 self.old.step reply) }
        ensures left { GoesOnWhereLeft (serve_asks_left self.old.shape.sessions self.new.step) result }
        ensures fewer { calls_asked (serve_ask self.old.step) ≡ 0 → serve_asks_left self.old.shape.sessions self.new.step ≤ serve_asks_left self.old.shape.sessions self.old.step - 1 }
    {
        self.step = match self.step {
            Serving::AtRest => Serving::AtRest,
            Serving::LoadsState(session) => {
                if reply == ASKED {
                    Serving::LoadsAddress(session)
                } else {
                    mailbox_from(&self.shape, session + 1)
                }
            }
            Serving::LoadsAddress(session) => self.address_met(session, reply),
            Serving::Reads(session, addr) => Serving::Reads(session, addr),
            Serving::StoresHeader(session, mail) => Serving::StoresKey(session, mail),
            Serving::StoresKey(session, mail) => Serving::StoresValue(session, mail),
            Serving::StoresValue(session, _) => Serving::StoresReady(session),
            Serving::StoresReady(session) => mailbox_from(&self.shape, session + 1),
        };
        self.ask()
    }

    /// Where an address leads at which a record is asked for.
    fn address_met(&self, session: usize, addr: u64) -> Serving
        requires { session < max_sessions }
        ensures next { result ≡ address_met self.now.shape.sessions self.now.begin.0 session addr }
        ensures in_range { IsServeInRange result }
    {
        if addr < self.begin.0 {
            Serving::StoresHeader(session, gone_mail(self.begin))
        } else if addr < 1 << 48 {
            Serving::Reads(session, addr)
        } else {
            mailbox_from(&self.shape, session + 1)
        }
    }

    /// Makes the one call of the device that it needs, a read of 24 bytes, and goes on. Where it needs none it makes none,
    /// and stays where it is. `Fault::Device` where the device failed: the machine is at rest then, and nothing was stored.
    #[tactic(auto, unfolding(crate::specs::Serving::serve_read, crate::specs::Serving::mail_place, crate::specs::Serving::mail_read, crate::specs::Serving::serve_ask))]
    pub fn device_step<D: Device>(&mut self, d: &mut D) -> Result<Ask<DeviceAnswer>, Fault>
        ensures next { OnOk result ((bytes : List ℕ) × (self.new ≡ record self.old { step = serve_read self.old.step bytes })) }
        ensures read { D.honest d.old → OnOk result (self.new ≡ record self.old { step = serve_read self.old.step (bytes_at (D.seen d.old) (mail_place self.old.shape self.old.step) 24) }) }
        ensures ask { IfOk result (λ ask. ask ≡ serve_ask self.new.step) }
        ensures failed { OnErr result (self.new ≡ record self.old { step = AtRest }) }
        ensures left { IfOk result (λ ask. GoesOnWhereLeft (serve_asks_left self.old.shape.sessions self.new.step) ask) }
        ensures fewer { serve_asks_left self.old.shape.sessions self.new.step ≤ serve_asks_left self.old.shape.sessions self.old.step - calls_asked (serve_ask self.old.step) }
        ensures none { OnErr result (serve_asks_left self.old.shape.sessions self.new.step ≡ 0) }
        ensures cause { HasCause (D.failed d.old) (D.failed d.new) result }
        ensures counted { MakesCalls (calls_asked (serve_ask self.old.step)) (D.refuses d.old) (D.refuses d.new) result }
        ensures kind { D.expects d.new ≡ kinds_by (mail_read self.old.shape self.old.step) (is_ok result) (D.expects d.old) }
        ensures honest { D.honest d.old ↔ D.honest d.new }
        ensures seen { D.honest d.old → D.seen d.new ≡ D.seen d.old }
        ensures crash { D.honest d.old → LeavesNoMore (D.may_leave d.old) (D.may_leave d.new) }
        ensures time { D.honest d.old → Elapses (D.moment d.old) (D.moment d.new) (D.left_since d.old) (D.left_since d.new) (D.may_leave d.new) }
    {
        if let Serving::Reads(session, addr) = self.step {
            self.step = Serving::AtRest;
            let mut bytes = [0; MAIL_BYTES];
            d.read(record_place(self.shape, Addr(addr)), &mut bytes)?;
            self.step = Serving::StoresHeader(session, mail_of(&bytes));
        }
        Ok(self.ask())
    }

    /// The call of the device that `device_step` makes, if it makes one.
    #[tactic(auto, unfolding(crate::specs::Serving::mail_read))]
    pub fn device_ask(&self) -> Option<DeviceAsk<'_>>
        ensures { asked_call result ≡ mail_read self.now.shape self.now.step }
    {
        match self.step {
            Serving::Reads(_, addr) => {
                let at = record_place(self.shape, Addr(addr));
                Some(DeviceAsk::Read(at, MAIL_BYTES))
            }
            _ => None,
        }
    }

    /// What it asks now.
    #[tactic(auto, unfolding(crate::specs::Serving::serve_ask))]
    pub fn ask(&self) -> Ask<DeviceAnswer>
        ensures { result ≡ serve_ask self.now.step }
    {
        match self.step {
            Serving::AtRest => Ask::Done(DeviceAnswer::Through),
            Serving::LoadsState(session) => Ask::Load(SessionWord::MailState.place(session)),
            Serving::LoadsAddress(session) => Ask::Load(SessionWord::MailAddress.place(session)),
            Serving::Reads(_, _) => Ask::Done(DeviceAnswer::Device),
            Serving::StoresHeader(session, mail) => {
                Ask::Store(SessionWord::MailHeader.place(session), mail.header)
            }
            Serving::StoresKey(session, mail) => {
                Ask::Store(SessionWord::MailKey.place(session), mail.key)
            }
            Serving::StoresValue(session, mail) => {
                Ask::Store(SessionWord::MailValue.place(session), mail.value)
            }
            Serving::StoresReady(session) => {
                Ask::Store(SessionWord::MailState.place(session), READY)
            }
        }
    }
}

// The session of this number comes next, if there is one.
#[tactic(auto, unfolding(crate::specs::Serving::mailbox_from))]
fn mailbox_from(shape: &Shape, session: usize) -> Serving
    ensures next { result ≡ mailbox_from shape.now.sessions session }
    ensures in_range { IsServeInRange result }
{
    if (session as u64) < shape.sessions {
        Serving::LoadsState(session)
    } else {
        Serving::AtRest
    }
}

// What is told of an address below the begin.
fn gone_mail(begin: Addr) -> Mail
    ensures { result ≡ gone_mail begin.0 }
{
    Mail {
        header: 0,
        key: begin.0,
        value: 0,
    }
}

// The three words of the record that these bytes are.
fn mail_of(bytes: &[u8; 24]) -> Mail
    ensures { result ≡ mail_of bytes.now }
{
    Mail {
        header: number_at(bytes, 0),
        key: number_at(bytes, 8),
        value: number_at(bytes, 16),
    }
}

// The number whose eight bytes begin at a place.
fn number_at(bytes: &[u8], at: usize) -> u64
    requires { (at + 8) ≤ length bytes.now }
    ensures { result ≡ number_at bytes.now at }
{
    u64::from_le_bytes([
        bytes[at],
        bytes[at + 1],
        bytes[at + 2],
        bytes[at + 3],
        bytes[at + 4],
        bytes[at + 5],
        bytes[at + 6],
        bytes[at + 7],
    ])
}
