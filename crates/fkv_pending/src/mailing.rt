//! How a session asks for a record of the device.
ghost use Rattle.std.specs.Prelude.{◌≡◌, ◌<◌, ◌≤◌, ◌-◌, if◌then◌else◌, Some, None};
ghost use Rattle.fkv_base.specs.Limits.{max_sessions};
ghost use Rattle.fkv_plane.specs.AsksLeft.{AsksWhereLeft};
ghost use Rattle.fkv_pending.specs.Mailing.{mail_ask, mail_next, mail_asks_left, task_asks_left, state_found, is_gone, begin_told};
ghost use Rattle.fkv_pending.specs.declared.mailing.Mailing.TheVariants.{Ended, LoadsState, StoresAddress};
ghost use Rattle.fkv_pending.specs.declared.mailing.MailAnswer.TheVariants.{NotReady};

use fkv_base::{Addr, Key};
use fkv_plane::{Ask, SessionWord};
use std::marker::Model;

/// The words of a record that came from the device.
#[derive(Clone, Copy, Debug, PartialEq, Eq)]
pub struct MailRecord {
    /// The word of its header.
    pub header: u64,
    pub key: Key,
    /// The word of its value.
    pub value: u64,
}

impl MailRecord {
    /// Where the log begins, if the record that was asked for lay below that and is gone. No record has the header that tells it.
    pub fn gone(&self) -> Option<Addr>
        ensures { result ≡ (if is_gone self.now then Some (begin_told self.now) else None) }
    {
        if self.header == 0 {
            Some(Addr(self.key.0))
        } else {
            None
        }
    }
}

/// What is to be done with the mailbox.
#[derive(Clone, Copy)]
pub enum MailTask {
    /// To empty it where a record is ready that nobody waits for any more.
    Clear,
    /// To take the record, where it is ready.
    Take,
    /// To ask for the record at this address, where the mailbox is empty.
    Put(Addr),
}

/// What the machine has come to.
#[derive(Clone, Copy, Debug, PartialEq, Eq)]
pub enum MailAnswer {
    /// The mailbox is empty again.
    Cleared,
    /// No record is ready, or the machine is at rest.
    NotReady,
    /// The record was ready, and the mailbox is empty again.
    Taken(MailRecord),
    /// The record is asked for.
    Asked,
    /// The mailbox isn't empty.
    Occupied,
}

/// How far the machine has come. Its end is kept up to the next start.
#[derive(Clone, Copy)]
pub(crate) enum Mailing {
    Ended(MailAnswer),
    LoadsState(MailTask),
    LoadsHeader,
    LoadsKey(u64),
    LoadsValue(u64, u64),
    StoresEmpty(MailAnswer),
    StoresAddress(Addr),
    StoresAsked,
}

/// Asks for a record of the device by the mailbox of a session, takes the record that has come, or lets it go.
#[derive(Drop)]
pub struct Mail {
    session: usize,
    step: Mailing,
}

impl Model for Mail {
    ghost use Rattle.std.specs.Prelude.{◌<◌};
    ghost use Rattle.fkv_base.specs.Limits.{max_sessions};
    ghost use Rattle.fkv_pending.specs.Mailing.{Mailer};

    ghost Value = { Mailer };

    ghost view = { λ m. record { session = m.session; step = m.step } };

    ghost invariant = { λ m. m.session < max_sessions };
}

/// The states of a mailbox.
const EMPTY: u64 = 0;

const ASKED: u64 = 1;

const READY: u64 = 2;

impl Mail {
    /// The machine for the mailbox of this session, at rest.
    pub fn new(session: usize) -> Mail
        requires { session < max_sessions }
        ensures { result ≡ record { session = session; step = Ended NotReady } }
    {
        Mail {
            session,
            step: Mailing::Ended(MailAnswer::NotReady),
        }
    }

    /// Forgets its task, and rests.
    pub(crate) fn rest(&mut self)
        ensures { self.new ≡ record self.old { step = Ended NotReady } }
    {
        self.step = Mailing::Ended(MailAnswer::NotReady);
    }

    /// The first ask of this task: the state of the mailbox is loaded.
    #[tactic(auto, unfolding(crate::specs::Mailing::mail_asks_left))]
    pub fn start(&mut self, task: MailTask) -> Ask<MailAnswer>
        ensures next { self.new ≡ record self.old { step = LoadsState task } }
        ensures ask { result ≡ mail_ask self.old.session (LoadsState task) }
        ensures asks { AsksWhereLeft (mail_asks_left self.new.step) result }
        ensures bounded { mail_asks_left self.new.step ≤ 5 }
    {
        self.step = Mailing::LoadsState(task);
        self.ask()
    }

    /// The first ask, to ask for the record at this address, where the mailbox is known to be empty.
    #[tactic(auto, unfolding(crate::specs::Mailing::mail_asks_left))]
    pub fn put(&mut self, addr: Addr) -> Ask<MailAnswer>
        ensures next { self.new ≡ record self.old { step = StoresAddress addr } }
        ensures ask { result ≡ mail_ask self.old.session (StoresAddress addr) }
        ensures asks { AsksWhereLeft (mail_asks_left self.new.step) result }
        ensures bounded { mail_asks_left self.new.step ≤ 2 }
    {
        self.step = Mailing::StoresAddress(addr);
        self.ask()
    }

    /// Goes on with the reply to its ask. At its end it stays where it is.
    #[tactic(auto, unfolding(crate::specs::Mailing::mail_next, crate::specs::Mailing::mail_asks_left))]
    pub fn drive(&mut self, reply: u64) -> Ask<MailAnswer>
        ensures next { self.new ≡ record self.old { step = mail_next self.old.step reply } }
        ensures ask { result ≡ mail_ask self.old.session (mail_next self.old.step reply) }
        ensures asks { AsksWhereLeft (mail_asks_left self.new.step) result }
        ensures fewer { mail_asks_left self.new.step ≤ mail_asks_left self.old.step - 1 }
    {
        self.step = match self.step {
            Mailing::Ended(answer) | Mailing::StoresEmpty(answer) => Mailing::Ended(answer),
            Mailing::LoadsState(task) => state_found(task, reply),
            Mailing::LoadsHeader => Mailing::LoadsKey(reply),
            Mailing::LoadsKey(header) => Mailing::LoadsValue(header, reply),
            Mailing::LoadsValue(header, key) => {
                Mailing::StoresEmpty(MailAnswer::Taken(MailRecord {
                    header,
                    key: Key(key),
                    value: reply,
                }))
            }
            Mailing::StoresAddress(_) => Mailing::StoresAsked,
            Mailing::StoresAsked => Mailing::Ended(MailAnswer::Asked),
        };
        self.ask()
    }

    /// What it asks now.
    #[tactic(auto, unfolding(crate::specs::Mailing::mail_ask, crate::specs::Mailing::mail_asks_left))]
    pub fn ask(&self) -> Ask<MailAnswer>
        ensures ask { result ≡ mail_ask self.now.session self.now.step }
        ensures asks { AsksWhereLeft (mail_asks_left self.now.step) result }
    {
        let session = self.session;
        match self.step {
            Mailing::Ended(answer) => Ask::Done(answer),
            Mailing::LoadsState(_) => Ask::Load(SessionWord::MailState.place(session)),
            Mailing::LoadsHeader => Ask::Load(SessionWord::MailHeader.place(session)),
            Mailing::LoadsKey(_) => Ask::Load(SessionWord::MailKey.place(session)),
            Mailing::LoadsValue(_, _) => Ask::Load(SessionWord::MailValue.place(session)),
            Mailing::StoresEmpty(_) => Ask::Store(SessionWord::MailState.place(session), EMPTY),
            Mailing::StoresAddress(addr) => {
                Ask::Store(SessionWord::MailAddress.place(session), addr.0)
            }
            Mailing::StoresAsked => Ask::Store(SessionWord::MailState.place(session), ASKED),
        }
    }
}

/// Where the state of the mailbox leads.
fn state_found(task: MailTask, found: u64) -> Mailing
    ensures { result ≡ state_found task found }
{
    match task {
        MailTask::Clear if found == READY => Mailing::StoresEmpty(MailAnswer::Cleared),
        MailTask::Take if found == READY => Mailing::LoadsHeader,
        MailTask::Put(addr) if found == EMPTY => Mailing::StoresAddress(addr),
        MailTask::Clear | MailTask::Take => Mailing::Ended(MailAnswer::NotReady),
        MailTask::Put(_) => Mailing::Ended(MailAnswer::Occupied),
    }
}
