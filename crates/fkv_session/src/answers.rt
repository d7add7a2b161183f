//! What a session answers.
ghost use Rattle.std.specs.Prelude.{◌≡◌, ◌≤◌, None, length};
ghost use Rattle.fkv_base.specs.Limits.{max_pending};
ghost use Rattle.fkv_session.specs.declared.answers.Finished.TheVariants.{Read};
ghost use Rattle.fkv_session.specs.Answers.{IsAnswerTold, IsAnswered};

use arrayvec::ArrayVec;
use fkv_base::{Fault, MAX_PENDING, Phase, Serial, Value, Version};
use fkv_map::Reply;
use fkv_ops::Reason;
use fkv_pending::Ticket;
use fkv_plane::{Ask, passed};

/// A request that a poll has finished.
#[derive(Clone, Copy, Debug, PartialEq, Eq)]
pub enum Finished {
    /// An update, and what it replies.
    Update(Serial, Reply),
    /// A read, and the value that it found.
    Read(Ticket, Option<Value>),
}

impl Default for Finished {
    /// A read that found no value.
    fn default() -> Finished
        ensures { result ≡ Read (record { 0 = 0 }) None }
    {
        Finished::Read(Ticket(0), None)
    }
}

/// The answer to a call, without the list of what a poll has finished: that stays in the session until it is asked for.
#[derive(Clone, Copy, Debug, PartialEq, Eq)]
pub enum Told {
    Done(Serial, Reply),
    Pending(Serial, Reason),
    Found(Value),
    Absent,
    PendingRead(Ticket),
    Refreshed(Phase, Version),
    Woken(Phase, Version),
    /// How many requests are left that wait.
    Polled(usize),
    Slept,
    Durable(Serial),
    Refused(Fault),
}

/// The answer to a call.
#[derive(Debug, PartialEq, Eq, Drop)]
pub enum Answer {
    /// The update is done: its serial, and its reply.
    Done(Serial, Reply),
    /// The update is accepted and waits: its serial, and why.
    Pending(Serial, Reason),
    /// The read found this value.
    Found(Value),
    /// The read found no value.
    Absent,
    /// The read waits for the device. A poll answers it by this ticket.
    PendingRead(Ticket),
    /// The phase and the version that the session has seen.
    Refreshed(Phase, Version),
    /// The phase and the version that the session has seen.
    Woken(Phase, Version),
    /// The requests that this poll has finished, in the order of their acceptance, and how many are left.
    Polled(ArrayVec<Finished, MAX_PENDING>, usize),
    Slept,
    /// The last serial of the session that a finished commit keeps.
    Durable(Serial),
    Refused(Fault),
}

/// The answer that was told, with what a poll has finished, as `Session::finished` shows it at the call's end. It has a list in it,
/// so it is made once a call.
pub fn answer_of(told: Told, finished: &[Finished]) -> Answer
    requires { length finished.now ≤ max_pending }
    ensures { IsAnswerTold told finished.now result }
{
    match told {
        Told::Done(serial, reply) => Answer::Done(serial, reply),
        Told::Pending(serial, reason) => Answer::Pending(serial, reason),
        Told::Found(value) => Answer::Found(value),
        Told::Absent => Answer::Absent,
        Told::PendingRead(ticket) => Answer::PendingRead(ticket),
        Told::Refreshed(phase, version) => Answer::Refreshed(phase, version),
        Told::Woken(phase, version) => Answer::Woken(phase, version),
        Told::Polled(left) => Answer::Polled(copied(finished), left),
        Told::Slept => Answer::Slept,
        Told::Durable(serial) => Answer::Durable(serial),
        Told::Refused(why) => Answer::Refused(why),
    }
}

/// An ask as it is, and at a call's end its answer.
pub(crate) fn answered(ask: Ask<Told>, finished: &[Finished]) -> Ask<Answer>
    requires { length finished.now ≤ max_pending }
    ensures { IsAnswered ask finished.now result }
{
    match ask {
        Ask::Done(told) => Ask::Done(answer_of(told, finished)),
        other => passed(other, Answer::Slept),
    }
}

fn copied(finished: &[Finished]) -> ArrayVec<Finished, MAX_PENDING>
    requires { length finished.now ≤ max_pending }
    ensures { result.items ≡ finished.now }
{
    let mut copies = ArrayVec::new();
    let _ = copies.try_extend_from_slice(finished);
    copies
}
