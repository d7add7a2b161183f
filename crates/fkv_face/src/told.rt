//! Answers as numbers.
ghost use Rattle.std.specs.Prelude.{◌≡◌};
ghost use Rattle.fkv_face.specs.Told as says;

use crate::answers::refused;
use fkv_base::{Phase, Value};
use fkv_map::Reply;
use fkv_ops::Reason;
use fkv_session::Told;

/// An answer: its result, and up to three numbers that go with it.
#[derive(Clone, Copy)]
pub(crate) struct Numbers {
    pub(crate) result: i32,
    pub(crate) first: u64,
    pub(crate) second: u64,
    pub(crate) third: u64,
}

/// The update is done.
pub(crate) const DONE: i32 = 0;
/// The read has found a value.
pub(crate) const FOUND: i32 = 1;
/// The read has found none.
pub(crate) const NONE: i32 = 2;
/// The request waits.
pub(crate) const PENDING: i32 = 3;

/// The value that goes with a reply: 0 where none does, and the word of no value where a keep has found none.
#[inline(always)]
pub(crate) fn number_in(reply: Reply) -> u64
    ensures { result ≡ says.number_in reply }
{
    match reply {
        Reply::Nothing => 0,
        Reply::Number(value) => value.0,
        Reply::Found(value) => value.0,
        Reply::Absent => Value::ABSENT,
    }
}

#[inline(always)]
fn reason_number(reason: Reason) -> u64
    ensures { result ≡ says.reason_number reason }
{
    match reason {
        Reason::Fuzzy => 1,
        Reason::Disk => 2,
        Reason::Latch => 3,
        Reason::Contended => 4,
        Reason::NoRoom => 5,
        Reason::Full => 6,
    }
}

#[inline(always)]
fn phase_number(phase: Phase) -> u64
    ensures { result ≡ says.phase_number phase }
{
    match phase {
        Phase::Rest => 0,
        Phase::Prepare => 1,
        Phase::InProgress => 2,
        Phase::WaitPending => 3,
        Phase::WaitFlush => 4,
    }
}

#[inline(always)]
fn tells(its: i32, first: u64, second: u64, third: u64) -> Numbers
    ensures { result ≡ record { result = its; first = first; second = second; third = third } }
{
    Numbers {
        result: its,
        first,
        second,
        third,
    }
}

/// The numbers of what an operation was told: those of the answer that says so, without the list that an `Answer` has room for.
#[inline(always)]
pub(crate) fn told_by(told: Told) -> Numbers
    ensures { (finished : says.List says.Finished) → result ≡ says.numbers_of (says.answer_saying told finished) }
{
    match told {
        Told::Done(serial, reply) => tells(DONE, serial.0, number_in(reply), 0),
        Told::Pending(serial, reason) => tells(PENDING, serial.0, 0, reason_number(reason)),
        Told::Found(value) => tells(FOUND, value.0, 0, 0),
        Told::Absent => tells(NONE, 0, 0, 0),
        Told::PendingRead(ticket) => tells(PENDING, ticket.0, 0, 0),
        Told::Refreshed(phase, version) => tells(DONE, phase_number(phase), version.0, 0),
        Told::Woken(phase, version) => tells(DONE, phase_number(phase), version.0, 0),
        Told::Polled(left) => tells(DONE, left as u64, 0, 0),
        Told::Slept => tells(DONE, 0, 0, 0),
        Told::Durable(serial) => tells(DONE, serial.0, 0, 0),
        Told::Refused(why) => tells(refused(why), 0, 0, 0),
    }
}
