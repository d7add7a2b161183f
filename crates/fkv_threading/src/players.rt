//! A session that plays the calls of its lines.
ghost use Rattle.std.specs.Prelude.{◌≡◌, ◌<◌, ◌≤◌, ◌+◌, true, if◌then◌else◌, length};
ghost use Rattle.fkv_threading.specs.Said as said;

use fkv_base::{Fault, Serial};
use fkv_disk::Device;
use fkv_map::Call;
use fkv_session::{Answer, answer_of};
use fkv_thread_scripts::Log;
use fkv_threads::Seated;
use std::marker::Model;

/// A session at a table, with the calls of its lines, how many of them are answered, and what it was told so far. A contract sees it as what stays the
/// same: the table's key, the session's number, the point from which it goes on, and the calls of its lines.
#[derive(Drop)]
pub(crate) struct Player<D: Device> {
    pub(crate) seat: Seated<D>,
    pub(crate) point: Serial,
    pub(crate) calls: Vec<Call>,
    pub(crate) answered: usize,
    pub(crate) log: Log,
}

/// What a session leaves.
#[derive(Drop)]
pub(crate) struct SessionEnd {
    pub(crate) log: Log,
    /// Each call of its lines is answered.
    pub(crate) is_whole: bool,
}

impl<D: Device> Model for Player<D> {
    ghost use Rattle.fkv_threading.specs.Said as said;

    ghost Value = { said.Part (said.Opening D) };

    ghost view = { λ s. record { key = s.seat.key; number = s.seat.number; point = s.point; calls = s.calls.items } };

    ghost invariant = { λ s. said.WasTold (said.opening D.Device) (record {
      key = s.seat.key;
      number = s.seat.number;
      point = s.point;
      calls =
          s.calls.items;
    }) (said.take s.answered s.calls.items) s.log s.seat.seen };
}

impl<D: Device> Player<D> {
    /// How many calls its lines have that aren't answered yet.
    pub(crate) fn count_left(&self) -> usize {
        self.calls.len().saturating_sub(self.answered)
    }

    /// Makes the next call of its lines, and notes its answer. Whether it is answered, or none is left: else too many requests are pending, and it is to
    /// be made again. `Memory` where memory was refused.
    pub(crate) fn call_next(self) -> Result<(Player<D>, bool), Fault>
        ensures ok { said.IfOk result (λ its. its.0 ≡ self) }
        ensures err { said.OnErr result (result ≡ said.Err said.Memory) }
    {
        let Player {
            mut seat,
            point,
            calls,
            answered,
            mut log,
        } = self;
        let Some(call) = call_at(&calls, answered) else {
            let same = Player {
                seat,
                point,
                calls,
                answered,
                log,
            };
            return Ok((same, true));
        };
        let answer = make(&mut seat, &mut log, call)?;
        let is_answered = !is_full(&answer);
        let answered = count_behind(answered, is_answered);
        let next = Player {
            seat,
            point,
            calls,
            answered,
            log,
        };
        Ok((next, is_answered))
    }

    /// Makes a call that is none of its lines, and notes its answer: a refresh, a poll, or that it sleeps. `Memory` where memory was refused.
    pub(crate) fn call_own(self, call: Call) -> Result<(Player<D>, Answer), Fault>
        requires { said.is_own call ≡ true }
        ensures ok { said.IfOk result (λ its. its.0 ≡ self) }
        ensures err { said.OnErr result (result ≡ said.Err said.Memory) }
    {
        let Player {
            mut seat,
            point,
            calls,
            answered,
            mut log,
        } = self;
        let answer = make(&mut seat, &mut log, call)?;
        let next = Player {
            seat,
            point,
            calls,
            answered,
            log,
        };
        Ok((next, answer))
    }

    /// What it was told.
    pub(crate) fn end(self) -> SessionEnd
        ensures { said.IsTold (said.opening D.Device) self result.is_whole result.log }
    {
        let Player {
            calls,
            answered,
            log,
            ..
        } = self;
        SessionEnd {
            log,
            is_whole: are_all(&calls, answered),
        }
    }
}

fn call_at(calls: &[Call], place: usize) -> Option<Call>
    ensures { result ≡ said.slice_get calls.now place }
{
    calls.get(place).copied()
}

/// How many calls are answered behind a try of the next one.
fn count_behind(answered: usize, is_answered: bool) -> usize
    requires { answered < 9223372036854775808 }
    ensures { result ≡ (if is_answered then answered + 1 else answered) }
{
    if is_answered { answered + 1 } else { answered }
}

fn are_all(calls: &[Call], answered: usize) -> bool
    ensures { result ≡ true → length calls.now ≤ answered }
{
    answered >= calls.len()
}

/// Makes a call, and notes its answer.
fn make<D: Device>(seat: &mut Seated<D>, log: &mut Log, call: Call) -> Result<Answer, Fault>
    ensures ok { said.IfOk result (λ answer. said.HasMade (said.opening D.Device) seat.old seat.new call answer log.old log.new) }
    ensures err { said.OnErr result (result ≡ said.Err said.Memory) }
{
    let told = seat.call(call);
    let answer = answer_of(told, seat.finished());
    log.note(call, &answer)?;
    Ok(answer)
}

fn is_full(answer: &Answer) -> bool
    ensures { result ≡ said.is_full answer.now }
{
    match answer {
        Answer::Refused(Fault::PendingFull) => true,
        _ => false,
    }
}
