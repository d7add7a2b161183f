//! How a session goes over its requests at a poll.
ghost use Rattle.std.specs.Prelude.{◌≡◌, ◌<◌, ◌≤◌, ◌+◌, length, slice_get, Option};
ghost use Rattle.fkv_base.specs.Limits.{max_pending};
ghost use Rattle.fkv_pending.specs.Attempting.{attempt_ask};
ghost use Rattle.fkv_pending.specs.Mailing.{mail_ask};
ghost use Rattle.fkv_pending.specs.declared.pending_requests.PendingRequest.{PendingRequest};
ghost use Rattle.fkv_session.specs.declared.sessions.Sitting.TheVariants.{ClearsMail, Polls};
ghost use Rattle.fkv_session.specs.Sessions.{session_ask, poll_begun, polls_at, polls_request, clear_ledto, finished_of, is_finished, is_owed, request_finished, finishes_request, poll_left, keeps_request, lacks_room, poll_ledto};

use crate::answers::{Finished, Told};
use crate::catching_up::owing;
use crate::contexts::Context;
use crate::sessions::Sitting;
use fkv_base::{Addr, Value};
use fkv_map::Reply;
use fkv_ops::{Occasion, Reason, TryAnswer};
use fkv_pending::{MailAnswer, MailTask, PendingRequest, RequestName};
use fkv_plane::{Ask, SessionWord, passed};

impl Context {
    /// A record that nobody waits for any more is let go before the tries.
    #[tactic(auto, unfolding(crate::specs::Sessions::sitting_ask))]
    pub(crate) fn poll(&mut self) -> Ask<Told>
        requires { length self.old.state.finished + length self.old.state.requests ≤ max_pending }
        ensures next { self.new ≡ record self.old { state = poll_begun self.old.seat self.old.state } }
        ensures ask { result ≡ session_ask self.old.seat self.new.state }
    {
        if self.is_orphaned {
            self.step = Sitting::ClearsMail;
            passed(self.mail.start(MailTask::Clear), Told::Slept)
        } else {
            self.poll_at(0)
        }
    }

    /// The request at an index is attempted, and past the last the poll is answered.
    #[tactic(auto, unfolding(crate::specs::Sessions::polls_at, crate::specs::Sessions::sitting_ask))]
    pub(crate) fn poll_at(&mut self, index: usize) -> Ask<Told>
        requires { length self.old.state.finished + length self.old.state.requests ≤ max_pending }
        ensures next { self.new ≡ record self.old { state = polls_at self.old.seat self.old.state index } }
        ensures ask { result ≡ session_ask self.old.seat self.new.state }
    {
        match self.requests.get(index) {
            None => {
                let left = self.requests.len();
                self.answer_after_turn(Told::Polled(left))
            }
            Some(pending) => {
                let (seen, spare, is_orphaned) = (self.seen, self.spare, self.is_orphaned);
                self.step = Sitting::Polls(index);
                let ask = self
                    .attempt
                    .start(&pending, seen, Occasion::Poll, spare, is_orphaned);
                passed(ask, Told::Slept)
            }
        }
    }

    /// Goes on by what the letting go asks.
    #[tactic(auto, unfolding(crate::specs::Sessions::clear_ledto, crate::specs::Sessions::sitting_ask))]
    pub(crate) fn after_clear(&mut self, ask: Ask<MailAnswer>) -> Ask<Told>
        requires few { length self.old.state.finished + length self.old.state.requests ≤ max_pending }
        requires step { self.old.state.step ≡ ClearsMail }
        requires ask { ask ≡ mail_ask self.old.seat.number self.old.state.mailing }
        ensures next { self.new ≡ record self.old { state = clear_ledto self.old.seat self.old.state ask } }
        ensures ask { result ≡ session_ask self.old.seat self.new.state }
    {
        match ask {
            Ask::Done(answer) => {
                if answer == MailAnswer::Cleared {
                    self.is_orphaned = false;
                }
                self.poll_at(0)
            }
            other => passed(other, Told::Slept),
        }
    }

    /// Goes on by what the attempt of the request at an index asks.
    #[tactic(auto, unfolding(crate::specs::Sessions::poll_ledto, crate::specs::Sessions::sitting_ask))]
    pub(crate) fn after_poll(&mut self, index: usize, ask: Ask<TryAnswer>) -> Ask<Told>
        requires few { length self.old.state.finished + length self.old.state.requests ≤ max_pending }
        requires index { index < length self.old.state.requests }
        requires step { self.old.state.step ≡ Polls index }
        requires ask { ask ≡ attempt_ask self.old.seat.places self.old.seat.number self.old.state.attempt }
        ensures next { self.new ≡ record self.old { state = poll_ledto self.old.seat self.old.state index ask } }
        ensures ask { result ≡ session_ask self.old.seat self.new.state }
    {
        match ask {
            Ask::Done(answer) => {
                self.take_back_polled();
                if is_finished(answer) {
                    self.finish_request(index, answer)
                } else {
                    self.keep_request(index, answer)
                }
            }
            other => passed(other, Told::Slept),
        }
    }

    /// The request leaves the list. What is owed of the version before the session's is stored anew.
    #[tactic(auto, unfolding(crate::specs::Sessions::finishes_request, crate::specs::Sessions::sitting_ask))]
    fn finish_request(&mut self, index: usize, answer: TryAnswer) -> Ask<Told>
        requires few { length self.old.state.finished + length self.old.state.requests ≤ max_pending }
        requires index { index < length self.old.state.requests }
        ensures next { self.new ≡ record self.old { state = finishes_request self.old.seat self.old.state index answer } }
        ensures ask { result ≡ session_ask self.old.seat self.new.state }
    {
        let pending = *self.attempt.pending();
        self.finished.push(finished_of(pending.name, answer));
        self.requests.remove(index);
        self.step = Sitting::StoresOwing(index);
        if self.is_owed(pending) {
            Ask::Store(
                SessionWord::Owing.place(self.number),
                owing(self.seen, &self.requests),
            )
        } else {
            self.poll_at(index)
        }
    }

    fn is_owed(&self, pending: PendingRequest) -> bool
        requires { pending ≡ self.now.state.attempt.pending }
        ensures { result ≡ is_owed self.now.state }
    {
        !pending.request.is_read() && pending.request.version < self.seen.version
    }

    /// What the attempt of a poll leaves to the session. Its request may have heard of a later begin of the log.
    fn take_back_polled(&mut self)
        ensures { self.new ≡ record self.old { state = poll_left self.old.state } }
    {
        self.take_back();
        let floor = self.attempt.pending().request.floor;
        self.floor = Addr(self.floor.0.max(floor.0));
    }

    /// The request goes on waiting.
    #[tactic(auto, unfolding(crate::specs::Sessions::keeps_request))]
    fn keep_request(&mut self, index: usize, answer: TryAnswer) -> Ask<Told>
        requires few { length self.old.state.finished + length self.old.state.requests ≤ max_pending }
        requires index { index < length self.old.state.requests }
        ensures next { self.new ≡ record self.old { state = keeps_request self.old.seat self.old.state index answer } }
        ensures ask { result ≡ session_ask self.old.seat self.new.state }
    {
        self.requests.set(index, *self.attempt.pending());
        self.wants_turn = self.wants_turn || lacks_room(answer);
        self.poll_at(index + 1)
    }
}

/// What a poll tells of a request that is finished.
fn finished_of(name: RequestName, answer: TryAnswer) -> Finished
    ensures { result ≡ finished_of name answer }
{
    match (name, answer) {
        (RequestName::Update(serial), TryAnswer::Done(reply)) => Finished::Update(serial, reply),
        (RequestName::Update(serial), TryAnswer::Found(value)) => {
            Finished::Update(serial, Reply::Found(value))
        }
        (RequestName::Update(serial), _) => Finished::Update(serial, Reply::Absent),
        (RequestName::Read(ticket), TryAnswer::Found(value)) => {
            Finished::Read(ticket, Some(value))
        }
        (RequestName::Read(ticket), _) => Finished::Read(ticket, None),
    }
}

fn is_finished(answer: TryAnswer) -> bool
    ensures { result ≡ is_finished answer }
{
    matches!(
        answer,
        TryAnswer::Done(_) | TryAnswer::Found(_) | TryAnswer::Absent
    )
}

fn lacks_room(answer: TryAnswer) -> bool
    ensures { result ≡ lacks_room answer }
{
    matches!(answer, TryAnswer::Wait(Reason::NoRoom))
}
