//! What a session shows of itself between two asks, and to who makes the asks of a call in its place.
ghost use Rattle.std.specs.Prelude.{◌≡◌, ◌<◌, ◌≤◌, ◌+◌, ◌^◌, ◌==◌, IfNone, false, length};
ghost use Rattle.fkv_base.specs.Limits.{max_pending, max_sessions, last_serial};
ghost use Rattle.fkv_session.specs.declared.answers.Told.TheVariants.{Slept};
ghost use Rattle.fkv_session.specs.declared.sessions.Sitting.TheVariants.{Idle};
ghost use Rattle.fkv_session.specs.Sessions.{is_busy, nothing_polled, only_of, read_polled, read_waiting, refusal_of, refreshed, request_polled, ticket_after, update_polled, update_waiting, HasRoom};

use crate::answers::Finished;
use crate::sessions::{Session, Sitting};
use fkv_base::{Addr, Fault, Serial, Shape, Value};
use fkv_map::{HistoryEntry, Op, Reply};
use fkv_ops::{DiskRecord, Seen};
use fkv_pending::{PendingRequest, Ticket};
use fkv_plane::Places;

impl Session {
    /// Where the words of its store stand.
    pub fn places(&self) -> Places
        ensures value { result ≡ self.now.seat.places }
        ensures buckets { result.buckets ≡ 2 ^ self.now.seat.shape.bucket_bits }
    {
        self.context.catch.places()
    }

    /// The shape of its store.
    pub fn shape(&self) -> Shape
        ensures { result ≡ self.now.seat.shape }
    {
        self.context.shape
    }

    /// Its number among the sessions of its store.
    #[inline(always)]
    pub fn number(&self) -> usize
        ensures value { result ≡ self.now.seat.number }
        ensures below { result < max_sessions }
    {
        self.context.number
    }

    /// What it goes by: the phase, the version and the offsets that it loaded when it last refreshed or woke.
    pub fn seen(&self) -> Seen
        ensures { result ≡ self.now.state.seen }
    {
        self.context.seen
    }

    /// Whether it holds an epoch. A session that sleeps accepts no call but a wake and `Durable`.
    pub fn is_awake(&self) -> bool
        ensures { result ≡ self.now.state.is_awake }
    {
        self.context.is_awake
    }

    /// Whether a call is in hand: then it goes on, and else it may begin one.
    pub fn busy(&self) -> bool
        ensures { result ≡ is_busy self.now.state.step }
    {
        !matches!(self.context.step, Sitting::Idle(_))
    }

    /// The last serial that it has taken, 0 where it has taken none.
    #[inline(always)]
    pub fn serial(&self) -> Serial
        ensures value { result.0 ≡ self.now.state.serial }
        ensures within { result.0 ≤ last_serial }
    {
        Serial(self.context.serial)
    }

    /// The last ticket that it has given, 0 where it has given none.
    pub fn ticket(&self) -> Ticket
        ensures { result.0 ≡ self.now.state.ticket }
    {
        Ticket(self.context.ticket)
    }

    /// The log begins there or above: to the next request an address below counts as 0.
    pub fn floor(&self) -> Addr
        ensures { result ≡ self.now.state.floor }
    {
        self.context.floor
    }

    /// How many requests wait.
    pub fn pending(&self) -> usize
        ensures { result ≡ length self.now.state.requests }
    {
        self.context.requests.len()
    }

    /// The request that waits, where just one does.
    #[tactic(auto, using(crate::proofs::Requests::first_only, crate::proofs::Requests::many_only))]
    pub fn only_request(&self) -> Option<PendingRequest>
        ensures { result ≡ only_of self.now.state.requests }
    {
        if self.context.requests.len() == 1 {
            self.context.requests.get(0)
        } else {
            None
        }
    }

    /// Whether no further request can wait.
    pub fn is_full(&self) -> bool
        ensures { result ≡ (length self.now.state.requests == max_pending) }
    {
        self.context.requests.is_full()
    }

    /// Whether it has asked for a record that no request waits for any more. The next poll lets it go.
    pub fn is_orphaned(&self) -> bool
        ensures { result ≡ self.now.state.is_orphaned }
    {
        self.context.is_orphaned
    }

    /// The overflow bucket that it has taken and not linked, 0 where it has none.
    pub fn spare(&self) -> u64
        ensures { result ≡ self.now.state.spare }
    {
        self.context.spare
    }

    /// Why it refuses this operation before any ask, if it does. An operation that it doesn't refuse so has room for one more request,
    /// and an update a serial.
    pub fn refusal_of(&self, op: Op) -> Option<Fault>
        ensures refusal { result ≡ refusal_of self.now.state op }
        ensures room { IfNone result (HasRoom self.now.state.requests op self.now.state.serial) }
    {
        self.context.refusal_of(op)
    }

    /// How many asks of words it has made since the call began.
    pub fn asks(&self) -> u64
        ensures { result ≡ self.now.state.asks }
    {
        self.context.asks
    }

    /// The update whose effect the ask that was just answered made, if it made one.
    pub fn effect(&self) -> Option<HistoryEntry>
        ensures { result ≡ self.now.state.effect }
    {
        self.context.effect
    }

    /// What the last poll has finished, in the order of acceptance.
    pub fn finished(&self) -> &[Finished]
        ensures value { result.now ≡ self.now.state.finished }
        ensures fits { length result.now ≤ max_pending }
    {
        self.context.finished.as_slice()
    }

    /// Takes the next serial, for an update that somebody else has done in its place, between two calls. What the last of its own calls was told stays.
    #[inline(always)]
    pub fn take_serial(&mut self) -> Serial
        requires left { self.old.state.serial < last_serial }
        requires idle { is_busy self.old.state.step ≡ false }
        ensures serial { result.0 ≡ self.old.state.serial + 1 }
        ensures next { self.new ≡ record self.old { state = record self.old.state { serial = self.old.state.serial + 1 } } }
    {
        self.context.take_serial();
        self.serial()
    }

    /// Goes by this from now on, behind a refresh whose asks somebody else has made in its place while no request waited. No call is in hand behind it.
    pub fn take_seen(&mut self, seen: Seen)
        ensures { self.new ≡ record self.old { state = refreshed self.old.state seen } }
    {
        self.ask = self.context.take_seen(seen);
    }

    /// Takes the next serial for an update that somebody else has tried in its place. It waits, as a request of the session's version, and no call is in
    /// hand behind it.
    pub fn take_pending(&mut self, op: Op) -> Serial
        requires room { length self.old.state.requests < max_pending }
        requires left { self.old.state.serial < last_serial }
        ensures serial { result.0 ≡ self.old.state.serial + 1 }
        ensures next { self.new ≡ record self.old { state = update_waiting self.old.state op } }
    {
        self.ask = self.context.take_pending(op);
        self.serial()
    }

    /// Takes the next ticket for a read that somebody else has tried in its place. It waits for this record of the device, whose address is in the session's
    /// mailbox or isn't. No call is in hand behind it.
    pub fn take_pending_read(&mut self, op: Op, sought: DiskRecord, has_asked: bool) -> Ticket
        requires { length self.old.state.requests < max_pending }
        ensures ticket { result.0 ≡ ticket_after self.old.state.ticket }
        ensures next { self.new ≡ record self.old { state = read_waiting self.old.state op sought has_asked } }
    {
        self.ask = self.context.take_pending_read(op, sought, has_asked);
        self.ticket()
    }

    /// Forgets the first request that waits, behind a poll in which somebody else has finished this update in its place. No call is in hand behind it.
    pub fn take_polled(&mut self, serial: Serial, reply: Reply)
        ensures { self.new ≡ record self.old { state = update_polled self.old.state serial reply } }
    {
        self.ask = self.context.take_polled(serial, reply);
    }

    /// Forgets the first request that waits, behind a poll in which somebody else has finished this read in its place. No call is in hand behind it.
    pub fn take_polled_read(&mut self, ticket: Ticket, value: Option<Value>)
        ensures { self.new ≡ record self.old { state = read_polled self.old.state ticket value } }
    {
        self.ask = self.context.take_polled_read(ticket, value);
    }

    /// Has the first request wait as this, behind a poll in which somebody else has tried it in its place and finished nothing. No call is in hand behind it.
    pub fn take_polled_on(&mut self, its: PendingRequest)
        ensures { self.new ≡ record self.old { state = request_polled self.old.state its } }
    {
        self.ask = self.context.take_polled_on(its);
    }

    /// Forgets what the last poll has finished, behind one in which somebody else has finished nothing in its place. No call is in hand behind it.
    pub fn take_unpolled(&mut self)
        ensures { self.new ≡ record self.old { state = nothing_polled self.old.state } }
    {
        self.ask = self.context.take_unpolled();
    }
}
