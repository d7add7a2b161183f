//! The way of a session to the words of its table, by which a call goes straight.
ghost use Rattle.std.specs.Prelude.{◌≡◌, ◌+◌, ◌<◌, ◌≤◌, ◌++◌, ◌∷◌, [], ℕ, Some, false, length, take};
ghost use Rattle.fkv_session.specs.Sessions.{is_busy};
ghost use Rattle.fkv_table.specs.Said as said;

use crate::aside::{Aside, Room};
use crate::happenings::law_start_stands;
use crate::performing::{perform, perform_first};
use crate::plays::{Next, Raises, Turn};
use crate::positions::{Part, position};
use crate::rule::{Place, Words};
use fkv_disk::Device;
use fkv_map::Call;
use fkv_plane::Ask;
use fkv_session::Told;
use fkv_straight::{Line, StraightSession};
use std::marker::{Brand, Model};
use std::snapshot::Snapshot;

/// The words of a table, for the session whose seat this is. Each of its steps is the one that the session's machine would ask for; `raise` makes
/// two of them, or none.
#[derive(Drop)]
pub(crate) struct SeatLine<'t, D: Device> {
    words: &'t Words<D>,
    seat: Place<D>,
    /// The slot that is its seat's desk.
    desk: usize,
    /// The session's number.
    number: usize,
    /// Where the replies of the call in hand are, so many of them, and what was there before.
    aside: &'t mut Aside,
    kept: usize,
    /// The machine, as the line began.
    machine: Snapshot<StraightSession>,
}

/// What a line was made of, as it is given back.
#[derive(Drop)]
pub(crate) struct Parts<'t, D: Device> {
    pub(crate) seat: Place<D>,
    pub(crate) aside: &'t mut Aside,
    pub(crate) kept: usize,
}

/// Puts a reply behind those that are kept.
#[inline]
fn keep(replies: &mut Room, kept: usize, reply: u64)
    requires { (kept < 64) × (length replies.old ≡ 64) }
    ensures items { take (kept + 1) replies.new ≡ take kept replies.old ++ reply ∷ [] }
    ensures length { length replies.new ≡ 64 }
{
    replies[kept] = reply;
}

/// Puts a reply there twice.
#[inline(always)]
fn keep_twice(replies: &mut Room, kept: usize, reply: u64)
    requires { (kept < 63) × (length replies.old ≡ 64) }
    ensures items { take (kept + 2) replies.new ≡ (take kept replies.old ++ reply ∷ []) ++ reply ∷ [] }
    ensures length { length replies.new ≡ 64 }
{
    keep(replies, kept, reply);
    keep(replies, kept + 1, reply);
}

/// The replies that are kept.
#[inline(always)]
fn kept_in(replies: &Room, kept: usize) -> &[u64]
    requires { (kept ≤ 64) × (length replies.now ≡ 64) }
    ensures { result.now ≡ take kept replies.now }
{
    &replies[..kept]
}

impl<'t, D: Device> Model for SeatLine<'t, D> {
    ghost use Rattle.std.specs.Prelude.{◌≡◌, ◌≤◌, length, take};
    ghost use Rattle.fkv_table.specs.Said as said;

    ghost Value = { said.LineModel (said.Snapshot (said.WorldModel D)) };

    ghost view = { λ l. said.line_of l.words.now.key l.words.now.table_id l.seat.me l.machine.value l.desk (take l.kept l.aside.now.replies) };

    ghost invariant = { λ l. (l.seat.table_id ≡ l.words.now.table_id) × (l.number ≡ l.machine.value.seat.number) × (l.kept ≤ 64)
        × (length l.aside.now.replies ≡ 64) × said.IsAlong (said.opening_of D.seen)
        (said.line_of l.words.now.key l.words.now.table_id l.seat.me l.machine.value l.desk (take l.kept l.aside.now.replies)) };
}

impl<'t, D: Device> SeatLine<'t, D> {
    /// The line of a session between two calls.
    #[inline(always)]
    pub(crate) fn new(
        words: &'t Words<D>,
        seat: Place<D>,
        machine: &StraightSession,
        desk: usize,
        aside: &'t mut Aside,
    ) -> SeatLine<'t, D>
        requires ready { said.IsReady (said.opening_of D.seen) words.now.key words.now.table_id seat.table_id seat.me machine.now desk }
        ensures value { result ≡ record { key = words.now.key; table = words.now.table_id; me = seat.me; machine = machine.now; desk = desk; replies = [] } }
    {
        let own = machine.number();
        let from = Snapshot::of(machine);
        SeatLine {
            words,
            seat,
            desk,
            number: own,
            aside,
            kept: 0,
            machine: from,
        }
    }

    /// The line of a session whose call is in hand, with so many of its replies.
    #[inline(always)]
    pub(crate) fn resume(
        words: &'t Words<D>,
        seat: Place<D>,
        machine: &StraightSession,
        desk: usize,
        aside: &'t mut Aside,
        kept: usize,
    ) -> SeatLine<'t, D>
        requires table { seat.table_id ≡ words.now.table_id }
        requires room { (kept ≤ 64) × (length aside.old.replies ≡ 64) }
        requires along { said.IsAlong (said.opening_of D.seen) (said.line_of words.now.key words.now.table_id seat.me machine.now desk (take kept
            aside.old.replies)) }
        ensures value { result ≡ said.line_of words.now.key words.now.table_id seat.me machine.now desk (take kept aside.old.replies) }
    {
        let own = machine.number();
        let from = Snapshot::of(machine);
        SeatLine {
            words,
            seat,
            desk,
            number: own,
            aside,
            kept,
            machine: from,
        }
    }

    /// What the line was made of, with what is known of it.
    #[inline(always)]
    pub(crate) fn into_parts(self) -> Parts<'t, D>
        ensures table { result.seat.table_id ≡ self.entry.table }
        ensures me { result.seat.me ≡ self.entry.me }
        ensures room { (result.kept ≤ 64) × (length result.aside.now.replies ≡ 64) }
        ensures replies { take result.kept result.aside.now.replies ≡ self.entry.replies }
        ensures along { said.IsAlong (said.opening_of D.seen) self.entry }
    {
        let SeatLine {
            seat,
            aside,
            kept,
            ..
        } = self;
        Parts { seat, aside, kept }
    }

    /// The seat, with what is known of it.
    #[inline(always)]
    pub(crate) fn into_seat(self) -> Place<D>
        ensures table { result.table_id ≡ self.entry.table }
        ensures me { result.me ≡ self.entry.me }
        ensures along { said.IsAlong (said.opening_of D.seen) self.entry }
    {
        let SeatLine { seat, .. } = self;
        seat
    }

    /// Begins a call, makes its first step, and keeps the reply. Those of the call before are kept no more.
    #[inline(always)]
    fn start(&mut self, call: Call, ask: &Ask<Told>, part: Part) -> u64
        requires idle { is_busy (said.stands (said.opening_of D.seen) self.old).step ≡ false }
        requires asked { said.asked self.old.machine.seat (said.begins self.old.machine.seat (said.stands (said.opening_of D.seen) self.old) call) ≡ ask.now }
        requires word { (place : ℕ) × (said.asked_place ask.now ≡ Some place) }
        requires past { part ≡ said.Past → (place : ℕ) → said.asked_place ask.now ≡ Some place → 24 ≤ place }
        ensures next { said.stands (said.opening_of D.seen) self.new
            ≡ said.leads self.old.machine.seat (said.begins self.old.machine.seat (said.stands (said.opening_of D.seen) self.old) call) result }
        ensures led { said.HasLed (said.opening_of D.seen) self.old call self.new }
        ensures kept { length self.new.replies ≡ 1 }
        ensures machine { self.new.machine ≡ self.old.machine }
    {
        law_start_stands(call);
        let reply = perform_first::<D, Brand>(
            self.words,
            &mut self.seat,
            ask,
            part,
            self.number,
            call,
        );
        keep(&mut self.aside.replies, 0, reply);
        self.kept = 1;
        reply
    }

    /// Makes a step of the call, and keeps its reply.
    #[inline(always)]
    fn step(&mut self, ask: &Ask<Told>, part: Part) -> u64
        requires asked { said.asked self.old.machine.seat (said.stands (said.opening_of D.seen) self.old) ≡ ask.now }
        requires word { (place : ℕ) × (said.asked_place ask.now ≡ Some place) }
        requires past { part ≡ said.Past → (place : ℕ) → said.asked_place ask.now ≡ Some place → 24 ≤ place }
        requires room { length self.old.replies < 64 }
        ensures next { said.stands (said.opening_of D.seen) self.new ≡ said.leads self.old.machine.seat (said.stands (said.opening_of D.seen) self.old) result }
        ensures led { (start : said.LineModel (said.Snapshot (said.WorldModel D))) (call : said.Call)
            → said.HasLed (said.opening_of D.seen) start call self.old → said.HasLed (said.opening_of D.seen) start call self.new }
        ensures replies { self.new.replies ≡ self.old.replies ++ result ∷ [] }
        ensures machine { self.new.machine ≡ self.old.machine }
    {
        let reply = perform::<D, Turn<Next>, Told>(self.words, &mut self.seat, ask, part);
        keep(&mut self.aside.replies, self.kept, reply);
        self.kept += 1;
        reply
    }
}

impl<'t, D: Device> Line for SeatLine<'t, D> {
    ghost use Rattle.std.specs.Prelude.{length};
    ghost use Rattle.fkv_table.specs.Said as said;

    ghost seat = { λ l. l.machine.seat };

    ghost stands = { said.stands (said.opening_of D.seen) };

    ghost led = { said.HasLed (said.opening_of D.seen) };

    ghost kept = { λ l. length l.replies };

    #[inline]
    fn first(&mut self, call: Call, place: usize) -> u64 {
        self.start(call, &Ask::Load(place), Part::Any)
    }

    #[inline]
    fn first_past(&mut self, call: Call, place: usize) -> u64 {
        self.start(call, &Ask::Load(place), Part::Past)
    }

    #[inline]
    fn first_add(&mut self, call: Call, place: usize, number: u64) -> u64 {
        self.start(call, &Ask::Add(place, number), Part::Any)
    }

    #[inline]
    fn load(&mut self, place: usize) -> u64 {
        self.step(&Ask::Load(place), Part::Any)
    }

    #[inline]
    fn load_past(&mut self, place: usize) -> u64 {
        self.step(&Ask::Load(place), Part::Past)
    }

    #[inline]
    fn store(&mut self, place: usize, new: u64) -> u64 {
        self.step(&Ask::Store(place, new), Part::Any)
    }

    #[inline]
    fn swap(&mut self, place: usize, new: u64) -> u64 {
        self.step(&Ask::Swap(place, new), Part::Any)
    }

    #[inline]
    fn swap_past(&mut self, place: usize, new: u64) -> u64 {
        self.step(&Ask::Swap(place, new), Part::Past)
    }

    #[inline]
    fn cas(&mut self, place: usize, expected: u64, new: u64) -> u64 {
        self.step(&Ask::Cas(place, expected, new), Part::Any)
    }

    #[inline]
    fn cas_past(&mut self, place: usize, expected: u64, new: u64) -> u64 {
        self.step(&Ask::Cas(place, expected, new), Part::Past)
    }

    #[inline]
    fn add(&mut self, place: usize, number: u64) -> u64 {
        self.step(&Ask::Add(place, number), Part::Any)
    }

    /// One Cas of the table. It stands for the load that the machine asks for, and for the Cas behind that.
    #[inline(always)]
    fn raise(&mut self, place: usize, expected: u64) -> u64 {
        let found = self.words.compare_exchange::<Raises>(
            &mut self.seat,
            position(place, Part::Any),
            expected,
            expected + 1,
        );
        if found == expected {
            keep_twice(&mut self.aside.replies, self.kept, expected);
            self.kept += 2;
            self.aside.tail.add(expected);
        }
        found
    }

    #[inline(always)]
    fn guess(&self) -> u64 {
        self.aside.tail.next()
    }

    #[inline(always)]
    fn replies(&self) -> &[u64] {
        kept_in(&self.aside.replies, self.kept)
    }
}
