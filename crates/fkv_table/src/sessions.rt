//! A session's calls at the table.
ghost use Rattle.std.specs.Prelude.{◌≡◌, ◌<◌, ◌≤◌, ℕ, List, Some, None, [], ◌∷◌, true, false, length};
ghost use Rattle.fkv_map.specs.declared.operations.Call.TheVariants as call;
ghost use Rattle.fkv_table.specs.Said as said;

use crate::aside::Aside;
use crate::happenings::{Happening, law_start_stands};
use crate::hot::{run_cold, run_due};
use crate::lines::{Parts, SeatLine};
use crate::performing::perform;
use crate::plays::{Adds, First, Next, Notes, Turn};
use crate::positions::Part;
use crate::rule::{Pass, Place, Table, Words};
use crate::taking::take_seat;
use fkv_base::Serial;
use fkv_disk::Device;
use fkv_map::{Call, Op};
use fkv_plane::Ask;
use fkv_seats::Held;
use fkv_session::{Answer, Finished, Told, answer_of, law_of_standing};
use fkv_straight::{Hot, StraightSession, Went as Way};

/// A session of a store that threads share.
#[derive(Drop)]
pub struct Session {
    pub(crate) machine: StraightSession,
    /// The slot that is its seat's desk.
    pub(crate) desk: usize,
    /// What its straight calls keep.
    pub(crate) aside: Aside,
}

/// Makes the ask of a word that the machine stands at, and goes on with the reply.
fn ask_word<D: Device, O: Adds>(
    words: &Words<D>,
    seat: &mut Place<D>,
    machine: &mut StraightSession,
    ask: &Ask<Told>,
) -> Ask<Told>
    requires table { (seat.old.table_id ≡ words.now.table_id) × said.IsTableOf (said.opening_of D.seen words.now.key) words.now.table_id }
    requires seated { said.StandsIn (said.opening_of D.seen) words.now.key seat.old.me (O.own seat.old.me.1) machine.old }
    requires ask { ask.now ≡ said.session_ask machine.old.seat machine.old.state }
    requires word { (place : ℕ) × (said.asked_place ask.now ≡ Some place) }
    ensures seat { (seat.new.table_id ≡ seat.old.table_id) × (seat.new.id ≡ seat.old.id) }
    ensures next { said.RepliedIn (said.opening_of D.seen) words.now.key seat.old.me (O.own seat.old.me.1) machine.old seat.new.me machine.new }
    ensures ask { result ≡ said.session_ask machine.new.seat machine.new.state }
{
    law_of_standing();
    let reply = perform::<D, Turn<O>, Told>(words, seat, ask, Part::Any);
    machine.go_on(reply)
}

/// Moves the action that goes with the reply, if one does.
#[inline(never)]
fn settle<D: Device>(
    words: &Words<D>,
    seat: &mut Place<D>,
    machine: &mut StraightSession,
    next: Ask<Told>,
) -> Ask<Told>
    requires table { seat.old.table_id ≡ words.now.table_id }
    requires ask { next ≡ said.session_ask machine.old.seat machine.old.state }
    requires hand { said.IsAsked (said.opening_of D.seen) next seat.old.me }
    ensures seat { (seat.new.table_id ≡ seat.old.table_id) × (seat.new.id ≡ seat.old.id) }
    ensures settled { said.Settled (said.opening_of D.seen) next seat.old.me machine.old seat.new.me machine.new }
    ensures ask { result ≡ said.session_ask machine.new.seat machine.new.state }
{
    match next {
        Ask::Put(slot, action) => {
            let _ = words.exchange(seat, slot, Held::Drain(Some(action)));
            machine.go_on(0)
        }
        Ask::Take(slot) => match words.exchange(seat, slot, Held::Drain(None)) {
            Held::Drain(Some(action)) => machine.take(action),
            _ => Ask::Take(slot),
        },
        other => other,
    }
}

/// Makes the ask of a word that the machine stands at, with the action that goes with it: one step of the session.
fn step<D: Device, O: Adds>(
    words: &Words<D>,
    seat: &mut Place<D>,
    machine: &mut StraightSession,
    ask: &Ask<Told>,
) -> Ask<Told>
    requires table { (seat.old.table_id ≡ words.now.table_id) × said.IsTableOf (said.opening_of D.seen words.now.key) words.now.table_id }
    requires seated { said.StandsIn (said.opening_of D.seen) words.now.key seat.old.me (O.own seat.old.me.1) machine.old }
    requires ask { ask.now ≡ said.session_ask machine.old.seat machine.old.state }
    requires word { (place : ℕ) × (said.asked_place ask.now ≡ Some place) }
    ensures seat { (seat.new.table_id ≡ seat.old.table_id) × (seat.new.id ≡ seat.old.id) }
    ensures went { said.Went (said.opening_of D.seen) seat.old.me (O.own seat.old.me.1) machine.old.seat.number seat.new.me }
    ensures seated { said.StandsIn (said.opening_of D.seen) words.now.key seat.new.me [] machine.new × (machine.new.seat ≡ machine.old.seat) }
    ensures idle { said.IsIdleEmpty (said.opening_of D.seen) machine.new seat.new.me }
    ensures told { (its : said.Told) → said.session_ask machine.new.seat machine.new.state ≡ said.Done its
        → said.IsToldLast (said.led (said.plane (said.opening_of D.seen)) (said.opening_of D.seen words.now.key) seat.new.me.0.seen) machine.new.seat.number
        (said.telling its machine.new.state.finished) }
    ensures fewer { said.session_asks_left machine.new.seat machine.new.state < said.session_asks_left machine.old.seat machine.old.state }
    ensures ask { result ≡ said.session_ask machine.new.seat machine.new.state }
{
    law_of_standing();
    let next = ask_word::<D, O>(words, seat, machine, ask);
    settle(words, seat, machine, next)
}

/// Steps on until the call is answered.
#[inline(never)]
fn steps_on<D: Device>(
    words: &Words<D>,
    seat: &mut Place<D>,
    machine: &mut StraightSession,
    first: Ask<Told>,
) -> Told
    requires table { (seat.old.table_id ≡ words.now.table_id) × said.IsTableOf (said.opening_of D.seen words.now.key) words.now.table_id }
    requires seated { said.StandsIn (said.opening_of D.seen) words.now.key seat.old.me [] machine.old }
    requires idle { said.IsIdleEmpty (said.opening_of D.seen) machine.old seat.old.me }
    requires told { (its : said.Told) → said.session_ask machine.old.seat machine.old.state ≡ said.Done its
        → said.IsToldLast (said.led (said.plane (said.opening_of D.seen)) (said.opening_of D.seen words.now.key) seat.old.me.0.seen) machine.old.seat.number
        (said.telling its machine.old.state.finished) }
    requires ask { first ≡ said.session_ask machine.old.seat machine.old.state }
    ensures seat { (seat.new.table_id ≡ seat.old.table_id) × (seat.new.id ≡ seat.old.id) }
    ensures steps { said.HasStepped machine.old.seat.number seat.old.me.0.seen seat.new.me.0.seen }
    ensures desk { (said.base (said.plane (said.opening_of D.seen)) seat.new.me.0.hand seat.new.me.1 ≡ said.base
        (said.plane (said.opening_of D.seen)) seat.old.me.0.hand seat.old.me.1) × (seat.new.me.0.desk ≡ seat.old.me.0.desk) }
    ensures rests { said.Rests (said.opening_of D.seen) words.now.key seat.new.me machine.new × (machine.new.seat ≡ machine.old.seat) }
    ensures idle { seat.new.me.0.hand ≡ None }
    ensures told { said.IsToldLast (said.led (said.plane (said.opening_of D.seen)) (said.opening_of D.seen words.now.key) seat.new.me.0.seen)
        machine.new.seat.number (said.telling result machine.new.state.finished) }
{
    law_of_standing();
    let mut ask = first;
    loop {
        if let Ask::Done(told) = ask {
            return told;
        }
        ask = step::<D, Next>(words, seat, machine, &ask);
    }
}

/// Adds the start that the desk tells: the call is over before its first ask.
fn note<D: Device>(words: &Words<D>, seat: &mut Place<D>, _machine: &StraightSession, _call: &Call)
    requires table { (seat.old.table_id ≡ words.now.table_id) × said.IsTableOf (said.opening_of D.seen words.now.key) words.now.table_id }
    requires seated { said.StandsIn (said.opening_of D.seen) words.now.key seat.old.me (said.noted seat.old.me.1) _machine.now }
    requires note { said.noted seat.old.me.1 ≡ said.Calls _machine.now.seat.number _call.now ∷ [] }
    ensures seat { (seat.new.table_id ≡ seat.old.table_id) × (seat.new.id ≡ seat.old.id) }
    ensures told { (word : ℕ) × said.Stepped (said.plane (said.opening_of D.seen)) (said.opening_of D.seen words.now.key) seat.old.me.0 seat.old.me.1 0 []
        (said.Calls _machine.now.seat.number _call.now) word seat.new.me }
{
    let _word = words.load::<Notes>(seat, 0);
}

/// Runs a call that has begun, whose start is on the desk.
fn run_begun<D: Device>(
    words: &Words<D>,
    seat: &mut Place<D>,
    machine: &mut StraightSession,
    call: &Call,
    first: Ask<Told>,
) -> Told
    requires table { (seat.old.table_id ≡ words.now.table_id) × said.IsTableOf (said.opening_of D.seen words.now.key) words.now.table_id }
    requires seated { said.StandsIn (said.opening_of D.seen) words.now.key seat.old.me (said.noted seat.old.me.1) machine.old }
    requires note { said.noted seat.old.me.1 ≡ said.Calls machine.old.seat.number call.now ∷ [] }
    requires idle { said.WasIdle (said.opening_of D.seen) words.now.key seat.old.me.0.seen machine.old.seat.number }
    requires ask { first ≡ said.session_ask machine.old.seat machine.old.state }
    ensures seat { (seat.new.table_id ≡ seat.old.table_id) × (seat.new.id ≡ seat.old.id) }
    ensures called { said.HasCalled machine.old.seat.number call.now seat.old.me.0.seen seat.new.me.0.seen }
    ensures desk { (said.base (said.plane (said.opening_of D.seen)) seat.new.me.0.hand seat.new.me.1 ≡ said.base
        (said.plane (said.opening_of D.seen)) seat.old.me.0.hand seat.old.me.1) × (seat.new.me.0.desk ≡ seat.old.me.0.desk) }
    ensures rests { said.Rests (said.opening_of D.seen) words.now.key seat.new.me machine.new × (machine.new.seat ≡ machine.old.seat) }
    ensures empty { seat.new.me.0.hand ≡ None }
    ensures told { said.IsToldLast (said.led (said.plane (said.opening_of D.seen)) (said.opening_of D.seen words.now.key) seat.new.me.0.seen)
        machine.new.seat.number (said.telling result machine.new.state.finished) }
{
    law_of_standing();
    if let Ask::Done(told) = first {
        note(words, seat, machine, call);
        return told;
    }
    let next = step::<D, First>(words, seat, machine, &first);
    steps_on(words, seat, machine, next)
}

/// Runs a call by the machine: its start is noted on the desk, and its steps follow.
#[inline(never)]
fn run_by_machine<D: Device>(
    words: &Words<D>,
    seat: &mut Place<D>,
    machine: &mut StraightSession,
    desk: usize,
    call: &Call,
) -> Told
    requires ready { said.IsReady (said.opening_of D.seen) words.now.key words.now.table_id seat.old.table_id seat.old.me machine.old desk }
    ensures ready { said.IsReady (said.opening_of D.seen) words.now.key words.now.table_id seat.new.table_id seat.new.me machine.new desk }
    ensures number { machine.new.seat.number ≡ machine.old.seat.number }
    ensures called { said.HasCalled machine.old.seat.number call.now seat.old.me.0.seen seat.new.me.0.seen }
    ensures told { said.IsToldLast (said.led (said.plane (said.opening_of D.seen)) (said.opening_of D.seen words.now.key) seat.new.me.0.seen)
        machine.new.seat.number (said.telling result machine.new.state.finished) }
{
    law_of_standing();
    law_start_stands(*call);
    let start = Happening::Calls(machine.number(), *call);
    let _ = words.exchange(seat, desk, Held::Desk(start));
    let first = machine.begin(*call);
    run_begun(words, seat, machine, call, first)
}

/// Goes on by the machine with a call that went straight as far as the line has come.
#[inline(never)]
pub(crate) fn go_on<D: Device>(
    words: &Words<D>,
    line: SeatLine<'_, D>,
    machine: &mut StraightSession,
    call: Call,
) -> (Place<D>, Told)
    requires begun { said.IsBegun (said.opening_of D.seen) words.now.key words.now.table_id machine.old call line }
    ensures ready { said.IsReady (said.opening_of D.seen) words.now.key words.now.table_id result.0.table_id result.0.me machine.new line.entry.desk }
    ensures number { machine.new.seat.number ≡ machine.old.seat.number }
    ensures called { (seen : List said.Happening) → said.HasCalled machine.old.seat.number call seen line.entry.me.0.seen
        → said.HasCalled machine.old.seat.number call seen result.0.me.0.seen }
    ensures told { said.IsToldLast (said.led (said.plane (said.opening_of D.seen)) (said.opening_of D.seen words.now.key) result.0.me.0.seen)
        machine.new.seat.number (said.telling result.1 machine.new.state.finished) }
{
    law_of_standing();
    let ask = machine.catch_up(&line, call);
    let mut seat = line.into_seat();
    if let Ask::Done(told) = ask {
        return (seat, told);
    }
    let next = settle(words, &mut seat, machine, ask);
    let told = steps_on(words, &mut seat, machine, next);
    (seat, told)
}

/// Runs a call straight. Where it meets anything unusual the machine goes on, and where it may not go straight the machine runs it.
#[inline(always)]
pub(crate) fn run_call<D: Device>(
    words: &Words<D>,
    seat: Place<D>,
    machine: &mut StraightSession,
    desk: usize,
    aside: &mut Aside,
    call: Call,
) -> (Place<D>, Told)
    requires ready { said.IsReady (said.opening_of D.seen) words.now.key words.now.table_id seat.table_id seat.me machine.old desk }
    ensures ready { said.IsReady (said.opening_of D.seen) words.now.key words.now.table_id result.0.table_id result.0.me machine.new desk }
    ensures number { machine.new.seat.number ≡ machine.old.seat.number }
    ensures called { said.HasCalled machine.old.seat.number call seat.me.0.seen result.0.me.0.seen }
    ensures told { said.IsToldLast (said.led (said.plane (said.opening_of D.seen)) (said.opening_of D.seen words.now.key) result.0.me.0.seen)
        machine.new.seat.number (said.telling result.1 machine.new.state.finished) }
{
    let mut line = SeatLine::new(words, seat, machine, desk, aside);
    let went = machine.run(&mut line, call);
    // What the machine tells is bound first: else both ways would tell it in one place of memory, and a straight call would read it back from there.
    match went {
        Way::Ended(told) => {
            let seat = line.into_seat();
            (seat, told)
        }
        Way::Stopped => {
            let (seat, told) = go_on(words, line, machine, call);
            (seat, told)
        }
        Way::Stayed => {
            let mut seat = line.into_seat();
            let told = run_by_machine(words, &mut seat, machine, desk, &call);
            (seat, told)
        }
    }
}

impl Session {
    /// Runs a call to its end. It waits for no other thread.
    pub fn run<D: Device>(
        &mut self,
        table: &Table<D>,
        mut pass: Pass<D>,
        call: Call,
    ) -> (Pass<D>, Answer)
        requires ready { said.IsReady (said.opening_of D.seen) table.now.table.shared.key table.now.table.shared.table_id pass.seat.table_id pass.seat.me
            self.old.machine self.old.desk }
        ensures ready { said.IsReady (said.opening_of D.seen) table.now.table.shared.key table.now.table.shared.table_id result.0.seat.table_id
            result.0.seat.me self.new.machine self.new.desk }
        ensures number { self.new.machine.seat.number ≡ self.old.machine.seat.number }
        ensures called { said.HasCalled self.old.machine.seat.number call pass.seat.me.0.seen result.0.seat.me.0.seen }
        ensures answer { said.IsAnsweredLast (said.led (said.plane (said.opening_of D.seen)) (said.opening_of D.seen table.now.table.shared.key)
            result.0.seat.me.0.seen) self.new.machine.seat.number result.1 }
    {
        let told = self.call(table, &mut pass, call);
        let answer = answer_of(told, self.machine.finished());
        (pass, answer)
    }

    /// Runs a call to its end, as `run` does, and gives what it was told: of a poll how many requests are left. `finished` tells those that it has finished.
    pub fn call<D: Device>(&mut self, table: &Table<D>, pass: &mut Pass<D>, call: Call) -> Told
        requires ready { said.IsReady (said.opening_of D.seen) table.now.table.shared.key table.now.table.shared.table_id pass.old.seat.table_id
            pass.old.seat.me self.old.machine self.old.desk }
        ensures ready { said.IsReady (said.opening_of D.seen) table.now.table.shared.key table.now.table.shared.table_id pass.new.seat.table_id
            pass.new.seat.me self.new.machine self.new.desk }
        ensures number { self.new.machine.seat.number ≡ self.old.machine.seat.number }
        ensures called { said.HasCalled self.old.machine.seat.number call pass.old.seat.me.0.seen pass.new.seat.me.0.seen }
        ensures told { said.IsToldLast (said.led (said.plane (said.opening_of D.seen)) (said.opening_of D.seen table.now.table.shared.key)
            pass.new.seat.me.0.seen) self.new.machine.seat.number (said.telling result self.new.machine.state.finished) }
    {
        let words = &table.table.shared;
        let seat = take_seat(words, &mut pass.seat);
        let (seat, told) = run_call(
            words,
            seat,
            &mut self.machine,
            self.desk,
            &mut self.aside,
            call,
        );
        pass.seat = seat;
        told
    }

    /// Runs an operation to its end, as `call` does: its hot part here, and what is left of it apart. It is inlined: a caller whose operation is always of one
    /// kind has none of the others' steps.
    #[inline(always)]
    pub fn op<D: Device>(&mut self, table: &Table<D>, pass: &mut Pass<D>, op: Op) -> Told
        requires ready { said.IsReady (said.opening_of D.seen) table.now.table.shared.key table.now.table.shared.table_id pass.old.seat.table_id
            pass.old.seat.me self.old.machine self.old.desk }
        ensures ready { said.IsReady (said.opening_of D.seen) table.now.table.shared.key table.now.table.shared.table_id pass.new.seat.table_id
            pass.new.seat.me self.new.machine self.new.desk }
        ensures number { self.new.machine.seat.number ≡ self.old.machine.seat.number }
        ensures called { said.HasCalled self.old.machine.seat.number (call.Op op) pass.old.seat.me.0.seen pass.new.seat.me.0.seen }
        ensures told { said.IsToldLast (said.led (said.plane (said.opening_of D.seen)) (said.opening_of D.seen table.now.table.shared.key)
            pass.new.seat.me.0.seen) self.new.machine.seat.number (said.telling result self.new.machine.state.finished) }
    {
        let words = &table.table.shared;
        let seat = take_seat(words, &mut pass.seat);
        let mut line = SeatLine::new(words, seat, &self.machine, self.desk, &mut self.aside);
        let went = self.machine.run_hot(&mut line, op);
        let Parts { seat, aside, kept } = line.into_parts();
        match went {
            Hot::Ended(told) => {
                pass.seat = seat;
                told
            }
            Hot::Left(due) => {
                aside.over.op = op;
                aside.over.due = due;
                pass.seat = run_due(words, seat, &mut self.machine, self.desk, aside, kept);
                aside.over.told
            }
            Hot::Stayed => {
                aside.over.op = op;
                pass.seat = run_cold(words, seat, &mut self.machine, self.desk, aside);
                aside.over.told
            }
        }
    }

    /// What the last poll has finished, in the order of acceptance.
    pub fn finished(&self) -> &[Finished]
        ensures value { result.now ≡ self.now.machine.state.finished }
        ensures fits { length result.now ≤ said.max_pending }
    {
        self.machine.finished()
    }

    /// The last serial that the session has given, by what its pass has seen, and 0 if it has given none. Behind an opening that is its point.
    pub fn serial<D: Device>(&self, _table: &Table<D>, _pass: &Pass<D>) -> Serial
        requires ready { said.IsReady (said.opening_of D.seen) _table.now.table.shared.key _table.now.table.shared.table_id _pass.now.seat.table_id
            _pass.now.seat.me self.now.machine self.now.desk }
        ensures given { said.IsLastGiven (said.opening_of D.seen) _table.now.table.shared.key _pass.now.seat.me.0.seen self.now.machine.seat.number result.0 }
        ensures within { result.0 ≤ said.last_serial }
    {
        self.machine.serial()
    }
}
