//! What goes on with an operation's call at the table behind its hot part.
ghost use Rattle.std.specs.Prelude.{◌≡◌, ◌≤◌, length, take};
ghost use Rattle.fkv_map.specs.declared.operations.Call.TheVariants as call;
ghost use Rattle.fkv_table.specs.Said as said;

use crate::aside::Aside;
use crate::lines::SeatLine;
use crate::rule::{Place, Words};
use crate::sessions::{go_on, run_call};
use fkv_base::Key;
use fkv_disk::Device;
use fkv_map::{Call, Op};
use fkv_session::Told;
use fkv_straight::{Due, StraightSession};

/// What the hot part of a call hands over to what goes on with it, and what that was told. It has a place in the session's memory: a function clears
/// its locals at each call, those too that few calls come to.
#[derive(Clone, Copy)]
pub(crate) struct Handover {
    pub(crate) op: Op,
    pub(crate) due: Due,
    pub(crate) told: Told,
}

impl Handover {
    /// Before the first.
    pub(crate) fn none() -> Handover {
        Handover {
            op: Op::Read(Key(0)),
            due: Due::Unusual,
            told: Told::Slept,
        }
    }
}

/// Goes on with a call whose hot part has left this.
#[inline(never)]
pub(crate) fn run_due<D: Device>(
    words: &Words<D>,
    seat: Place<D>,
    machine: &mut StraightSession,
    desk: usize,
    aside: &mut Aside,
    kept: usize,
) -> Place<D>
    requires table { seat.table_id ≡ words.now.table_id }
    requires room { (kept ≤ 64) × (length aside.old.replies ≡ 64) }
    requires left { (first : said.Origin (said.Snapshot (said.WorldModel D))) × said.IsLeft (said.opening_of D.seen) words.now.key words.now.table_id
        machine.old desk aside.old.over.op aside.old.over.due first seat.me (take kept aside.old.replies) }
    ensures ready { said.IsReady (said.opening_of D.seen) words.now.key words.now.table_id result.table_id result.me machine.new desk }
    ensures number { machine.new.seat.number ≡ machine.old.seat.number }
    ensures called { (first : said.Origin (said.Snapshot (said.WorldModel D)))
        → said.IsLeft (said.opening_of D.seen) words.now.key words.now.table_id machine.old desk aside.old.over.op aside.old.over.due first seat.me (take kept
        aside.old.replies) → said.HasCalled machine.old.seat.number (call.Op aside.old.over.op) first.me.0.seen result.me.0.seen }
    ensures told { said.IsToldLast (said.led (said.plane (said.opening_of D.seen)) (said.opening_of D.seen words.now.key) result.me.0.seen)
        machine.new.seat.number (said.telling aside.new.over.told machine.new.state.finished) }
{
    let op = aside.over.op;
    let due = aside.over.due;
    let mut line = SeatLine::resume(words, seat, machine, desk, aside, kept);
    let ended = machine.run_due(&mut line, op, due);
    match ended {
        Some(told) => {
            let seat = line.into_seat();
            aside.over.told = told;
            seat
        }
        None => {
            let (seat, told) = go_on(words, line, machine, Call::Op(op));
            aside.over.told = told;
            seat
        }
    }
}

/// Runs a call that has no hot part.
#[inline(never)]
pub(crate) fn run_cold<D: Device>(
    words: &Words<D>,
    seat: Place<D>,
    machine: &mut StraightSession,
    desk: usize,
    aside: &mut Aside,
) -> Place<D>
    requires ready { said.IsReady (said.opening_of D.seen) words.now.key words.now.table_id seat.table_id seat.me machine.old desk }
    ensures ready { said.IsReady (said.opening_of D.seen) words.now.key words.now.table_id result.table_id result.me machine.new desk }
    ensures number { machine.new.seat.number ≡ machine.old.seat.number }
    ensures called { said.HasCalled machine.old.seat.number (call.Op aside.old.over.op) seat.me.0.seen result.me.0.seen }
    ensures told { said.IsToldLast (said.led (said.plane (said.opening_of D.seen)) (said.opening_of D.seen words.now.key) result.me.0.seen)
        machine.new.seat.number (said.telling aside.new.over.told machine.new.state.finished) }
{
    let call = Call::Op(aside.over.op);
    let (seat, told) = run_call(words, seat, machine, desk, aside, call);
    aside.over.told = told;
    seat
}
