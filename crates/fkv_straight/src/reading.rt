//! A read, straight.
ghost use Rattle.std.specs.Prelude.{◌≡◌, ◌≤◌, Option, IfSome, IfNone, IfOk, IfErr, true, false};
ghost use Rattle.fkv_map.specs.declared.operations.Call.TheVariants as call;
ghost use Rattle.fkv_map.specs.declared.operations.Call.{Call};
ghost use Rattle.fkv_ops.specs.declared.bounds.Bounds.{Bounds};
ghost use Rattle.fkv_ops.specs.declared.requests.Occasion.TheVariants as occasion;
ghost use Rattle.fkv_ops.specs.Requests.{is_read};
ghost use Rattle.fkv_plane.specs.declared.asks.Ask.TheVariants.{Done};
ghost use Rattle.fkv_session.specs.Alike.{lasting};
ghost use Rattle.fkv_session.specs.Sessions.{SessionState, is_busy, session_ask};
ghost use Rattle.fkv_straight.specs.Course.{Course, course_of, Goes, GoesBy};
ghost use Rattle.fkv_straight.specs.Mailbox.{IsAway};
ghost use Rattle.fkv_straight.specs.Met.{HasMet, MayGo};
ghost use Rattle.fkv_straight.specs.Standing.{IsCaughtUp, IsEnded};
ghost use Rattle.fkv_straight.specs.declared.going.Going.{Going};

use crate::going::Going;
use crate::lines::Line;
use crate::mailbox::ask_for;
use crate::searching::{Met, search};
use fkv_base::{Addr, Value};
use fkv_map::{Call, Op};
use fkv_ops::DiskRecord;
use fkv_session::{Session, Told};

/// What a read is told whose search has met this; or, if the chain leaves memory, where.
#[inline(always)]
pub(crate) fn tell<L: Line>(
    line: &mut L,
    going: &Going,
    op: Op,
    met: Met,
) -> Result<Told, DiskRecord>
    requires at { (c : Course) × Goes c (L.seat line.old) op going.now × HasMet c met (L.stands line.old) }
    requires room { L.kept line.old ≤ 48 }
    requires reads { is_read op ≡ true }
    ensures seat { L.seat line.new ≡ L.seat line.old }
    ensures led { (start : L) (call : Call) → L.led start call line.old → L.led start call line.new }
    ensures ended { (c : Course) → Goes c (L.seat line.old) op going.now → (bounds : Option Bounds) → c.occasion ≡ occasion.Call bounds
        → HasMet c met (L.stands line.old) → IfOk result (λ its. IsEnded c.lasts its (L.stands line.new)) }
    ensures left { (c : Course) → HasMet c met (L.stands line.old) → IfErr result (λ sought. IsAway c sought (L.stands line.new)) }
    ensures kept { IfErr result (λ sought. L.kept line.new ≤ 48) }
{
    match met {
        Met::Found(record) => {
            let place = record.at + 2;
            let value = line.load_past(place);
            if value == Value::ABSENT {
                Ok(Told::Absent)
            } else {
                Ok(Told::Found(Value(value)))
            }
        }
        Met::Nowhere(_) => Ok(Told::Absent),
        Met::OnDisk(slot, addr) => {
            Err(DiskRecord {
                entry: slot.entry,
                addr: Addr(addr),
            })
        }
    }
}

/// What a read is told whose chain leaves memory at this record. Below the session's floor it has ended; else the read asks for the record. None if it may not
/// wait: the machine has to catch up with the line then.
#[inline(always)]
pub(crate) fn go_below<L: Line>(
    line: &mut L,
    machine: &mut Session,
    going: &Going,
    op: Op,
    sought: DiskRecord,
) -> Option<Told>
    requires seat { machine.old.seat ≡ L.seat line.old }
    requires may { MayGo machine.old.seat machine.old.state op going.now }
    requires at { (s : SessionState) × (lasting machine.old.state ≡ lasting s)
        × IsAway (course_of (L.seat line.old) s op (call.Op op)) sought (L.stands line.old) }
    requires room { L.kept line.old ≤ 48 }
    requires reads { is_read op ≡ true }
    ensures seat { L.seat line.new ≡ L.seat line.old }
    ensures led { (start : L) (call : Call) → L.led start call line.old → L.led start call line.new }
    ensures machine { machine.new.seat ≡ machine.old.seat }
    ensures goes_by { (its : Going) → GoesBy machine.old.seat machine.old.state its → GoesBy machine.new.seat machine.new.state its }
    ensures ended { IfSome result (λ told. (Done told ≡ session_ask (L.seat line.old) (L.stands line.new)) × IsCaughtUp machine.new.state (L.stands line.new)) }
    ensures stopped { IfNone result (machine.new ≡ machine.old) }
{
    if sought.addr.0 < going.floor {
        return Some(Told::Absent);
    }
    ask_for(line, machine, op, sought)
}

/// Makes the steps of a read, each the one that the machine's table asks for, up to its answer. None if it has met anything unusual: the machine has to
/// catch up with the line then.
#[inline(always)]
pub(crate) fn read<L: Line>(
    line: &mut L,
    machine: &mut Session,
    going: &Going,
    op: Op,
) -> Option<Told>
    requires idle { is_busy (L.stands line.old).step ≡ false }
    requires seat { machine.old.seat ≡ L.seat line.old }
    requires alike { lasting machine.old.state ≡ lasting (L.stands line.old) }
    requires may { MayGo machine.old.seat machine.old.state op going.now }
    requires reads { is_read op ≡ true }
    ensures seat { L.seat line.new ≡ L.seat line.old }
    ensures led { L.led line.old (call.Op op) line.new }
    ensures machine { machine.new.seat ≡ machine.old.seat }
    ensures goes_by { (its : Going) → GoesBy machine.old.seat machine.old.state its → GoesBy machine.new.seat machine.new.state its }
    ensures ended { IfSome result (λ told. (Done told ≡ session_ask (L.seat line.old) (L.stands line.new)) × IsCaughtUp machine.new.state (L.stands line.new)) }
    ensures stopped { IfNone result (machine.new ≡ machine.old) }
{
    let met = search(line, going, op, Call::Op(op));
    let Some(its) = met else {
        return None;
    };
    let told = tell(line, going, op, its);
    match told {
        Ok(answer) => Some(answer),
        Err(sought) => go_below(line, machine, going, op, sought),
    }
}
