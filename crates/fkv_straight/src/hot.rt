//! The hot part of a call of an operation: what most calls come to. It calls no other function, so a caller has all of it in registers. What is left
//! of a call is done apart.
ghost use Rattle.std.specs.Prelude.{◌≡◌, ◌≤◌, IfSome, IfNone, IfOk, IfErr, false};
ghost use Rattle.fkv_map.specs.declared.operations.Call.{Call};
ghost use Rattle.fkv_map.specs.declared.operations.Call.TheVariants as call;
ghost use Rattle.fkv_plane.specs.declared.asks.Ask.TheVariants.{Done};
ghost use Rattle.fkv_ops.specs.Requests.{is_read};
ghost use Rattle.fkv_session.specs.Alike.{lasting};
ghost use Rattle.fkv_session.specs.Sessions.{is_busy, session_ask};
ghost use Rattle.fkv_straight.specs.Course.{Course, Goes, GoesBy};
ghost use Rattle.fkv_straight.specs.Hot.{HasLeft};
ghost use Rattle.fkv_straight.specs.Met.{HasMet, MayGo};
ghost use Rattle.fkv_straight.specs.Standing.{ComesTo, IsCaughtUp};
ghost use Rattle.fkv_straight.specs.declared.going.Going.{Going};
ghost use Rattle.fkv_straight.specs.declared.hot.Due.TheVariants.{Met as HasMetThis};

use crate::calls::wait;
use crate::changing::{change, update_met};
use crate::going::Going;
use crate::lines::Line;
use crate::outcomes::Outcome;
use crate::reading::{go_below, tell};
use crate::searching::{Met, search};
use fkv_map::{Call, Op};
use fkv_ops::DiskRecord;
use fkv_session::{Session, Told};

/// What the hot part of a call has left to do.
#[derive(Clone, Copy)]
pub enum Due {
    /// Its update has met this, and isn't one in place.
    Met(Met),
    /// Its read's chain leaves memory at this record.
    OnDisk(DiskRecord),
    /// Another session was quicker, so its update has to wait, if there is room for it then.
    Lost,
    /// It has met something unusual: the machine goes on.
    Unusual,
}

/// An update in place, of a session that isn't in prepare, whose search has met this.
#[inline(always)]
fn update_hot<L: Line>(
    line: &mut L,
    machine: &mut Session,
    going: &Going,
    op: Op,
    met: Met,
) -> Result<Told, Due>
    requires seat { machine.old.seat ≡ L.seat line.old }
    requires may { MayGo machine.old.seat machine.old.state op going.now }
    requires rests { is_busy machine.old.state.step ≡ false }
    requires calm { going.now.is_preparing ≡ false }
    requires left { HasLeft (L.seat line.old) machine.old.state op (HasMetThis met) (L.kept line.old) (L.stands line.old) }
    ensures seat { L.seat line.new ≡ L.seat line.old }
    ensures led { (start : L) (call : Call) → L.led start call line.old → L.led start call line.new }
    ensures machine { machine.new.seat ≡ machine.old.seat }
    ensures goes_by { (its : Going) → GoesBy machine.old.seat machine.old.state its → GoesBy machine.new.seat machine.new.state its }
    ensures ended { IfOk result (λ told. (Done told ≡ session_ask (L.seat line.old) (L.stands line.new)) × IsCaughtUp machine.new.state (L.stands line.new)) }
    ensures left { IfErr result (λ due. (machine.new ≡ machine.old)
        × HasLeft (L.seat line.old) machine.old.state op due (L.kept line.new) (L.stands line.new)) }
{
    let Met::Found(record) = met else {
        return Err(Due::Met(met));
    };
    if record.addr < going.read_only || record.mark != going.mark {
        return Err(Due::Met(met));
    }
    let changed = change(line, going, op, record);
    match changed {
        Some(reply) => {
            let serial = machine.take_serial();
            Ok(Told::Done(serial, reply))
        }
        None => Err(Due::Lost),
    }
}

/// Makes the first steps of a call, each the one that the machine's table asks for: a read up to its answer, an update to its end if that is one in place. The
/// session isn't in prepare.
#[inline(always)]
pub(crate) fn go_hot<L: Line>(
    line: &mut L,
    machine: &mut Session,
    going: &Going,
    op: Op,
) -> Result<Told, Due>
    requires idle { is_busy (L.stands line.old).step ≡ false }
    requires seat { machine.old.seat ≡ L.seat line.old }
    requires alike { lasting machine.old.state ≡ lasting (L.stands line.old) }
    requires may { MayGo machine.old.seat machine.old.state op going.now }
    requires rests { is_busy machine.old.state.step ≡ false }
    requires calm { going.now.is_preparing ≡ false }
    ensures seat { L.seat line.new ≡ L.seat line.old }
    ensures led { L.led line.old (call.Op op) line.new }
    ensures machine { machine.new.seat ≡ machine.old.seat }
    ensures goes_by { (its : Going) → GoesBy machine.old.seat machine.old.state its → GoesBy machine.new.seat machine.new.state its }
    ensures ended { IfOk result (λ told. (Done told ≡ session_ask (L.seat line.old) (L.stands line.new)) × IsCaughtUp machine.new.state (L.stands line.new)) }
    ensures left { IfErr result (λ due. (machine.new ≡ machine.old)
        × HasLeft (L.seat line.old) machine.old.state op due (L.kept line.new) (L.stands line.new)) }
{
    let met = search(line, going, op, Call::Op(op));
    let Some(its) = met else {
        return Err(Due::Unusual);
    };
    match op {
        Op::Read(_) => {
            let told = tell(line, going, op, its);
            match told {
                Ok(answer) => Ok(answer),
                Err(sought) => Err(Due::OnDisk(sought)),
            }
        }
        _ => update_hot(line, machine, going, op, its),
    }
}

/// Makes the steps that are left of a call, up to its answer. None where it meets anything unusual: the machine has to catch up with the line then.
#[inline(always)]
pub(crate) fn go_due<L: Line>(
    line: &mut L,
    machine: &mut Session,
    going: &Going,
    op: Op,
    due: Due,
) -> Option<Told>
    requires seat { machine.old.seat ≡ L.seat line.old }
    requires may { MayGo machine.old.seat machine.old.state op going.now }
    requires rests { is_busy machine.old.state.step ≡ false }
    requires left { HasLeft (L.seat line.old) machine.old.state op due (L.kept line.old) (L.stands line.old) }
    ensures seat { L.seat line.new ≡ L.seat line.old }
    ensures led { (start : L) (call : Call) → L.led start call line.old → L.led start call line.new }
    ensures machine { machine.new.seat ≡ machine.old.seat }
    ensures goes_by { (its : Going) → GoesBy machine.old.seat machine.old.state its → GoesBy machine.new.seat machine.new.state its }
    ensures ended { IfSome result (λ told. (Done told ≡ session_ask (L.seat line.old) (L.stands line.new)) × IsCaughtUp machine.new.state (L.stands line.new)) }
    ensures stopped { IfNone result (machine.new ≡ machine.old) }
{
    match due {
        Due::Met(met) => {
            let straight = update_met(line, going, op, met);
            match straight {
                Outcome::Done(reply) => {
                    let serial = machine.take_serial();
                    Some(Told::Done(serial, reply))
                }
                Outcome::Contended => wait(machine, going, op),
                Outcome::Unusual => None,
            }
        }
        Due::OnDisk(sought) => go_below(line, machine, going, op, sought),
        Due::Lost => wait(machine, going, op),
        Due::Unusual => None,
    }
}
