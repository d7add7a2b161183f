//! A call of an operation, straight.
ghost use Rattle.std.specs.Prelude.{◌≡◌, ◌<◌, ◌+◌, IfSome, IfNone, false, is_some, length};
ghost use Rattle.fkv_base.specs.Limits.{last_serial, max_pending};
ghost use Rattle.fkv_map.specs.declared.operations.Call.TheVariants as call;
ghost use Rattle.fkv_plane.specs.declared.asks.Ask.TheVariants.{Done};
ghost use Rattle.fkv_ops.specs.declared.answers.Reason.TheVariants.{Contended};
ghost use Rattle.fkv_session.specs.declared.answers.Told.TheVariants.{Pending};
ghost use Rattle.fkv_session.specs.Alike.{lasting};
ghost use Rattle.fkv_session.specs.Sessions.{is_busy, session_ask, update_waiting};
ghost use Rattle.fkv_straight.specs.Course.{GoesBy};
ghost use Rattle.fkv_straight.specs.Met.{MayGo};
ghost use Rattle.fkv_straight.specs.Standing.{IsCaughtUp};
ghost use Rattle.fkv_straight.specs.declared.going.Going.{Going};

use crate::going::Going;
use crate::lines::Line;
use crate::outcomes::Outcome;
use crate::reading::read;
use crate::sharing::update_by_phase;
use fkv_base::MAX_PENDING;
use fkv_map::{Call, Op};
use fkv_ops::Reason;
use fkv_session::{Session, Told};

/// Adds the update to the machine's requests that wait. None where the list would be full then: a session with a full list makes no straight call. None
/// too where calls have bounds: the machine looks for room first.
#[inline(never)]
pub(crate) fn wait(machine: &mut Session, going: &Going, op: Op) -> Option<Told>
    requires left { machine.old.state.serial < last_serial }
    ensures waits { IfSome result (λ told. (told ≡ Pending (record { 0 = machine.old.state.serial + 1 }) Contended)
        × (length machine.old.state.requests + 1 < max_pending) × (machine.new ≡ record machine.old { state = update_waiting machine.old.state op })) }
    ensures unbounded { IfSome result (λ told. is_some going.now.bound ≡ false) }
    ensures full { IfNone result (machine.new ≡ machine.old) }
{
    let bounded = going.is_bounded();
    if bounded || machine.pending() >= MAX_PENDING - 1 {
        return None;
    }
    let serial = machine.take_pending(op);
    Some(Told::Pending(serial, Reason::Contended))
}

/// Makes the steps of a call, each the one that the machine's table asks for, up to its answer. None where it has met anything unusual: the
/// machine has to catch up with the line then.
#[inline(always)]
pub(crate) fn go_by<L: Line>(
    line: &mut L,
    machine: &mut Session,
    going: &Going,
    op: Op,
) -> Option<Told>
    requires idle { is_busy (L.stands line.old).step ≡ false }
    requires seat { machine.old.seat ≡ L.seat line.old }
    requires alike { lasting machine.old.state ≡ lasting (L.stands line.old) }
    requires may { MayGo machine.old.seat machine.old.state op going.now }
    requires rests { is_busy machine.old.state.step ≡ false }
    ensures seat { L.seat line.new ≡ L.seat line.old }
    ensures led { L.led line.old (call.Op op) line.new }
    ensures machine { machine.new.seat ≡ machine.old.seat }
    ensures goes_by { (its : Going) → GoesBy machine.old.seat machine.old.state its → GoesBy machine.new.seat machine.new.state its }
    ensures ended { IfSome result (λ told. (Done told ≡ session_ask (L.seat line.old) (L.stands line.new)) × IsCaughtUp machine.new.state (L.stands line.new)) }
    ensures stopped { IfNone result (machine.new ≡ machine.old) }
{
    match op {
        Op::Read(_) => read(line, machine, going, op),
        _ => {
            let straight = update_by_phase(line, going, op, Call::Op(op));
            match straight {
                Outcome::Done(reply) => {
                    let serial = machine.take_serial();
                    Some(Told::Done(serial, reply))
                }
                Outcome::Contended => wait(machine, going, op),
                Outcome::Unusual => None,
            }
        }
    }
}
