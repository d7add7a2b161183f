//! A poll, straight, in which one update alone waits.
ghost use Rattle.std.specs.Prelude.{◌≡◌, IfSome, IfNone, false};
ghost use Rattle.fkv_map.specs.declared.operations.Call.TheVariants as call;
ghost use Rattle.fkv_plane.specs.declared.asks.Ask.TheVariants.{Done};
ghost use Rattle.fkv_session.specs.Alike.{lasting};
ghost use Rattle.fkv_session.specs.Sessions.{is_busy, session_ask};
ghost use Rattle.fkv_straight.specs.Course.{GoesBy};
ghost use Rattle.fkv_straight.specs.Met.{MayPoll};
ghost use Rattle.fkv_straight.specs.Standing.{IsCaughtUp};
ghost use Rattle.fkv_straight.specs.declared.going.Going.{Going};

use crate::changing::update;
use crate::going::{Going, Lone};
use crate::lines::Line;
use crate::outcomes::Outcome;
use fkv_map::Call;
use fkv_session::{Session, Told};

/// Makes the steps of a poll, each the one that the machine's table asks for, up to its answer. None where it has met anything unusual: the
/// machine has to catch up with the line then.
#[inline(always)]
pub(crate) fn poll_by<L: Line>(
    line: &mut L,
    machine: &mut Session,
    going: &Going,
    its: Lone,
) -> Option<Told>
    requires idle { is_busy (L.stands line.old).step ≡ false }
    requires seat { machine.old.seat ≡ L.seat line.old }
    requires alike { lasting machine.old.state ≡ lasting (L.stands line.old) }
    requires may { MayPoll machine.old.seat machine.old.state its going.now }
    ensures seat { L.seat line.new ≡ L.seat line.old }
    ensures led { L.led line.old call.Poll line.new }
    ensures machine { machine.new.seat ≡ machine.old.seat }
    ensures goes_by { (its : Going) → GoesBy machine.old.seat machine.old.state its → GoesBy machine.new.seat machine.new.state its }
    ensures ended { IfSome result (λ told. (Done told ≡ session_ask (L.seat line.old) (L.stands line.new)) × IsCaughtUp machine.new.state (L.stands line.new)) }
    ensures stopped { IfNone result (machine.new ≡ machine.old) }
{
    let polling = going.in_poll();
    let straight = update(line, &polling, its.op, Call::Poll);
    match straight {
        Outcome::Done(reply) => {
            machine.take_polled(its.serial, reply);
            Some(Told::Polled(0))
        }
        Outcome::Contended => {
            machine.take_unpolled();
            Some(Told::Polled(1))
        }
        Outcome::Unusual => None,
    }
}
