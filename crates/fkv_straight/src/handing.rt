//! How the machine takes a call over.
ghost use Rattle.std.specs.Prelude.{◌≡◌};
ghost use Rattle.fkv_session.specs.Alike.{StandAlike};
ghost use Rattle.fkv_session.specs.Sessions.{session_ask};
ghost use Rattle.fkv_straight.specs.Standing.{begins};

use crate::lines::Line;
use fkv_map::Call;
use fkv_plane::Ask;
use fkv_session::{Session, Told, law_of_standing};

/// Begins the call anew by the machine and tells it the replies that have come, with no step on a word: then it stands like the line. Gives
/// what it asks there.
#[inline(never)]
pub fn catch_up<L: Line>(line: &L, machine: &mut Session, call: Call) -> Ask<Told>
    requires seat { machine.old.seat ≡ L.seat line.now }
    requires led { (start : L) × L.led start call line.now
        × StandAlike (begins machine.old.seat machine.old.state call) (begins (L.seat start) (L.stands start) call) }
    ensures seat { machine.new.seat ≡ L.seat line.now }
    ensures alike { StandAlike machine.new.state (L.stands line.now) }
    ensures ask { result ≡ session_ask (L.seat line.now) (L.stands line.now) }
{
    law_of_standing();
    let mut ask = machine.begin(call);
    for reply in line.replies() {
        ask = machine.go_on(*reply);
    }
    ask
}
