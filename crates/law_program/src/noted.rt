//! What a player notes.
ghost use Rattle.law_program.specs.Said as said;

use fkv_disk::Device;
use fkv_runs::Breaks;
use law_answers::law_effects_told;
use law_order::law_guard_opens;

/// If a player keeps the history, it notes each update as it takes effect, and once. It asks for a session's effect behind each move, and a move is made just where
/// the session's call is in hand. So what it has noted is the life's own history, behind what was kept of the lives before. Over honest devices that is so
/// behind each group of calls, interleaved or not, up to its end or to a crash, and behind each finish.
pub fn law_noted<D: Breaks>()
    ensures groups { ((device : D) → D.honest device) → said.GroupsAreNoted D.seen D.may_leave (said.EngineStep D.honest D.seen D.may_leave D.failed D.refuses D.expects D.broken) }
    ensures finishes { ((device : D) → D.honest device) → said.FinishesAreNoted D.seen D.may_leave (said.EngineStep D.honest D.seen D.may_leave D.failed D.refuses D.expects D.broken) }
    ensures queues { said.CallsMakeIdleQueues }
{
    law_effects_told();
    law_guard_opens();
}

/// A line by which a call of the device is to fail, or a crash to strike, leaves what is noted.
pub fn law_arming_noted<D: Device>()
    ensures { said.ArmsKeepNotes (said.IsArmed {D = D}) }
{}
