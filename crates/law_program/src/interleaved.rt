//! Calls of several actors, interleaved.
ghost use Rattle.law_program.specs.Said as said;

use fkv_runs::Breaks;

/// Over honest devices a life goes on by each group of calls, interleaved as picks have it. It does so up to the end of the group, or to a crash that strikes in
/// it; and so it does by each finish. Behind it the life shows the world and the device, as it does where no call is in hand. The numbers of the calls are below
/// 2^64. Each call begins once, and no more begin than those of the group or of the rounds. Nothing is said here of what the calls print.
pub fn law_interleaved<D: Breaks>()
    ensures groups { ((device : D) → D.honest device) → said.GroupsGoOn D.seen D.may_leave (said.EngineStep D.honest D.seen D.may_leave D.failed D.refuses D.expects D.broken) }
    ensures finishes { ((device : D) → D.honest device) → said.FinishesGoOn D.seen D.may_leave (said.EngineStep D.honest D.seen D.may_leave D.failed D.refuses D.expects D.broken) }
    ensures quiet { said.QuietLivesAreShown D.seen D.may_leave }
    ensures queues { said.FittingCallsMakeQueues }
{}
