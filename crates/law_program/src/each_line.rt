//! Each line of a script whose calls aren't interleaved, over a device that is honest.
ghost use Rattle.law_program.specs.Said as said;

use crate::whole_calls::law_whole_calls;
use fkv_core::law_unswept;
use fkv_runs::Breaks;
use law_order::{law_finished_is_told, law_order, law_waiting_reads};

/// Over honest devices, as those in memory are, a life goes on by each line of a call and by each finish. The keeper's lines are among them. Behind
/// each the life shows the world and the device. An operation is answered by the map of the history so far, an update that a poll has finished by the
/// map at its effect. A read that a poll has finished gives a value that its key has had since its call. While the keeper has swept nothing, it is
/// answered by the map at that call. In a life the keeper sweeps nothing up to the first trim. Seats keep the key of each ticket that was told, and
/// so that of each such read. A turn and a begun commit leave the map. By such a call just the commit finishes that it tells as finished, with its
/// number and its points. A call in which a crash strikes prints nothing of its own, and a finish in which one strikes has printed what its calls
/// before that have finished.
pub fn law_each_line<D: Breaks>()
    ensures { ((device : D) → D.honest device) → said.EachLineGoesOn D.seen D.may_leave (said.EngineStep D.honest D.seen D.may_leave D.failed D.refuses D.expects D.broken) }
{
    law_order();
    law_waiting_reads();
    law_unswept();
    law_finished_is_told();
    law_whole_calls();
}
