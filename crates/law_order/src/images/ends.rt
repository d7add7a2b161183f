//! Where commits end.
ghost use Rattle.law_order.specs.Images.Laws.Ends as ends;

use law_commit::law_world_is_guarded;
use law_opening::law_guard_opens;

/// In each life the writes of a commit begin once the log is flushed up to the commit's end, and the flushed offset never falls. So a commit that is being
/// written, or that comes to its finish, ends at or below that offset, and on the device.
pub fn law_commits_end_flushed()
    ensures flushed { ends.CommitsEndFlushed }
    ensures on_device { ends.CommitsEndOnDevice }
{
    law_guard_opens();
    law_world_is_guarded();
}
