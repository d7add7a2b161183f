//! What crashes report.
ghost use Rattle.law_program.specs.Said as said;

use crate::each_life::law_each_life;
use fkv_runs::Crashes;
use law_order::{law_images_recovered, law_log_opened, law_of_the_past};

/// Take a crash of a run, in a life that began with an image which reaches far. Whatever calls are in hand, its report is of the store that one current commit
/// keeps of the life. The pairs are the map with which the life began, behind a replay of just the updates up to each session's point. The next life begins with
/// that store, and with an image that reaches far. No image of a crash is refused for what stands in it: a refusal says that the device has failed.
pub fn law_crash_reports<M: Crashes>()
    ensures { said.CrashesTakeWhatIsKept M.seen (said.medium_of M.honest M.seen M.may_leave M.failed M.refuses M.expects M.broken M.armed) }
{
    law_each_life::<M>();
    law_log_opened();
    law_images_recovered();
    law_of_the_past();
}
