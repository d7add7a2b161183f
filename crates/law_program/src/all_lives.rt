//! Runs over all their lives.
ghost use Rattle.law_program.specs.Said as said;

use crate::each_life::law_each_life;
use crate::interleaved::law_interleaved;
use crate::noted::law_noted;
use fkv_disk::Device;
use fkv_runs::Crashes;
use law_order::{
    law_lives, law_log_opened, law_long_opens, law_new_stores, law_of_the_past, law_prefix,
};

/// Over honest devices each crash of a run reports what its points keep of all lives before it. So it is whatever calls are interleaved, wherever the crash strikes, if
/// the pieces of the run begin few calls. The pairs are the map with which the first life began, behind a replay of the updates that are kept of all lives. The store
/// is what one current commit keeps of the last life, and the next life begins with it. No image is refused but by the device. If the
/// run has checks, each report ends in the line that says that the store equals the replay, since the player has noted all lives (`law_noted`).
pub fn law_all_lives<M: Crashes>()
    ensures { ((device : M) → M.honest device) → said.ArmsShown M.seen M.may_leave M.armed → said.ArmsKeepSeats M.armed → said.ArmsKeepNotes M.armed → (settings : said.Settings)
        → said.ReportsOverLives M.seen M.may_leave (said.medium_of M.honest M.seen M.may_leave M.failed M.refuses M.expects M.broken M.armed) settings }
{
    law_each_life::<M>();
    law_interleaved::<M>();
    law_noted::<M>();
    law_new_stores();
    law_log_opened();
    law_long_opens();
    law_prefix();
    law_lives();
    law_of_the_past();
}

/// A line by which a call of the device is to fail, or a crash to strike, leaves a life as it is, whatever calls are in hand.
pub fn law_arming_shown<D: Device>()
    ensures { said.ArmsShown (said.fuse_seen D.seen) (said.fuse_may_leave D.may_leave) said.IsArmed }
{}
