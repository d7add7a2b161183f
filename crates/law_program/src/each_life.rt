//! The lives of a store in memory.
ghost use Rattle.law_program.specs.Said as said;

use crate::each_line::law_each_line;
use crate::interleaved::law_interleaved;
use fkv_disk::Device;
use fkv_runs::Crashes;
use law_order::law_log_opened;

/// Over an honest device of which a crash leaves just a store's image a life of that store begins, which shows the world and the device. So it is behind each
/// crash: the report is of a store that the image of the crash holds, and its pairs are the map with which the next life begins. So `law_each_line` speaks of the
/// lines of each life.
pub fn law_each_life<M: Crashes>()
    ensures { said.LivesGoOn M.seen M.may_leave (said.Holds M.honest M.seen M.may_leave M.refuses) }
{
    law_log_opened();
}

/// And a line by which a call of the device is to fail, or a crash to strike, leaves the life as it is. Turns sweep as before.
pub fn law_arming<D: Device>()
    ensures { said.ArmingGoesOn D.seen D.may_leave }
{}

/// If the pieces of a run begin few calls, they go on, each in the life in hand or behind a crash in the next one. Calls aren't interleaved, each device is
/// honest, and a line that fails or crashes a device leaves each life, and the seats. A piece prints what `law_each_line` says, or a report follows of the store with
/// which the next life begins. The image of a crash is one that may be left of the life before. So it is of a crash that still is to come behind the last piece.
pub fn law_lives_joined<M: Crashes>()
    ensures { ((device : M) → M.honest device) → said.ArmsInLife M.seen M.may_leave M.armed → said.ArmsKeepSeats M.armed → (settings : said.Settings)
        → said.RunsGoOn M.seen M.may_leave (said.medium_of M.honest M.seen M.may_leave M.failed M.refuses M.expects M.broken M.armed) settings }
{
    law_each_line::<M>();
    law_each_life::<M>();
    law_interleaved::<M>();
}
