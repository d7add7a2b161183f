//! The order law of the engine, in every life.
ghost use Rattle.law_order.specs.Said as said;

use crate::fits::law_opening_fits;
use crate::in_turn::{law_ends_open, law_versions_open};
use crate::ordered::{law_reads_met, law_world_ordered};
use crate::rules::{law_life_begins, law_order_of_rules};
use crate::versions::law_lives_bound_versions;
use law_commit::{
    law_begun, law_commits_cut, law_commits_ended, law_floor_stands, law_latched_in_tries,
    law_phases_are_seen, law_shares_not_missed, law_versions_bounded, law_versions_counted,
    law_versions_end, law_views_see_tails,
};
use law_log::law_live_stays;
use law_opening::{law_latches_open, law_lives_are_above};

/// What the induction is given of each life: of phases, of latches, of how versions and commits end, and that what its log once did without it does without from
/// then on.
fn law_given()
    ensures { said.Given }
{
    law_phases_are_seen();
    law_floor_stands();
    law_versions_end();
    law_shares_not_missed();
    law_versions_counted();
    law_latched_in_tries();
    law_views_see_tails();
    law_begun();
    law_commits_ended();
    law_commits_cut();
    law_live_stays();
    law_versions_bounded();
}

/// Each life keeps order, with no further premise: it begins so, and what the induction is given of phases, latches and versions holds of each life. So each
/// event of the log beside it is enabled, and what a session is about to change in place is published. And no attempt ends as a shift and isn't made again.
pub fn law_lives_keep_order()
    ensures { said.InEachLife said.KeepsItsOrder }
{
    law_life_begins();
    law_opening_fits();
    law_world_ordered();
    law_ends_open();
    law_versions_open();
    law_latches_open();
    law_given();
}

/// In each life each read that waits seeks a record of the device, or it was told that its record is gone. So it is of all but the one that is polled just then. A
/// poll tries a read again only where it was told so. While the log begins where it did at first none is.
pub fn law_lives_seek()
    ensures { said.InEachLife said.SeeksItsReads }
{
    law_life_begins();
    law_opening_fits();
    law_reads_met();
    law_ends_open();
    law_versions_open();
    law_latches_open();
    law_given();
}

/// So each life keeps to the rules of that log. What `law_log` says of logs holds beside each life.
pub fn law_lives_keep_rules()
    ensures { said.InEachLife said.KeepsRules }
{
    law_lives_keep_order();
}

/// In each life each key's newest record lies at or above the begin that the store was opened with, or the key reads as absent. So it is in the versions up to
/// each one. So what lies below that begin may be forgotten. What is so of any other address stays so. If the log does without the records below it at a moment
/// at which they are fixed, it does so from then on. For new records lie at the tail. So it is of the versions up to each one by themselves. And from then on it
/// does without them in the versions up to the phase word's of that moment, and up to each later one. So who moves the begin has to show it once. A sweep does:
/// so the log does without what lies below the begin of each commit, in the versions up to the commit's.
pub fn law_live()
    ensures opened { said.InEachLife said.IsLive }
    ensures stays { said.InEachLife said.StaysLive }
    ensures commits { said.InEachLife said.CommitsAreLive }
{
    law_life_begins();
    law_lives_keep_rules();
    law_lives_bound_versions();
    law_lives_are_above();
    law_live_stays();
    law_ends_open();
    law_commits_ended();
    law_lives_keep_order();
}

/// And that log has the history of the life, each effect in its version. For a record that is published has the version of its update's request, and so has one
/// that is changed in place.
pub fn law_history_beside()
    ensures { said.InEachLife said.HasItsHistory }
{
    law_life_begins();
    law_lives_keep_order();
}

/// In each life what has taken effect so far is one history, legal from the store's map on, with the replies given. Sessions turn pages, sleep,
/// wake, stall in the middle of calls, meet the disk and fill overflow buckets. Calls of the device fail, any actor moves at any step, and a crash comes
/// anywhere. The history orders the calls. Each update whose result was given took effect once, with that reply, and none took effect but those that were
/// called. One whose result was given before another was called took effect before it. Each read is answered by its key's value at some moment between its
/// call and its answer. No step asks to write a flushed record or a frame that an epoch protects. The calls are of numbers below 2^64, and fewer than 2^64 - 1 calls
/// of sessions begin. With commits or without, each action is run once at most. Each protected session then goes by what it loaded since the action's epoch
/// was raised.
pub fn law_order()
    ensures legal { said.InEachLife said.HasLegalHistory }
    ensures ordered { said.InEachLife said.OrdersItsCalls }
    ensures fresh { said.InEachLife said.ReadsFreshly }
    ensures in_time { said.InEachLife said.ReadsInTime }
    ensures guarded { said.InEachLife said.IsGuarded }
    ensures once { said.InEachLife said.RunsActionsOnce }
{
    law_order_of_rules();
    law_lives_keep_order();
}

/// In each life a read that waits has the value by then that its answer tells: that of its key at some moment between its call and any later one at which its
/// session rests with it. What it seeks lies below the head, where no value changes, and no step searches for it again. So it is while its session is told of no
/// record that is gone. A read that is told so finds its entry again.
pub fn law_untold_reads()
    ensures { said.InEachLife said.UntoldReadsInTime }
{
    law_life_begins();
    law_lives_keep_order();
    law_lives_seek();
    law_history_beside();
}

/// So it is of each read that waits while the log begins where it did at first, for none is told so.
pub fn law_waiting_reads()
    ensures { said.InEachLife said.WaitingReadsInTime }
{
    law_life_begins();
    law_untold_reads();
}
