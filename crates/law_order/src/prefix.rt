//! The law of prefixes: what follows of its parts. The law itself is `PrefixLaw`; `law_prefix` shows it.
ghost use Rattle.law_order.specs.Said as said;

use crate::in_turn::{law_phases_open, law_points_open};
use crate::law_images_read_back;
use crate::rules::{law_cuts_open, law_life_begins};
use law_commit::{
    law_begun, law_heads, law_kept, law_points_between, law_points_taken, law_told_are_sealed,
    law_told_never_falls, law_world_one_entry,
};
use law_opening::{
    law_guard_opens, law_lives_change_published, law_log_begins, law_log_beside, law_log_opened,
    law_long_opens,
};

/// In each life the commits that are finished are the opening's and those that the keeper has told as finished, in their order. Each has the number and the
/// points that were told.
pub fn law_finished_is_told()
    ensures { said.InEachLife said.TellsFinished }
{
    law_begun();
}

/// In each life each commit has the number behind that of the one before, from the opening's on.
pub fn law_commits_in_turn()
    ensures { said.InEachLife said.HasCommitsInTurn }
{
    law_life_begins();
    law_phases_open();
    law_begun();
}

/// In each life a commit's points are fair, from the moment at which they are taken. Each is no less than what its session had given as the commit was asked for,
/// no more than what the session has given by then, and no less than its point in the commit before. A commit that has begun has the points that were taken.
pub fn law_points_are_fair()
    ensures { said.InEachLife said.HasFairPoints }
{
    law_points_open();
    law_points_taken();
    law_points_between();
}

/// In each life what a session was told as durable is its point in a commit whose open gate is synced. It is no less than its point in each commit that was told
/// as finished before its call.
pub fn law_durable_is_sealed()
    ensures { said.InEachLife said.TellsDurable }
{
    law_points_open();
    law_cuts_open();
    law_told_are_sealed();
}

/// And no answer to a session tells less as durable than an earlier one.
pub fn law_durable_never_falls()
    ensures { said.InEachLife said.ToldNeverFalls }
{
    law_points_open();
    law_cuts_open();
    law_told_never_falls();
}

/// Each image that a crash may leave of a life reaches far, if the life began with one that does. So does the image with which each later life begins. And if each
/// image that is left holds a prefix of its life, lives follow one another. Each begins with the first store's map behind a replay of what was kept of all lives
/// before. That is legal with the replies that were given, and has each session's serials up to its point once.
pub fn law_lives()
    ensures reach { said.LivesReachFar }
    ensures follow { said.InEachLife said.RecoversPrefix → said.LivesFollow }
{
    law_images_read_back();
    law_long_opens();
}

/// The map of an image's store is the content of what its points keep, if two things hold. Its values are those that a log shows of versions up to a
/// commit's. Its points keep just what the log has of these. `law_paper` shows the one of each image with a commit in force, and the other of each commit's
/// points.
pub fn law_join()
    ensures { said.JoinsValuesAndPoints }
{
    law_log_opened();
}

/// So it is in each life in which the order law's rules are kept, with commits or without. Let a store have the values that the log beside the life shows of
/// versions up to a commit's, and let its points keep just the updates of these. Then its map is the life's first one, behind a replay of these updates. The
/// replay is legal with the replies that were given.
pub fn law_replays_kept()
    ensures pairs { said.OfEachCommit said.ReplaysKept }
    ensures legal { said.OfEachCommit said.KeepsLegally }
{
    law_guard_opens();
    law_log_begins();
    law_log_beside();
    law_kept();
    law_join();
}

/// In each life, with commits, crashes and failing calls of the device, each home of the log beside it has a slot of the live index, and no two homes of a bucket
/// have the same. For each chain begins where the entry of its home leads, and a home has one entry at most. So recovery's index has room, in each image of the
/// store's shape.
pub fn law_slots_open()
    ensures { said.HomesHaveSlots }
{
    law_life_begins();
    law_lives_change_published();
    law_world_one_entry();
    law_heads();
}
