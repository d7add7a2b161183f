//! What an image that names a commit of its life shows of the log beside the life.
ghost use Rattle.law_order.specs.Said as said;

use crate::{
    law_commits_lose_the_rest, law_cut_opens, law_ends_open, law_images_show_log, law_life_begins,
    law_lives_keep_rules, law_old_opens, law_versions_open,
};
use law_commit::{law_commits_cut, law_commits_ended};
use law_opening::{law_lives_change_published, law_log_counted};

/// In each life the log beside it is in order. Its chains have just the published records of their homes, versions never rise down a chain, and nothing stands
/// at address 0.
pub fn law_log_in_order()
    ensures { said.OfEachLeft said.HasOrderlyLog }
{
    law_life_begins();
    law_lives_keep_rules();
}

/// So in each life the log stands as the commit asks with which the store was opened. Below the opened end it has what counted then, with its keys and values,
/// of that commit's version. What is published from there on is of later versions.
pub fn law_opened_log_stands()
    ensures { said.OfEachLeft said.StandsOpened }
{
    law_life_begins();
    law_log_counted();
    law_lives_change_published();
    law_old_opens();
    law_log_in_order();
}

/// Each image that names a commit of its life shows the log from the commit's begin up to its end, which lies at or below the flushed offset. Each published
/// record there stands in it, those that the store was opened with too. From the opened tail on all is decided. What was given up there stands with its invalid bit, and is of the version after the
/// commit's at most. None of these records is lost.
pub fn law_images_show_life()
    ensures { said.OfEachNamed said.ShowsItsLog }
{
    law_life_begins();
    law_ends_open();
    law_versions_open();
    law_images_show_log();
    law_cut_opens();
    law_commits_cut();
    law_commits_lose_the_rest();
}

/// If a commit uses a checkpoint that is newer than the opening's commit, the scan begins at or above the opened tail. For a full commit of this life has made it,
/// and its first address was the tail as it began.
pub fn law_scans_start_above()
    ensures { said.OfEachNamed said.StartsAbove }
{
    law_life_begins();
    law_ends_open();
    law_commits_ended();
}
