//! Records in images.
ghost use Rattle.law_order.specs.Images.Laws.Records as records;

use fkv_record::law_spellings_apart;
use law_commit::{law_device_shows_log, law_stands_show_log};
use law_opening::{
    law_guard_opens, law_lives_change_published, law_lives_fit, law_log_begins, law_log_counted,
    law_log_opened,
};

/// In each image that a crash may leave of a life, commits and crashes anywhere, the records from its begin to below the flushed offset stand as the log beside
/// the life has them. A published one is valid, with its key, its value, its version and what it leads to. One that was given up has the invalid bit, its version and what
/// it leads to, which is below itself. So recovery passes over it, if its version is at most the one after the commit's. What the store was opened with stands
/// as it was, and says no later version than the log has. The calls of the life are of numbers below 2^64, as all that a program can make are. So the log's
/// numbers fit in words. It holds if the image's begin isn't below the opening's, and the opened bytes reach far.
pub fn law_images_show_log()
    ensures { records.ImagesShowTheLog }
{
    law_spellings_apart();
    law_guard_opens();
    law_log_begins();
    law_log_counted();
    law_log_opened();
    law_device_shows_log();
    law_lives_change_published();
    law_lives_fit();
    law_stands_show_log();
}

/// Below the opened end each such image has just the records of the opened bytes, also those that recovery left out: ones that were given up, lost or too new.
/// It holds if the opened bytes reach far.
pub fn law_images_keep_old()
    ensures { records.ImagesKeepTheOldRecords }
{
    law_spellings_apart();
    law_guard_opens();
    law_log_begins();
    law_device_shows_log();
    law_lives_change_published();
}
