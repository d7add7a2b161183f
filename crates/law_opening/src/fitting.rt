//! That the numbers of a life's log fit in words.
ghost use Rattle.law_opening.specs.Changes.Laws.{LogStaysFitting};
ghost use Rattle.law_opening.specs.Changes.Lives.{LivesBeginFitting, LivesKeepFitting};

use crate::changing::law_lives_change_published;
use crate::lives::law_guard_opens;
use crate::log::law_log_counted;
use fkv_core::law_words_open;
use law_refine::{law_mail, law_world_flushed_is_synced};

/// In every such life whose calls are of numbers below 2^64 each record of the log keeps a key and a value below 2^64, commits and all, if the log began so. What a
/// session has loaded of a record shows the log. What it takes from its mailbox was read where a published record is flushed. What an operation makes of a
/// value fits if both do.
pub fn law_logs_fit()
    ensures { LogStaysFitting }
{
    law_mail();
    law_world_flushed_is_synced();
}

/// Each life of an opened store begins so. So in each of them whose calls are of such numbers, the records of its log are of such numbers too.
pub fn law_lives_fit()
    ensures begins { LivesBeginFitting }
    ensures fit { LivesKeepFitting }
{
    law_guard_opens();
    law_words_open();
    law_log_counted();
    law_lives_change_published();
    law_logs_fit();
}
