//! The lives of a store that was opened.
ghost use Rattle.law_opening.specs.Changes.Lives.{LivesAreAbove, LivesBeginLinked, LivesChangePublished, LivesHaveFallingChains, LivesKeepOldRecords, LivesShowHeaders};

use crate::lives::{law_guard_opens, law_index_opens};
use crate::log::{law_log_above, law_log_begins, law_log_counted, law_log_heads, law_log_opened};
use crate::published::law_changes_published;

/// Each life of an opened store begins beside such a log. So in each of them, commits and all, what a session changes in place is published until then, and
/// addresses fall down each chain. The header of each record that is decided says what became of it, and what the store was opened with stays as it was.
pub fn law_lives_change_published()
    ensures begins { LivesBeginLinked }
    ensures published { LivesChangePublished }
    ensures falls { LivesHaveFallingChains }
    ensures headers { LivesShowHeaders }
    ensures old { LivesKeepOldRecords }
{
    law_guard_opens();
    law_index_opens();
    law_log_begins();
    law_log_counted();
    law_log_heads();
    law_log_opened();
    law_changes_published();
}

/// In each of them no record of the log lies below the begin that the store was opened with: none did then, and what is new lies above the opened tail.
pub fn law_lives_are_above()
    ensures { LivesAreAbove }
{
    law_log_above();
    law_lives_change_published();
}
