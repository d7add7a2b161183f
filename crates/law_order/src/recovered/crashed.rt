//! A worked crash.
ghost use Rattle.law_order.specs.Recovered.Crashed.{CrashGoesOn, CrashKeepsFirst};

use crate::recovered::prefix::law_prefix;
use crate::{law_life_begins, law_life_exists};
use fkv_disk::law_torn;
use law_commit::law_begun;
use law_opening::law_long_opens;

/// A life meets each premise of the law in which two updates take effect, and a commit finishes that keeps the first of them. A crash ends the life as the next
/// commit has begun. Each image that the crash may leave holds the first commit, and its store has the first update and not the second.
pub fn law_crash_keeps_first()
    ensures { CrashKeepsFirst }
{
    law_torn();
    law_begun();
    law_long_opens();
    law_life_begins();
    law_life_exists();
    law_prefix();
}

/// A life follows that one: it begins with an image that the crash left. It opens as the first commit, with all that this kept, and goes on by any events. So two
/// lives that follow one another exist, and what the law of prefixes says of such lives isn't vacuous.
pub fn law_life_after_crash()
    ensures { CrashGoesOn }
{
    law_long_opens();
    law_life_exists();
    law_crash_keeps_first();
    law_prefix();
}
