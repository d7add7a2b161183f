//! What full commits write.
ghost use Rattle.law_order.specs.Images.Laws.Copied as copied;

use law_commit::{law_begun, law_copied, law_copies_cover, law_world_copied};
use law_opening::{law_guard_opens, law_index_opens, law_long_opens, law_told_opens};

/// Each full commit that has begun in a life, finished or not, has written the triples of a copy of the index. The keeper had finished that copy at a moment
/// of the life, as it waited with the commit in hand, before its writes. What `law_world_copied` and `law_copies_cover` say of that moment is said of these.
/// So its bytes are those of triples, each of a bucket of the index, and no two of them of one home. It holds if the opened bytes reach far.
pub fn law_commits_write_their_copy()
    ensures copied { copied.CommitsWriteTheirCopy }
    ensures spelled { copied.CommitsSpellTriples }
{
    law_copied();
    law_guard_opens();
    law_told_opens();
    law_long_opens();
    law_index_opens();
    law_begun();
    law_world_copied();
    law_copies_cover();
}
