//! What the commits of a life name.
ghost use Rattle.law_order.specs.Images.Laws.Fits as fits;

use crate::in_turn::law_ends_open;
use law_commit::{
    law_begun, law_commits_cut, law_gates, law_of_kept_slots, law_world_is_guarded,
    law_world_one_commit_stands,
};
use law_opening::{law_guard_opens, law_long_opens, law_told_opens};

/// Each commit that has begun in a life is newer than the opening's, and not of the last version. Its scan begins at a tail that a keeper has loaded in prepare,
/// for it or for an older checkpoint. Its log ends at a tail that was loaded later. So the first isn't above the second, nor that above the flushed offset.
/// Its log begins where that of the opened store does, or further on. That isn't above the first address of the scan, and in a specified store it is the first
/// record. If a commit uses the checkpoint with which the store was opened, it names all lost ranges of then, and its log begins where it did then. Else its
/// checkpoint is newer than the opening's commit, and it names none. So it is of each commit that an image names, but the opening's. It holds if the opened bytes
/// reach far.
pub fn law_commits_fit()
    ensures each { fits.CommitsFitTheirLife }
    ensures named { fits.ImagesNameAFit }
{
    law_of_kept_slots();
    law_guard_opens();
    law_told_opens();
    law_long_opens();
    law_begun();
    law_commits_cut();
    law_ends_open();
    law_gates();
    law_world_is_guarded();
    law_world_one_commit_stands();
}
