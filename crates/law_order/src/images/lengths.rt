//! How far images reach.
ghost use Rattle.law_order.specs.Images.Laws.Lengths as lengths;

use fkv_record::law_spellings_apart;
use law_commit::{law_records_published, law_world_flushed, law_world_flushed_is_synced};
use law_opening::{law_guard_opens, law_lives_change_published, law_log_begins};

/// In each life no image that a crash may leave is shorter than the opened bytes. And each ends at or above the end of each record that was flushed in the
/// life. So one whose newest slot names an end up to the flushed offset has all records below that end, if the opened bytes have theirs.
pub fn law_images_are_long()
    ensures opened { lengths.ImagesReachTheOpened }
    ensures flushed { lengths.ImagesReachTheFlushed }
    ensures records { lengths.ImagesReachEachEnd }
{
    law_spellings_apart();
    law_guard_opens();
    law_log_begins();
    law_records_published();
    law_lives_change_published();
    law_world_flushed();
    law_world_flushed_is_synced();
}
