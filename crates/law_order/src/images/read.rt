//! The newest slot of an image, read back.
ghost use Rattle.law_order.specs.Images.Laws.Read as read;

use crate::images::fits::law_commits_fit;
use crate::images::lengths::law_images_are_long;
use crate::images::opened::{law_images_keep_their_shape, law_images_name_their_commit};
use fkv_record::law_spellings_apart;
use law_commit::law_world_is_guarded;
use law_opening::{law_guard_opens, law_long_opens, law_told_opens};

/// So the newest slot of each image that a crash may leave of a life is read back, in the store's shape. It says the number, begin, end, points, checkpoint and lost
/// ranges of the commit for which this life has written it, or it is as it was opened. The image ends behind the slots, the triples of the checkpoint, and the
/// commit's last record, if the opened bytes reach far. So the next life too begins with an image that reaches far.
pub fn law_images_read_back()
    ensures slot { read.ImagesReadBack }
    ensures far { read.ImagesReachFar }
{
    law_spellings_apart();
    law_guard_opens();
    law_told_opens();
    law_long_opens();
    law_world_is_guarded();
    law_images_keep_their_shape();
    law_images_name_their_commit();
    law_images_are_long();
    law_commits_fit();
}
