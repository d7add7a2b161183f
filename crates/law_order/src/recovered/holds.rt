//! What each image holds that a crash may leave.
ghost use Rattle.law_order.specs.Said as said;

use crate::recovered::points::law_points_keep;
use crate::recovered::shows::{
    law_images_show_life, law_log_in_order, law_opened_log_stands, law_scans_start_above,
};
use crate::recovered::uses::{law_images_keep_checkpoint, law_images_use_checkpoints};
use crate::{law_cut_opens, law_images_keep_old, law_images_read_back, law_live, law_slots_open};
use law_commit::{law_kept_paper_is_sound, law_old_paper_is_sound, law_paper_is_sound};

/// An image that names a commit of its life holds that commit: no fault stands in it, and any store that it holds is of the commit, with the values that the
/// log shows of versions up to it. For the image shows the log, which the commit cuts, and has the checkpoint that the commit uses: one of this life, or the one
/// with which the store was opened. The log does without what lies below the image's begin. And each home of the log has a slot of the index.
pub fn law_named_hold()
    ensures { said.OfEachNamed said.HoldsItsCommit }
{
    law_log_in_order();
    law_images_show_life();
    law_scans_start_above();
    law_images_use_checkpoints();
    law_cut_opens();
    law_live();
    law_slots_open();
    law_paper_is_sound();
    law_old_paper_is_sound();
}

/// So each image that a crash may leave holds the commit that it names. It is one that has begun, with its number and its points. Or it is the opening's, and then
/// the image has what the store was opened with.
pub fn law_images_hold()
    ensures { said.OfEachLeft said.HoldsTheNamed }
{
    law_images_read_back();
    law_named_hold();
    law_points_keep();
    law_opened_log_stands();
    law_images_keep_checkpoint();
    law_images_keep_old();
    law_kept_paper_is_sound();
}
