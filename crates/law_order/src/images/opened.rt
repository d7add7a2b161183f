//! The shape of an image, and the commit that its newest slot names.
ghost use Rattle.law_order.specs.Images.Laws.Opened as opened;

use fkv_record::law_spellings_apart;
use law_opening::law_guard_opens;

/// In each life the keeper writes nothing below the slots. So each image that a crash may leave begins with the block of the store's shape, if the opened bytes
/// reach far.
pub fn law_images_keep_their_shape()
    ensures { opened.ImagesKeepTheirShape }
{
    law_spellings_apart();
    law_guard_opens();
}

/// So each such image whose newest slot has the bytes of a commit's, as the keeper writes them, is read back as that commit, if a store of its shape can have
/// such a slot. That the slot is the newest, and its bytes: `law_opened_commit_stands`; what it says: `law_of_slots`.
pub fn law_images_name_their_commit()
    ensures { opened.ImagesNameTheirCommit }
{
    law_images_keep_their_shape();
}
