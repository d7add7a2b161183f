//! Which commit an image names.
ghost use Rattle.law_order.specs.Images.Laws.Named.{ImagesNameABegun};

use law_commit::{law_begun, law_gates, law_world_one_commit_stands};
use law_opening::{law_guard_opens, law_long_opens, law_told_opens};

/// In each image that a crash may leave of a life, the newest slot is that of the newest finished commit. Or it is that of the one in hand, if the write that
/// opens its gate was called. Once the sync behind that has succeeded it is that one's alone. So no image is of a commit older than one whose points may have
/// been told. Its bytes are those that this life has written for it: its number, begin, end, points, checkpoint and lost ranges. The opening's commit
/// has its opened bytes. The triples of the commit's checkpoint stand as a full commit of this life wrote them, or as they were opened. They fit into their
/// area, and lie below the end of the image. It holds if the opened bytes reach far.
pub fn law_images_name_a_begun()
    ensures { ImagesNameABegun }
{
    law_guard_opens();
    law_told_opens();
    law_long_opens();
    law_begun();
    law_gates();
    law_world_one_commit_stands();
}
