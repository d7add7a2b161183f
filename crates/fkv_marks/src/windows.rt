//! The window of a checkpoint: the versions that the records behind it may have.
ghost use Rattle.std.specs.Prelude.{◌≡◌, ◌<◌, ◌^◌, ◌↔◌, true};
ghost use Rattle.fkv_marks.specs.Window.{version_in, oldest, InWindow};

use crate::marking::MARKS;
use fkv_base::{StoreClass, Version};

/// Which version recovery reads a mark as, behind a commit of this number: the newest that has it, up to the next commit's. A mark that none of them has is read
/// as itself, which lies above them.
#[inline]
#[tactic(auto, unfolding(crate::specs::Window::version_in))]
pub fn version_in(number: u64, mark: Version) -> Version
    requires few { number < 2 ^ 63 }
    requires mark { mark.0 < 2 ^ 13 }
    ensures { result.0 ≡ version_in number mark.0 }
{
    if number + 1 < mark.0 + MARKS {
        mark
    } else {
        Version(mark.0 + MARKS * ((number + 1 - mark.0) / MARKS))
    }
}

/// The oldest version that a record of the scan may have, by the number of the commit that made the checkpoint.
#[inline]
pub fn oldest(class: StoreClass, checkpoint: u64) -> u64
    ensures { result ≡ oldest class checkpoint }
{
    match class {
        StoreClass::Specified => 1,
        StoreClass::Living => checkpoint.max(1),
    }
}

/// Whether no two versions of the window have one mark.
pub fn is_in_window(class: StoreClass, checkpoint: u64, number: u64) -> bool
    requires few { checkpoint < 2 ^ 63 }
    ensures { (result ≡ true) ↔ InWindow class checkpoint number }
{
    number < oldest(class, checkpoint) + MARKS - 1
}
