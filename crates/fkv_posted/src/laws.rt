//! What outcomes that were told make of a medium.
ghost use Rattle.fkv_disk.specs.Device.{IsAfter};
ghost use Rattle.fkv_posted.specs.Outcomes.{calls_in};
ghost use Rattle.fkv_posted.specs.Shows.{posted_opened, posted_outcomes};

use crate::posted::Posted;
use fkv_disk::Device;

/// A posted medium is a device of the calls that it was told of, from the bytes on with which it was opened: it reads as these calls make
/// it, and may leave what they may leave.
pub fn law_of_outcomes<'a>(p: &Posted<'a>)
    ensures { IsAfter (posted_opened p.now) (calls_in (posted_outcomes p.now)) (⟦<Posted<'a> as Device>⟧.seen p.now) (⟦<Posted<'a> as Device>⟧.may_leave p.now) }
{
    let _ = p;
}
