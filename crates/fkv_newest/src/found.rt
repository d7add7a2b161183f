//! The newest slot in the front of an image.
ghost use Rattle.std.specs.Prelude.{◌≡◌, ℕ, ◌<◌, List, Some, None, IfSome, IfNone, IfOk, IfErr};
ghost use Rattle.fkv_manifest.specs.Newest.{newer};
ghost use Rattle.fkv_newest.specs.Heads.{IsHeadOf};
ghost use Rattle.fkv_newest.specs.Newest.{IsNewestOf, slot_place};
ghost use Rattle.fkv_newest.specs.Refused.{IsFound};

use crate::heads::Head;
use crate::newest_slots::Newest;
use crate::suiting::suits;
use fkv_base::{Damage, Fault};
use fkv_record::{open_number, read_manifest_slot, read_shape};

/// Which of the two slots is the newest, by the numbers that they name where they are open.
fn newer(first: Option<u64>, second: Option<u64>) -> Option<u64>
    ensures open { IfSome result (λ index. newer first second ≡ Some (slot_place index)) }
    ensures small { IfSome result (λ index. index < 2) }
    ensures closed { IfNone result (newer first second ≡ None) }
{
    match (first, second) {
        (None, None) => None,
        (Some(_), None) => Some(0),
        (None, Some(_)) => Some(1),
        (Some(first), Some(second)) if second <= first => Some(0),
        (Some(_), Some(_)) => Some(1),
    }
}

/// The newest slot of the image with this head.
pub(crate) fn newest_in(head: &Head) -> Result<Newest, Fault>
    ensures ok { (image : List ℕ) → IsHeadOf image head.now → IfOk result (IsNewestOf image) }
    ensures err { (image : List ℕ) → IfErr result (IsFound (IsHeadOf image head.now) image) }
{
    let Some(shape) = read_shape(&head.block) else {
        return Err(Fault::NotAStore);
    };
    let open_numbers = (open_number(&head.slot_0), open_number(&head.slot_1));
    let Some(index) = newer(open_numbers.0, open_numbers.1) else {
        return Err(Fault::NotAStore);
    };
    let Some((format, slot)) = read_manifest_slot(head.slot(index)) else {
        return Err(Fault::Damaged(Damage::Manifest, index));
    };
    if !suits(shape, index, format, &slot) {
        return Err(Fault::Damaged(Damage::Manifest, index));
    }
    Ok(Newest {
        shape,
        index,
        format,
        slot,
        open_numbers,
    })
}
