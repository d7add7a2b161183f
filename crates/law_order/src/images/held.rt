//! The triples that an image holds.
ghost use Rattle.law_order.specs.Images.Laws.Held as held;

use crate::images::read::law_images_read_back;

/// The area that the newest slot of an image names holds what a full commit of this life has written there. Or it holds what the store was opened with; then the
/// same triples are read back. Triples whose bytes stand in the area are read back, if each leads below the commit's end and is of a bucket of the index, and no
/// two are of one home. What is said of an image holds if the opened bytes reach far.
pub fn law_images_hold_triples()
    ensures held { held.ImagesHoldTheirTriples }
    ensures read { held.TriplesAreReadBack }
{
    law_images_read_back();
}
