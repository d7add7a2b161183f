//! A store is renewed, from bytes to bytes.
ghost use Rattle.std.specs.Prelude.{◌≡◌};
ghost use Rattle.fkv_face.specs.Renewals as says;

use crate::answers::refused;
use crate::sizes::{Sizes, damage_number, shape_of};
use crate::stores::put;
use fkv_base::{Fault, Shape};
use fkv_renewing::renewed_image;
use fkv_spread::Keys;
use std::alloc::Global;

/// What a renewal has told: how many bytes the new image has; or the part of the old one that is damaged, and its place.
#[repr(C)]
pub struct Renewal {
    pub length: u64,
    pub damage: u64,
    pub place: u64,
}

impl Renewal {
    /// Tells the damage, where there is one.
    fn damaged(&mut self, why: Fault)
        ensures { self.new ≡ says.damaged_by why self.old }
    {
        if let Fault::Damaged(part, place) = why {
            self.damage = damage_number(part);
            self.place = place;
        }
    }
}

/// How the old store's keys come to lie: 0 says as they lie, and any other number that each is spread now.
fn keys_laid(spread: u32) -> Keys
    ensures { result ≡ says.keys_laid spread }
{
    if spread == 0 {
        Keys::AsTheyAre
    } else {
        Keys::Spread
    }
}

/// Whether each size is 0.
fn all_zero(sizes: &Sizes) -> bool
    ensures { result ≡ says.all_zero sizes.now }
{
    let Sizes {
        bucket_bits,
        page,
        frames,
        mutable_pages,
        sessions,
        overflow,
        disk_pages,
    } = *sizes;
    bucket_bits == 0
        && page == 0
        && frames == 0
        && mutable_pages == 0
        && sessions == 0
        && overflow == 0
        && disk_pages == 0
}

/// The shape that is wanted: a living store's of these sizes, and none where each is 0. `BadShape`.
fn wanted_of(sizes: &Sizes) -> Result<Option<Shape>, Fault>
    ensures wanted { says.IfOk result (says.IsWanted sizes.now) }
    ensures refused { says.IfErr result (λ fault. (fault ≡ says.BadShape) × says.AreNone sizes.now) }
{
    if all_zero(sizes) {
        return Ok(None);
    }
    match shape_of(sizes) {
        Ok(shape) => Ok(Some(shape)),
        Err(why) => Err(why),
    }
}

/// Writes the image of a new store: the renewal of the one whose bytes these are, all of them synced. It has the old one's points, and just its
/// pairs, their keys as they lie or spread now. It is a living store of the sizes that are given; where each is 0 it has the old one's sizes and
/// class. It tells how many bytes the image has, also where the room is smaller: `ROOM_SMALL`, with nothing written.
///
/// `BadShape`, `NotAStore`, `Damaged` with the part and its place, `IndexFull`, `LogFull`, `NoSession`, `Memory`.
#[unsafe(no_mangle)]
pub extern "C" fn fkv_renew(
    alloc: Global,
    bytes: &[u8],
    sizes: &Sizes,
    spread: u32,
    renewal: &mut Renewal,
    into: &mut [u8],
) -> i32
    ensures { says.IsRenewing bytes.now sizes.now spread result renewal.old renewal.new into.old into.new }
{
    let wanted = match wanted_of(sizes) {
        Ok(wanted) => wanted,
        Err(why) => return refused(why),
    };
    match renewed_image(alloc, bytes, wanted, keys_laid(spread)) {
        Ok(image) => {
            renewal.length = image.len() as u64;
            put(&image, into)
        }
        Err(why) => {
            renewal.damaged(why);
            refused(why)
        }
    }
}
