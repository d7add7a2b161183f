//! Sizes of a store, and what its image has told.
ghost use Rattle.std.specs.Prelude.{◌≡◌};
ghost use Rattle.fkv_base.specs.Limits.{is_shape};
ghost use Rattle.fkv_face.specs.Sizes as says;

use crate::points::tell_points;
use fkv_base::{Damage, Fault, Shape};
use fkv_handles::Recovered;

/// The seven sizes of a store.
#[repr(C)]
#[derive(Drop)]
pub struct Sizes {
    pub bucket_bits: u64,
    pub page: u64,
    pub frames: u64,
    pub mutable_pages: u64,
    pub sessions: u64,
    pub overflow: u64,
    pub disk_pages: u64,
}

/// What an image has told: the number of its last commit, and how many entries its index has; or the part of it that is damaged, and its place.
#[repr(C)]
pub struct Image {
    pub number: u64,
    pub damage: u64,
    pub place: u64,
    pub entries: u64,
}

pub(crate) fn damage_number(part: Damage) -> u64
    ensures { result ≡ says.damage_number part }
{
    match part {
        Damage::Manifest => 1,
        Damage::Triple => 2,
        Damage::Record => 3,
        Damage::Link => 4,
        Damage::Full => 5,
    }
}

impl Image {
    /// Tells the damage, where there is one.
    pub(crate) fn damaged(&mut self, why: Fault)
        ensures { self.new ≡ says.damaged_by why self.old }
    {
        if let Fault::Damaged(part, place) = why {
            self.damage = damage_number(part);
            self.place = place;
        }
    }
}

/// The shape of a living store of these sizes: the library makes no others. `BadShape`.
pub(crate) fn shape_of(sizes: &Sizes) -> Result<Shape, Fault>
    ensures living { says.IfOk result (says.IsLivingOf sizes.now) }
    ensures tested { says.is_ok result ≡ says.are_sizes sizes.now }
    ensures refused { says.OnErr result (result ≡ says.Err says.BadShape) }
{
    let Sizes {
        bucket_bits,
        page,
        frames,
        mutable_pages,
        sessions,
        overflow,
        disk_pages,
    } = *sizes;
    Shape::large(
        bucket_bits,
        page,
        frames,
        mutable_pages,
        sessions,
        overflow,
        disk_pages,
    )
}

/// Tells what the image has told. A store of either class may have told it.
pub(crate) fn tell(recovered: &Recovered, sizes: &mut Sizes, image: &mut Image, points: &mut [u64])
    ensures sizes { says.HasSizes sizes.new recovered.now.shape }
    ensures image { image.new ≡ says.told_of recovered.now image.old }
    ensures points { says.ArePoints recovered.now.points.items points.old points.new }
{
    let shape = recovered.shape;
    *sizes = Sizes {
        bucket_bits: shape.bucket_bits,
        page: shape.page,
        frames: shape.frames,
        mutable_pages: shape.mutable,
        sessions: shape.sessions,
        overflow: shape.overflow,
        disk_pages: shape.disk_pages,
    };
    image.number = recovered.number.0;
    image.entries = recovered.entries;
    tell_points(&recovered.points, points);
}
