//! How large a store is.
ghost use Rattle.std.specs.Prelude.{◌≡◌, ◌↔◌, ℕ, ◌+◌, ◌≤◌, IsOk, is_ok, IfOk, OnErr, Err, ◌&&◌};
ghost use Rattle.fkv_base.specs.Limits.{IsShape, IsSmall, IsOfClass, is_specified, is_ring_size, is_shape, is_small, margin_buckets, margin_records, overflow_within};
ghost use Rattle.fkv_base.specs.declared.classes.StoreClass.TheVariants.{Specified, Living};
ghost use Rattle.fkv_base.specs.declared.faults.Fault.TheVariants.{BadShape};

use crate::classes::StoreClass;
use crate::faults::Fault;
use crate::limits::{
    MAX_BUCKET_BITS, MAX_DISK_PAGES, MAX_FRAMES, MAX_IN_HAND, MAX_OVERFLOW, MAX_PAGE, MAX_SESSIONS,
    MIN_FRAMES, MIN_PAGE, SMALL_BUCKET_BITS, SMALL_DISK_PAGES, SMALL_FRAMES, SMALL_OVERFLOW,
    SMALL_PAGE,
};

/// The class of a store, and its seven sizes, each within the limits of that class. Two shapes of equal sizes and unlike class are unequal.
#[derive(Clone, Copy, Debug, PartialEq, Eq)]
pub struct Shape {
    /// Its class: `new` makes the specified shapes, `large` the living ones.
    pub class: StoreClass,
    /// The index has 2^bucket_bits buckets; 0 to 10, of a living store 0 to 24.
    pub bucket_bits: u64,
    /// Records in a page, a power of two from 4 to 1024, of a living store to 65,536.
    pub page: u64,
    /// Frames of the ring in memory, a power of two from 2 to 64, of a living store to 4,096.
    pub frames: u64,
    /// Pages that stay mutable, 1 to frames - 1.
    pub mutable: u64,
    /// Sessions, 1 to 32.
    pub sessions: u64,
    /// Overflow buckets, 0 to 1024, of a living store to 2^24.
    pub overflow: u64,
    /// Pages that the log may have on the device, 1 to 65,536, of a living store to 2^30.
    pub disk_pages: u64,
    ghost limits: { IsShape bucket_bits page frames mutable sessions overflow disk_pages },
    ghost of_its_class: { IsOfClass class (IsSmall bucket_bits page frames overflow disk_pages) },
}

/// What the calls of a living store leave to its polls, so that no request which waits ever meets a full store.
#[derive(Clone, Copy, Debug, PartialEq, Eq)]
pub struct Margin {
    /// Overflow buckets: one for each request that room is kept for.
    pub buckets: u64,
    /// Records at the log's end: for each of those requests one for each session, since each session can lose one to it.
    pub records: u64,
}

impl Shape {
    /// The shape of a specified store of these sizes, or `BadShape` where one of them is outside the small limits.
    pub fn new(
        bucket_bits: u64,
        page: u64,
        frames: u64,
        mutable: u64,
        sessions: u64,
        overflow: u64,
        disk_pages: u64,
    ) -> Result<Shape, Fault>
        ensures accepted { IsOk result ↔ (IsShape bucket_bits page frames mutable sessions overflow disk_pages × IsSmall bucket_bits page frames overflow disk_pages) }
        ensures tested { is_ok result ≡ (is_shape bucket_bits page frames mutable sessions overflow disk_pages && is_small bucket_bits page frames overflow disk_pages) }
        ensures class { IfOk result (λ shape. shape.class ≡ Specified) }
        ensures bucket_bits { IfOk result (λ shape. shape.bucket_bits ≡ bucket_bits) }
        ensures page { IfOk result (λ shape. shape.page ≡ page) }
        ensures frames { IfOk result (λ shape. shape.frames ≡ frames) }
        ensures mutable { IfOk result (λ shape. shape.mutable ≡ mutable) }
        ensures sessions { IfOk result (λ shape. shape.sessions ≡ sessions) }
        ensures overflow { IfOk result (λ shape. shape.overflow ≡ overflow) }
        ensures disk_pages { IfOk result (λ shape. shape.disk_pages ≡ disk_pages) }
        ensures refused { OnErr result (result ≡ Err BadShape) }
    {
        if !is_small(bucket_bits, page, frames, overflow, disk_pages) {
            return Err(Fault::BadShape);
        }
        Shape::within(
            StoreClass::Specified,
            bucket_bits,
            page,
            frames,
            mutable,
            sessions,
            overflow,
            disk_pages,
        )
    }

    /// The shape of a living store of these sizes, or `BadShape` where one of them is outside the large limits.
    pub fn large(
        bucket_bits: u64,
        page: u64,
        frames: u64,
        mutable: u64,
        sessions: u64,
        overflow: u64,
        disk_pages: u64,
    ) -> Result<Shape, Fault>
        ensures accepted { IsOk result ↔ IsShape bucket_bits page frames mutable sessions overflow disk_pages }
        ensures tested { is_ok result ≡ is_shape bucket_bits page frames mutable sessions overflow disk_pages }
        ensures class { IfOk result (λ shape. shape.class ≡ Living) }
        ensures bucket_bits { IfOk result (λ shape. shape.bucket_bits ≡ bucket_bits) }
        ensures page { IfOk result (λ shape. shape.page ≡ page) }
        ensures frames { IfOk result (λ shape. shape.frames ≡ frames) }
        ensures mutable { IfOk result (λ shape. shape.mutable ≡ mutable) }
        ensures sessions { IfOk result (λ shape. shape.sessions ≡ sessions) }
        ensures overflow { IfOk result (λ shape. shape.overflow ≡ overflow) }
        ensures disk_pages { IfOk result (λ shape. shape.disk_pages ≡ disk_pages) }
        ensures refused { OnErr result (result ≡ Err BadShape) }
    {
        Shape::within(
            StoreClass::Living,
            bucket_bits,
            page,
            frames,
            mutable,
            sessions,
            overflow,
            disk_pages,
        )
    }

    /// The shape of this class and of these sizes, which its class takes if a living store does. Else `BadShape`.
    fn within(
        class: StoreClass,
        bucket_bits: u64,
        page: u64,
        frames: u64,
        mutable: u64,
        sessions: u64,
        overflow: u64,
        disk_pages: u64,
    ) -> Result<Shape, Fault>
        requires { IsOfClass class (IsSmall bucket_bits page frames overflow disk_pages) }
        ensures accepted { IsOk result ↔ IsShape bucket_bits page frames mutable sessions overflow disk_pages }
        ensures tested { is_ok result ≡ is_shape bucket_bits page frames mutable sessions overflow disk_pages }
        ensures class { IfOk result (λ shape. shape.class ≡ class) }
        ensures bucket_bits { IfOk result (λ shape. shape.bucket_bits ≡ bucket_bits) }
        ensures page { IfOk result (λ shape. shape.page ≡ page) }
        ensures frames { IfOk result (λ shape. shape.frames ≡ frames) }
        ensures mutable { IfOk result (λ shape. shape.mutable ≡ mutable) }
        ensures sessions { IfOk result (λ shape. shape.sessions ≡ sessions) }
        ensures overflow { IfOk result (λ shape. shape.overflow ≡ overflow) }
        ensures disk_pages { IfOk result (λ shape. shape.disk_pages ≡ disk_pages) }
        ensures refused { OnErr result (result ≡ Err BadShape) }
    {
        if bucket_bits > MAX_BUCKET_BITS
            || !is_ring_size(page, MIN_PAGE, MAX_PAGE)
            || !is_ring_size(frames, MIN_FRAMES, MAX_FRAMES)
            || mutable < 1
            || mutable >= frames
            || sessions < 1
            || sessions > MAX_SESSIONS
            || overflow > MAX_OVERFLOW
            || disk_pages < 1
            || disk_pages > MAX_DISK_PAGES
        {
            return Err(Fault::BadShape);
        }
        Ok(Shape {
            class,
            bucket_bits,
            page,
            frames,
            mutable,
            sessions,
            overflow,
            disk_pages,
        })
    }

    /// Whether `new` has made it. So the text of its image is `FKVSTOR1`.
    pub fn is_specified(self) -> bool
        ensures { result ≡ is_specified self.class }
    {
        matches!(self.class, StoreClass::Specified)
    }

    /// What its calls leave to its polls: nothing in a specified store.
    pub fn margin(self) -> Margin
        ensures buckets { result.buckets ≡ margin_buckets self.class self.sessions }
        ensures records { result.records ≡ margin_records self.class self.sessions }
        ensures few_buckets { result.buckets ≤ 2080 }
        ensures few_records { result.records ≤ 66560 }
    {
        match self.class {
            StoreClass::Specified => Margin {
                buckets: 0,
                records: 0,
            },
            StoreClass::Living => {
                let buckets = MAX_IN_HAND * self.sessions;
                Margin {
                    buckets,
                    records: buckets * self.sessions,
                }
            }
        }
    }

    /// The same, with its margin on top of its overflow buckets, as far as there may be so many.
    pub fn with_margin(self) -> Shape
        ensures class { result.class ≡ self.class }
        ensures bucket_bits { result.bucket_bits ≡ self.bucket_bits }
        ensures page { result.page ≡ self.page }
        ensures frames { result.frames ≡ self.frames }
        ensures mutable { result.mutable ≡ self.mutable }
        ensures sessions { result.sessions ≡ self.sessions }
        ensures overflow { result.overflow ≡ overflow_within (self.overflow + margin_buckets self.class self.sessions) }
        ensures disk_pages { result.disk_pages ≡ self.disk_pages }
    {
        Shape {
            class: self.class,
            bucket_bits: self.bucket_bits,
            page: self.page,
            frames: self.frames,
            mutable: self.mutable,
            sessions: self.sessions,
            overflow: overflow_within(self.overflow + self.margin().buckets),
            disk_pages: self.disk_pages,
        }
    }
}

/// Whether a size is a power of two within two bounds.
fn is_ring_size(size: u64, least: u64, most: u64) -> bool
    ensures { result ≡ is_ring_size size least most }
{
    size.is_power_of_two() && least <= size && size <= most
}

/// So many overflow buckets, or as many as there may be.
fn overflow_within(wanted: u64) -> u64
    ensures { result ≡ overflow_within wanted }
{
    if wanted < MAX_OVERFLOW {
        wanted
    } else {
        MAX_OVERFLOW
    }
}

/// Whether none of five sizes is above what a specified store has.
fn is_small(bucket_bits: u64, page: u64, frames: u64, overflow: u64, disk_pages: u64) -> bool
    ensures { result ≡ is_small bucket_bits page frames overflow disk_pages }
{
    bucket_bits <= SMALL_BUCKET_BITS
        && page <= SMALL_PAGE
        && frames <= SMALL_FRAMES
        && overflow <= SMALL_OVERFLOW
        && disk_pages <= SMALL_DISK_PAGES
}
