//! Sizes that are no shape's.
use fkv_base::{
    MAX_BUCKET_BITS, MAX_DISK_PAGES, MAX_FRAMES, MAX_OVERFLOW, MAX_PAGE, MAX_SESSIONS, MIN_FRAMES,
    MIN_PAGE, SMALL_BUCKET_BITS, SMALL_DISK_PAGES, SMALL_FRAMES, SMALL_OVERFLOW, SMALL_PAGE,
    StoreClass,
};
use fkv_lines::Sizes;
use std::fmt;

/// The first size that is outside its limits.
#[derive(Clone, Copy)]
pub(crate) struct SizeFault {
    name: &'static str,
    value: u64,
    limits: Limits,
}

/// The least and the most that a size may be.
#[derive(Clone, Copy)]
struct Limits {
    least: u64,
    most: u64,
    is_power_of_two: bool,
}

impl SizeFault {
    /// The first of these sizes that is outside its limits.
    pub(crate) fn of(sizes: Sizes) -> Option<SizeFault> {
        for (name, value, limits) in limited(sizes) {
            if !limits.allow(value) {
                return Some(SizeFault {
                    name,
                    value,
                    limits,
                });
            }
        }
        None
    }
}

/// What five of the sizes are at most.
#[derive(Clone, Copy)]
struct Most {
    bucket_bits: u64,
    page: u64,
    frames: u64,
    overflow: u64,
    disk_pages: u64,
}

const MOST_SMALL: Most = Most {
    bucket_bits: SMALL_BUCKET_BITS,
    page: SMALL_PAGE,
    frames: SMALL_FRAMES,
    overflow: SMALL_OVERFLOW,
    disk_pages: SMALL_DISK_PAGES,
};

const MOST_LARGE: Most = Most {
    bucket_bits: MAX_BUCKET_BITS,
    page: MAX_PAGE,
    frames: MAX_FRAMES,
    overflow: MAX_OVERFLOW,
    disk_pages: MAX_DISK_PAGES,
};

/// The sizes by their names, with the limits of each.
fn limited(sizes: Sizes) -> [(&'static str, u64, Limits); 7] {
    let most = match sizes.class {
        StoreClass::Specified => MOST_SMALL,
        StoreClass::Living => MOST_LARGE,
    };
    let bucket_bits = within(0, most.bucket_bits);
    let page = power_of_two(MIN_PAGE, most.page);
    let frames = power_of_two(MIN_FRAMES, most.frames);
    let mutable = within(1, sizes.frames.saturating_sub(1));
    let sessions = within(1, MAX_SESSIONS);
    let overflow = within(0, most.overflow);
    let disk_pages = within(1, most.disk_pages);
    [
        ("K, the bucket bits,", sizes.bucket_bits, bucket_bits),
        ("P, the records of a page,", sizes.page, page),
        ("F, the frames,", sizes.frames, frames),
        ("M, the mutable pages,", sizes.mutable, mutable),
        ("S, the sessions,", sizes.sessions, sessions),
        ("O, the overflow buckets,", sizes.overflow, overflow),
        ("D, the pages on the device,", sizes.disk_pages, disk_pages),
    ]
}

fn within(least: u64, most: u64) -> Limits {
    Limits {
        least,
        most,
        is_power_of_two: false,
    }
}

fn power_of_two(least: u64, most: u64) -> Limits {
    Limits {
        least,
        most,
        is_power_of_two: true,
    }
}

impl Limits {
    fn allow(self, value: u64) -> bool {
        self.least <= value
            && value <= self.most
            && (!self.is_power_of_two || value.is_power_of_two())
    }
}

impl fmt::Display for SizeFault {
    fn fmt<W: fmt::Write>(&self, f: &mut fmt::Formatter<W>) -> fmt::Result {
        let SizeFault {
            name,
            value,
            limits,
        } = *self;
        let Limits {
            least,
            most,
            is_power_of_two,
        } = limits;
        let kind = if is_power_of_two {
            "a power of two "
        } else {
            ""
        };
        write!(
            f,
            "the size {name} is {value}, and has to be {kind}from {least} to {most}"
        )
    }
}
