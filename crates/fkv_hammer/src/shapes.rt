//! Shapes of stores for four sessions.
use fkv_base::{Fault, Shape};

/// How many shapes there are.
pub(crate) const COUNT: u64 = 32;

/// How many of them are of specified stores.
const SPECIFIED: u64 = 20;

/// The shape of this number: few buckets or more, small pages, and two frames or more. The last dozen are of living stores, and half of
/// these have overflow buckets and pages past the small limits. Calls of a living store leave 260 overflow buckets to polls. They link three in the
/// first one, so most of its keys are refused, or have to go by the polls' buckets.
pub(crate) fn shape_of(number: u64) -> Result<Shape, Fault> {
    let (bits, page, frames) = (
        number % 5,
        power(2 + number % 3),
        power(1 + (number / 3) % 3),
    );
    let mutable = if frames == 2 { 1 } else { 1 + number % 3 };
    if number < SPECIFIED {
        Shape::new(bits, page, frames, mutable, 4, 256, 65536)
    } else if number % 2 == 0 {
        let overflow = if number == SPECIFIED { 263 } else { 516 };
        Shape::large(bits, page, frames, mutable, 4, overflow, 65536)
    } else {
        Shape::large(
            bits,
            page,
            frames,
            mutable,
            4,
            1100,
            number.saturating_add(65537),
        )
    }
}

/// The number of the commit with which a store of this shape begins. Behind two thirds of the living ones the marks of versions begin again.
pub(crate) fn first_of(number: u64) -> u64 {
    match number % 3 {
        1 if number >= SPECIFIED => 8184,
        2 if number >= SPECIFIED => 16374,
        _ => 0,
    }
}

/// Whether the begin of a store of this shape moves before each of its lives: half of the living ones do so, of each first commit two.
pub(crate) fn begins_later(number: u64) -> bool {
    number >= SPECIFIED && number % 4 < 2
}

fn power(exponent: u64) -> u64 {
    match exponent {
        1 => 2,
        2 => 4,
        3 => 8,
        _ => 16,
    }
}
