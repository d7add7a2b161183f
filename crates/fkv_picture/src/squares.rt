//! The index as squares, each as dark as its buckets are full.
ghost use Rattle.std.specs.Prelude.{◌≡◌, ◌≤◌, ◌<◌, ◌+◌, ◌-◌, ◌*◌, ◌/◌, ◌%◌, ◌^◌, Some};
ghost use Rattle.fkv_picture.specs.Shares.{total};
ghost use Rattle.fkv_picture.specs.Squares.{ink_of, numbers_between, square_text, squares_text};

use crate::bars::{Bar, Size};
use crate::shares::total;
use crate::square_layouts::Layout;
use std::fmt;

/// Buckets that stand side by side, as a square.
#[derive(Clone, Copy)]
struct Square {
    /// The first bucket.
    first: u64,
    /// Behind the last one.
    end: u64,
    /// How many entries they have.
    entries: u64,
    /// How many they have room for, without overflow buckets.
    slots: u64,
    x: u64,
    y: u64,
    size: u64,
    ghost few_slots: { slots ≤ 2 ^ 27 },
}

/// The ink of buckets with so many entries, by the quarters of their slots.
fn ink_of(entries: u64, slots: u64) -> &'static str
    requires { slots ≤ 2 ^ 27 }
    ensures { result.now ≡ ink_of entries slots }
{
    if entries == 0 {
        "b0"
    } else if slots < entries {
        "b5"
    } else if 4 * entries <= slots {
        "b1"
    } else if 2 * entries <= slots {
        "b2"
    } else if 4 * entries <= 3 * slots {
        "b3"
    } else {
        "b4"
    }
}

impl fmt::Display for Square {
    ghost output = { λ it. Some (square_text it.first it.end it.entries it.slots it.x it.y it.size) };

    #[tactic(auto, unfolding(crate::specs::Squares::square_text))]
    fn fmt<W: fmt::Write>(&self, f: &mut fmt::Formatter<W>) -> fmt::Result {
        let (first, end, entries) = (self.first, self.end, self.entries);
        let bar = Bar {
            ink: ink_of(entries, self.slots),
            x: self.x,
            y: self.y,
            size: Size {
                width: self.size,
                height: self.size,
            },
        };
        writeln!(
            f,
            "<g><title>buckets from {first} to {end}: entries {entries}</title>{bar}</g>"
        )
    }
}

/// The numbers from one place on and below another, as far as there are any.
fn numbers_between(numbers: &[u64], first: u64, end: u64) -> &[u64]
    requires { first ≤ end }
    ensures { result.now ≡ numbers_between first end numbers.now }
{
    let first = numbers.len().min(first as usize);
    let end = numbers.len().min(end as usize);
    &numbers[first..end]
}

/// The squares of an index.
#[derive(Clone, Copy)]
pub(crate) struct Squares<'a> {
    pub(crate) layout: Layout,
    /// How many entries each bucket has.
    pub(crate) entries: &'a [u64],
}

impl Squares<'_> {
    /// The square of this number.
    fn square(&self, number: u64) -> Square
        requires { number < self.now.layout.squares }
        ensures numbers { result.entries ≡ total (numbers_between (number * self.now.layout.buckets_a_square) (number * self.now.layout.buckets_a_square + self.now.layout.buckets_a_square) self.now.entries.now) }
        ensures first { result.first ≡ number * self.now.layout.buckets_a_square }
        ensures end { result.end ≡ result.first + self.now.layout.buckets_a_square }
        ensures slots { result.slots ≡ 7 * self.now.layout.buckets_a_square }
        ensures x { result.x ≡ 40 + number % self.now.layout.columns * self.now.layout.size }
        ensures y { result.y ≡ 446 + number / self.now.layout.columns * self.now.layout.size }
        ensures size { result.size ≡ self.now.layout.size - 1 }
    {
        let layout = self.layout;
        let first = number * layout.buckets_a_square;
        let end = first + layout.buckets_a_square;
        Square {
            first,
            end,
            entries: total(numbers_between(self.entries, first, end)),
            slots: 7 * layout.buckets_a_square,
            x: 40 + number % layout.columns * layout.size,
            y: 446 + number / layout.columns * layout.size,
            size: layout.size.saturating_sub(1),
        }
    }
}

impl fmt::Display for Squares<'_> {
    ghost output = { λ it. Some (squares_text it.layout.squares it.layout.buckets_a_square it.layout.columns it.layout.size it.entries.now) };

    #[tactic(auto, unfolding(crate::specs::Squares::squares_text, crate::specs::Each::each_below))]
    fn fmt<W: fmt::Write>(&self, f: &mut fmt::Formatter<W>) -> fmt::Result {
        for number in 0..self.layout.squares {
            write!(f, "{}", self.square(number))?;
        }
        Ok(())
    }
}
