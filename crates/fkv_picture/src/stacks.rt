//! A bar of the strip: how much of each kind its pages hold, one above the other.
ghost use Rattle.std.specs.Prelude.{◌≡◌, ◌≤◌, ◌+◌, ◌-◌, min, Some};
ghost use Rattle.fkv_picture.specs.Shares.{share};
ghost use Rattle.fkv_picture.specs.Stacks.{bars_text, counts_words, more_counts_words, stack_text, title_text};

use crate::bars::{Bar, Size};
use crate::columns::Column;
use crate::shares::share;
use std::fmt;

/// How tall the parts of a bar are.
#[derive(Clone, Copy)]
struct Heights {
    valid: u64,
    lost: u64,
    invalid: u64,
    newer: u64,
    no_record: u64,
    ghost few_valid: { valid ≤ 160 },
    ghost few_lost: { lost ≤ 160 },
    ghost few_invalid: { invalid ≤ 160 },
    ghost few_newer: { newer ≤ 160 },
    ghost few_no_record: { no_record ≤ 160 },
}

/// How tall the parts of a bar of 160 are. That of the valid records leaves the others their place.
fn heights_of(column: &Column) -> Heights
    ensures lost { result.lost ≡ share column.now.lost column.now.room 160 }
    ensures invalid { result.invalid ≡ share column.now.invalid column.now.room 160 }
    ensures newer { result.newer ≡ share column.now.newer column.now.room 160 }
    ensures no_record { result.no_record ≡ share column.now.no_record column.now.room 160 }
    ensures valid { result.valid ≡ min (share column.now.valid column.now.room 160) (160 - (result.lost + result.invalid + result.newer + result.no_record)) }
{
    let room = column.room;
    let lost = share(column.lost, room, 160);
    let invalid = share(column.invalid, room, 160);
    let newer = share(column.newer, room, 160);
    let no_record = share(column.no_record, room, 160);
    let others = lost + invalid + newer + no_record;
    Heights {
        valid: share(column.valid, room, 160).min(160u64.saturating_sub(others)),
        lost,
        invalid,
        newer,
        no_record,
    }
}

/// A column in words: its pages, and how many addresses of each kind they have.
#[derive(Clone, Copy)]
struct Title(Column);

/// The second half of these words.
#[derive(Clone, Copy)]
struct MoreCounts(Column);

impl fmt::Display for MoreCounts {
    ghost output = { λ words. Some (more_counts_words words.0) };

    #[tactic(auto, unfolding(crate::specs::Stacks::more_counts_words))]
    fn fmt<W: fmt::Write>(&self, f: &mut fmt::Formatter<W>) -> fmt::Result {
        let (newer, no_record, free) = (self.0.newer, self.0.no_record, self.0.free);
        write!(f, " newer {newer} none {no_record} free {free}")
    }
}

/// The first half.
#[derive(Clone, Copy)]
struct Counts(Column);

impl fmt::Display for Counts {
    ghost output = { λ words. Some (counts_words words.0) };

    #[tactic(auto, unfolding(crate::specs::Stacks::counts_words))]
    fn fmt<W: fmt::Write>(&self, f: &mut fmt::Formatter<W>) -> fmt::Result {
        let (valid, invalid, lost) = (self.0.valid, self.0.invalid, self.0.lost);
        write!(f, " valid {valid} invalid {invalid} lost {lost}")
    }
}

impl fmt::Display for Title {
    ghost output = { λ title. Some (title_text title.0) };

    #[tactic(auto, unfolding(crate::specs::Stacks::title_text))]
    fn fmt<W: fmt::Write>(&self, f: &mut fmt::Formatter<W>) -> fmt::Result {
        let (first, end) = (self.0.first, self.0.end);
        let (counts, more) = (Counts(self.0), MoreCounts(self.0));
        write!(
            f,
            "<title>pages from {first} to {end}{counts}{more}</title>"
        )
    }
}

/// A part of a bar.
fn part(ink: &'static str, x: u64, y: u64, width: u64, height: u64) -> Bar
    ensures ink { result.ink.now ≡ ink.now }
    ensures x { result.x ≡ x }
    ensures y { result.y ≡ y }
    ensures width { result.size.width ≡ width }
    ensures height { result.size.height ≡ height }
{
    Bar {
        ink,
        x,
        y,
        size: Size { width, height },
    }
}

/// The parts of a bar, from above.
#[derive(Clone, Copy)]
struct Parts {
    column: Column,
    x: u64,
    width: u64,
}

impl fmt::Display for Parts {
    ghost output = { λ parts. Some (bars_text parts.column parts.x parts.width) };

    #[tactic(auto, unfolding(crate::specs::Stacks::bars_text))]
    fn fmt<W: fmt::Write>(&self, f: &mut fmt::Formatter<W>) -> fmt::Result {
        let (x, width) = (self.x, self.width);
        let heights = heights_of(&self.column);
        let (lost_y, invalid_y) = (204 + heights.valid, 204 + heights.valid + heights.lost);
        let newer_y = invalid_y + heights.invalid;
        let free = part("free", x, 204, width, 160);
        let valid = part("valid", x, 204, width, heights.valid);
        let lost = part("lost", x, lost_y, width, heights.lost);
        let invalid = part("invalid", x, invalid_y, width, heights.invalid);
        let newer = part("newer", x, newer_y, width, heights.newer);
        let none = part("none", x, newer_y + heights.newer, width, heights.no_record);
        write!(f, "{free}{valid}{lost}{invalid}{newer}{none}")
    }
}

/// A bar of the strip, with its column in words.
#[derive(Clone, Copy)]
pub(crate) struct Stack {
    pub(crate) column: Column,
    pub(crate) x: u64,
    pub(crate) width: u64,
}

impl fmt::Display for Stack {
    ghost output = { λ stack. Some (stack_text stack.column stack.x stack.width) };

    #[tactic(auto, unfolding(crate::specs::Stacks::stack_text))]
    fn fmt<W: fmt::Write>(&self, f: &mut fmt::Formatter<W>) -> fmt::Result {
        let (column, x, width) = (self.column, self.x, self.width);
        let parts = Parts { column, x, width };
        writeln!(f, "<g>{}{parts}</g>", Title(column))
    }
}
