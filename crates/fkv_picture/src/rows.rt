//! How many buckets have each number of entries, as bars one below the other.
ghost use Rattle.std.specs.Prelude.{◌≡◌, ◌≤◌, ◌<◌, ◌+◌, ◌*◌, length, min, Some};
ghost use Rattle.fkv_picture.specs.Shares.{total};
ghost use Rattle.fkv_picture.specs.Rows.{count_at, label_text, number_text, row_text, rows_text, sign_of};

use crate::bars::{Bar, Size};
use crate::shares::{share, total};
use std::fmt;

/// How many buckets have a number of entries.
#[derive(Clone, Copy)]
struct Row {
    /// How many entries; in the last row so many or more.
    entries: u64,
    /// How many buckets have them.
    buckets: u64,
    /// How many buckets there are.
    all: u64,
    y: u64,
    ghost low: { y ≤ 1000 },
}

/// What stands behind the number of entries in the last row.
fn sign_of(entries: u64) -> &'static str
    ensures { result.now ≡ sign_of entries }
{
    if entries < 15 { "" } else { "+" }
}

/// The number of entries, before its bar.
#[derive(Clone, Copy)]
struct Label {
    entries: u64,
    y: u64,
}

impl fmt::Display for Label {
    ghost output = { λ it. Some (label_text it.entries it.y) };

    #[tactic(auto, unfolding(crate::specs::Rows::label_text))]
    fn fmt<W: fmt::Write>(&self, f: &mut fmt::Formatter<W>) -> fmt::Result {
        let (entries, y, sign) = (self.entries, self.y, sign_of(self.entries));
        write!(
            f,
            "<text class='right' x='790' y='{y}'>{entries}{sign}</text>"
        )
    }
}

/// The number of buckets, behind its bar.
#[derive(Clone, Copy)]
struct Number {
    buckets: u64,
    x: u64,
    y: u64,
}

impl fmt::Display for Number {
    ghost output = { λ it. Some (number_text it.buckets it.x it.y) };

    #[tactic(auto, unfolding(crate::specs::Rows::number_text))]
    fn fmt<W: fmt::Write>(&self, f: &mut fmt::Formatter<W>) -> fmt::Result {
        let (buckets, x, y) = (self.buckets, self.x, self.y);
        write!(f, "<text x='{x}' y='{y}'>{buckets}</text>")
    }
}

impl fmt::Display for Row {
    ghost output = { λ it. Some (row_text it.entries it.buckets it.all it.y) };

    #[tactic(auto, unfolding(crate::specs::Rows::row_text))]
    fn fmt<W: fmt::Write>(&self, f: &mut fmt::Formatter<W>) -> fmt::Result {
        let width = share(self.buckets, self.all, 240);
        let label = Label {
            entries: self.entries,
            y: self.y + 11,
        };
        let bar = Bar {
            ink: "used",
            x: 800,
            y: self.y,
            size: Size { width, height: 12 },
        };
        let number = Number {
            buckets: self.buckets,
            x: 808 + width,
            y: self.y + 11,
        };
        writeln!(f, "{label}{bar}{number}")
    }
}

/// The rows of an index: how many buckets have no entry, one, and so on.
#[derive(Clone, Copy)]
pub(crate) struct Rows<'a>(pub(crate) &'a [u64]);

impl Rows<'_> {
    /// How many buckets have so many entries; in the last row so many or more.
    #[tactic(auto, unfolding(crate::specs::Rows::count_at))]
    fn count(&self, entries: usize) -> u64
        requires { entries < length self.now.0.now }
        ensures { result ≡ count_at self.now.0.now entries }
    {
        if entries < 15 {
            self.0[entries]
        } else {
            total(&self.0[15..])
        }
    }

    /// The row of so many entries.
    fn row(&self, entries: usize) -> Row
        requires there { entries < length self.now.0.now }
        requires few { entries < 16 }
        ensures entries { result.entries ≡ entries }
        ensures buckets { result.buckets ≡ count_at self.now.0.now entries }
        ensures all { result.all ≡ total self.now.0.now }
        ensures y { result.y ≡ 446 + 15 * entries }
    {
        Row {
            entries: entries as u64,
            buckets: self.count(entries),
            all: total(self.0),
            y: 446 + 15 * entries as u64,
        }
    }
}

impl fmt::Display for Rows<'_> {
    ghost output = { λ it. Some (rows_text it.0.now) };

    #[tactic(auto, unfolding(crate::specs::Rows::rows_text, crate::specs::Each::each_below))]
    fn fmt<W: fmt::Write>(&self, f: &mut fmt::Formatter<W>) -> fmt::Result {
        let many = self.0.len().min(16);
        for entries in 0..many {
            write!(f, "{}", self.row(entries))?;
        }
        Ok(())
    }
}
