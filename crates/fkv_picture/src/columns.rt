//! What the pages of a bar of the strip hold together.
ghost use Rattle.std.specs.Prelude.{◌≡◌, ◌≤◌, ◌<◌, ◌^◌};
ghost use Rattle.fkv_picture.specs.Columns.{column_of, count_of, count_in, pages_between};

use fkv_looking::{PageLook, RecordClass};

/// What some pages that stand side by side hold together.
#[derive(Clone, Copy)]
pub(crate) struct Column {
    /// The first page.
    pub(crate) first: u64,
    /// Behind the last one.
    pub(crate) end: u64,
    /// How many addresses these pages have.
    pub(crate) room: u64,
    pub(crate) valid: u64,
    pub(crate) lost: u64,
    pub(crate) invalid: u64,
    pub(crate) newer: u64,
    /// Addresses below the log's end at which no record stands.
    pub(crate) no_record: u64,
    /// Addresses from the log's end on.
    pub(crate) free: u64,
}

/// The log that columns are made of.
#[derive(Clone, Copy)]
pub(crate) struct Pages<'a> {
    /// Its pages, up to the one in which it ends.
    pub(crate) pages: &'a [PageLook],
    /// How many addresses a page has.
    pub(crate) size: u64,
    /// Where it ends.
    pub(crate) tail: u64,
    ghost short: { size ≤ 2 ^ 16 },
}

/// How many addresses of a class a page has.
fn count_of(page: &PageLook, class: RecordClass) -> u64
    ensures { result ≡ count_of class page.now }
{
    match class {
        RecordClass::Valid => page.valid,
        RecordClass::Invalid => page.invalid,
        RecordClass::Lost => page.lost,
        RecordClass::Newer => page.newer,
        RecordClass::NoRecord => page.no_record,
    }
}

/// How many addresses of a class some pages have.
fn count_in(pages: &[PageLook], class: RecordClass) -> u64
    ensures { result ≡ count_in class pages.now }
{
    let mut sum = 0u64;
    for page in pages {
        sum = sum.saturating_add(count_of(page, class));
    }
    sum
}

/// The pages from one on and below another, as far as there are any.
fn pages_between(pages: &[PageLook], first: u64, end: u64) -> &[PageLook]
    requires { first ≤ end }
    ensures { result.now ≡ pages_between first end pages.now }
{
    let first = pages.len().min(first as usize);
    let end = pages.len().min(end as usize);
    &pages[first..end]
}

impl Pages<'_> {
    /// What the pages from one on and below another hold.
    pub(crate) fn column(&self, first: u64, end: u64) -> Column
        requires upwards { first ≤ end }
        requires few { end ≤ 2 ^ 30 }
        ensures { result ≡ column_of self.now.pages.now self.now.size self.now.tail first end }
    {
        let pages = pages_between(self.pages, first, end);
        let (from, to) = ((first * self.size).max(1), end * self.size);
        Column {
            first,
            end,
            room: to.saturating_sub(from),
            valid: count_in(pages, RecordClass::Valid),
            lost: count_in(pages, RecordClass::Lost),
            invalid: count_in(pages, RecordClass::Invalid),
            newer: count_in(pages, RecordClass::Newer),
            no_record: count_in(pages, RecordClass::NoRecord),
            free: to.saturating_sub(from.max(self.tail)),
        }
    }
}
