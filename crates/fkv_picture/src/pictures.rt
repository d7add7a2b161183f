//! The picture of a store.
ghost use Rattle.std.specs.Prelude.{◌≡◌, Some};
ghost use Rattle.fkv_picture.specs.Pictures.{IsPictureOf, picture_text};

use crate::columns::Pages;
use crate::gauges::Gauges;
use crate::parts::{Head, IndexPart, LogPart};
use crate::rows::Rows;
use crate::square_layouts::{Layout, layout_of};
use crate::squares::Squares;
use crate::strip_layouts::{Strip, strip_of};
use crate::strips::Bars;
use fkv_looking::StoreLook;
use std::fmt;

/// The picture of a store. Its text is an SVG of 1200 by 720: how much of each capacity is used, a bar for each page of the log, a square
/// for each bucket of the index, and how many buckets have each number of entries. Each bar and each square tells its numbers too.
///
/// At most 112 bars and 1024 squares are drawn. Where there are more pages or buckets, each stands for as many as its part says.
#[derive(Clone, Copy)]
pub struct Picture<'a> {
    look: &'a StoreLook,
    strip: Strip,
    layout: Layout,
}

/// The picture of a store.
pub fn picture_of(look: &StoreLook) -> Picture<'_>
    ensures { IsPictureOf look.now result }
{
    let shape = look.opened.shape;
    Picture {
        look,
        strip: strip_of(shape, look.pages.len() as u64),
        layout: layout_of(shape),
    }
}

/// The log of a store.
#[tactic(auto, using(crate::proofs::Short::page_short))]
fn pages_of(look: &StoreLook) -> Pages<'_>
    ensures pages { result.pages.now ≡ look.now.pages.items }
    ensures size { result.size ≡ look.now.opened.shape.page }
    ensures tail { result.tail ≡ look.now.opened.tail.0 }
{
    Pages {
        pages: &look.pages,
        size: look.opened.shape.page,
        tail: look.opened.tail.0,
    }
}

impl fmt::Display for Picture<'_> {
    ghost output = { λ it. Some (picture_text it) };

    #[tactic(auto, unfolding(crate::specs::Pictures::picture_text))]
    fn fmt<W: fmt::Write>(&self, f: &mut fmt::Formatter<W>) -> fmt::Result {
        let opened = &self.look.opened;
        let head = Head {
            number: opened.number.0,
            checkpoint: opened.checkpoint.number.0,
        };
        let gauges = Gauges(self.look.uses);
        let log = LogPart {
            bars: Bars {
                strip: self.strip,
                pages: pages_of(self.look),
            },
            on_device: opened.shape.disk_pages,
            first: opened.checkpoint.first.0,
        };
        let index = IndexPart {
            squares: Squares {
                layout: self.layout,
                entries: &self.look.index.entries,
            },
            rows: Rows(&self.look.index.buckets),
        };
        writeln!(f, "{head}{gauges}{log}{index}</svg>")
    }
}
