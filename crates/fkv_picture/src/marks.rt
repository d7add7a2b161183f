//! Where the scan of a commit begins, and where its log ends.
ghost use Rattle.std.specs.Prelude.{◌≡◌, ◌≤◌, ◌^◌, Some};
ghost use Rattle.fkv_picture.specs.Marks.{end_text, label_text, mark_text, mark_x, side_of, start_text, tip_text};

use crate::strip_layouts::Strip;
use std::fmt;

/// Where an address lies in a strip whose pages have this size.
pub(crate) fn mark_x(strip: &Strip, size: u64, addr: u64) -> u64
    requires { size ≤ 2 ^ 16 }
    ensures { result ≡ mark_x strip.now.pages_a_bar strip.now.bars strip.now.width size addr }
{
    let span = (strip.pages_a_bar * size).max(1);
    let bar = (addr / span).min(strip.bars);
    let within = (addr % span).saturating_mul(strip.width) / span;
    40 + bar * strip.width + within.min(80)
}

/// On which side of its place a text stands, so that it isn't cut.
fn side_of(x: u64) -> &'static str
    ensures { result.now ≡ side_of x }
{
    if x < 600 { "left" } else { "right" }
}

/// An arrow at this place.
#[derive(Clone, Copy)]
struct Tip {
    x: u64,
    y: u64,
    /// Where it comes from, as a path of SVG.
    tail: &'static str,
}

impl fmt::Display for Tip {
    ghost output = { λ tip. Some (tip_text tip.x tip.y tip.tail.now) };

    #[tactic(auto, unfolding(crate::specs::Marks::tip_text))]
    fn fmt<W: fmt::Write>(&self, f: &mut fmt::Formatter<W>) -> fmt::Result {
        let (x, y, tail) = (self.x, self.y, self.tail);
        write!(f, "<path class='mark' d='M{x} {y}{tail}'/>")
    }
}

/// The words beside an arrow, and the address that it marks.
#[derive(Clone, Copy)]
struct Label {
    x: u64,
    y: u64,
    words: &'static str,
    addr: u64,
}

impl fmt::Display for Label {
    ghost output = { λ it. Some (label_text it.x it.y it.words.now it.addr) };

    #[tactic(auto, unfolding(crate::specs::Marks::label_text))]
    fn fmt<W: fmt::Write>(&self, f: &mut fmt::Formatter<W>) -> fmt::Result {
        let (side, x, y) = (side_of(self.x), self.x, self.y);
        let (words, addr) = (self.words, self.addr);
        write!(
            f,
            "<text class='{side}' x='{x}' y='{y}'>{words} {addr}</text>"
        )
    }
}

/// An address that is marked: an arrow, and words beside it.
#[derive(Clone, Copy)]
pub(crate) struct Mark {
    tip: Tip,
    label: Label,
}

impl Mark {
    /// Where the scan begins, above the strip.
    #[tactic(auto, unfolding(crate::specs::Marks::start_text))]
    pub(crate) fn start(x: u64, addr: u64) -> Self
        ensures { mark_text result ≡ start_text x addr }
    {
        let (words, tail) = ("the scan begins at", "l-5 -9h10z");
        Mark {
            tip: Tip { x, y: 202, tail },
            label: Label {
                x,
                y: 189,
                words,
                addr,
            },
        }
    }

    /// Where the log ends, below the strip.
    #[tactic(auto, unfolding(crate::specs::Marks::end_text))]
    pub(crate) fn end(x: u64, addr: u64) -> Self
        ensures { mark_text result ≡ end_text x addr }
    {
        let (words, tail) = ("the log ends at", "l-5 9h10z");
        Mark {
            tip: Tip { x, y: 366, tail },
            label: Label {
                x,
                y: 390,
                words,
                addr,
            },
        }
    }
}

impl fmt::Display for Mark {
    ghost output = { λ it. Some (mark_text it) };

    fn fmt<W: fmt::Write>(&self, f: &mut fmt::Formatter<W>) -> fmt::Result {
        writeln!(f, "{}{}", self.tip, self.label)
    }
}
