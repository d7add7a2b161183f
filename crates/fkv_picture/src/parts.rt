//! The parts of a picture, each with its heading.
ghost use Rattle.std.specs.Prelude.{Some};
ghost use Rattle.fkv_picture.specs.Parts.{drawn_words, head_text, in_use_words, index_caption, index_text, log_caption, log_text};

use crate::marks::{Mark, mark_x};
use crate::rows::Rows;
use crate::squares::Squares;
use crate::stills::Still;
use crate::strips::Bars;
use std::fmt;

/// What a picture begins with, and whose commit it shows.
#[derive(Clone, Copy)]
pub(crate) struct Head {
    pub(crate) number: u64,
    pub(crate) checkpoint: u64,
}

impl fmt::Display for Head {
    ghost output = { λ it. Some (head_text it.number it.checkpoint) };

    #[tactic(auto, unfolding(crate::specs::Parts::head_text))]
    fn fmt<W: fmt::Write>(&self, f: &mut fmt::Formatter<W>) -> fmt::Result {
        let (number, checkpoint) = (self.number, self.checkpoint);
        let opening = Still::Opening;
        writeln!(
            f,
            "{opening}<text class='head' x='40' y='48'>Commit {number}, with the checkpoint of commit {checkpoint}</text>"
        )
    }
}

/// How many pages are drawn, and how many of them a bar stands for.
#[derive(Clone, Copy)]
struct Drawn {
    drawn: u64,
    pages_a_bar: u64,
}

impl fmt::Display for Drawn {
    ghost output = { λ it. Some (drawn_words it.drawn it.pages_a_bar) };

    #[tactic(auto, unfolding(crate::specs::Parts::drawn_words))]
    fn fmt<W: fmt::Write>(&self, f: &mut fmt::Formatter<W>) -> fmt::Result {
        let (drawn, a_bar) = (self.drawn, self.pages_a_bar);
        write!(f, "{drawn} drawn, {a_bar} to a bar")
    }
}

/// How much of the log is in use.
#[derive(Clone, Copy)]
struct InUse {
    used: u64,
    on_device: u64,
}

impl fmt::Display for InUse {
    ghost output = { λ it. Some (in_use_words it.used it.on_device) };

    fn fmt<W: fmt::Write>(&self, f: &mut fmt::Formatter<W>) -> fmt::Result {
        let (used, on_device) = (self.used, self.on_device);
        write!(f, "{used} of {on_device} pages in use")
    }
}

/// How much of the log is in use, and how much of it a bar stands for.
#[derive(Clone, Copy)]
struct LogCaption {
    in_use: InUse,
    drawn: Drawn,
}

impl fmt::Display for LogCaption {
    ghost output = { λ it. Some (log_caption it.in_use.used it.in_use.on_device it.drawn.drawn it.drawn.pages_a_bar) };

    #[tactic(auto, unfolding(crate::specs::Parts::log_caption))]
    fn fmt<W: fmt::Write>(&self, f: &mut fmt::Formatter<W>) -> fmt::Result {
        let (in_use, drawn) = (self.in_use, self.drawn);
        write!(
            f,
            "<text class='part' x='40' y='142'>Log: {in_use}, {drawn}</text>"
        )
    }
}

/// The log.
#[derive(Clone, Copy)]
pub(crate) struct LogPart<'a> {
    pub(crate) bars: Bars<'a>,
    /// Pages that the log may have.
    pub(crate) on_device: u64,
    /// Where the scan begins.
    pub(crate) first: u64,
}

impl fmt::Display for LogPart<'_> {
    ghost output = { λ it. Some (log_text it.bars.strip.drawn it.bars.strip.pages_a_bar it.bars.strip.bars it.bars.strip.width it.bars.pages.pages.now it.bars.pages.size it.bars.pages.tail it.on_device it.first) };

    #[tactic(auto, unfolding(crate::specs::Parts::log_text))]
    fn fmt<W: fmt::Write>(&self, f: &mut fmt::Formatter<W>) -> fmt::Result {
        let (bars, strip, pages) = (self.bars, self.bars.strip, self.bars.pages);
        let caption = LogCaption {
            in_use: InUse {
                used: pages.pages.len() as u64,
                on_device: self.on_device,
            },
            drawn: Drawn {
                drawn: strip.drawn,
                pages_a_bar: strip.pages_a_bar,
            },
        };
        let start = Mark::start(mark_x(&strip, pages.size, self.first), self.first);
        let end = Mark::end(mark_x(&strip, pages.size, pages.tail), pages.tail);
        let legend = Still::LogLegend;
        write!(f, "{caption}{legend}{start}{bars}{end}")
    }
}

/// How many buckets there are, and how many of them a square stands for.
#[derive(Clone, Copy)]
struct IndexCaption {
    buckets: u64,
    buckets_a_square: u64,
}

impl fmt::Display for IndexCaption {
    ghost output = { λ it. Some (index_caption it.buckets it.buckets_a_square) };

    #[tactic(auto, unfolding(crate::specs::Parts::index_caption))]
    fn fmt<W: fmt::Write>(&self, f: &mut fmt::Formatter<W>) -> fmt::Result {
        let (buckets, a_square) = (self.buckets, self.buckets_a_square);
        writeln!(
            f,
            "<text class='part' x='40' y='432'>Index: {buckets} buckets, {a_square} to a square</text><text class='part' x='740' y='432'>Buckets by their entries</text>"
        )
    }
}

/// The index.
#[derive(Clone, Copy)]
pub(crate) struct IndexPart<'a> {
    pub(crate) squares: Squares<'a>,
    pub(crate) rows: Rows<'a>,
}

impl fmt::Display for IndexPart<'_> {
    ghost output = { λ it. Some (index_text it.squares.layout.squares it.squares.layout.buckets_a_square it.squares.layout.columns it.squares.layout.size it.squares.entries.now it.rows.0.now) };

    #[tactic(auto, unfolding(crate::specs::Parts::index_text))]
    fn fmt<W: fmt::Write>(&self, f: &mut fmt::Formatter<W>) -> fmt::Result {
        let (squares, rows) = (self.squares, self.rows);
        let caption = IndexCaption {
            buckets: squares.entries.len() as u64,
            buckets_a_square: squares.layout.buckets_a_square,
        };
        let legend = Still::IndexLegend;
        write!(f, "{caption}{squares}{legend}{rows}")
    }
}
