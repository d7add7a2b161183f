//! The log as a strip: bars side by side, each for a page or for several.
ghost use Rattle.std.specs.Prelude.{◌≡◌, ◌<◌, Some};
ghost use Rattle.fkv_picture.specs.Strips.{stack_at, strip_text};

use crate::columns::Pages;
use crate::stacks::Stack;
use crate::strip_layouts::Strip;
use std::fmt;

/// The bars of a strip.
#[derive(Clone, Copy)]
pub(crate) struct Bars<'a> {
    pub(crate) strip: Strip,
    pub(crate) pages: Pages<'a>,
}

impl Bars<'_> {
    /// The bar of this number.
    fn stack(&self, bar: u64) -> Stack
        requires { bar < self.now.strip.bars }
        ensures { result ≡ stack_at self.now.strip.drawn self.now.strip.pages_a_bar self.now.strip.width self.now.pages.pages.now self.now.pages.size self.now.pages.tail bar }
    {
        let strip = self.strip;
        let first = strip.drawn.min(bar * strip.pages_a_bar);
        let end = strip.drawn.min(first + strip.pages_a_bar);
        Stack {
            column: self.pages.column(first, end),
            x: 40 + bar * strip.width,
            width: strip.width - 1,
        }
    }
}

impl fmt::Display for Bars<'_> {
    ghost output = { λ it. Some (strip_text it.strip.drawn it.strip.pages_a_bar it.strip.bars it.strip.width it.pages.pages.now it.pages.size it.pages.tail) };

    #[tactic(auto, unfolding(crate::specs::Strips::strip_text, crate::specs::Each::each_below))]
    fn fmt<W: fmt::Write>(&self, f: &mut fmt::Formatter<W>) -> fmt::Result {
        for bar in 0..self.strip.bars {
            write!(f, "{}", self.stack(bar))?;
        }
        Ok(())
    }
}
