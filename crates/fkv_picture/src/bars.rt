//! A filled rectangle.
ghost use Rattle.std.specs.Prelude.{Some};
ghost use Rattle.fkv_picture.specs.Bars.{bar_text, size_text};

use std::fmt;

/// How large a rectangle is.
#[derive(Clone, Copy)]
pub(crate) struct Size {
    pub(crate) width: u64,
    pub(crate) height: u64,
}

impl fmt::Display for Size {
    ghost output = { λ size. Some (size_text size.width size.height) };

    #[tactic(auto, unfolding(crate::specs::Bars::size_text))]
    fn fmt<W: fmt::Write>(&self, f: &mut fmt::Formatter<W>) -> fmt::Result {
        write!(f, "width='{}' height='{}'", self.width, self.height)
    }
}

/// A rectangle, filled as the style says of its ink.
#[derive(Clone, Copy)]
pub(crate) struct Bar {
    pub(crate) ink: &'static str,
    pub(crate) x: u64,
    pub(crate) y: u64,
    pub(crate) size: Size,
}

impl fmt::Display for Bar {
    ghost output = { λ bar. Some (bar_text bar.ink.now bar.x bar.y bar.size.width bar.size.height) };

    #[tactic(auto, unfolding(crate::specs::Bars::bar_text))]
    fn fmt<W: fmt::Write>(&self, f: &mut fmt::Formatter<W>) -> fmt::Result {
        let (ink, x, y) = (self.ink, self.x, self.y);
        write!(f, "<rect class='{ink}' x='{x}' y='{y}' {}/>", self.size)
    }
}
