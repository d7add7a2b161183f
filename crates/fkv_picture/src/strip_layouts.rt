//! How the pages of a log are laid out as bars.
ghost use Rattle.std.specs.Prelude.{◌≡◌, ◌≤◌, ◌^◌};
ghost use Rattle.fkv_picture.specs.StripLayouts.{bars_a_strip, drawn_pages, pages_a_bar, width_of_bars};

use fkv_base::Shape;

/// How the pages of a log are laid out.
#[derive(Clone, Copy)]
pub(crate) struct Strip {
    /// The pages that are drawn, from page 0 on.
    pub(crate) drawn: u64,
    /// Pages to a bar.
    pub(crate) pages_a_bar: u64,
    /// Bars.
    pub(crate) bars: u64,
    /// How wide a bar is, with the gap behind it.
    pub(crate) width: u64,
    ghost few_pages: { drawn ≤ 2 ^ 30 },
    ghost some_pages: { 1 ≤ pages_a_bar },
    ghost few_a_bar: { pages_a_bar ≤ 2 ^ 30 },
    ghost few_bars: { bars ≤ 112 },
    ghost narrow: { width ≤ 80 },
    ghost visible: { 1 ≤ width },
}

/// How the pages are laid out, if so many of those on the device are in use. All are drawn if they fit, a page to a bar. Else those in
/// use are drawn, and the next ones if they fit.
pub(crate) fn strip_of(shape: Shape, used: u64) -> Strip
    ensures drawn { result.drawn ≡ drawn_pages shape.disk_pages used }
    ensures pages_a_bar { result.pages_a_bar ≡ pages_a_bar result.drawn }
    ensures bars { result.bars ≡ bars_a_strip result.drawn result.pages_a_bar }
    ensures width { result.width ≡ width_of_bars result.bars }
{
    let drawn = shape.disk_pages.min(used.max(112));
    let pages_a_bar = (drawn + 111) / 112;
    let bars = (drawn + pages_a_bar - 1) / pages_a_bar;
    Strip {
        drawn,
        pages_a_bar,
        bars,
        width: (1120 / bars).min(80),
    }
}
