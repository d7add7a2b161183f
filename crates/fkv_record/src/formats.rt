//! The formats of a manifest slot.
ghost use Rattle.std.specs.Prelude.{◌≡◌};

/// Which layout a manifest slot has. What is written now has the third, or the fourth where its log doesn't begin at the first
/// record; older images have slots of the first two.
#[derive(Clone, Copy, Debug, PartialEq, Eq)]
pub enum Format {
    /// A commit uses its own checkpoint, and at most eight sessions have points.
    First,
    /// A commit may use an earlier one's checkpoint, and then names the ranges of records that were lost.
    Second,
    /// As the second, but with a place for a point of each of 32 sessions.
    Third,
    /// As the third, but with a place for the address at which the log begins.
    Fourth,
}

impl Format {
    ghost use Rattle.fkv_words.specs.Fields.{Reads};
    ghost use Rattle.fkv_record.specs.Formats.{format_number, point_places};

    /// The format that the number at byte 504 names.
    pub(crate) fn of(number: u64) -> Option<Format>
        ensures { Reads format_number number result }
    {
        match number {
            0 => Some(Format::First),
            2 => Some(Format::Second),
            3 => Some(Format::Third),
            4 => Some(Format::Fourth),
            _ => None,
        }
    }

    /// The number at byte 504.
    pub(crate) fn number(self) -> u64
        ensures { result ≡ format_number self }
    {
        match self {
            Format::First => 0,
            Format::Second => 2,
            Format::Third => 3,
            Format::Fourth => 4,
        }
    }

    /// How many places for points there are.
    pub(crate) fn point_places(self) -> usize
        ensures { result ≡ point_places self }
    {
        match self {
            Format::First | Format::Second => 8,
            Format::Third | Format::Fourth => 32,
        }
    }
}
