//! That the log with which the life of an opened store begins has numbers that fit in a word.
ghost use Rattle.law_order.specs.Served.Laws.{OpensWithFittingCells};

use law_opening::law_log_counted;

/// The log of an opened store has numbers that fit in a word: the key of each of its records, and its value if it has one. What it has are records that
/// stand in the image, and eight bytes spell no others.
pub fn law_opening_fits()
    ensures { OpensWithFittingCells }
{
    law_log_counted();
}
