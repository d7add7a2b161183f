//! Where the words lie in the table.
ghost use Rattle.std.specs.Prelude.{◌≡◌, ◌+◌, ◌<◌, ◌≤◌, ◌^◌, ℕ, List, length, slice_index_or, slice_set};
ghost use Rattle.fkv_table.specs.Said as said;

/// Each place has a position of its own, below the count of positions. There the table has the word of the place, and where this changes, no other
/// position's word does.
pub fn law_positions()
    ensures apart { (place other : ℕ) → said.position place ≡ said.position other → place ≡ other }
    ensures below { (place count : ℕ) → place < count → said.position place < count + said.gaps }
    ensures found { (words : List ℕ) (place : ℕ) → place < length words → slice_index_or (said.laid words) (said.position place) 0 ≡ said.word_at words place }
    ensures changed { (words : List ℕ) (place word : ℕ) → place < length words
        → said.laid (slice_set words place word) ≡ slice_set (said.laid words) (said.position place) word }
{}

/// Which places an ask may be of, as far as its caller knows.
#[derive(Clone, Copy)]
pub(crate) enum Part {
    Any,
    /// Those behind the shared words.
    Past,
}

/// The position of the word of a place. Where the caller knows that it lies behind the shared words, nothing is asked.
#[inline(always)]
pub(crate) fn position(place: usize, part: Part) -> usize
    requires fits { place < 2 ^ 62 }
    requires past { part ≡ said.Past → 24 ≤ place }
    ensures { result ≡ said.position place }
{
    if matches!(part, Part::Past) {
        return place + 40;
    }
    if place >= 24 {
        return place + 40;
    }
    match place {
        3 => 32,
        10 => 48,
        other => other,
    }
}
