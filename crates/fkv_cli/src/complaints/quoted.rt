//! A word of somebody else's, as a complaint shows it.
use std::fmt;

/// So many bytes of a word are shown.
const LONGEST: usize = 40;

/// A word in quotes, with what is no printable ASCII escaped. A long one is cut, and ends with `..`.
#[derive(Clone, Copy)]
pub(crate) struct Quoted<'a>(pub(super) &'a [u8]);

impl fmt::Display for Quoted<'_> {
    fn fmt<W: fmt::Write>(&self, f: &mut fmt::Formatter<W>) -> fmt::Result {
        let word = self.0;
        let (front, end) = match word.get(..LONGEST) {
            Some(front) if front.len() < word.len() => (front, ".."),
            _ => (word, ""),
        };
        let front = front.escape_ascii();
        write!(f, "\"{front}{end}\"")
    }
}
