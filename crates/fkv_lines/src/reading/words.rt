//! Lines and words of a script.
ghost use Rattle.std.specs.Prelude.{◌≡◌, ◌<◌, ◌==◌, ◌∷◌, IfOk, length, position};
ghost use Rattle.fkv_lines.specs.Reading.{texts};
ghost use Rattle.fkv_lines.specs.Words.{lines_of, words_of, says_nothing, is_oversized};

use std::alloc::{AllocError, Global};

/// The most bytes of a line.
pub const MOST_BYTES: usize = 200;

/// The most lines of a script.
pub const MOST_LINES: u64 = 65536;

/// The first line, without its LF, and what stands behind it.
pub(super) fn first_line(bytes: &[u8]) -> (&[u8], &[u8])
    requires { 0 < length bytes.now }
    ensures parts { lines_of bytes.now ≡ result.0.now ∷ lines_of result.1.now }
    ensures shorter { length result.1.now < length bytes.now }
{
    match line_end(bytes) {
        Some(end) => (&bytes[..end], &bytes[end + 1..]),
        None => (bytes, &[]),
    }
}

/// Where the first LF stands.
fn line_end(bytes: &[u8]) -> Option<usize>
    ensures { result ≡ position (λ byte. byte == 10) bytes.now }
{
    bytes.iter().position(|byte| *byte == b'\n')
}

/// Whether a line is too long, or by its number, counted from 1, one too many.
pub(super) fn is_oversized(number: u64, line: &[u8]) -> bool
    ensures { result ≡ is_oversized number line.now }
{
    line.len() > MOST_BYTES || number > MOST_LINES
}

/// The words of a line, which stand between spaces.
pub(super) fn words_of(alloc: Global, line: &[u8]) -> Result<Vec<&[u8]>, AllocError>
    ensures { IfOk result (λ words. texts words.items ≡ words_of line.now) }
{
    line.split(|byte| *byte == b' ')
        .filter(|word| !word.is_empty())
        .collect(alloc)
}

/// Whether a line of these words is to be skipped: a comment, or a line without a word.
pub(super) fn says_nothing(line: &[u8], words: &[&[u8]]) -> bool
    requires { texts words.now ≡ words_of line.now }
    ensures { result ≡ says_nothing line.now }
{
    line.starts_with(b"#") || words.is_empty()
}
