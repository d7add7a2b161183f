//! From the bytes of a script to what its lines say.
ghost use Rattle.std.specs.Prelude.{◌≡◌, MatchResult, Ok, Err};
ghost use Rattle.fkv_lines.specs.Script.{script_of};
ghost use Rattle.fkv_lines.specs.Reading.{Reads};

mod calls;
mod kinds;
mod numbers;
mod words;

use crate::scripts::{Mode, Script};
use fkv_base::{Fault, ScriptFault};
use kinds::{later_line, opening_line};
use std::alloc::Global;
use words::{first_line, is_oversized, says_nothing, words_of};
pub use words::{MOST_BYTES, MOST_LINES};

/// Reads a script for a store that lies where the mode says: what its lines say; or `Script` with the number of its first
/// faulty line, counted from 1, and the first kind of fault that the line has; or `Memory` where memory was refused.
pub fn script_of(alloc: Global, bytes: &[u8], mode: Mode) -> Result<Script, Fault>
    ensures { Reads (script_of mode bytes.now) result }
{
    let mut script = Script {
        opening: None,
        lines: Vec::new(alloc),
    };
    let mut rest = bytes;
    let mut number = 0;
    while !rest.is_empty() {
        let (line, after) = first_line(rest);
        number += 1;
        if is_oversized(number, line) {
            return Err(Fault::Script(number, ScriptFault::Size));
        }
        rest = after;
        let words = words_of(alloc, line)?;
        if says_nothing(line, &words) {
            continue;
        }
        match script.opening {
            None => script.opening = Some(at_line(number, opening_line(mode, &words))?),
            Some(opening) => script
                .lines
                .push(at_line(number, later_line(mode, opening, &words))?)?,
        }
    }
    Ok(script)
}

/// A fault of a line, with the line's number.
fn at_line<T: Drop>(number: u64, read: Result<T, ScriptFault>) -> Result<T, Fault>
    ensures { MatchResult read (λ x. result ≡ Ok x) (λ kind. result ≡ Err (Fault.Script number kind)) }
{
    read.map_err(|kind| Fault::Script(number, kind))
}
