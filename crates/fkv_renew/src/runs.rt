//! Whole runs of the program.
ghost use Rattle.std.specs.Prelude.{◌≡◌, ℕ};
ghost use Rattle.fkv_renew.specs.Said as said;

use crate::answers::{Answer, answer_words, refuse_words};
use crate::telling::Teller;
use crate::words::WordFault;
use fkv_files::StorePlaces;
use fkv_runs::write_text;
use std::alloc::Global;
use std::io::{self, Write};

/// Runs the program: does what the words after its name ask for, and writes its answer. The status is 0; 2 where the words or the sizes
/// are refused; 3 where a store or a file is. An `Err` is memory that was refused, or a writer that failed: then what is written is a
/// beginning of an answer.
pub fn run<S: StorePlaces, W: Write, E: Write>(
    places: &S,
    alloc: Global,
    words: &[&str],
    output: &mut W,
    teller: &mut Teller<E>,
) -> io::Result<u8>
    ensures whole { said.IfOk result (λ status. said.Writes (said.IsAnswer (said.files_of S.Disk.honest S.Disk.seen S.Disk.may_leave (S.is_opened places.now) (S.is_named places.now)) (said.texts words.now) status) (W.contents output.old) (W.contents output.new)) }
    ensures part { said.OnErr result (said.BreaksOff (λ text. (status : ℕ) × said.IsAnswer (said.files_of S.Disk.honest S.Disk.seen S.Disk.may_leave (S.is_opened places.now) (S.is_named places.now)) (said.texts words.now) status text) (W.contents output.old) (W.contents output.new)) }
{
    let answer = answer_words(places, alloc, words, teller)?;
    write_answer(&answer, output)
}

/// Words of which one is no text are none that the program takes: writes the line `options`, and a line of complaint.
pub fn refuse_unread<W: Write, E: Write>(
    alloc: Global,
    output: &mut W,
    teller: &mut Teller<E>,
) -> io::Result<u8>
    ensures whole { said.IfOk result (λ status. said.Writes (said.IsUnreadAnswer status) (W.contents output.old) (W.contents output.new)) }
    ensures part { said.OnErr result (said.BreaksOff (said.IsUnreadAnswer 2) (W.contents output.old) (W.contents output.new)) }
{
    let answer = refuse_words(alloc, WordFault::Refused, teller)?;
    write_answer(&answer, output)
}

/// Writes the text of an answer; the status is its own.
fn write_answer<W: Write>(answer: &Answer, output: &mut W) -> io::Result<u8>
    ensures status { said.IfOk result (λ status. status ≡ answer.now.status) }
    ensures whole { said.IfOk result (λ status. said.Appends (W.contents output.old) (W.contents output.new) answer.now.text.items) }
    ensures part { said.OnErr result (said.BreaksOff (λ text. text ≡ answer.now.text.items) (W.contents output.old) (W.contents output.new)) }
{
    write_text(output, answer.text.as_slice())?;
    Ok(answer.status)
}
