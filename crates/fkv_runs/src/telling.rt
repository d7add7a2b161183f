//! Writing of texts.
ghost use Rattle.std.specs.Prelude.{◌≡◌, OnErr, OnOk};
ghost use Rattle.std.specs.Io.KnownBytes.{Appends};
ghost use Rattle.fkv_runs.specs.Beginnings.{BreaksOff};

use std::io::{self, Write};

/// Writes a text. Where the writer fails, a beginning of it is written.
pub fn write_text<W: Write>(output: &mut W, text: &[u8]) -> io::Result<()>
    ensures whole { OnOk result (Appends (W.contents output.old) (W.contents output.new) text.now) }
    ensures part { OnErr result (BreaksOff (λ its. its ≡ text.now) (W.contents output.old) (W.contents output.new)) }
{
    let mut at = 0;
    for _ in 0..u64::MAX {
        if at >= text.len() {
            return Ok(());
        }
        match output.write(&text[at..]) {
            Ok(0) => return Err(io::ErrorKind::WriteZero.into()),
            Ok(count) => at += count,
            Err(error) if error.kind() == io::ErrorKind::Interrupted => {}
            Err(error) => return Err(error),
        }
    }
    // No text is written in so many tries.
    Err(io::ErrorKind::Other.into())
}
