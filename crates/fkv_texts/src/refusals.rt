//! Refusals: of a session's line, of a line of the keeper, and the one that ends a run.
ghost use Rattle.std.specs.Prelude.{OnOk, Some};
ghost use Rattle.std.specs.Io.KnownBytes.{Appends};
ghost use Rattle.fkv_texts.specs.Refusals.{session_refusal, keeper_refusal, last_refusal};

use fkv_base::Fault;
use std::fmt;
use std::io::{self, Write};

/// A fault by its number and its name; that of a damaged image with what is damaged, and where.
#[derive(Clone, Copy)]
pub(crate) struct Refusal(pub(crate) Fault);

impl fmt::Display for Refusal {
    ghost use Rattle.fkv_texts.specs.Refusals.{refusal_text};

    ghost output = { λ refusal. Some (refusal_text refusal.0) };

    fn fmt<W: fmt::Write>(&self, f: &mut fmt::Formatter<W>) -> fmt::Result {
        let fault = self.0;
        let (number, name) = (fault.number(), fault.name());
        match fault {
            Fault::Damaged(part, place) => {
                let part = part.name();
                write!(f, "refused {number} {name}({part}, {place})")
            }
            _ => write!(f, "refused {number} {name}"),
        }
    }
}

/// The refusal of a line of this session, as `0 refused 12 Asleep`. The session may be one that the store hasn't.
///
/// An error is the output's own; it may have taken a part of the line then.
pub fn write_session_refusal<W: Write>(output: &mut W, session: u64, fault: Fault) -> io::Result<()>
    ensures { OnOk result (Appends (W.contents output.old) (W.contents output.new) (session_refusal session fault)) }
{
    let refusal = Refusal(fault);
    writeln!(output, "{session} {refusal}")
}

/// The refusal of a line of the keeper, as `k refused 10 CommitRunning`.
///
/// An error is the output's own; it may have taken a part of the line then.
pub fn write_keeper_refusal<W: Write>(output: &mut W, fault: Fault) -> io::Result<()>
    ensures { OnOk result (Appends (W.contents output.old) (W.contents output.new) (keeper_refusal fault)) }
{
    let refusal = Refusal(fault);
    writeln!(output, "k {refusal}")
}

/// The refusal that ends a run, as `refused 1 BadShape`.
///
/// An error is the output's own; it may have taken a part of the line then.
pub fn write_refusal<W: Write>(output: &mut W, fault: Fault) -> io::Result<()>
    ensures { OnOk result (Appends (W.contents output.old) (W.contents output.new) (last_refusal fault)) }
{
    let refusal = Refusal(fault);
    writeln!(output, "{refusal}")
}
