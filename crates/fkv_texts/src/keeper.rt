//! The lines of the keeper.
ghost use Rattle.std.specs.Prelude.{OnOk};
ghost use Rattle.std.specs.Io.KnownBytes.{Appends};
ghost use Rattle.fkv_texts.specs.Keeper.{commit_text, finished_commit_text, turn_head, turn_line, turn_text, wants_text, nothing_to_finish, not_finished};

use crate::lines::{PhaseText, write_keys, write_points};
use crate::refusals::write_keeper_refusal;
use fkv_base::{Fault, Key, Phase, Version};
use fkv_keeper::{Finished, Turn};
use std::io::{self, Write};

/// The answer to the start of a commit: `k commit 1`, or its refusal.
///
/// An error is the output's own; it may have taken a part of the line then.
pub fn write_commit<W: Write>(output: &mut W, begun: Result<Version, Fault>) -> io::Result<()>
    ensures { OnOk result (Appends (W.contents output.old) (W.contents output.new) (commit_text begun)) }
{
    match begun {
        Ok(number) => writeln!(output, "k commit {}", number.0),
        Err(fault) => write_keeper_refusal(output, fault),
    }
}

/// The answer to a turn: `k turn prepare 1`, with ` drain full` behind it where a part was left to a later turn for want of a
/// drain slot, and ` wants 7 9` where a sweep has found these keys wanted. Then the line of the commit that it has finished, if it
/// has finished one; or its refusal. The phase and the version are those of the phase word after the turn; a refusal has no word of them.
///
/// An error is the output's own; it may have taken some of the lines then, and a part of one.
pub fn write_turn<W: Write>(
    output: &mut W,
    phase: Phase,
    version: Version,
    wanted: &[Key],
    turn: &Result<Turn, Fault>,
) -> io::Result<()>
    ensures { OnOk result (Appends (W.contents output.old) (W.contents output.new) (turn_text phase version wanted.now turn.now)) }
{
    match turn {
        Ok(turn) => {
            write_turn_line(output, PhaseText(phase, version), turn.drain_full, wanted)?;
            match &turn.finished {
                Some(commit) => write_finished_commit(output, commit),
                None => Ok(()),
            }
        }
        Err(fault) => write_keeper_refusal(output, *fault),
    }
}

fn write_turn_line<W: Write>(
    output: &mut W,
    after: PhaseText,
    drain_full: bool,
    wanted: &[Key],
) -> io::Result<()>
    ensures { OnOk result (Appends (W.contents output.old) (W.contents output.new) (turn_line after.0 after.1 drain_full wanted.now)) }
{
    write_turn_head(output, after, drain_full)?;
    write_wants(output, wanted)?;
    writeln!(output)
}

/// `k turn prepare 1`, and ` drain full` behind it where a part was left to a later turn.
fn write_turn_head<W: Write>(output: &mut W, after: PhaseText, drain_full: bool) -> io::Result<()>
    ensures { OnOk result (Appends (W.contents output.old) (W.contents output.new) (turn_head after.0 after.1 drain_full)) }
{
    if drain_full {
        write!(output, "k turn{after} drain full")
    } else {
        write!(output, "k turn{after}")
    }
}

/// The keys that a sweep wants: ` wants 7 9`, and nothing where there are none.
fn write_wants<W: Write>(output: &mut W, wanted: &[Key]) -> io::Result<()>
    ensures { OnOk result (Appends (W.contents output.old) (W.contents output.new) (wants_text wanted.now)) }
{
    if wanted.is_empty() {
        return Ok(());
    }
    write!(output, " wants")?;
    write_keys(output, wanted)
}

/// A commit that is finished, by its number and the point of each session: `k finished 1 points 2 3`.
///
/// An error is the output's own; it may have taken a part of the line then.
pub fn write_finished_commit<W: Write>(output: &mut W, commit: &Finished) -> io::Result<()>
    ensures { OnOk result (Appends (W.contents output.old) (W.contents output.new) (finished_commit_text commit.now)) }
{
    write!(output, "k finished {} points", commit.number.0)?;
    write_points(output, commit.points.as_slice())?;
    writeln!(output)
}

/// The answer to a finish where no commit runs: `k finish nothing`.
///
/// An error is the output's own; it may have taken a part of the line then.
pub fn write_nothing_to_finish<W: Write>(output: &mut W) -> io::Result<()>
    ensures { OnOk result (Appends (W.contents output.old) (W.contents output.new) nothing_to_finish) }
{
    writeln!(output, "k finish nothing")
}

/// The answer to a finish whose rounds were not enough for its commit: `k finish not finished`.
///
/// An error is the output's own; it may have taken a part of the line then.
pub fn write_not_finished<W: Write>(output: &mut W) -> io::Result<()>
    ensures { OnOk result (Appends (W.contents output.old) (W.contents output.new) not_finished) }
{
    writeln!(output, "k finish not finished")
}
