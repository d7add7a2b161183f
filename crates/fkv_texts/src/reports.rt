//! Reports of a recovered store.
ghost use Rattle.std.specs.Prelude.{◌≡◌, OnOk};
ghost use Rattle.std.specs.Io.KnownBytes.{Appends};
ghost use Rattle.std.specs.List.{flat_map};
ghost use Rattle.fkv_texts.specs.Reports.{opening_name, report_line, pair_line, report_text, check_text};

use crate::lines::write_points;
use fkv_base::{Key, Serial, Value, Version};
use std::io::{self, Write};

/// Why a store was recovered.
#[derive(Clone, Copy, Debug, PartialEq, Eq)]
pub enum Opening {
    /// A crash was taken.
    Crash,
    /// The script opens a file.
    Open,
}

impl Opening {
    fn name(self) -> &'static str
        ensures { result.now ≡ opening_name self }
    {
        match self {
            Opening::Crash => "crash",
            Opening::Open => "open",
        }
    }
}

/// The report of a recovered store: the number of its newest commit, 0 of a new store, the point of each session, how many
/// pairs it has, and then a line for each pair, in their order, as `pair 7 10`. The first line is `crash commit 1 points 2 3
/// pairs 4`, or the same with `open`.
///
/// An error is the output's own; it may have taken some of the lines then, and a part of one.
pub fn write_report<W: Write>(
    output: &mut W,
    opening: Opening,
    number: Version,
    points: &[Serial],
    pairs: &[(Key, Value)],
) -> io::Result<()>
    ensures { OnOk result (Appends (W.contents output.old) (W.contents output.new)
        (report_text opening number points.now pairs.now)) }
{
    write_report_line(output, opening, number, points, pairs.len())?;
    write_pairs(output, pairs)
}

fn write_report_line<W: Write>(
    output: &mut W,
    opening: Opening,
    number: Version,
    points: &[Serial],
    count: usize,
) -> io::Result<()>
    ensures { OnOk result (Appends (W.contents output.old) (W.contents output.new)
        (report_line opening number points.now count)) }
{
    let (name, number) = (opening.name(), number.0);
    write!(output, "{name} commit {number} points")?;
    write_points(output, points)?;
    writeln!(output, " pairs {count}")
}

fn write_pairs<W: Write>(output: &mut W, pairs: &[(Key, Value)]) -> io::Result<()>
    ensures { OnOk result (Appends (W.contents output.old) (W.contents output.new) (flat_map pair_line pairs.now)) }
{
    for pair in pairs {
        write_pair(output, *pair)?;
    }
    Ok(())
}

fn write_pair<W: Write>(output: &mut W, pair: (Key, Value)) -> io::Result<()>
    ensures { OnOk result (Appends (W.contents output.old) (W.contents output.new) (pair_line pair)) }
{
    let (key, value) = (pair.0.0, pair.1.0);
    writeln!(output, "pair {key} {value}")
}

/// What a check says of a report: `check recovered equals replay`, or that the two differ.
///
/// An error is the output's own; it may have taken a part of the line then.
pub fn write_check<W: Write>(output: &mut W, equals_replay: bool) -> io::Result<()>
    ensures { OnOk result (Appends (W.contents output.old) (W.contents output.new) (check_text equals_replay)) }
{
    if equals_replay {
        writeln!(output, "check recovered equals replay")
    } else {
        writeln!(output, "check recovered differs")
    }
}
