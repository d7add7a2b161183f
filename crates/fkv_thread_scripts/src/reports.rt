//! What is told of a script that ran on threads, behind the crash that ends it.
ghost use Rattle.std.specs.Prelude.{◌≡◌, ◌↔◌, true, IfErr, IfOk, OnOk};
ghost use Rattle.std.specs.Io.KnownBytes.{Appends};
ghost use Rattle.fkv_thread_scripts.specs.Keys.{IsKeysLine, IsUncompared, map_of, told_map};
ghost use Rattle.fkv_thread_scripts.specs.Reports.{IsLastFinished, agrees, keys_text, points_text, threads_report_text};

use crate::keys::keys_line;
use crate::logs::Log;
use crate::maps::{map_of, told_map};
use fkv_base::{Fault, Key, Value, Version};
use fkv_keeper::Finished;
use fkv_lines::Line;
use fkv_opening::Opened;
use std::alloc::Global;
use std::io::{self, Write};

/// How the keys of a script compare with what is recovered.
#[derive(Clone, Copy)]
pub enum Keys {
    /// So many keys are compared, and each holds what its sessions' updates up to their points give.
    Agree(u64),
    /// The first one that doesn't.
    Differs(Key),
}

/// What is told of a script that ran on threads. It is the same whatever the schedule was.
#[derive(Clone, Copy)]
pub struct Report {
    /// The number of the recovered commit.
    pub number: Version,
    /// It is the last finished one, and so are its points.
    pub points_agree: bool,
    pub keys: Keys,
}

impl Report {
    /// Whether nothing differs.
    pub fn agrees(&self) -> bool
        ensures { result ≡ agrees self.now }
    {
        let Report {
            points_agree,
            keys,
            ..
        } = self;
        match *keys {
            Keys::Agree(_) => *points_agree,
            Keys::Differs(_) => false,
        }
    }
}

/// The report of a script's lines over a store that was recovered, with these pairs in ascending order of their keys, by what sessions and keeper were told.
/// A key is compared if one session alone updates it, or if they all add to it and the sum stays below 2^64 - 1. Then the store has for it what the
/// updates make that sessions were told, up to their points. `Memory` where memory was refused, and `ValueReserved` where such an update, or a pair,
/// brings 2^64 - 1.
pub fn report_of(
    alloc: Global,
    lines: &[Line],
    logs: &[Log],
    finished: &Option<Finished>,
    opened: &Opened,
    pairs: &[(Key, Value)],
) -> Result<Report, Fault>
    ensures number { IfOk result (λ report. report.number ≡ opened.now.number) }
    ensures points { IfOk result (λ report. (report.points_agree ≡ true) ↔ IsLastFinished finished.now opened.now.number opened.now.points.items) }
    ensures keys { IfOk result (λ report. IsKeysLine lines.now (told_map opened.now.points.items logs.now) (map_of pairs.now) report.keys) }
    ensures cause { IfErr result (IsUncompared opened.now.points.items logs.now pairs.now) }
{
    let told = told_map(alloc, &opened.points, logs)?;
    let stored = map_of(alloc, pairs)?;
    let keys = keys_line(alloc, lines, told, stored)?;
    Ok(Report {
        number: opened.number,
        points_agree: is_last(finished, opened),
        keys,
    })
}

/// Whether the recovered commit is the last that was told as finished; of none, commit 0 with points that are 0.
fn is_last(finished: &Option<Finished>, opened: &Opened) -> bool
    ensures { (result ≡ true) ↔ IsLastFinished finished.now opened.now.number opened.now.points.items }
{
    match finished {
        Some(its) => {
            its.number == opened.number && its.points.as_slice() == opened.points.as_slice()
        }
        None => opened.number == Version(0) && opened.points.iter().all(|point| point.0 == 0),
    }
}

/// Writes a report: `commit 3`, `points agree` and `keys agree 4`; or `points differ`, or `key 7 differs`.
///
/// An error is the output's own; it may have taken some of the lines then, and a part of one.
pub fn write_threads_report<W: Write>(output: &mut W, report: Report) -> io::Result<()>
    ensures { OnOk result (Appends (W.contents output.old) (W.contents output.new) (threads_report_text report)) }
{
    let number = report.number.0;
    writeln!(output, "commit {number}")?;
    write_points(output, report.points_agree)?;
    write_keys(output, report.keys)
}

fn write_points<W: Write>(output: &mut W, agree: bool) -> io::Result<()>
    ensures { OnOk result (Appends (W.contents output.old) (W.contents output.new) (points_text agree)) }
{
    if agree {
        writeln!(output, "points agree")
    } else {
        writeln!(output, "points differ")
    }
}

fn write_keys<W: Write>(output: &mut W, keys: Keys) -> io::Result<()>
    ensures { OnOk result (Appends (W.contents output.old) (W.contents output.new) (keys_text keys)) }
{
    match keys {
        Keys::Agree(count) => writeln!(output, "keys agree {count}"),
        Keys::Differs(key) => {
            let key = key.0;
            writeln!(output, "key {key} differs")
        }
    }
}
