//! What a line says, by its words.
ghost use Rattle.std.specs.Prelude.{◌≡◌};
ghost use Rattle.fkv_lines.specs.Reading.{texts};
ghost use Rattle.fkv_lines.specs.Lines.{is_opening, opening_line, shape_line, open_line, later_line, crash_line, fail_line, keeper_line, commit_line, session_line, device_call, in_memory};

use crate::reading::calls::{alone, call_of};
use crate::reading::numbers::{arguments_of, number_of};
use crate::scripts::{Line, Mode, Opening, Sizes};
use fkv_base::{CommitKind, ScriptFault, StoreClass};

/// The first line that says something: `shape` or `large` and seven numbers, or `open`.
#[tactic(auto, unfolding(crate::specs::Lines::opening_line))]
pub(super) fn opening_line(mode: Mode, words: &[&[u8]]) -> Result<Opening, ScriptFault>
    ensures { result ≡ opening_line mode (texts words.now) }
{
    let [head, words @ ..] = words else {
        return Err(ScriptFault::Order);
    };
    match *head {
        b"shape" => shape_line(StoreClass::Specified, words),
        b"large" => shape_line(StoreClass::Living, words),
        b"open" => open_line(mode, words),
        _ => Err(ScriptFault::Order),
    }
}

/// What stands behind `shape` or `large`: seven numbers.
#[tactic(auto, unfolding(crate::specs::Lines::shape_line))]
fn shape_line(class: StoreClass, words: &[&[u8]]) -> Result<Opening, ScriptFault>
    ensures { result ≡ shape_line class (texts words.now) }
{
    let [
        bucket_bits,
        page,
        frames,
        mutable,
        sessions,
        overflow,
        disk_pages,
    ] = arguments_of::<7>(words)?;
    Ok(Opening::Shape(Sizes {
        class,
        bucket_bits,
        page,
        frames,
        mutable,
        sessions,
        overflow,
        disk_pages,
    }))
}

/// What stands behind `open`: nothing. A store in memory can't be opened.
#[tactic(auto, unfolding(crate::specs::Lines::open_line))]
fn open_line(mode: Mode, words: &[&[u8]]) -> Result<Opening, ScriptFault>
    ensures { result ≡ open_line mode (texts words.now) }
{
    let open = alone(words, Opening::Open)?;
    match mode {
        Mode::Memory => Err(ScriptFault::Mode),
        Mode::File => Ok(open),
    }
}

/// A later line: a `crash` or a `fail`, the keeper's behind `k`, or a session's behind its number.
#[tactic(auto, unfolding(crate::specs::Lines::later_line))]
pub(super) fn later_line(mode: Mode, opening: Opening, words: &[&[u8]]) -> Result<Line, ScriptFault>
    ensures { result ≡ later_line mode opening (texts words.now) }
{
    let [head, words @ ..] = words else {
        return Err(ScriptFault::Word);
    };
    if is_opening(head) {
        return Err(ScriptFault::Order);
    }
    match *head {
        b"crash" => in_memory(mode, crash_line(words)?),
        b"fail" => in_memory(mode, fail_line(words)?),
        b"k" => keeper_line(opening, words),
        [b'0'..=b'9', ..] => session_line(opening, head, words),
        _ => Err(ScriptFault::Word),
    }
}

/// Whether a line with this first word opens a store.
fn is_opening(head: &[u8]) -> bool
    ensures { result ≡ is_opening head.now }
{
    head == b"shape".as_slice() || head == b"large".as_slice() || head == b"open".as_slice()
}

/// A line that a store in memory alone serves.
#[tactic(auto, unfolding(crate::specs::Lines::in_memory))]
fn in_memory(mode: Mode, line: Line) -> Result<Line, ScriptFault>
    ensures { result ≡ in_memory mode line }
{
    match mode {
        Mode::Memory => Ok(line),
        Mode::File => Err(ScriptFault::Mode),
    }
}

/// What stands behind `crash`: nothing, or the number of a device call.
#[tactic(auto, unfolding(crate::specs::Lines::crash_line))]
fn crash_line(words: &[&[u8]]) -> Result<Line, ScriptFault>
    ensures { result ≡ crash_line (texts words.now) }
{
    match words {
        [] => Ok(Line::Crash),
        [word] => Ok(Line::CrashAt(device_call(word)?)),
        _ => Err(ScriptFault::Count),
    }
}

/// What stands behind `fail`: the number of a device call.
#[tactic(auto, unfolding(crate::specs::Lines::fail_line))]
fn fail_line(words: &[&[u8]]) -> Result<Line, ScriptFault>
    ensures { result ≡ fail_line (texts words.now) }
{
    match words {
        [word] => Ok(Line::FailAt(device_call(word)?)),
        _ => Err(ScriptFault::Count),
    }
}

/// The number of a device call, counted from 1.
#[tactic(auto, unfolding(crate::specs::Lines::device_call))]
fn device_call(word: &[u8]) -> Result<u64, ScriptFault>
    ensures { result ≡ device_call word.now }
{
    match number_of(word)? {
        0 => Err(ScriptFault::Number),
        call => Ok(call),
    }
}

/// What stands behind `k`: `commit`, `turn` or `finish`.
#[tactic(auto, unfolding(crate::specs::Lines::keeper_line))]
fn keeper_line(opening: Opening, words: &[&[u8]]) -> Result<Line, ScriptFault>
    ensures { result ≡ keeper_line opening (texts words.now) }
{
    let [verb, words @ ..] = words else {
        return Err(ScriptFault::Count);
    };
    match *verb {
        b"commit" => commit_line(opening, words),
        b"turn" => alone(words, Line::Turn),
        b"finish" => alone(words, Line::Finish),
        _ => Err(ScriptFault::Word),
    }
}

/// What stands behind `k commit`: nothing, `log`, or in a living store `trim`.
#[tactic(auto, unfolding(crate::specs::Lines::commit_line))]
fn commit_line(opening: Opening, words: &[&[u8]]) -> Result<Line, ScriptFault>
    ensures { result ≡ commit_line opening (texts words.now) }
{
    let [kind, words @ ..] = words else {
        return Ok(Line::Commit(CommitKind::Full));
    };
    match *kind {
        b"log" => alone(words, Line::Commit(CommitKind::Log)),
        b"trim" if opening.opens_living() => alone(words, Line::Trim),
        _ => Err(ScriptFault::Word),
    }
}

/// A call, behind the number of its session.
#[tactic(auto, unfolding(crate::specs::Lines::session_line))]
fn session_line(opening: Opening, session: &[u8], words: &[&[u8]]) -> Result<Line, ScriptFault>
    ensures { result ≡ session_line opening session.now (texts words.now) }
{
    let [verb, words @ ..] = words else {
        return Err(ScriptFault::Count);
    };
    let call = call_of(opening, verb, words)?;
    Ok(Line::Call(number_of(session)?, call))
}
