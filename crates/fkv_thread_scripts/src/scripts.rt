//! Scripts whose lines run on threads.
ghost use Rattle.std.specs.Prelude.{◌≡◌, ◌⊎◌, ◌&&◌, true, false, not, is_some, IfErr, IfNone, IfOk, IfSome, Ok};
ghost use Rattle.fkv_lines.specs.Reading.{script_text};
ghost use Rattle.fkv_lines.specs.Script.{script_of};
ghost use Rattle.fkv_lines.specs.declared.scripts.Mode.TheVariants as mode;
ghost use Rattle.fkv_thread_scripts.specs.Served.{TellsRefusal, TellsUnserved, are_served, is_commit, is_served, runs_behind};

use fkv_base::{Fault, ScriptFault};
use fkv_lines::{Line, Mode, Script, script_of};
use fkv_map::Call;
use std::alloc::Global;

/// Reads a script for threads: a line that makes a store, operations, refreshes and polls of sessions, commits, each with a finish as the
/// keeper's next line, and finishes. Else `Script` with its first faulty line; a line that threads don't serve is `Mode`, and so is a commit
/// without its finish. Behind a line that is faulty by itself nothing is read. `Memory` where memory was refused.
pub fn threads_script_of(alloc: Global, bytes: &[u8]) -> Result<Script, Fault>
    ensures read { IfOk result (λ script. script_of mode.Memory bytes.now ≡ Ok (script_text script)) }
    ensures served { IfOk result (λ script. are_served false script.lines.items ≡ true) }
    ensures refused { IfErr result (TellsRefusal bytes.now) }
{
    match script_of(alloc, bytes, Mode::Memory) {
        Ok(script) => match first_unserved(&script.lines, true) {
            Some(index) => Err(at_line(bytes, index)),
            None => Ok(script),
        },
        Err(Fault::Script(line, kind)) => Err(first_fault(alloc, bytes, line, kind)),
        Err(fault) => Err(fault),
    }
}

/// The first fault of a script whose first line that is faulty by itself is this one: a line before it that threads don't serve, or this one.
/// `Memory` where memory was refused.
fn first_fault(alloc: Global, bytes: &[u8], line: u64, kind: ScriptFault) -> Fault
    ensures { (result ≡ Fault.Script line kind) ⊎ TellsUnserved result }
{
    match script_of(alloc, lines_before(bytes, line), Mode::Memory) {
        Ok(before) => match first_unserved(&before.lines, false) {
            Some(index) => at_line(bytes, index),
            None => Fault::Script(line, kind),
        },
        Err(Fault::Memory) => Fault::Memory,
        // The lines before it have no fault of their own.
        Err(_) => Fault::Script(line, kind),
    }
}

/// A line that threads don't serve, by its place behind the line that makes the store.
fn at_line(bytes: &[u8], index: usize) -> Fault
    ensures { TellsUnserved result }
{
    Fault::Script(
        number_of_line(bytes, index.saturating_add(1)),
        ScriptFault::Mode,
    )
}

/// The first of these lines that threads don't serve, by its place. Of lines of which more follow the last commit isn't judged.
#[tactic(auto, using(crate::proofs::Served::served_on, crate::proofs::Served::unserved_here))]
fn first_unserved(lines: &[Line], is_whole: bool) -> Option<usize>
    ensures none { is_whole ≡ true → IfNone result (are_served false lines.now ≡ true) }
    ensures some { is_whole ≡ true → IfSome result (λ index. are_served false lines.now ≡ false) }
{
    let mut begun = None;
    let mut index: usize = 0;
    for line in lines {
        let faulty = faulty_at(begun, index, *line);
        if faulty.is_some() {
            return faulty;
        }
        begun = begun_behind(begun, index, *line);
        index = index.saturating_add(1);
    }
    if is_whole { begun } else { None }
}

/// Where the fault is, if threads don't serve this line behind a commit that is begun, or behind none.
fn faulty_at(begun: Option<usize>, index: usize, line: Line) -> Option<usize>
    ensures none { IfNone result ((is_served line ≡ true) × (is_some begun && is_commit line ≡ false)) }
    ensures some { IfSome result (λ place. (is_served line && not (is_some begun && is_commit line)) ≡ false) }
{
    if !is_served(line) {
        Some(index)
    } else if is_commit(line) {
        begun
    } else {
        None
    }
}

/// The commit whose finish hasn't come behind this line.
fn begun_behind(begun: Option<usize>, index: usize, line: Line) -> Option<usize>
    ensures { is_some result ≡ runs_behind (is_some begun) line }
{
    match line {
        Line::Commit(_) | Line::Trim => Some(index),
        Line::Finish => None,
        _ => begun,
    }
}

fn is_commit(line: Line) -> bool
    ensures { result ≡ is_commit line }
{
    match line {
        Line::Commit(_) | Line::Trim => true,
        _ => false,
    }
}

/// Whether threads serve a line of this kind.
fn is_served(line: Line) -> bool
    ensures { result ≡ is_served line }
{
    match line {
        Line::Call(_, call) => match call {
            Call::Op(_) | Call::Refresh | Call::Poll => true,
            Call::Sleep | Call::Wake | Call::Durable => false,
        },
        Line::Commit(_) | Line::Trim | Line::Finish => true,
        Line::Turn | Line::Crash | Line::CrashAt(_) | Line::FailAt(_) => false,
    }
}

/// The number, from 1, of the line that says something and stands behind so many that do.
fn number_of_line(bytes: &[u8], behind: usize) -> u64 {
    let mut left = behind;
    let mut number: u64 = 0;
    for line in bytes.split(|byte| *byte == b'\n') {
        number = number.saturating_add(1);
        if says_something(line) {
            if left == 0 {
                break;
            }
            left -= 1;
        }
    }
    number
}

fn says_something(line: &[u8]) -> bool {
    !line.starts_with(b"#") && line.iter().any(|byte| *byte != b' ')
}

/// The bytes before the line of this number.
fn lines_before(bytes: &[u8], line: u64) -> &[u8] {
    let mut left = line;
    for (place, byte) in bytes.iter().enumerate() {
        if left <= 1 {
            return &bytes[..place];
        }
        if *byte == b'\n' {
            left -= 1;
        }
    }
    bytes
}
