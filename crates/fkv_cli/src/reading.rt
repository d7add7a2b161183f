//! Reading a script, and how a run ends whose script is faulty.
ghost use Rattle.std.specs.Prelude.{◌≡◌, ◌⊎◌, is_some};
ghost use Rattle.fkv_lines.specs.Script.{script_of};
ghost use Rattle.fkv_options.specs.RunFault.{IsWant};
ghost use Rattle.fkv_cli.specs.Output.{EndsAt, IsEndingBy, ReadsOrEnds, mode_of};

use fkv_base::{Fault, ScriptFault};
use fkv_lines::{Mode, Script};
use fkv_options::{Options, RunFault};
use std::alloc::Global;

/// Reads a script for a store that lies where the options say. An `Err` is how the run ends: with status 2, and the line that is printed of the
/// first faulty line; or with status 4 where memory was refused.
pub fn script_of(alloc: Global, bytes: &[u8], options: &Options) -> Result<Script, RunFault>
    ensures { ReadsOrEnds (script_of (mode_of (is_some options.now.file)) bytes.now) result }
{
    match fkv_lines::script_of(alloc, bytes, mode_for(options)) {
        Ok(script) => Ok(script),
        Err(fault) => Err(ending_by(alloc, fault)),
    }
}

/// A store lies in the file that the options name, or in memory.
pub(crate) fn mode_for(options: &Options) -> Mode
    ensures { result ≡ mode_of (is_some options.now.file) }
{
    match &options.file {
        Some(_) => Mode::File,
        None => Mode::Memory,
    }
}

/// How a run ends whose script has this fault.
pub(crate) fn ending_by(alloc: Global, fault: Fault) -> RunFault
    ensures { IsEndingBy fault result }
{
    match fault {
        Fault::Script(line, kind) => ending_at(alloc, line, kind),
        _ => RunFault::want(alloc),
    }
}

/// How a run ends at the first faulty line of its script: `script line 7 Count`.
fn ending_at(alloc: Global, line: u64, kind: ScriptFault) -> RunFault
    ensures { IsWant result ⊎ EndsAt (record { line = line; kind = kind }) result }
{
    let name = kind.name();
    match format!(in alloc; "script line {line} {name}") {
        Ok(text) => RunFault::of_line(alloc, text.as_str()),
        Err(_) => RunFault::want(alloc),
    }
}
