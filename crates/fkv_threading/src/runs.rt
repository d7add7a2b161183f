//! Runs of the program whose words ask for threads.
ghost use Rattle.std.specs.Prelude.{◌≡◌};
ghost use Rattle.fkv_threading.specs.Said as said;

use crate::complaints::{Faulty, complain, complain_of_end};
use crate::gates::Open;
use crate::programs::run_script;
use fkv_base::{Fault, ScriptFault};
use fkv_disk::{Device, Fuse, MemDisk, ReadAhead};
use fkv_files::{Mirror, StorePlaces};
use fkv_lines::Script;
use fkv_runs::write_text;
use fkv_thread_scripts::threads_script_of;
use std::alloc::Global;
use std::io::{self, Read, Write};
use std::sync::Wait;
use std::thread::Threads;

/// A longer script has its first faulty line among its first so many bytes.
const SCRIPT_LIMIT: u64 = 65536 * 201 + 1;

/// Runs the program, whose words ask for threads over a store in memory, or in the file of this path: writes the report of the script that the
/// input gives. The status: 0; 1 where something differs; 2 where the script or its shape is refused; 3 where a store or a turn is; 4 where the input
/// could not be read. Where it is above 0, a line of complaint says in words what it means. An `Err` is memory, a thread, or a stream that failed: then
/// what is written is a beginning.
pub fn run<R: Threads + Wait + Sync, S: StorePlaces, I: Read + Drop, W: Write, E: Write>(
    rt: &R,
    places: &S,
    alloc: Global,
    file: Option<&str>,
    input: I,
    output: &mut W,
    complaints: &mut E,
) -> io::Result<u8>
where
    S::Disk: Send,
    ensures whole { said.IfOk result (λ status. said.Writes (said.IsRunOfInput (said.IsEndIn
        (said.IsEndInMemory ⟦<Fuse<MemDisk> as Device>⟧ ⟦<MemDisk as Device>⟧)
        (said.WithSomeTrouble (said.IsEndInFile S.Disk.Device ⟦<Mirror<S::Disk> as Device>⟧ ⟦<ReadAhead<S::Disk> as Device>⟧
        (S.is_opened places.now) (S.is_made places.now))) (said.option_map (λ path. path.now) file.entry))
        (I.remaining input) status) (W.contents output.old) (W.contents output.new)) }
    ensures part { said.OnErr result (said.BreaksOff (said.WithSomeStatus (said.IsRunOfInput (said.IsEndIn
        (said.IsEndInMemory ⟦<Fuse<MemDisk> as Device>⟧ ⟦<MemDisk as Device>⟧)
        (said.WithSomeTrouble (said.IsEndInFile S.Disk.Device ⟦<Mirror<S::Disk> as Device>⟧ ⟦<ReadAhead<S::Disk> as Device>⟧
        (S.is_opened places.now) (S.is_made places.now))) (said.option_map (λ path. path.now) file.entry))
        (I.remaining input))) (W.contents output.old) (W.contents output.new)) }
{
    match script_bytes(alloc, input) {
        Ok(bytes) => {
            let status = run_bytes(rt, places, alloc, file, &bytes, output, complaints)?;
            output.flush()?;
            Ok(status)
        }
        Err(error) => refuse_input(output, complaints, error),
    }
}

/// The first bytes of a script, as many as are looked at.
fn script_bytes<I: Read + Drop>(alloc: Global, input: I) -> io::Result<Vec<u8>>
    ensures { said.IfOk result (λ bytes. said.IfSome (I.remaining input) (λ script. bytes.items ≡ said.take said.script_limit script)) }
{
    let mut bytes = Vec::new(alloc);
    match input.take(SCRIPT_LIMIT).read_to_end(&mut bytes) {
        Ok(_count) => Ok(bytes),
        Err(error) => Err(error),
    }
}

/// Tells that the input could not be read. The status: 4. An `Err` is memory, or the output.
fn refuse_input<W: Write, E: Write>(
    output: &mut W,
    complaints: &mut E,
    error: io::Error,
) -> io::Result<u8>
    ensures status { said.IfOk result (λ status. status ≡ 4) }
    ensures nothing { said.Keeps (W.contents output.old) (W.contents output.new) }
{
    complain(complaints, &"standard input could not be read");
    if error.kind() == io::ErrorKind::OutOfMemory {
        return Err(error);
    }
    output.flush()?;
    Ok(4)
}

/// Runs the script of these bytes, or writes its first faulty line.
fn run_bytes<R: Threads + Wait + Sync, S: StorePlaces, W: Write, E: Write>(
    rt: &R,
    places: &S,
    alloc: Global,
    file: Option<&str>,
    bytes: &[u8],
    output: &mut W,
    complaints: &mut E,
) -> io::Result<u8>
where
    S::Disk: Send,
    ensures whole { said.IfOk result (λ status. said.Writes (said.IsRunOfBytes (said.IsEndIn
        (said.IsEndInMemory ⟦<Fuse<MemDisk> as Device>⟧ ⟦<MemDisk as Device>⟧)
        (said.WithSomeTrouble (said.IsEndInFile S.Disk.Device ⟦<Mirror<S::Disk> as Device>⟧ ⟦<ReadAhead<S::Disk> as Device>⟧
        (S.is_opened places.now) (S.is_made places.now))) (said.option_map (λ path. path.now) file.entry))
        bytes.now status) (W.contents output.old) (W.contents output.new)) }
    ensures part { said.OnErr result (said.BreaksOff (said.WithSomeStatus (said.IsRunOfBytes (said.IsEndIn
        (said.IsEndInMemory ⟦<Fuse<MemDisk> as Device>⟧ ⟦<MemDisk as Device>⟧)
        (said.WithSomeTrouble (said.IsEndInFile S.Disk.Device ⟦<Mirror<S::Disk> as Device>⟧ ⟦<ReadAhead<S::Disk> as Device>⟧
        (S.is_opened places.now) (S.is_made places.now))) (said.option_map (λ path. path.now) file.entry))
        bytes.now)) (W.contents output.old) (W.contents output.new)) }
{
    match threads_script_of(alloc, bytes) {
        Ok(script) => run_told(rt, places, alloc, file, &script, output, complaints),
        Err(fault) => refuse_script(alloc, output, complaints, fault),
    }
}

/// Runs a script over a new store, in memory or in the file of this path, and tells what its status means.
fn run_told<R: Threads + Wait + Sync, S: StorePlaces, W: Write, E: Write>(
    rt: &R,
    places: &S,
    alloc: Global,
    file: Option<&str>,
    script: &Script,
    output: &mut W,
    complaints: &mut E,
) -> io::Result<u8>
where
    S::Disk: Send,
    ensures whole { said.IfOk result (said.IsRunOnThreads (said.IsEndIn
        (said.IsEndInMemory ⟦<Fuse<MemDisk> as Device>⟧ ⟦<MemDisk as Device>⟧)
        (said.WithSomeTrouble (said.IsEndInFile S.Disk.Device ⟦<Mirror<S::Disk> as Device>⟧ ⟦<ReadAhead<S::Disk> as Device>⟧
        (S.is_opened places.now) (S.is_made places.now))) (said.option_map (λ path. path.now) file.entry) script.now.lines.items)
        script.now.opening (said.Appends (W.contents output.old) (W.contents output.new))) }
    ensures part { said.OnErr result (said.BreaksOff (said.WithSomeStatus (said.IsTextOnThreads (said.IsEndIn
        (said.IsEndInMemory ⟦<Fuse<MemDisk> as Device>⟧ ⟦<MemDisk as Device>⟧)
        (said.WithSomeTrouble (said.IsEndInFile S.Disk.Device ⟦<Mirror<S::Disk> as Device>⟧ ⟦<ReadAhead<S::Disk> as Device>⟧
        (S.is_opened places.now) (S.is_made places.now))) (said.option_map (λ path. path.now) file.entry) script.now.lines.items)
        script.now.opening)) (W.contents output.old) (W.contents output.new)) }
{
    let (status, trouble) = run_script(rt, places, alloc, file, script, output, &Open)?;
    complain_of_end(complaints, file, status, trouble);
    Ok(status)
}

/// Writes the line of a script's fault. The status: 2. An `Err` is memory, or the output.
fn refuse_script<W: Write, E: Write>(
    alloc: Global,
    output: &mut W,
    complaints: &mut E,
    fault: Fault,
) -> io::Result<u8>
    ensures whole { said.IfOk result (λ status. (status ≡ 2) × said.Writes (said.TellsLine fault) (W.contents output.old) (W.contents output.new)) }
    ensures part { said.OnErr result (said.BreaksOff (said.TellsLine fault) (W.contents output.old) (W.contents output.new)) }
{
    match fault {
        Fault::Script(line, kind) => {
            let text = line_fault_text(alloc, line, kind)?;
            write_text(output, &text)?;
            complain(complaints, &Faulty { line, kind });
            Ok(2)
        }
        _ => Err(io::ErrorKind::OutOfMemory.into()),
    }
}

/// The first faulty line of a script: `script line 7 Count`.
fn line_fault_text(alloc: Global, line: u64, kind: ScriptFault) -> io::Result<Vec<u8>>
    ensures { said.IfOk result (λ text. text.items ≡ said.line_fault_text (record { line = line; kind = kind })) }
{
    let name = kind.name();
    let mut text = Vec::new(alloc);
    writeln!(text, "script line {line} {name}")?;
    Ok(text)
}

/// Refuses words that ask for threads and have a seed. The status: 2.
pub fn refuse_seed<W: Write, E: Write>(output: &mut W, complaints: &mut E) -> io::Result<u8>
    ensures text { said.OnOk result (said.Appends (W.contents output.old) (W.contents output.new) (said.ended (said.codes "options seed and threads"))) }
    ensures status { said.IfOk result (λ status. status ≡ 2) }
    ensures part { said.OnErr result (said.BreaksOff (λ its. its ≡ said.ended (said.codes "options seed and threads")) (W.contents output.old)
        (W.contents output.new)) }
{
    write_options(output)?;
    complain(
        complaints,
        &"--seed and --threads don't go together; those that --threads goes with are --check, --torn B and --file PATH",
    );
    Ok(2)
}

/// The line of words that don't go together.
fn write_options<W: Write>(output: &mut W) -> io::Result<()>
    ensures text { said.OnOk result (said.Appends (W.contents output.old) (W.contents output.new) (said.ended (said.codes "options seed and threads"))) }
    ensures part { said.OnErr result (said.BreaksOff (λ its. its ≡ said.ended (said.codes "options seed and threads")) (W.contents output.old)
        (W.contents output.new)) }
{
    write_text(output, "options seed and threads\n".as_bytes())?;
    output.flush()
}
