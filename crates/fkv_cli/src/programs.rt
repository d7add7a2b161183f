//! Whole runs of the program.
ghost use Rattle.std.specs.Prelude.{◌≡◌, ◌≢◌, [], IfErr, IfOk, IfSome, OnErr, OnOk, is_some, string_bytes, take};
ghost use Rattle.std.specs.Io.KnownBytes.{Appends};
ghost use Rattle.fkv_lines.specs.Script.{script_of};
ghost use Rattle.clap.specs.Walk.{texts};
ghost use Rattle.fkv_options.specs.RunFault.{ended_status};
ghost use Rattle.fkv_runs.specs.Below.fkv_playing.InTurn.{Writes};
ghost use Rattle.fkv_runs.specs.Beginnings.{BreaksOff};
ghost use Rattle.fkv_runs.specs.Openings.{CrashesFrom, RefusesNoCall, medium_of};
ghost use Rattle.fkv_cli.specs.Output.{AreUnreadWords, IsOutputOf, IsRunOfInput, IsRunOfText, mode_of, places_of, script_limit};

use crate::complaints::{Complaint, LineFault, WordFault, complain, tell_usage};
use crate::reading::{ending_by, mode_for};
use crate::scripts::run_script;
use fkv_base::Fault;
use fkv_disk::{Device, Fuse, MemDisk};
use fkv_files::StorePlaces;
use fkv_options::{Options, RunFault, Verdict, ended_with, options_of, status_of};
use fkv_runs::{Breaks, Crashes, write_text};
use std::alloc::Global;
use std::io::{self, ErrorKind, Read, Write};

/// A longer script has its first faulty line among its first so many bytes.
const SCRIPT_LIMIT: u64 = 65536 * 201 + 1;

/// Runs the program: by the words after its name and the script that the input gives, writes its answers. The status: 0; 1 where a check
/// differs; 2 where the words, the script or its shape are refused; 3 where a store is; 4 where memory was refused outside of a line's own answer,
/// or a stream failed: then what is written is a beginning of what the script writes. Where the status is above 0, a line of complaint
/// says in words what it means; of words that are refused the usage comes behind it. A line that can't be written is lost. Of an output
/// that is a pipe which nobody reads any more nothing is said.
pub fn run<S: StorePlaces, R: Read + Drop, W: Write, E: Write>(
    places: &S,
    alloc: Global,
    words: &[&str],
    input: R,
    output: &mut W,
    complaints: &mut E,
) -> u8
where
    S::Disk: Breaks,
    ensures whole { result ≢ 4 → Writes (IsOutputOf (record { memory = medium_of ⟦<Fuse<MemDisk> as Device>⟧.honest ⟦<Fuse<MemDisk> as Device>⟧.seen ⟦<Fuse<MemDisk> as Device>⟧.may_leave ⟦<Fuse<MemDisk> as Device>⟧.failed ⟦<Fuse<MemDisk> as Device>⟧.refuses ⟦<Fuse<MemDisk> as Device>⟧.expects ⟦<Fuse<MemDisk> as Breaks>⟧.broken ⟦<Fuse<MemDisk> as Crashes>⟧.armed; file = places_of S.Disk.honest S.Disk.seen S.Disk.may_leave S.Disk.failed S.Disk.refuses S.Disk.expects S.Disk.broken (S.is_opened places.now) (S.is_made places.now) }) (texts words.now) (R.remaining input) result) (W.contents output.old) (W.contents output.new) }
    ensures part { result ≡ 4 → BreaksOff (IsOutputOf (record { memory = medium_of ⟦<Fuse<MemDisk> as Device>⟧.honest ⟦<Fuse<MemDisk> as Device>⟧.seen ⟦<Fuse<MemDisk> as Device>⟧.may_leave ⟦<Fuse<MemDisk> as Device>⟧.failed ⟦<Fuse<MemDisk> as Device>⟧.refuses ⟦<Fuse<MemDisk> as Device>⟧.expects ⟦<Fuse<MemDisk> as Breaks>⟧.broken ⟦<Fuse<MemDisk> as Crashes>⟧.armed; file = places_of S.Disk.honest S.Disk.seen S.Disk.may_leave S.Disk.failed S.Disk.refuses S.Disk.expects S.Disk.broken (S.is_opened places.now) (S.is_made places.now) }) (texts words.now) (R.remaining input) 4) (W.contents output.old) (W.contents output.new) }
{
    match options_of(alloc, words) {
        Ok(options) => {
            let ended = run_with(places, alloc, &options, input, output, complaints);
            status_of(&ended)
        }
        Err(fault) => refuse_words(words, &fault, output, complaints),
    }
}

/// The same, by the options that the words ask for. What there is to print is printed.
pub fn run_with<S: StorePlaces, R: Read + Drop, W: Write, E: Write>(
    places: &S,
    alloc: Global,
    options: &Options,
    input: R,
    output: &mut W,
    complaints: &mut E,
) -> Result<Verdict, RunFault>
where
    S::Disk: Breaks,
    ensures whole { ended_status result ≢ 4 → Writes (IsRunOfInput (record { memory = medium_of ⟦<Fuse<MemDisk> as Device>⟧.honest ⟦<Fuse<MemDisk> as Device>⟧.seen ⟦<Fuse<MemDisk> as Device>⟧.may_leave ⟦<Fuse<MemDisk> as Device>⟧.failed ⟦<Fuse<MemDisk> as Device>⟧.refuses ⟦<Fuse<MemDisk> as Device>⟧.expects ⟦<Fuse<MemDisk> as Breaks>⟧.broken ⟦<Fuse<MemDisk> as Crashes>⟧.armed; file = places_of S.Disk.honest S.Disk.seen S.Disk.may_leave S.Disk.failed S.Disk.refuses S.Disk.expects S.Disk.broken (S.is_opened places.now) (S.is_made places.now) }) options.now (R.remaining input) (ended_status result)) (W.contents output.old) (W.contents output.new) }
    ensures part { ended_status result ≡ 4 → BreaksOff (IsRunOfInput (record { memory = medium_of ⟦<Fuse<MemDisk> as Device>⟧.honest ⟦<Fuse<MemDisk> as Device>⟧.seen ⟦<Fuse<MemDisk> as Device>⟧.may_leave ⟦<Fuse<MemDisk> as Device>⟧.failed ⟦<Fuse<MemDisk> as Device>⟧.refuses ⟦<Fuse<MemDisk> as Device>⟧.expects ⟦<Fuse<MemDisk> as Breaks>⟧.broken ⟦<Fuse<MemDisk> as Crashes>⟧.armed; file = places_of S.Disk.honest S.Disk.seen S.Disk.may_leave S.Disk.failed S.Disk.refuses S.Disk.expects S.Disk.broken (S.is_opened places.now) (S.is_made places.now) }) options.now (R.remaining input) 4) (W.contents output.old) (W.contents output.new) }
    ensures printed { IfErr result (λ fault. string_bytes fault.text ≡ []) }
{
    let memory = Fuse::new(MemDisk::new(alloc));
    match run_input(places, alloc, options, memory, input, output, complaints) {
        Ok(status) => ended_with(alloc, status),
        Err(stop) => {
            stop.complain(complaints);
            Err(RunFault::want(alloc))
        }
    }
}

/// What stopped a run.
#[derive(Drop)]
enum Stop {
    /// The script could not be read.
    Input(io::Error),
    /// Memory was refused, or the answers could not be written.
    Other(io::Error),
}

impl From<io::Error> for Stop {
    fn from(error: io::Error) -> Stop {
        Stop::Other(error)
    }
}

impl Stop {
    /// Whoever reads a pipe may close it when he has seen enough, so that alone is no complaint.
    fn complain<E: Write>(&self, complaints: &mut E) {
        let complaint = match self {
            Stop::Input(error) | Stop::Other(error) if error.kind() == ErrorKind::OutOfMemory => {
                Complaint::MemoryRefused
            }
            Stop::Input(error) => Complaint::InputFailed(*error),
            Stop::Other(error) if error.kind() == ErrorKind::BrokenPipe => return,
            Stop::Other(error) => Complaint::OutputFailed(*error),
        };
        complain(complaints, complaint);
    }
}

/// Writes a line of complaint for an error that stopped the program outside of `run`: memory that was refused, or standard output. A pipe
/// that nobody reads any more is none.
pub fn complain_of_stop<E: Write>(complaints: &mut E, error: io::Error) {
    Stop::Other(error).complain(complaints);
}

/// Words of which one is no text are none that the program takes: writes the line `options`, and a line of complaint. The status: 2;
/// 4 where the writer failed.
pub fn refuse_unread<W: Write, E: Write>(output: &mut W, complaints: &mut E) -> u8
    ensures whole { result ≢ 4 → Writes (AreUnreadWords result) (W.contents output.old) (W.contents output.new) }
    ensures part { result ≡ 4 → BreaksOff (AreUnreadWords 4) (W.contents output.old) (W.contents output.new) }
{
    match write_options(output) {
        Ok(()) => {
            complain(complaints, Complaint::Words(WordFault::NoText));
            tell_usage(complaints);
            2
        }
        Err(failed) => {
            complain_of_stop(complaints, failed);
            4
        }
    }
}

/// The line of words that are refused.
fn write_options<W: Write>(output: &mut W) -> io::Result<()>
    ensures whole { OnOk result (Writes (AreUnreadWords 2) (W.contents output.old) (W.contents output.new)) }
    ensures part { OnErr result (BreaksOff (AreUnreadWords 4) (W.contents output.old) (W.contents output.new)) }
{
    write_text(output, "options\n".as_bytes())?;
    output.flush()
}

/// The same as `run_with`, over this device in memory, with what stopped it.
fn run_input<S: StorePlaces, M: Crashes, R: Read + Drop, W: Write, E: Write>(
    places: &S,
    alloc: Global,
    options: &Options,
    memory: M,
    input: R,
    output: &mut W,
    complaints: &mut E,
) -> Result<u8, Stop>
where
    S::Disk: Breaks,
    requires honest { M.honest memory }
    requires sound { RefusesNoCall M.refuses memory }
    requires crashes { CrashesFrom M.expects (M.seen memory) memory }
    ensures whole { IfOk result (λ status. Writes (IsRunOfInput (record { memory = medium_of M.honest M.seen M.may_leave M.failed M.refuses M.expects M.broken M.armed; file = places_of S.Disk.honest S.Disk.seen S.Disk.may_leave S.Disk.failed S.Disk.refuses S.Disk.expects S.Disk.broken (S.is_opened places.now) (S.is_made places.now) }) options.now (R.remaining input) status) (W.contents output.old) (W.contents output.new)) }
    ensures part { OnErr result (BreaksOff (IsRunOfInput (record { memory = medium_of M.honest M.seen M.may_leave M.failed M.refuses M.expects M.broken M.armed; file = places_of S.Disk.honest S.Disk.seen S.Disk.may_leave S.Disk.failed S.Disk.refuses S.Disk.expects S.Disk.broken (S.is_opened places.now) (S.is_made places.now) }) options.now (R.remaining input) 4) (W.contents output.old) (W.contents output.new)) }
{
    let bytes = script_bytes(alloc, input)?;
    let status = run_text(places, alloc, options, memory, &bytes, output, complaints)?;
    output.flush()?;
    Ok(status)
}

/// The first bytes of a script, as many as are looked at.
fn script_bytes<R: Read + Drop>(alloc: Global, input: R) -> Result<Vec<u8>, Stop>
    ensures { IfOk result (λ bytes. IfSome (R.remaining input) (λ script. bytes.items ≡ take script_limit script)) }
{
    let mut bytes = Vec::new(alloc);
    match input.take(SCRIPT_LIMIT).read_to_end(&mut bytes) {
        Ok(_count) => Ok(bytes),
        Err(error) => Err(Stop::Input(error)),
    }
}

/// Tells which of these words is refused, and the usage. Refused memory is told where it ends the run.
fn complain_of_words<E: Write>(complaints: &mut E, words: &[&str], fault: &RunFault) {
    if fault.status != 4 {
        complain(complaints, Complaint::Words(WordFault::of(words)));
        tell_usage(complaints);
    }
}

/// Tells why the words are refused. The status: 2; 4 where memory was refused, or the writer failed.
fn refuse_words<W: Write, E: Write>(
    words: &[&str],
    fault: &RunFault,
    output: &mut W,
    complaints: &mut E,
) -> u8
    ensures whole { result ≢ 4 → (result ≡ fault.now.status) × Appends (W.contents output.old) (W.contents output.new) (string_bytes fault.now.text) }
    ensures part { result ≡ 4 → BreaksOff (λ text. (¬ (fault.now.status ≡ 4)) × (text ≡ string_bytes fault.now.text)) (W.contents output.old) (W.contents output.new) }
{
    complain_of_words(complaints, words, fault);
    match write_refusal(output, fault) {
        Ok(status) => status,
        Err(error) => {
            complain_of_stop(complaints, error);
            4
        }
    }
}

/// The line of words that are refused, at once.
fn write_refusal<W: Write>(output: &mut W, fault: &RunFault) -> io::Result<u8>
    ensures whole { IfOk result (λ status. (status ≡ fault.now.status) × (¬ (fault.now.status ≡ 4)) × Appends (W.contents output.old) (W.contents output.new) (string_bytes fault.now.text)) }
    ensures part { OnErr result (BreaksOff (λ text. (¬ (fault.now.status ≡ 4)) × (text ≡ string_bytes fault.now.text)) (W.contents output.old) (W.contents output.new)) }
{
    let status = print_fault(output, fault)?;
    output.flush()?;
    Ok(status)
}

/// Prints why a run ended before it began, where it isn't for want of memory.
fn print_fault<W: Write>(output: &mut W, fault: &RunFault) -> io::Result<u8>
    ensures whole { IfOk result (λ status. (status ≡ fault.now.status) × (¬ (fault.now.status ≡ 4)) × Appends (W.contents output.old) (W.contents output.new) (string_bytes fault.now.text)) }
    ensures part { OnErr result (BreaksOff (λ text. (¬ (fault.now.status ≡ 4)) × (text ≡ string_bytes fault.now.text)) (W.contents output.old) (W.contents output.new)) }
{
    if fault.status == 4 {
        return Err(io::ErrorKind::OutOfMemory.into());
    }
    write_text(output, fault.text.as_bytes())?;
    Ok(fault.status)
}

/// Runs the script of these bytes, or prints its first faulty line.
fn run_text<S: StorePlaces, M: Crashes, W: Write, E: Write>(
    places: &S,
    alloc: Global,
    options: &Options,
    memory: M,
    bytes: &[u8],
    output: &mut W,
    complaints: &mut E,
) -> io::Result<u8>
where
    S::Disk: Breaks,
    requires honest { M.honest memory }
    requires sound { RefusesNoCall M.refuses memory }
    requires crashes { CrashesFrom M.expects (M.seen memory) memory }
    ensures whole { IfOk result (λ status. Writes (IsRunOfText (record { memory = medium_of M.honest M.seen M.may_leave M.failed M.refuses M.expects M.broken M.armed; file = places_of S.Disk.honest S.Disk.seen S.Disk.may_leave S.Disk.failed S.Disk.refuses S.Disk.expects S.Disk.broken (S.is_opened places.now) (S.is_made places.now) }) options.now (script_of (mode_of (is_some options.now.file)) bytes.now) status) (W.contents output.old) (W.contents output.new)) }
    ensures part { OnErr result (BreaksOff (IsRunOfText (record { memory = medium_of M.honest M.seen M.may_leave M.failed M.refuses M.expects M.broken M.armed; file = places_of S.Disk.honest S.Disk.seen S.Disk.may_leave S.Disk.failed S.Disk.refuses S.Disk.expects S.Disk.broken (S.is_opened places.now) (S.is_made places.now) }) options.now (script_of (mode_of (is_some options.now.file)) bytes.now) 4) (W.contents output.old) (W.contents output.new)) }
{
    match fkv_lines::script_of(alloc, bytes, mode_for(options)) {
        Ok(script) => run_script(places, alloc, options, memory, &script, output, complaints),
        Err(fault) => {
            complain_of_script(complaints, bytes, fault);
            print_fault(output, &ending_by(alloc, fault))
        }
    }
}

/// Tells what is wrong with the first faulty line of a script. Refused memory is told where it ends the run.
fn complain_of_script<E: Write>(complaints: &mut E, bytes: &[u8], fault: Fault) {
    if let Fault::Script(number, kind) = fault {
        let fault = LineFault::of(bytes, number, kind);
        complain(complaints, Complaint::Line { number, fault });
    }
}
