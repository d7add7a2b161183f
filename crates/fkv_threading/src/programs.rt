//! A script on threads, from the line that makes its store to its report.
ghost use Rattle.std.specs.Prelude.{◌≡◌, ◌≢◌, ◌≤◌, ◌⊎◌, [], Some, None, true, if◌then◌else◌};
ghost use Rattle.fkv_threading.specs.Said as said;

use crate::gates::Gate;
use crate::keepers::KeeperEnd;
use crate::playing::{Played, play};
use fkv_base::{Fault, Shape, StoreClass};
use fkv_creating::create_opened;
use fkv_disk::{Device, Fuse, MemDisk, PageSize, Pages, ReadAhead};
use fkv_files::{Mirror, StorePlaces, Trouble};
use fkv_keeper::Finished;
use fkv_lines::{Line, Opening, Script, Sizes};
use fkv_opening::recover;
use fkv_options::{Options, RunFault, Verdict};
use fkv_pairs::content;
use fkv_runs::write_text;
use fkv_texts::write_refusal;
use fkv_thread_scripts::{Log, Report, report_of, write_threads_report};
use std::alloc::Global;
use std::io::{self, Write};
use std::sync::Wait;
use std::thread::Threads;

/// Runs a script for threads over a new store, in memory or in the file that the options name, and writes its report. Each session's lines run on a thread of
/// their own, and the keeper's on the caller's. A file is opened again for the report. What there is to print is printed. Of the options it goes by the file
/// alone.
///
/// An `Err` is a run that ended early. Its status is 2 where the sizes are no shape's, and 3 where a store or a turn was refused. It is 4 where
/// memory, a thread or the output was; then what is written is a beginning.
pub fn run_threads<G: Gate + Sync, W: Write, R: Threads + Wait + Sync, S: StorePlaces>(
    rt: &R,
    places: &S,
    alloc: Global,
    script: &Script,
    output: &mut W,
    options: &Options,
    gate: &G,
) -> Result<Verdict, RunFault>
where
    S::Disk: Send,
    ensures whole { said.ended_status result ≢ 4 → said.IsRunOnThreads (said.IsEndIn
        (said.IsEndInMemory ⟦<Fuse<MemDisk> as Device>⟧ ⟦<MemDisk as Device>⟧)
        (said.WithSomeTrouble (said.IsEndInFile S.Disk.Device ⟦<Mirror<S::Disk> as Device>⟧ ⟦<ReadAhead<S::Disk> as Device>⟧
        (S.is_opened places.now) (S.is_made places.now))) (said.option_map said.string_bytes options.now.file) script.now.lines.items)
        script.now.opening (said.Appends (W.contents output.old) (W.contents output.new)) (said.ended_status result) }
    ensures part { said.ended_status result ≡ 4 → said.BreaksOff (said.WithSomeStatus (said.IsTextOnThreads (said.IsEndIn
        (said.IsEndInMemory ⟦<Fuse<MemDisk> as Device>⟧ ⟦<MemDisk as Device>⟧)
        (said.WithSomeTrouble (said.IsEndInFile S.Disk.Device ⟦<Mirror<S::Disk> as Device>⟧ ⟦<ReadAhead<S::Disk> as Device>⟧
        (S.is_opened places.now) (S.is_made places.now))) (said.option_map said.string_bytes options.now.file) script.now.lines.items)
        script.now.opening)) (W.contents output.old) (W.contents output.new) }
    ensures early { said.IfErr result (λ fault. (2 ≤ fault.status) × (said.string_bytes fault.text ≡ [])) }
{
    match run_flushed(rt, places, alloc, path_of(options), script, output, gate) {
        Ok(status) => ended_at(alloc, status),
        Err(_) => Err(RunFault::want(alloc)),
    }
}

/// The path of the file that the options name.
fn path_of(options: &Options) -> Option<&str>
    ensures { said.option_map (λ path. path.now) result ≡ said.option_map said.string_bytes options.now.file }
{
    match &options.file {
        Some(path) => Some(path.as_str()),
        None => None,
    }
}

/// How a run ended that has come to this status, and has written its texts: early, where that is above 1.
fn ended_at(alloc: Global, status: u8) -> Result<Verdict, RunFault>
    ensures status { said.ended_status result ≡ status }
    ensures early { said.IfErr result (λ fault. (2 ≤ fault.status) × (said.string_bytes fault.text ≡ [])) }
{
    match status {
        0 => Ok(Verdict::Agrees),
        1 => Ok(Verdict::Differs),
        _ => Err(RunFault::printed(alloc, status)),
    }
}

/// Runs a script as `run_script` does, and flushes the output. The status.
fn run_flushed<G: Gate + Sync, W: Write, R: Threads + Wait + Sync, S: StorePlaces>(
    rt: &R,
    places: &S,
    alloc: Global,
    file: Option<&str>,
    script: &Script,
    output: &mut W,
    gate: &G,
) -> io::Result<u8>
where
    S::Disk: Send,
    ensures whole { said.IfOk result (said.IsRunOnThreads (said.IsEndIn
        (said.IsEndInMemory ⟦<Fuse<MemDisk> as Device>⟧ ⟦<MemDisk as Device>⟧)
        (said.WithSomeTrouble (said.IsEndInFile S.Disk.Device ⟦<Mirror<S::Disk> as Device>⟧ ⟦<ReadAhead<S::Disk> as Device>⟧
        (S.is_opened places.now) (S.is_made places.now))) (said.option_map (λ path. path.now) file.entry) script.now.lines.items)
        script.now.opening (said.Appends (W.contents output.old) (W.contents output.new))) }
    ensures part { said.OnErr result (said.BreaksOff (said.WithSomeStatus (said.IsTextOnThreads (said.IsEndIn
        (said.IsEndInMemory ⟦<Fuse<MemDisk> as Device>⟧ ⟦<MemDisk as Device>⟧)
        (said.WithSomeTrouble (said.IsEndInFile S.Disk.Device ⟦<Mirror<S::Disk> as Device>⟧ ⟦<ReadAhead<S::Disk> as Device>⟧
        (S.is_opened places.now) (S.is_made places.now))) (said.option_map (λ path. path.now) file.entry) script.now.lines.items)
        script.now.opening)) (W.contents output.old) (W.contents output.new)) }
{
    let (status, _) = run_script(rt, places, alloc, file, script, output, gate)?;
    output.flush()?;
    Ok(status)
}

/// Runs a script over a new store, in memory or in the file of this path, and writes its report. The status: 0; 1 where something differs; 2 where the sizes
/// are no shape's; 3 where a store or a turn was refused. Behind it stands what is wrong with the file, if that is why it is 3. An `Err` is memory, a thread or
/// the output; then what is written is a beginning.
#[tactic(auto, using(fkv_texts::proofs::Shown::appends_nothing))]
pub(crate) fn run_script<G: Gate + Sync, W: Write, R: Threads + Wait + Sync, S: StorePlaces>(
    rt: &R,
    places: &S,
    alloc: Global,
    file: Option<&str>,
    script: &Script,
    output: &mut W,
    gate: &G,
) -> io::Result<(u8, Option<Trouble>)>
where
    S::Disk: Send,
    ensures whole { said.IfOk result (λ end. said.IsRunOnThreads (said.IsEndIn
        (said.IsEndInMemory ⟦<Fuse<MemDisk> as Device>⟧ ⟦<MemDisk as Device>⟧)
        (said.IsEndInFile S.Disk.Device ⟦<Mirror<S::Disk> as Device>⟧ ⟦<ReadAhead<S::Disk> as Device>⟧
        (S.is_opened places.now) (S.is_made places.now) end.1) (said.option_map (λ path. path.now) file.entry) script.now.lines.items)
        script.now.opening (said.Appends (W.contents output.old) (W.contents output.new)) end.0) }
    ensures part { said.OnErr result (said.BreaksOff (said.WithSomeStatus (said.IsTextOnThreads (said.IsEndIn
        (said.IsEndInMemory ⟦<Fuse<MemDisk> as Device>⟧ ⟦<MemDisk as Device>⟧)
        (said.WithSomeTrouble (said.IsEndInFile S.Disk.Device ⟦<Mirror<S::Disk> as Device>⟧ ⟦<ReadAhead<S::Disk> as Device>⟧
        (S.is_opened places.now) (S.is_made places.now))) (said.option_map (λ path. path.now) file.entry) script.now.lines.items)
        script.now.opening)) (W.contents output.old) (W.contents output.new)) }
{
    let sizes = match script.opening {
        Some(Opening::Shape(sizes)) => sizes,
        _ => return Ok((0, None)),
    };
    let (reported, trouble) = end_of_run(rt, places, alloc, file, sizes, &script.lines, gate);
    let status = write_reported(alloc, output, reported)?;
    Ok((status, trouble))
}

/// The report of these lines over a new store of these sizes, in memory or in the file of this path. Behind it stands what is wrong with the
/// file, if that is why there is none.
fn end_of_run<G: Gate + Sync, R: Threads + Wait + Sync, S: StorePlaces>(
    rt: &R,
    places: &S,
    alloc: Global,
    file: Option<&str>,
    sizes: Sizes,
    lines: &[Line],
    gate: &G,
) -> (Result<Report, Fault>, Option<Trouble>)
where
    S::Disk: Send,
    ensures { said.IsEndIn (said.IsEndInMemory ⟦<Fuse<MemDisk> as Device>⟧ ⟦<MemDisk as Device>⟧)
        (said.IsEndInFile S.Disk.Device ⟦<Mirror<S::Disk> as Device>⟧ ⟦<ReadAhead<S::Disk> as Device>⟧
        (S.is_opened places.now) (S.is_made places.now) result.1) (said.option_map (λ path. path.now) file.entry) lines.now sizes result.0 }
{
    match file {
        Some(path) => told_apart(report_in_file(rt, places, alloc, path, sizes, lines, gate)),
        None => (report_in_memory(rt, alloc, sizes, lines, gate), None),
    }
}

/// Why there is no report of a run over a file.
#[derive(Clone, Copy)]
pub(crate) enum NoReport {
    /// The run was refused, or the store that is recovered behind it.
    Refused(Fault),
    /// The file was, as it was opened.
    Closed(Trouble),
}

/// What is written of a run, and what is wrong with the file where that is why there is no report: it is then refused as the device's failure. Memory that was
/// refused is no trouble with the file.
fn told_apart(reported: Result<Report, NoReport>) -> (Result<Report, Fault>, Option<Trouble>)
    ensures closed { said.IfSome result.1 (λ trouble. (result.0 ≡ said.Err said.Device) × (reported ≡ said.Err (said.Closed trouble))) }
    ensures ok { said.IfOk result.0 (λ report. reported ≡ said.Ok report) }
    ensures err { result.1 ≡ None → said.IfErr result.0 (λ why. (why ≡ said.Memory) ⊎ (reported ≡ said.Err (said.Refused why))) }
{
    match reported {
        Ok(report) => (Ok(report), None),
        Err(NoReport::Refused(fault)) => (Err(fault), None),
        Err(NoReport::Closed(Trouble::Fault(Fault::Memory))) => (Err(Fault::Memory), None),
        Err(NoReport::Closed(trouble)) => (Err(Fault::Device), Some(trouble)),
    }
}

/// Writes a report, or the refusal that stands in its place.
fn write_reported<W: Write>(
    alloc: Global,
    output: &mut W,
    reported: Result<Report, Fault>,
) -> io::Result<u8>
    ensures text { said.OnOk result (said.Appends (W.contents output.old) (W.contents output.new) (said.reported_text reported)) }
    ensures status { said.IfOk result (λ status. status ≡ said.reported_status reported) }
    ensures part { said.OnErr result (said.BreaksOff (λ its. its ≡ said.reported_text reported) (W.contents output.old) (W.contents output.new)) }
{
    match reported {
        Ok(report) => write_report(alloc, output, report),
        Err(Fault::Memory) => Err(io::ErrorKind::OutOfMemory.into()),
        Err(fault) => refuse(alloc, output, fault),
    }
}

/// Writes a report, at once.
fn write_report<W: Write>(alloc: Global, output: &mut W, report: Report) -> io::Result<u8>
    ensures text { said.OnOk result (said.Appends (W.contents output.old) (W.contents output.new) (said.threads_report_text report)) }
    ensures status { said.IfOk result (λ status. status ≡ (if said.agrees report then 0 else 1)) }
    ensures part { said.OnErr result (said.BreaksOff (λ its. its ≡ said.threads_report_text report) (W.contents output.old) (W.contents output.new)) }
{
    let mut text = Vec::new(alloc);
    write_threads_report(&mut text, report)?;
    write_text(output, text.as_slice())?;
    Ok(if report.agrees() { 0 } else { 1 })
}

/// Writes a refusal, at once.
fn refuse<W: Write>(alloc: Global, output: &mut W, fault: Fault) -> io::Result<u8>
    ensures text { said.OnOk result (said.Appends (W.contents output.old) (W.contents output.new) (said.last_refusal fault)) }
    ensures status { said.IfOk result (λ status. status ≡ said.refused_status fault) }
    ensures part { said.OnErr result (said.BreaksOff (λ its. its ≡ said.last_refusal fault) (W.contents output.old) (W.contents output.new)) }
{
    let mut text = Vec::new(alloc);
    write_refusal(&mut text, fault)?;
    write_text(output, text.as_slice())?;
    Ok(match fault {
        Fault::BadShape => 2,
        _ => 3,
    })
}

/// The report of these lines over a new store in memory of these sizes, whose device is crashed as all have ended.
fn report_in_memory<G: Gate + Sync, R: Threads + Wait + Sync>(
    rt: &R,
    alloc: Global,
    sizes: Sizes,
    lines: &[Line],
    gate: &G,
) -> Result<Report, Fault>
    ensures ok { said.IfOk result (said.IsReportOfRun ⟦<Fuse<MemDisk> as Device>⟧ ⟦<MemDisk as Device>⟧
        (said.ReadsAsNothing ⟦<Fuse<MemDisk> as Device>⟧) (said.HoldsLeft ⟦<Fuse<MemDisk> as Device>⟧ ⟦<MemDisk as Device>⟧) lines.now sizes) }
    ensures err { said.IfErr result (said.IsWithoutReport ⟦<Fuse<MemDisk> as Device>⟧ ⟦<MemDisk as Device>⟧
        (said.ReadsAsNothing ⟦<Fuse<MemDisk> as Device>⟧) (said.HoldsLeft ⟦<Fuse<MemDisk> as Device>⟧ ⟦<MemDisk as Device>⟧) lines.now sizes) }
{
    let shape = shape_of(sizes)?;
    let memory = MemDisk::new(alloc);
    let device = Fuse::new(memory);
    let Played { logs, keeper, .. } = play_new(rt, alloc, device, shape, lines, gate)?;
    let KeeperEnd {
        device,
        finished,
        ..
    } = keeper;
    let mut image = device.crash(0)?;
    report_on(alloc, lines, &logs, &finished, &mut image)
}

/// How many pages of 4 KiB are kept while the file is read: 1 MiB.
const PAGES: usize = 256;

/// The report of these lines over a new store in a file of these sizes. The file is closed as all have ended, and opened again.
fn report_in_file<G: Gate + Sync, R: Threads + Wait + Sync, S: StorePlaces>(
    rt: &R,
    places: &S,
    alloc: Global,
    path: &str,
    sizes: Sizes,
    lines: &[Line],
    gate: &G,
) -> Result<Report, NoReport>
where
    S::Disk: Send,
    ensures ok { said.IfOk result (said.IsReportOfRun ⟦<Mirror<S::Disk> as Device>⟧ ⟦<ReadAhead<S::Disk> as Device>⟧
        (said.IsMirrorOf S.Disk.Device (S.is_made places.now path.now))
        (said.IsOpenedAgain S.Disk.Device ⟦<Mirror<S::Disk> as Device>⟧ ⟦<ReadAhead<S::Disk> as Device>⟧ (S.is_opened places.now path.now))
        lines.now sizes) }
    ensures err { said.IfErr result (said.WhyClosed (said.IsWithoutReport ⟦<Mirror<S::Disk> as Device>⟧ ⟦<ReadAhead<S::Disk> as Device>⟧
        (said.IsMirrorOf S.Disk.Device (S.is_made places.now path.now))
        (said.IsOpenedAgain S.Disk.Device ⟦<Mirror<S::Disk> as Device>⟧ ⟦<ReadAhead<S::Disk> as Device>⟧ (S.is_opened places.now path.now))
        lines.now sizes)) }
{
    let shape = match shape_of(sizes) {
        Ok(shape) => shape,
        Err(why) => return Err(NoReport::Refused(why)),
    };
    let device = match made(places, alloc, path) {
        Ok(device) => device,
        Err(trouble) => return Err(NoReport::Closed(trouble)),
    };
    let Played { logs, keeper, .. } = match play_new(rt, alloc, device, shape, lines, gate) {
        Ok(played) => played,
        Err(why) => return Err(NoReport::Refused(why)),
    };
    let KeeperEnd {
        device,
        finished,
        ..
    } = keeper;
    let mut ahead = match opened_again(places, alloc, path, device) {
        Ok(ahead) => ahead,
        Err(trouble) => return Err(NoReport::Closed(trouble)),
    };
    match report_on(alloc, lines, &logs, &finished, &mut ahead) {
        Ok(report) => Ok(report),
        Err(why) => Err(NoReport::Refused(why)),
    }
}

/// The file of this path, which a new store is to lie in.
fn made<S: StorePlaces>(places: &S, alloc: Global, path: &str) -> Result<Mirror<S::Disk>, Trouble>
    ensures { said.IfOk result (said.IsMirrorOf S.Disk.Device (S.is_made places.now path.now)) }
{
    let (file, length) = places.make_alone(path)?;
    let Some(length) = length else {
        return Err(Trouble::Irregular);
    };
    let device = Mirror::new(alloc, file, length)?;
    Ok(device)
}

/// Closes the file behind a mirror, and opens the file of this path.
fn opened_again<S: StorePlaces>(
    places: &S,
    alloc: Global,
    path: &str,
    closed: Mirror<S::Disk>,
) -> Result<ReadAhead<S::Disk>, Trouble>
    ensures { said.IfOk result (said.IsOpenedAgain S.Disk.Device ⟦<Mirror<S::Disk> as Device>⟧ ⟦<ReadAhead<S::Disk> as Device>⟧
        (S.is_opened places.now path.now) closed) }
{
    drop(closed);
    let (file, _) = places.open_alone(path)?;
    let pages = Pages::new(alloc, PageSize::Kib4, PAGES)?;
    let ahead = ReadAhead::new(file, pages);
    Ok(ahead)
}

/// Plays lines over a new store of this shape on a device. A refusal that ended the run is its answer.
fn play_new<D: Device + Drop + Send, G: Gate + Sync, R: Threads + Wait + Sync>(
    rt: &R,
    alloc: Global,
    device: D,
    shape: Shape,
    lines: &[Line],
    gate: &G,
) -> Result<Played<D>, Fault>
    requires honest { D.honest device }
    ensures ok { said.IfOk result (λ its. said.IsPlayedNew D.Device device shape lines.now its.logs.items its.keeper.device its.keeper.finished) }
    ensures err { said.IfErr result (said.IsUnplayed D.Device device shape lines.now) }
{
    let mut device = device;
    let opened = create_opened(alloc, &mut device, shape)?;
    let played = play(rt, alloc, opened, device, lines, gate)?;
    whole(played)
}

/// What was played to its end: no turn was refused but for memory, and no session was stopped. Where the fault of no turn has stopped a session, memory
/// was refused.
fn whole<D: Device + Drop>(played: Played<D>) -> Result<Played<D>, Fault>
    ensures ok { said.IfOk result (λ its. (its ≡ played) × (played.is_whole ≡ true) × (played.keeper.fault ≡ None)) }
    ensures err { said.IfErr result (λ why. (why ≡ said.Memory) ⊎ (played.keeper.fault ≡ Some why)) }
{
    match played.keeper.fault {
        Some(fault) => Err(fault),
        None if played.is_whole => Ok(played),
        None => Err(Fault::Memory),
    }
}

/// The report of these lines, by what sessions and keeper were told, and by the store that the device holds.
fn report_on<D: Device>(
    alloc: Global,
    lines: &[Line],
    logs: &[Log],
    finished: &Option<Finished>,
    device: &mut D,
) -> Result<Report, Fault>
    ensures ok { said.IfOk result (said.IsReportOn D.Device lines.now logs.now finished.now device.old) }
    ensures err { said.IfErr result (said.IsUnreported D.Device logs.now device.old) }
{
    let opened = recover(alloc, device)?;
    let pairs = content(alloc, &opened, device)?;
    report_of(alloc, lines, logs, finished, &opened, &pairs)
}

/// The shape of these sizes. `BadShape` where no store has them.
fn shape_of(sizes: Sizes) -> Result<Shape, Fault>
    ensures ok { said.IfOk result (said.HasSizes sizes) }
    ensures err { said.IfErr result (λ why. (why ≡ said.BadShape) × (said.AreSizes sizes → ⊥)) }
{
    let Sizes {
        class,
        bucket_bits,
        page,
        frames,
        mutable,
        sessions,
        overflow,
        disk_pages,
    } = sizes;
    match class {
        StoreClass::Specified => Shape::new(
            bucket_bits,
            page,
            frames,
            mutable,
            sessions,
            overflow,
            disk_pages,
        ),
        StoreClass::Living => Shape::large(
            bucket_bits,
            page,
            frames,
            mutable,
            sessions,
            overflow,
            disk_pages,
        ),
    }
}
