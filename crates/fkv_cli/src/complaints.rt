//! What the program tells on standard error of a run that ended early, or whose device failed: a line in words. No clause speaks of it.
mod lines;
mod options;
mod quoted;
mod sizes;
mod usage;

use fkv_files::{FileTrouble, Trouble};
pub(crate) use lines::LineFault;
pub(crate) use options::WordFault;
pub(crate) use sizes::SizeFault;
use std::fmt;
use std::io::{self, Cursor, Write};
pub use usage::tell_usage;

/// Why a run ended as it did.
#[derive(Clone, Copy)]
pub(crate) enum Complaint<'a> {
    /// A word behind the program's name is refused.
    Words(WordFault<'a>),
    /// Line `number` of the script is faulty.
    Line { number: u64, fault: LineFault<'a> },
    /// A size of the shape is outside its limits.
    SizeOutside(SizeFault),
    /// The sizes are no shape's, and which of them is outside its limits isn't known.
    SizesRefused,
    /// No store could be made or opened in the file of this path.
    File { path: &'a str, trouble: Trouble },
    /// No store could be made in memory.
    NoStoreInMemory,
    /// The store in memory could not be recovered behind a crash.
    NotRecovered,
    /// A recovered store differs from the replay of what its commit keeps.
    CheckDiffers,
    /// A call of the store's device failed in the run.
    DeviceFailed,
    /// Memory was refused.
    MemoryRefused,
    /// Standard input could not be read.
    InputFailed(io::Error),
    /// Standard output could not be written.
    OutputFailed(io::Error),
}

impl fmt::Display for Complaint<'_> {
    fn fmt<W: fmt::Write>(&self, f: &mut fmt::Formatter<W>) -> fmt::Result {
        match self {
            Complaint::Words(fault) => write!(f, "{fault}"),
            Complaint::Line { number, fault } => write!(f, "line {number} of the script: {fault}"),
            Complaint::SizeOutside(fault) => write!(f, "{fault}"),
            Complaint::SizesRefused => f.write_str("a size is outside its limits"),
            Complaint::File { path, trouble } => {
                let fault = FileTrouble {
                    path: *path,
                    trouble: *trouble,
                };
                write!(f, "{fault}")
            }
            Complaint::NoStoreInMemory => f.write_str(
                "no store could be made: the device in memory refused a call",
            ),
            Complaint::NotRecovered => f.write_str(
                "the store could not be recovered behind a crash",
            ),
            Complaint::CheckDiffers => f.write_str(
                "a check differs: a recovered store is not the replay of what its commit keeps",
            ),
            Complaint::DeviceFailed => f.write_str(
                "a call of the store's device failed: until a crash or a new opening nothing more is asked of it, and commits are refused",
            ),
            Complaint::MemoryRefused => f.write_str(
                "memory was refused: what is written is a beginning",
            ),
            Complaint::InputFailed(error) => write!(f, "standard input could not be read: {error}"),
            Complaint::OutputFailed(error) => write!(
                f,
                "standard output could not be written: {error}"
            ),
        }
    }
}

/// No complaint is longer: its words are cut.
const LONGEST: usize = 1024;

/// Writes a complaint as one line, at once. Where its writer fails the line is lost, and nothing else comes of that.
pub(crate) fn complain<E: Write>(complaints: &mut E, complaint: Complaint<'_>) {
    let mut line = Cursor::new([0; LONGEST]);
    let _cut = writeln!(line, "fkv: {complaint}");
    let Ok(end) = usize::try_from(line.position()) else {
        return;
    };
    if let Some(text) = line.get_ref().get(..end) {
        let _lost = complaints.write_all(text);
        let _failed = complaints.flush();
    }
}
