//! What the program tells on standard error where it ends with a status above 0: a line in words.
use fkv_files::{FileTrouble, Trouble};
use std::fmt;
use std::io::{self, Cursor, ErrorKind, Write};

/// Why a run ended as it did.
#[derive(Clone, Copy)]
pub(crate) enum Complaint<'a> {
    /// The words behind the program's name are refused.
    Words,
    /// The file of this path holds no whole store, or can't be looked at; or no picture can be written there.
    File { path: &'a str, trouble: Trouble },
    /// Memory was refused.
    MemoryRefused,
    /// The picture's file was made, and could not be written.
    PictureFailed(io::Error),
    /// Standard output could not be written.
    OutputFailed(io::Error),
}

impl Complaint<'_> {
    /// What stopped a run. Whoever reads a pipe may close it when he has seen enough, so that alone is no complaint.
    pub(crate) fn of_stop(error: io::Error) -> Option<Complaint<'static>> {
        match error.kind() {
            ErrorKind::OutOfMemory => Some(Complaint::MemoryRefused),
            ErrorKind::BrokenPipe => None,
            _ => Some(Complaint::OutputFailed(error)),
        }
    }
}

impl fmt::Display for Complaint<'_> {
    fn fmt<W: fmt::Write>(&self, f: &mut fmt::Formatter<W>) -> fmt::Result {
        match self {
            Complaint::Words => {
                f.write_str(
                    "the words are to be FILE [--pairs] [--spread] [--json] [--picture NEW], each once; --help says more",
                )
            }
            Complaint::File { path, trouble } => {
                let fault = FileTrouble {
                    path: *path,
                    trouble: *trouble,
                };
                write!(f, "{fault}")
            }
            Complaint::MemoryRefused => {
                f.write_str("memory was refused: what is written is a beginning")
            }
            Complaint::PictureFailed(error) => {
                write!(f, "the picture could not be written: {error}")
            }
            Complaint::OutputFailed(error) => write!(
                f,
                "standard output could not be written: {error}"
            ),
        }
    }
}

/// No complaint is longer: its words are cut.
const LONGEST: usize = 1024;

/// Writes a complaint as one line, at once. Where its writer fails the line is lost, and nothing else comes of that.
pub(crate) fn complain<E: Write>(complaints: &mut E, complaint: Complaint<'_>) {
    let mut line = Cursor::new([0; LONGEST]);
    let _cut = writeln!(line, "fkv_look: {complaint}");
    let Ok(end) = usize::try_from(line.position()) else {
        return;
    };
    if let Some(text) = line.get_ref().get(..end) {
        let _lost = complaints.write_all(text);
        let _failed = complaints.flush();
    }
}
