//! What is noted of the files of a run.
use fkv_files::complain;
use std::fmt;
use std::io::{self, Write};
use std::sync::atomic::{AtomicI32, AtomicU64, Ordering};

/// What is noted of the files of a run. Its threads may note at once.
#[derive(Drop)]
pub struct Notes {
    /// The number of the last error by which the system has refused a call of a file, or 0.
    refusal: AtomicI32,
    /// How many commits the store had that a new one was written over, or 0.
    wiped: AtomicU64,
}

/// A note, in words.
#[derive(Clone, Copy)]
enum Note {
    Refused(io::Error),
    Wiped(u64),
}

impl Notes {
    /// Nothing is noted so far.
    pub fn new() -> Notes {
        Notes {
            refusal: AtomicI32::new(0),
            wiped: AtomicU64::new(0),
        }
    }

    /// The system has refused a call of a file.
    pub(crate) fn note_refusal(&self, error: &io::Error) {
        if let Some(code) = error.raw_os_error() {
            self.refusal.store(code, Ordering::SeqCst);
        }
    }

    /// A new store is written over one of so many commits, or over none where it is 0.
    pub(crate) fn note_wiped(&self, commits: u64) {
        if commits > 0 {
            self.wiped.store(commits, Ordering::SeqCst);
        }
    }

    /// Writes a line for each note, as complaints of this program. Where the writer fails they are lost.
    pub fn tell<E: Write>(&self, complaints: &mut E, program: &str) {
        let wiped = self.wiped.load(Ordering::SeqCst);
        if wiped > 0 {
            complain(complaints, program, &Note::Wiped(wiped));
        }
        let refusal = self.refusal.load(Ordering::SeqCst);
        if refusal != 0 {
            let error = io::Error::from_raw_os_error(refusal);
            complain(complaints, program, &Note::Refused(error));
        }
    }
}

impl fmt::Display for Note {
    fn fmt<W: fmt::Write>(&self, f: &mut fmt::Formatter<W>) -> fmt::Result {
        match self {
            Note::Refused(error) => write!(
                f,
                "the system refused a call of the store's file: {error}"
            ),
            Note::Wiped(commits) => {
                let many = if *commits == 1 { "" } else { "s" };
                write!(
                    f,
                    "the file held a store of {commits} commit{many}, which the new store has wiped"
                )
            }
        }
    }
}
