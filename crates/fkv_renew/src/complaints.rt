//! Why a run ended early, in words.
use crate::renewals::Refusal;
use crate::words::Asked;
use fkv_base::{Fault, StoreClass};
use fkv_files::{FileTrouble, Trouble};
use fkv_lines::Sizes;
use std::{fmt, io};

/// Why a run ended early.
#[derive(Clone, Copy)]
pub(crate) enum Complaint<'a> {
    /// The words behind the program's name are refused.
    Words,
    /// What is asked for is refused.
    Renewal { asked: Asked<'a>, refusal: Refusal },
    /// Memory was refused.
    MemoryRefused,
    /// Standard output could not be written.
    OutputFailed(io::Error),
}

impl fmt::Display for Complaint<'_> {
    fn fmt<W: fmt::Write>(&self, f: &mut fmt::Formatter<W>) -> fmt::Result {
        match self {
            Complaint::Words => f.write_str(
                "the words are to be OLD and NEW, two files, at most one of --shape and --large with seven numbers, and --spread or not",
            ),
            Complaint::Renewal { asked, refusal } => write_refusal(f, *asked, *refusal),
            Complaint::MemoryRefused => f.write_str("memory was refused"),
            Complaint::OutputFailed(error) => write!(
                f,
                "standard output could not be written: {error}"
            ),
        }
    }
}

fn write_refusal<W: fmt::Write>(
    f: &mut fmt::Formatter<W>,
    asked: Asked<'_>,
    refusal: Refusal,
) -> fmt::Result {
    let (path, trouble) = match refusal {
        Refusal::Sizes(sizes) => return f.write_str(refused_sizes(sizes)),
        Refusal::Unfit(fault) => return f.write_str(missing_room(fault)),
        Refusal::Memory => return f.write_str("memory was refused"),
        Refusal::First(trouble) => {
            return write!(
                f,
                "the new file, whose name ends with .renewing until it is whole, {trouble}"
            );
        }
        Refusal::Old(trouble) => (asked.old, trouble),
        Refusal::Unopened(fault) => (asked.old, Trouble::Fault(fault)),
        Refusal::New(trouble) => (asked.new, trouble),
    };
    let fault = FileTrouble { path, trouble };
    write!(f, "{fault}")
}

/// Why no store has these sizes.
fn refused_sizes(sizes: Sizes) -> &'static str {
    match sizes.class {
        StoreClass::Specified => "a size behind --shape is outside the limits of a specified store",
        StoreClass::Living => "a size behind --large is outside the limits of a living store",
    }
}

/// What a shape has no room for.
fn missing_room(fault: Fault) -> &'static str {
    match fault {
        Fault::NoSession => {
            "the new store needs more sessions: one beyond them has taken a serial"
        }
        Fault::LogFull =>
            "the new store needs more pages, or larger ones: each pair takes a record",
        Fault::IndexFull => {
            "the new store needs more buckets, or overflow buckets: its index has no slot for each key"
        }
        _ => "the new store could not be made",
    }
}
