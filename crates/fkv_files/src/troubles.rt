//! Why no store can be made or opened in a file.
use fkv_base::Fault;
use std::alloc::AllocError;
use std::{fmt, io};

/// Why no store can be made or opened in a file.
#[derive(Clone, Copy)]
pub enum Trouble {
    /// The system didn't open it.
    Refused(io::Error),
    /// The system didn't lock it, for something else than another process that has it open.
    Unlocked(io::Error),
    /// Another process has it open.
    InUse,
    /// It holds something else than a store.
    Foreign,
    /// Something has the name that a new file is to have.
    Taken,
    /// The system didn't give a new file its name.
    Unnamed(io::Error),
    /// The folder of a new file could not be synced.
    Folder(io::Error),
    /// It is no regular file, so its bytes can't be kept in memory.
    Irregular,
    /// The file is open, and what was done with it met this fault.
    Fault(Fault),
}

impl From<Fault> for Trouble {
    fn from(fault: Fault) -> Trouble {
        Trouble::Fault(fault)
    }
}

impl From<AllocError> for Trouble {
    fn from(_error: AllocError) -> Trouble {
        Trouble::Fault(Fault::Memory)
    }
}

/// A file's path with its trouble, as a complaint tells them.
#[derive(Clone, Copy)]
pub struct FileTrouble<'a> {
    pub path: &'a str,
    pub trouble: Trouble,
}

/// So many bytes of a path are shown.
const LONGEST_PATH: usize = 200;

/// A path in quotes, with what is no printable ASCII escaped. A long one begins with `..` and is cut in front, since its name stands at
/// its end.
#[derive(Clone, Copy)]
struct QuotedPath<'a>(&'a [u8]);

impl fmt::Display for QuotedPath<'_> {
    fn fmt<W: fmt::Write>(&self, f: &mut fmt::Formatter<W>) -> fmt::Result {
        let path = self.0;
        let cut = path.len().saturating_sub(LONGEST_PATH);
        let (front, end) = match path.get(cut..) {
            Some(end) if cut > 0 => ("..", end),
            _ => ("", path),
        };
        let end = end.escape_ascii();
        write!(f, "\"{front}{end}\"")
    }
}

impl fmt::Display for FileTrouble<'_> {
    fn fmt<W: fmt::Write>(&self, f: &mut fmt::Formatter<W>) -> fmt::Result {
        let FileTrouble { path, trouble } = self;
        let path = QuotedPath(path.as_bytes());
        write!(f, "the file {path} {trouble}")
    }
}

impl fmt::Display for Trouble {
    fn fmt<W: fmt::Write>(&self, f: &mut fmt::Formatter<W>) -> fmt::Result {
        match self {
            Trouble::Refused(error) => write!(f, "can't be opened: {error}"),
            Trouble::Unlocked(error) => write!(f, "can't be locked: {error}"),
            Trouble::InUse => f.write_str("is in use by another process"),
            Trouble::Foreign => f.write_str(
                "holds something that is no store, and is left as it is",
            ),
            Trouble::Taken => f.write_str("is there already, and is left as it is"),
            Trouble::Unnamed(error) => write!(f, "can't be given its name: {error}"),
            Trouble::Folder(error) => write!(f, "is new, and its folder can't be synced: {error}"),
            Trouble::Irregular => f.write_str("is no regular file"),
            Trouble::Fault(Fault::NotAStore) => f.write_str("holds no store"),
            Trouble::Fault(Fault::Device) => f.write_str("could not be read or written"),
            Trouble::Fault(fault) => write!(f, "can't be used: {fault}"),
        }
    }
}
