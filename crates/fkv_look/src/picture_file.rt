//! The file of a picture.
use fkv_files::Trouble;
use fkv_looking::StoreLook;
use fkv_picture::picture_of;
use std::fs::{File, OpenOptions};
use std::io::{self, BufWriter, Write};

/// Why there is no whole picture.
#[derive(Clone, Copy)]
pub(crate) enum PictureFault {
    /// No file could be made.
    NotMade(Trouble),
    /// It could not be written: what is there is a beginning.
    NotWritten(io::Error),
}

/// Writes the picture of a store into a new file. A file that is there is refused and left as it is.
pub(crate) fn write_picture(
    rt: &HostRuntime,
    path: &str,
    store: &StoreLook,
) -> Result<(), PictureFault> {
    let file = match OpenOptions::new()
        .write(true)
        .create_new(true)
        .open(rt, path)
    {
        Ok(file) => file,
        Err(error) => return Err(PictureFault::NotMade(Trouble::Refused(error))),
    };
    match write_into(rt, file, store) {
        Ok(()) => Ok(()),
        Err(error) => Err(PictureFault::NotWritten(error)),
    }
}

fn write_into(rt: &HostRuntime, file: File, store: &StoreLook) -> io::Result<()> {
    let mut output = BufWriter::new(rt.alloc(), file)?;
    write!(output, "{}", picture_of(store))?;
    output.flush()
}
