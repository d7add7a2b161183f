//! Looking at a file and showing what it holds.
ghost use Rattle.std.specs.Prelude.{◌<◌};

use crate::complaints::{Complaint, complain};
use crate::json::json_of;
use crate::options::Options;
use crate::picture_file::{PictureFault, write_picture};
use crate::store_file::open_shared;
use crate::text::write_look;
use fkv_base::{Fault, Key, Value};
use fkv_disk::{Device, PageSize, Pages, ReadAhead};
use fkv_files::Trouble;
use fkv_looking::{Found, Look, look};
use fkv_pairs::content;
use fkv_spread::spread_back;
use std::alloc::Global;
use std::io::{self, ErrorKind, Write};

/// A store that could not be opened has this status.
const NO_STORE: u8 = 3;

/// A picture that could not be written has this one.
const NO_PICTURE: u8 = 4;

/// At most so many pages of 4 KiB are kept while a file is read: 32 MiB.
const MOST_PAGES: u64 = 8192;

/// What is shown.
#[derive(Drop)]
pub(crate) struct Shown {
    pub(crate) look: Look,
    /// The pairs, where they are asked for and there is a whole store.
    pub(crate) pairs: Option<Vec<(Key, Value)>>,
}

/// Shows what the file holds, in the way that the options ask for. The status: 0, or 3 where the file holds no whole store or could not
/// be read.
pub(crate) fn show<W: Write>(
    rt: &HostRuntime,
    options: &Options<'_>,
    output: &mut W,
) -> io::Result<u8> {
    let shown = match looked_at(rt, options) {
        Ok(shown) => shown,
        Err(Trouble::Fault(Fault::Memory)) => return Err(ErrorKind::OutOfMemory.into()),
        Err(trouble) => {
            writeln!(
                output,
                "refused {} {}",
                Fault::Device.number(),
                Fault::Device.name()
            )?;
            output.flush()?;
            complain_of_file(rt, options.file, trouble);
            return Ok(NO_STORE);
        }
    };
    write_shown(rt, options, &shown, output)?;
    match (fault_of(&shown.look.found), options.picture) {
        (Some(fault), _) => {
            complain_of_file(rt, options.file, Trouble::Fault(fault));
            Ok(NO_STORE)
        }
        (None, Some(path)) => Ok(draw(rt, path, &shown.look.found)),
        (None, None) => Ok(0),
    }
}

/// Writes what is shown, as lines or as JSON.
fn write_shown<W: Write>(
    rt: &HostRuntime,
    options: &Options<'_>,
    shown: &Shown,
    output: &mut W,
) -> io::Result<()> {
    if options.json {
        let text = json_of(rt.alloc(), shown)?.to_string(rt.alloc())?;
        writeln!(output, "{text}")?;
    } else {
        write_look(output, shown)?;
    }
    output.flush()
}

/// Writes the picture of a whole store into a new file. The status: 0, or 4 where the file could not be made or written.
fn draw(rt: &HostRuntime, path: &str, found: &Found) -> u8 {
    let Found::Store(store) = found else {
        return 0;
    };
    match write_picture(rt, path, store) {
        Ok(()) => 0,
        Err(PictureFault::NotMade(trouble)) => {
            complain_of_file(rt, path, trouble);
            NO_PICTURE
        }
        Err(PictureFault::NotWritten(error)) => {
            complain(&mut rt.stderr(), Complaint::PictureFailed(error));
            NO_PICTURE
        }
    }
}

fn complain_of_file(rt: &HostRuntime, path: &str, trouble: Trouble) {
    complain(&mut rt.stderr(), Complaint::File { path, trouble });
}

/// The fault that was found, if one was.
fn fault_of(found: &Found) -> Option<Fault> {
    match found {
        Found::NoStore => Some(Fault::NotAStore),
        Found::Damaged(damage) => Some(Fault::Damaged(damage.part, damage.place)),
        Found::Store(_) => None,
    }
}

/// Opens the file, looks at it, and closes it.
fn looked_at(rt: &HostRuntime, options: &Options<'_>) -> Result<Shown, Trouble> {
    let (device, length) = open_shared(rt, options.file)?;
    let pages = Pages::new(rt.alloc(), PageSize::Kib4, pages_to_keep(length))?;
    let mut ahead = ReadAhead::new(device, pages);
    let seen = look(rt.alloc(), &mut ahead)?;
    let pairs = if options.pairs {
        pairs_of(rt.alloc(), &seen.found, &mut ahead)?
    } else {
        None
    };
    let pairs = match pairs {
        Some(pairs) if options.spread => Some(gathered(rt.alloc(), &pairs)?),
        pairs => pairs,
    };
    Ok(Shown { look: seen, pairs })
}

/// The pairs of a whole store.
fn pairs_of<D: Device>(
    alloc: Global,
    found: &Found,
    device: &mut D,
) -> Result<Option<Vec<(Key, Value)>>, Fault> {
    match found {
        Found::Store(store) => Ok(Some(content(alloc, &store.opened, device)?)),
        _ => Ok(None),
    }
}

/// The pairs with their keys as the library's users know them, by ascending keys. The library spreads keys, so that keys that differ in
/// few bits don't share a bucket.
fn gathered(alloc: Global, pairs: &[(Key, Value)]) -> Result<Vec<(Key, Value)>, Fault> {
    let mut numbers = Vec::new(alloc);
    for (key, value) in pairs {
        numbers.push((spread_back(key.0), value.0))?;
    }
    numbers.sort_unstable();
    let mut gathered = Vec::new(alloc);
    for (key, value) in &numbers {
        gathered.push((Key(*key), Value(*value)))?;
    }
    Ok(gathered)
}

/// How many pages to keep of a file of so many bytes: all, if they aren't too many.
fn pages_to_keep(length: Option<u64>) -> usize
    ensures { 0 < result }
{
    match length {
        Some(length) if length / 4096 < MOST_PAGES => (length / 4096 + 1) as usize,
        _ => MOST_PAGES as usize,
    }
}
