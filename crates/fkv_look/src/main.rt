//! `fkv_look`: what a store's file holds, in lines, as JSON or as a picture.
#![tactic(auto)]

mod complaints;
mod json;
mod options;
mod picture_file;
mod showing;
mod store_file;
mod text;

use complaints::{Complaint, complain};
use options::{Asked, options_of};
use showing::show;
use std::env;
use std::io::{self, BufWriter, ErrorKind, Write};
use std::process::ExitCode;

/// Words that are refused have this status.
const REFUSED_WORDS: u8 = 2;

/// Memory, or a standard stream, that failed has this one.
const WANT: u8 = 4;

fn main(rt: HostRuntime) -> ExitCode {
    match looked(&rt) {
        Ok(status) => ExitCode::from(status),
        Err(error) => {
            if let Some(complaint) = Complaint::of_stop(error) {
                complain(&mut rt.stderr(), complaint);
            }
            ExitCode::from(WANT)
        }
    }
}

/// Looks at the file that the words name, or writes the help or the version. The status: 0, or 3 where the file holds no whole store or could not be read, or 2 where the
/// words are refused.
fn looked(rt: &HostRuntime) -> io::Result<u8> {
    let mut output = BufWriter::new(rt.alloc(), io::writer(rt))?;
    let owned = match words_of(rt) {
        Ok(owned) => owned,
        // A word is no text.
        Err(error) if error.kind() == ErrorKind::InvalidData => {
            return refuse_words(rt, &mut output);
        }
        Err(error) => return Err(error),
    };
    let mut words = Vec::new(rt.alloc());
    for word in &owned {
        words.push(word.as_str())?;
    }
    match options_of(rt.alloc(), words.as_slice())? {
        Asked::Look(options) => show(rt, &options, &mut output),
        Asked::Text(text) => write_text(&mut output, text.as_str()),
        Asked::Nothing => refuse_words(rt, &mut output),
    }
}

/// Writes what `--help` or `--version` asks for.
fn write_text<W: Write>(output: &mut W, text: &str) -> io::Result<u8> {
    output.write_all(text.as_bytes())?;
    output.flush()?;
    Ok(0)
}

/// Says that the words are refused.
fn refuse_words<W: Write>(rt: &HostRuntime, output: &mut W) -> io::Result<u8> {
    writeln!(output, "options")?;
    output.flush()?;
    complain(&mut rt.stderr(), Complaint::Words);
    Ok(REFUSED_WORDS)
}

/// The words after the program's name.
fn words_of(rt: &HostRuntime) -> io::Result<Vec<String>> {
    let mut words = Vec::new(rt.alloc());
    for word in env::args(rt)?.skip(1) {
        words.push(word)?;
    }
    Ok(words)
}
