//! `fkv_renew OLD NEW`: the pairs and the points of a store, as a new store.
#![tactic(auto)]

mod answers;
mod complaints;
mod help;
mod places;
mod renewals;
mod runs;
mod saved;
mod sizes;
mod stores;
mod telling;
mod words;

use fkv_noting::{Noted, Notes};
use help::text_asked_for;
use runs::{refuse_unread, run};
use std::env;
use std::io::{self, BufWriter, ErrorKind, IsTerminal, Write};
use std::process::ExitCode;
use telling::Teller;

fn main(rt: HostRuntime) -> ExitCode {
    let stderr = rt.stderr();
    let is_watched = stderr.is_terminal();
    let mut teller = Teller::new(stderr, is_watched);
    match answered(&rt, &mut teller) {
        Ok(status) => ExitCode::from(status),
        Err(error) => {
            teller.complain_of_stop(error);
            ExitCode::from(4)
        }
    }
}

/// Runs the program; the status is the run's. An `Err` is memory or standard output that failed.
fn answered<E: Write>(rt: &HostRuntime, teller: &mut Teller<E>) -> io::Result<u8> {
    let mut output = BufWriter::new(rt.alloc(), io::writer(rt))?;
    let owned = match words_of(rt) {
        Ok(owned) => owned,
        // A word is no text.
        Err(error) if error.kind() == ErrorKind::InvalidData => {
            let status = refuse_unread(rt.alloc(), &mut output, teller)?;
            output.flush()?;
            return Ok(status);
        }
        Err(error) => return Err(error),
    };
    let mut words = Vec::new(rt.alloc());
    for word in &owned {
        words.push(word.as_str())?;
    }
    if let Some(text) = text_asked_for(words.as_slice()) {
        output.write_all(text.as_bytes())?;
        output.flush()?;
        return Ok(0);
    }
    let notes = Notes::new();
    let files = Noted::new(rt, &notes);
    let status = run(&files, rt.alloc(), words.as_slice(), &mut output, teller)?;
    teller.tell_notes(&notes);
    output.flush()?;
    Ok(status)
}

/// The words after the program's name.
fn words_of(rt: &HostRuntime) -> io::Result<Vec<String>> {
    let mut words = Vec::new(rt.alloc());
    for word in env::args(rt)?.skip(1) {
        words.push(word)?;
    }
    Ok(words)
}
