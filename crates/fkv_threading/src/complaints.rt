//! What a run tells on standard error where its status is above 0: a line in words. No clause speaks of it.
use fkv_base::ScriptFault;
use fkv_files::{FileTrouble, Trouble};
use std::fmt;
use std::io::{Cursor, Write};

/// A line and what is wrong with it, in words.
#[derive(Clone, Copy)]
pub(crate) struct Faulty {
    pub(crate) line: u64,
    pub(crate) kind: ScriptFault,
}

impl fmt::Display for Faulty {
    fn fmt<W: fmt::Write>(&self, f: &mut fmt::Formatter<W>) -> fmt::Result {
        let (line, kind) = (self.line, self.kind);
        write!(f, "line {line} of the script: {kind}")
    }
}

/// Tells what the status of a run means, or what is wrong with the file of this path.
pub(crate) fn complain_of_end<E: Write>(
    complaints: &mut E,
    file: Option<&str>,
    status: u8,
    trouble: Option<Trouble>,
) {
    match (file, trouble) {
        (Some(path), Some(trouble)) => complain(complaints, &FileTrouble { path, trouble }),
        _ => complain_of_status(complaints, status),
    }
}

fn complain_of_status<E: Write>(complaints: &mut E, status: u8) {
    match status {
        1 => complain(
            complaints,
            &"a point or a key differs from what the threads were told",
        ),
        2 => complain(complaints, &"a size is outside its limits"),
        3 => complain(complaints, &"a store or a turn of the keeper was refused"),
        _ => {}
    }
}

/// No complaint is longer: its words are cut.
const LONGEST: usize = 1024;

/// Writes a complaint as one line, at once. Where its writer fails the line is lost, and nothing else comes of that.
pub(crate) fn complain<E: Write, D: fmt::Display>(complaints: &mut E, why: &D) {
    let mut line = Cursor::new([0; LONGEST]);
    let _cut = writeln!(line, "fkv: {why}");
    let Ok(end) = usize::try_from(line.position()) else {
        return;
    };
    if let Some(text) = line.get_ref().get(..end) {
        let _lost = complaints.write_all(text);
        let _failed = complaints.flush();
    }
}
