//! Lines of complaint on standard error.
use std::fmt;
use std::io::{Cursor, Write};

/// No line is longer: its words are cut.
const LONGEST: usize = 1024;

/// Writes a complaint of a program as one line, at once: `fkv: memory was refused`. Where the writer fails the line is lost, and nothing
/// else comes of that.
pub fn complain<E: Write, C: fmt::Display>(complaints: &mut E, program: &str, complaint: &C) {
    let mut line = Cursor::new([0; LONGEST]);
    let _cut = writeln!(line, "{program}: {complaint}");
    let Ok(end) = usize::try_from(line.position()) else {
        return;
    };
    if let Some(text) = line.get_ref().get(..end) {
        let _lost = complaints.write_all(text);
        let _failed = complaints.flush();
    }
}
