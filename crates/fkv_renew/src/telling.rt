//! What is told on standard error. No clause speaks of it.
use crate::complaints::Complaint;
use fkv_files::complain;
use fkv_noting::Notes;
use std::io::{self, ErrorKind, Write};

/// What each line on standard error begins with.
const PROGRAM: &str = "fkv_renew";

/// Tells on standard error how far a renewal is, where somebody watches, and why it ended early.
#[derive(Drop)]
pub(crate) struct Teller<E> {
    stream: E,
    is_watched: bool,
}

impl<E: Write> Teller<E> {
    /// Tells on this stream. Steps are told where it is watched.
    pub(crate) fn new(stream: E, is_watched: bool) -> Teller<E> {
        Teller { stream, is_watched }
    }

    /// Tells what is done next, where somebody watches.
    pub(crate) fn step(&mut self, step: &str) {
        if self.is_watched {
            complain(&mut self.stream, PROGRAM, &step);
        }
    }

    /// Tells why a renewal ended early.
    pub(crate) fn complain(&mut self, complaint: Complaint<'_>) {
        complain(&mut self.stream, PROGRAM, &complaint);
    }

    /// Tells why the program stopped: memory was refused, or standard output failed. Whoever reads a pipe may close it when he has seen
    /// enough, so that alone is no complaint.
    pub(crate) fn complain_of_stop(&mut self, error: io::Error) {
        match error.kind() {
            ErrorKind::OutOfMemory => self.complain(Complaint::MemoryRefused),
            ErrorKind::BrokenPipe => {}
            _ => self.complain(Complaint::OutputFailed(error)),
        }
    }

    /// Tells what is noted of the files.
    pub(crate) fn tell_notes(&mut self, notes: &Notes) {
        notes.tell(&mut self.stream, PROGRAM);
    }
}
