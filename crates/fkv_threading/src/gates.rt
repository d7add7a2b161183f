//! What may hold a session before one of its lines.

/// A session's thread passes it before each of its lines, by their number among its own, from 1. So the lines before are answered.
pub trait Gate {
    fn before(&self, session: usize, line: u64);
}

/// Holds nobody.
#[derive(Clone, Copy)]
pub struct Open;

impl Gate for Open {
    fn before(&self, _session: usize, _line: u64) {}
}
