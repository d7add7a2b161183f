//! A writer of answers that notes whether they tell of a failed device.
use crate::complaints::{Complaint, complain};
use std::io::{self, Write};

/// What a turn of the keeper answers in which a call of the device fails. No call of the device is made elsewhere in a life.
const FAILED_TURN: &[u8] = b"k refused 14 Device\n";

/// Passes answers on, and notes whether one of them is a turn's whose device failed.
#[derive(Drop)]
pub struct Watched<W> {
    inner: W,
    seen: Seen,
}

/// How far the answers have come in `FAILED_TURN`, and whether they have come through it.
#[derive(Clone, Copy)]
struct Seen {
    bytes: usize,
    is_whole: bool,
}

impl<W: Write> Watched<W> {
    /// A writer that has told nothing so far.
    pub fn new(inner: W) -> Watched<W> {
        Watched {
            inner,
            seen: Seen {
                bytes: 0,
                is_whole: false,
            },
        }
    }

    /// Writes a line of complaint if a call of the device has failed in the run whose answers these are.
    pub fn complain<E: Write>(&self, complaints: &mut E) {
        if self.seen.is_whole {
            complain(complaints, Complaint::DeviceFailed);
        }
    }
}

impl Seen {
    /// What is seen after these bytes more.
    fn after(self, bytes: &[u8]) -> Seen {
        let mut seen = self;
        for byte in bytes {
            seen = seen.after_byte(*byte);
        }
        seen
    }

    /// What is seen after one byte more. The text's first byte stands in it once, so a beginning of it that breaks off hides no other.
    fn after_byte(self, byte: u8) -> Seen {
        let bytes = match FAILED_TURN.get(self.bytes) {
            Some(next) if *next == byte => self.bytes.saturating_add(1),
            _ if byte == b'k' => 1,
            _ => 0,
        };
        Seen {
            bytes,
            is_whole: self.is_whole || bytes == FAILED_TURN.len(),
        }
    }
}

impl<W: Write> Write for Watched<W> {
    ghost contents = { λ watched. W.contents watched.inner };

    fn write(&mut self, buf: &[u8]) -> io::Result<usize> {
        let taken = self.inner.write(buf)?;
        self.seen = self.seen.after(&buf[..taken]);
        Ok(taken)
    }

    fn flush(&mut self) -> io::Result<()> {
        self.inner.flush()
    }
}
