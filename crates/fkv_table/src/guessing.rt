//! Where a session expects the tail.

/// The farthest step that is expected once more.
const FARTHEST: u64 = 4;

/// The last two addresses that a session has raised the tail from, 0 before there are any.
#[derive(Clone, Copy)]
pub(crate) struct TailGuess {
    last: u64,
    before: u64,
}

impl TailGuess {
    /// Before the first.
    pub(crate) fn none() -> TailGuess {
        TailGuess { last: 0, before: 0 }
    }

    /// Where the tail is, if since the last address others have taken as many as between the two. If those were many, the session had paused: then it
    /// is where a session alone finds it.
    #[inline(always)]
    pub(crate) fn next(&self) -> u64 {
        let step = self.last.wrapping_sub(self.before);
        let expected = if step <= FARTHEST { step } else { 1 };
        self.last.wrapping_add(expected)
    }

    #[inline(always)]
    pub(crate) fn add(&mut self, addr: u64) {
        self.before = self.last;
        self.last = addr;
    }
}
