//! How far threads have come, as they tell each other. No contract leans on it.
use std::sync::atomic::{AtomicBool, AtomicU64, Ordering};

/// What the threads of one script tell each other.
#[derive(Drop)]
pub(crate) struct Progress {
    /// The keeper's lines are through.
    keeper: AtomicBool,
    /// Each thread ends after its call in hand.
    stopped: AtomicBool,
    /// How many sessions have ended.
    ended: AtomicU64,
}

impl Progress {
    pub(crate) fn new() -> Progress {
        Progress {
            keeper: AtomicBool::new(false),
            stopped: AtomicBool::new(false),
            ended: AtomicU64::new(0),
        }
    }

    pub(crate) fn end_keeper_lines(&self) {
        self.keeper.store(true, Ordering::SeqCst);
    }

    pub(crate) fn are_keeper_lines_through(&self) -> bool {
        self.keeper.load(Ordering::SeqCst)
    }

    pub(crate) fn stop(&self) {
        self.stopped.store(true, Ordering::SeqCst);
    }

    pub(crate) fn is_stopped(&self) -> bool {
        self.stopped.load(Ordering::SeqCst)
    }

    pub(crate) fn end_session(&self) {
        self.ended.fetch_add(1, Ordering::SeqCst);
    }

    pub(crate) fn have_ended(&self, sessions: u64) -> bool {
        self.ended.load(Ordering::SeqCst) >= sessions
    }
}
