//! What was told of a medium. It takes no memory, and only clauses read it.
ghost use Rattle.std.specs.Prelude.{◌≡◌, ℕ, List, [], ◌∷◌};
ghost use Rattle.std.specs.Coded.{coded_ℕ, coded_list};
ghost use Rattle.std.specs.Borrow.{ftrue};
ghost use Rattle.fkv_posted.specs.Outcomes.{Outcome};
ghost use Rattle.fkv_posted.specs.Coding.{coded_outcomes};

use std::marker::Model;

/// The bytes that a medium was opened with, and what came of the calls since, the newest first.
#[derive(Drop)]
pub(crate) struct Log {
    ghost opened: { List ℕ } by { coded_list coded_ℕ },
    ghost outcomes: { List Outcome } by { coded_outcomes },
}

impl Model for Log {
    ghost also_owns = { λ _. ftrue };
}

// It owns nothing.
unsafe impl Send for Log {}

/// The bytes that a medium is opened with.
#[derive(Clone, Copy, Drop)]
pub(crate) struct Shown<'a> {
    pub(crate) bytes: &'a [u8],
}

/// What came of one call.
#[derive(Clone, Copy, Drop)]
pub(crate) enum Note<'a> {
    Gave(u64, &'a [u8]),
    Wrote(u64, &'a [u8], bool),
    Synced(bool),
}

impl Log {
    ghost use Rattle.fkv_posted.specs.Noted.{outcome_of};

    /// Nothing was told yet.
    pub(crate) fn new(_shown: &Shown<'_>) -> Log
        ensures { (result.opened ≡ _shown.now.bytes.now) × (result.outcomes ≡ []) }
    {
        Log {}
    }

    /// This one more was told.
    pub(crate) fn then(&self, _note: &Note<'_>) -> Log
        ensures { (result.opened ≡ self.now.opened) × (result.outcomes ≡ outcome_of _note.now ∷ self.now.outcomes) }
    {
        Log {}
    }
}
