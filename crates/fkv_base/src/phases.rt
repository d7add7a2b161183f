//! The phases of a commit.
ghost use Rattle.std.specs.Prelude.{◌≡◌};
ghost use Rattle.fkv_base.specs.Phase.{phase_name};

/// Where the store stands between two commits, in the order in which a commit goes through them.
#[derive(Clone, Copy, Debug, PartialEq, Eq)]
pub enum Phase {
    Rest,
    Prepare,
    InProgress,
    WaitPending,
    WaitFlush,
}

impl Phase {
    /// The phase as the program prints it.
    pub fn name(self) -> &'static str
        ensures { result.now ≡ phase_name self }
    {
        match self {
            Phase::Rest => "rest",
            Phase::Prepare => "prepare",
            Phase::InProgress => "in-progress",
            Phase::WaitPending => "wait-pending",
            Phase::WaitFlush => "wait-flush",
        }
    }
}
