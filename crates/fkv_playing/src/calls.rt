//! The calls that are played, and how a step of one comes out.
ghost use Rattle.std.specs.Prelude.{◌≡◌, nat_lt};
ghost use Rattle.fkv_playing.specs.Beats.{asked_of, event_of, sweeps_behind};
ghost use Rattle.fkv_playing.specs.Queues.{rank_of};

use fkv_base::CommitKind;
use fkv_core::Event;
use fkv_map::Call;

/// A call of an actor.
#[derive(Clone, Copy, PartialEq, Eq)]
pub enum ActorCall {
    /// The session of this number makes a call; the store may have no such session.
    Session(usize, Call),
    /// The keeper begins a commit. Turns sweep no more behind it.
    Commit(CommitKind),
    /// The keeper begins a full commit, behind which turns sweep the log's front.
    Trim,
    /// The keeper takes a turn.
    Turn,
}

/// Where a call stands.
#[derive(Clone, Copy, PartialEq, Eq)]
pub enum Stage {
    /// It is to be begun.
    Begins,
    /// It is in hand, and its actor is to move.
    Moves,
}

/// What is printed of an answer.
#[derive(Clone, Copy, PartialEq, Eq)]
pub enum Telling {
    /// All of it, as of a line of its own.
    Whole,
    /// What the call has finished, and refusals of the keeper, as inside a finish.
    Finished,
}

/// How a step of a call, or the call, comes out.
#[derive(Clone, Copy, PartialEq, Eq)]
pub enum Outcome {
    /// The call is in hand still.
    GoesOn,
    /// The call was answered.
    Answered,
    /// The turn has finished a commit, or was refused.
    Closed,
    /// The crash that was waited for has struck: what was in hand is given up.
    Struck,
}

impl ActorCall {
    /// The event of the engine at this stage, where turns sweep or don't.
    pub(crate) fn event(self, stage: Stage, sweeps: bool) -> Event
        ensures { result ≡ event_of sweeps stage self }
    {
        match stage {
            Stage::Begins => match self {
                ActorCall::Session(number, call) => Event::Call(number, call),
                ActorCall::Commit(kind) => Event::Commit(kind),
                ActorCall::Trim => Event::Commit(CommitKind::Full),
                ActorCall::Turn => Event::Turn,
            },
            Stage::Moves => match self {
                ActorCall::Session(number, _) => Event::Move(number),
                ActorCall::Turn if sweeps => Event::SweepMove,
                ActorCall::Commit(_) | ActorCall::Trim | ActorCall::Turn => Event::KeeperMove,
            },
        }
    }

    /// Whether turns sweep behind this stage, by whether they did before.
    pub(crate) fn leaves_sweeping(self, stage: Stage, sweeps: bool) -> bool
        ensures { result ≡ sweeps_behind stage self sweeps }
    {
        match (stage, self) {
            (Stage::Begins, ActorCall::Trim) => true,
            (Stage::Begins, ActorCall::Commit(_)) => false,
            _ => sweeps,
        }
    }

    /// What a session is asked.
    pub(crate) fn asked(self) -> Call
        ensures { result ≡ asked_of self }
    {
        match self {
            ActorCall::Session(_, call) => call,
            ActorCall::Commit(_) | ActorCall::Trim | ActorCall::Turn => Call::Refresh,
        }
    }

    /// Whether the actor of this call comes before that of the other: sessions by their numbers, and then the keeper.
    pub(crate) fn comes_before(self, other: ActorCall) -> bool
        ensures { result ≡ nat_lt (rank_of self) (rank_of other) }
    {
        match (self, other) {
            (ActorCall::Session(number, _), ActorCall::Session(its, _)) => number < its,
            (ActorCall::Session(_, _), _) => true,
            _ => false,
        }
    }
}
