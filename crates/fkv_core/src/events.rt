//! What may happen in the engine, and what a step tells.
use fkv_base::{CommitKind, Fault, Version};
use fkv_keeper::Turn;
use fkv_map::Call;
use fkv_session::Answer;

/// What may happen next.
#[derive(Clone, Copy)]
pub enum Event {
    /// The session of this number begins a call, where it has none in hand.
    Call(usize, Call),
    /// The session of this number makes its ask, where it has a call in hand.
    Move(usize),
    /// The keeper begins a commit, where it has no call in hand.
    Commit(CommitKind),
    /// The keeper begins a turn, where it has no call in hand.
    Turn,
    /// The keeper makes its ask or its call of the device, where it has a call in hand. No sweep of the log's front begins.
    KeeperMove,
    /// As `KeeperMove`, but that a turn with no commit in hand lets a sweep of the log's front go on.
    SweepMove,
    /// The life ends: nothing happens behind it.
    Crash,
}

/// Who moves.
#[derive(Clone, Copy)]
pub enum Actor {
    /// The session of this number.
    Session(usize),
    Keeper,
}

/// What a step tells: the answer to the call that has ended in it.
#[derive(Debug, PartialEq, Eq, Drop)]
pub enum Told {
    /// The session of this number has ended its call.
    Session(usize, Answer),
    /// A commit has begun, or was refused.
    Commit(Result<Version, Fault>),
    /// A turn is over.
    Turn(Result<Turn, Fault>),
}
