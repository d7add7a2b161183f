//! What the keeper asks and answers.
ghost use Rattle.std.specs.Prelude.{◌≡◌};

use arrayvec::ArrayVec;
use fkv_base::{Fault, MAX_SESSIONS, Serial, Version};
use fkv_plane::Ask;

/// Points of a commit, at most.
pub const MAX_POINTS: usize = MAX_SESSIONS as usize;

/// A commit that is finished.
#[derive(Debug, PartialEq, Eq, Drop)]
pub struct Finished {
    pub number: Version,
    /// How far each session's updates are kept: one serial for each of the store's sessions.
    pub points: ArrayVec<Serial, MAX_POINTS>,
}

/// What a turn has done.
#[derive(Debug, PartialEq, Eq, Drop)]
pub struct Turn {
    /// The commit that it finished, if it finished one.
    pub finished: Option<Finished>,
    /// A part was left to a later turn, since no drain slot was free.
    pub drain_full: bool,
}

/// What the keeper does next.
#[derive(Debug, PartialEq, Eq, Drop)]
pub enum KeeperAsk {
    /// An ask of a shared word.
    Word(Ask<()>),
    /// One call of the device, which `device_step` makes.
    Device,
    /// The turn is over.
    Turned(Result<Turn, Fault>),
    /// The commit of this number has begun, or none has.
    Begun(Result<Version, Fault>),
}

/// What the keeper has come to, without the points of a finished commit, which stay in the keeper.
#[derive(Clone, Copy)]
pub enum KeeperTold {
    /// Its next step is one call of the device.
    Device,
    /// The turn is over. Whether it has finished a commit, and whether a part was left to a later turn since no drain slot was
    /// free.
    Turned(bool, bool),
    /// The turn has ended early.
    TurnRefused(Fault),
    /// The commit of this number has begun.
    Begun(Version),
    /// No commit has begun, and nothing has changed.
    CommitRefused(Fault),
}
