//! The points of a commit.
ghost use Rattle.std.specs.Prelude.{◌<◌, ◌≤◌, All, length};
ghost use Rattle.fkv_base.specs.Limits.{max_sessions, last_serial};

use arrayvec::ArrayVec;
use fkv_base::{MAX_SESSIONS, Serial};

/// Points of a commit, at most.
pub const MAX_POINTS: usize = MAX_SESSIONS as usize;

/// How far each session's updates are kept by a commit: one serial for each of the store's sessions.
#[derive(Debug, PartialEq, Eq, Drop)]
pub struct Points {
    /// The last serial that is kept, up to `Serial::LAST`; 0 where the session has taken none.
    pub serials: ArrayVec<Serial, MAX_POINTS>,
    pub ghost some_session: { 0 < length serials.items },
    pub ghost few_sessions: { length serials.items ≤ max_sessions },
    pub ghost serials_fit: { All (λ serial. serial.0 ≤ last_serial) serials.items },
}
