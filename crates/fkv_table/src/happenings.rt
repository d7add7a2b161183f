//! What seats add to the list of events.
ghost use Rattle.std.specs.Prelude.{◌≡◌, ℕ, true};
ghost use Rattle.fkv_table.specs.Said as said;

use fkv_base::CommitKind;
use fkv_map::Call;

/// An event of the engine's world, but for a crash.
#[derive(Clone, Copy)]
pub enum Happening {
    /// The session of this number begins a call.
    Calls(usize, Call),
    /// It makes its ask.
    Moves(usize),
    /// The keeper begins a commit.
    Commits(CommitKind),
    /// It begins a turn.
    Turns,
    /// It makes its ask or its call of the device: whether memory is granted, and whether the call succeeds.
    KeeperMoves(bool, bool),
}

/// The numbers of a call are words of the machine, so its start may stand in a table's list.
#[inline(always)]
pub(crate) fn law_start_stands(_call: Call)
    ensures { (number : ℕ) → said.may_stand (said.Calls number _call) ≡ true }
{}
