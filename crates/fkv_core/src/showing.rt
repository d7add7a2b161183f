//! What a caller may look at beside the answers.
ghost use Rattle.std.specs.Prelude.{◌≡◌};
ghost use Rattle.fkv_disk.specs.Fuses.{fuse_state};
ghost use Rattle.fkv_core.specs.Showing.{effect_of};

use crate::worlds::World;
use fkv_base::Key;
use fkv_disk::{Device, Fuse, FuseState};
use fkv_map::HistoryEntry;

impl<D: Device> World<D> {
    /// The update whose effect the ask that was just answered made, if it made one. It is asked of a session behind each of
    /// its moves; none where there is no session of this number.
    pub fn effect(&self, number: usize) -> Option<HistoryEntry>
        ensures { result ≡ effect_of self.now.now number }
    {
        match self.sessions.get(number) {
            Some(session) => session.effect(),
            None => None,
        }
    }

    /// The keys that the last turn of a sweep has found wanted, 16 at most. The log's front can't be given up before somebody has written
    /// them anew, as by a merge of the kind `Keep`. Each is looked for again in the sweep's next turn.
    pub fn wanted(&self) -> &[Key]
        ensures { result.now ≡ self.now.now.keeper.sweep.wanted }
    {
        self.keeper.wanted()
    }
}

impl<D: Device> World<Fuse<D>> {
    /// How far the device's fuse is from blowing.
    pub fn fuse(&self) -> FuseState
        ensures { result ≡ fuse_state self.now.device }
    {
        self.device.state()
    }
}
