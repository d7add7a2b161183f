//! The floor of each live session's view.
ghost use Rattle.law_commit.specs.Said as said;

use law_paper::law_phases_are_seen;

/// Each life of a store that opened at rest, as its sessions have seen, is a run of the phases on paper. So it is whatever its calls, commits and the order of
/// its steps. Each of its events is some on paper, or none, and each of these is enabled there. What is on paper shows the life at each moment: the rank of the
/// phase word, the epoch, what is safe, the tail, and what each session has seen of them.
pub fn law_lives_are_phases()
    ensures { said.LivesAreOnPaper }
{
    law_phases_are_seen();
}

/// In each life of a store that opened at rest, as its sessions have seen, the view of each live session has its floor. The view is no older than wait-flush
/// of the commit before. From in-progress on all have seen prepare, and a tail at or above the first address of the commit in hand. From wait-pending on
/// all have seen in-progress. Once the epoch of a commit's last arming is safe all have seen its wait-flush, and a tail at or above its end. So it is as the
/// commit is written. If one live session goes by in-progress or wait-pending of a version, each other has come to prepare before it. None has come further
/// than its wait-flush.
pub fn law_floor_stands()
    ensures floor { said.FloorAlwaysStands }
    ensures near { said.ViewsAreNear }
{
    law_phases_are_seen();
}
