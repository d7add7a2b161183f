//! What lines print that are played over a new store in a file.
ghost use Rattle.law_program.specs.Said as said;

use crate::played_calls::law_played_scripts;
use fkv_runs::{Breaks, Crashes};
use law_order::{law_log_opened, law_new_stores};

/// The life of a new store begins quietly, whatever holds it: over bytes as `create` leaves them, and with no call in hand. So
/// `law_played_calls` speaks of each line that is played over a new store in a file, though nobody can tell what a file holds. And a script of operations
/// alone, of which none is interleaved with another, prints what a map says that begins empty.
pub fn law_new_files<M: Crashes, F: Breaks>()
    ensures quiet { said.NewStoresBeginQuiet }
    ensures plays { said.NewFilesPlayMap (said.EngineStep F.honest F.seen F.may_leave F.failed F.refuses F.expects F.broken) }
{
    law_new_stores();
    law_log_opened();
    law_played_scripts::<M, F>();
}
