//! What an operation prints that is played alone.
ghost use Rattle.law_program.specs.Said as said;

use crate::whole_calls::law_whole_calls;
use fkv_runs::{Breaks, Crashes};
use law_order::{law_log_opened, law_order};

/// In a life of an opened store, with commits too, in which no session has a call in hand, an operation that is played alone prints an answer that is the
/// map's: each reply is the map's on the history so far, and each read gives its key's value in its content. The life goes on with it, and again no session
/// has a call in hand; and so it goes on by each other line of a session. So it is of the engine's steps over any device, whatever is supposed of its honesty.
pub fn law_played_calls<D: Breaks>()
    ensures calls { said.RepliesAsMap (said.EngineStep D.honest D.seen D.may_leave D.failed D.refuses D.expects D.broken) }
    ensures lines { said.LinesReplyAsMap (said.EngineStep D.honest D.seen D.may_leave D.failed D.refuses D.expects D.broken) }
    ensures goes_on { said.LinesGoOn (said.EngineStep D.honest D.seen D.may_leave D.failed D.refuses D.expects D.broken) }
{
    law_order();
    law_whole_calls();
}

/// So a script of operations alone, of which none is interleaved with another, prints what the plain map says: each line is the reply of the map that those before
/// it have left, from the map on that the store holds as its life begins: an empty one where it is new. So it is of a life of a store in memory, a new one or one that is
/// recovered behind a crash, and of one in a file, where that holds the store.
pub fn law_played_scripts<M: Crashes, F: Breaks>()
    ensures lives { said.LivesPlayMap (said.medium_of M.honest M.seen M.may_leave M.failed M.refuses M.expects M.broken M.armed) }
    ensures new { said.NewStoresPlayMap (said.medium_of M.honest M.seen M.may_leave M.failed M.refuses M.expects M.broken M.armed) }
    ensures files { said.FilesPlayMap (said.EngineStep F.honest F.seen F.may_leave F.failed F.refuses F.expects F.broken) }
{
    law_log_opened();
    law_order();
    law_whole_calls();
}
