//! The thread law: what the order law says of calls that sessions make at a table which threads share.
#![tactic(auto)]

ghost use Rattle.std.specs.Prelude.{List};
ghost use Rattle.law_threads.specs.Said as said;

use law_causes::law_of_last_calls;
pub use law_order::{law_device_opens, law_guard_opens};
use law_order::{
    law_durable_never_falls, law_order, law_prefix, law_world_requests, law_world_sessions,
};

// What crates above name of the table, beside what `specs/Below.antt` shows.
pub use fkv_table::{
    Happening, Keeper, KeeperPass, Leave, Offsets, OpenTable, Pass, Session, Table, TurnAsk, World,
    join,
};

/// Sessions make their calls at one table, each in any thread. `Session::run` says how a call stands in the list of events. In all lives, with commits too, more
/// is known by the order law (`in_lives`). Its premise is that fewer than 2^64 - 1 calls begin: the table's rule keeps their numbers below 2^64. What is said of
/// images also asks that the life began with one that reaches far. A done update has taken effect by what the pass has seen, with its serial and reply, and so has
/// one that a poll says is finished. A read gives its key's value after some beginning of the history that holds what the pass had seen at the call. So does one that a poll answers
/// (`polled`). The calls stand once in one legal history. It begins with the history of what the pass had seen before. By the law of prefixes a point that is
/// told as durable is a sealed commit's (`durable`). It is no less than what the session was told before the call (`never_falls`). Each image that is left then
/// or later recovers a point at or above it (`recovered`). Each image that a crash may leave in the middle of a turn holds a prefix of the life as it was at
/// some moment of the turn (`turns`). A commit that a turn tells as finished is sealed, and its points are fair (`finished`).
/// It is of the kind for which the call had asked that has begun it: a full one has a checkpoint of its own, and a log commit has that of the commit before it. A call
/// that is told a number has begun a commit of its kind, and no turn begins one (`kinds`). What the keeper tells as refused has its cause in that call (`refused`). What is read behind a list of
/// events is read behind each beginning of it (`goes_on`). Of two passes at one moment one has seen a beginning of what the other has, and so are their histories.
pub fn law_threads<K>()
    ensures in_lives { (at : K → said.World) → said.IsThreadLaw at said.IsWithin }
    ensures durable { (at : K → said.World) → said.OfEachRun at said.IsWithin said.TellsItsDurable }
    ensures never_falls { (at : K → said.World) → said.OfEachRun at said.IsWithin said.ItsDurableNeverFalls }
    ensures recovered { (at : K → said.World) → said.OfEachRun at said.IsWithin (said.RecoversItsDurable at) }
    ensures turns { (at : K → said.World) (key : K) (seen seen' : List said.Happening) → said.AreAllowed (said.plane at) seen' → said.RecoversWithin at key seen seen' }
    ensures finished { (at : K → said.World) → said.OfEachTurn at }
    ensures kinds { (at : K → said.World) → said.TellsKinds at }
    ensures refused { (at : K → said.World) → said.OfEachRefusal at }
    ensures goes_on { (at : K → said.World) → said.GoesOnFromWhatWasSeen at }
    ensures views { (at : K → said.World) → said.SharesOneHistory at }
{
    law_order();
    law_prefix();
    law_durable_never_falls();
    law_world_sessions();
    law_world_requests();
    law_of_last_calls();
}
