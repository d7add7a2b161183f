//! What holds of the past of a life, as the law of prefixes asks of it.
ghost use Rattle.law_commit.specs.Said as said;

/// In every life of a store that was opened, whatever the other actors do, a session's serial is the one with which the life began, and one more for
/// each update whose version is counted. If the store opened at rest, as each does, the version that the session goes by never falls, and is never above
/// that of the phase word. So the versions of its updates never fall from an update to the next, and none is above the session's; and its serial is its
/// point of each version from its own on.
pub fn law_versions_counted()
    ensures counted { said.SerialsCountUpdates }
    ensures risen { said.VersionsNeverFall }
    ensures point { said.SerialIsThePoint }
    ensures rises { said.ItsVersionNeverFalls }
    ensures below { said.ItsVersionIsNotAhead }
{}

/// In every life of a store that was opened, whatever the other actors do, a session goes at every moment by the phase and the version of its view. Where it
/// doesn't catch up, none is coming; and where it does and has loaded all, it takes up the phase and the version of the one that is coming. In whatever life,
/// a view comes with the epoch and the tail as they stood before the event by which it comes, and keeps them as it becomes the view of a session.
pub fn law_view_is_seen()
    ensures seen { said.GoesByItsView }
    ensures coming { said.TakesUpWhatIsComing }
    ensures stamped { said.ViewsAreStamped }
{}

/// In every life of a store that was opened, whatever the sessions do, all commits that have begun are sealed and finished but at most the newest, and the
/// newest that is finished says the number, the begin, the points and the checkpoint that the keeper has as the newest finished commit's. The newest may be
/// open only while a commit is written, also where its writes rest, or its words are stored, and for good where a call of the device has failed. It isn't
/// sealed before its words are stored. Where a commit's words are stored it is the commit in hand, and sealed: it is of the kind that was asked for, with the
/// number and the first address that its start has told; its triples were written, and its slot, which names its number, begin, end, points, checkpoint and
/// lost ranges. At a moment of the life the log of each began where that of the newest finished commit did then; or at the end of a sweep that was done then,
/// and had begun there. It begins nowhere below that of the opening's, nor below that of the commit before it, and in a specified store just where the
/// opening's does. If the store opened at rest, as each does, each commit that begins has the number behind the newest finished one's. So their numbers come
/// one behind the other, from the opening's on. Those that are finished are the opening's and those that callers were told as finished, in their order, each
/// with its number and points.
pub fn law_begun()
    ensures begun { said.BegunAreAsKept }
    ensures written { said.NewestIsAsWritten }
    ensures begins { said.BegunBeginThen }
    ensures on { said.BegunBeginOn }
    ensures rise { said.BeginsNeverFall }
    ensures stay { said.SpecifiedBeginsStay }
    ensures in_turn { said.BegunAreInTurn }
    ensures numbers { said.NumbersAreInTurn }
    ensures finished { said.FinishedAreTold }
{}

/// In every life of a store that was opened, whatever the sessions do, a step of the keeper leaves the phase word as it was, or makes it that of a phase that
/// this step may store: prepare as a commit starts, wait-flush where its points are taken, rest as it is finished, and in a turn the phase that a claimed
/// action says. A session stores in its own turn, at whatever moment, no phase but one that an action says which it has claimed.
pub fn law_phase_stored()
    ensures keeper { said.KeeperStoresItsPhase }
    ensures own_turn { said.SessionsStoreClaimedPhases }
{}

/// Worked pieces, one for each way in which something of the past changes: they compute.
pub fn law_of_worked_pieces()
    ensures ranks { said.RanksInTurn }
    ensures counts { said.CountsUpto }
    ensures views { said.ViewsChange }
    ensures raises { said.RaisesChange }
    ensures begun { said.BegunChange }
    ensures opened { said.OpenedWith }
    ensures asked { said.AskedChanges }
    ensures told { said.ToldChanges }
{}

/// Runs whose past is computed. A keeper raises the epoch for each of a commit's three parts. In a life of two sessions of a store with one bucket, session
/// 0 refreshes twice. Between that session 1 gives a key a value, a commit begins, and session 1 adds to the value; and while session 0 refreshes for the
/// second time, session 1 gives another key a value.
pub fn law_of_worked_pasts()
    ensures raises { said.RaisesOfRuns }
    ensures past { said.PastIsWorked }
{}
