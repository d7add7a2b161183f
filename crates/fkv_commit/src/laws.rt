//! What a commit's machines tell, over every list of replies.
ghost use Rattle.fkv_commit.specs.Points.{PointsAreRight, SeeksEndRight, CutsAreRead, OthersSayNothing, CutsAreByParity};
ghost use Rattle.fkv_commit.specs.Phases.{StartsEndRight, EntersEndRight, WaitsEndRight, FinishesEndRight, EpochComesFirst, PhasesInOrder};

/// Whatever is replied: each point that is taken is shown by the session's floor and its cut words as they were loaded, behind owing words
/// that all were 0 and with a drain slot held; and nothing else is changed before the last point is taken. Where the search ends with the points,
/// wait-flush is stored behind them, the tail is loaded and the read-only offset raised to it, and the safe one deferred; where it
/// ends otherwise, nothing is changed, no point is taken, and the reason was met. What a cut word says is what was packed into it.
/// The word of even versions is met first where the commit's number is even, and that of odd ones where it is odd.
pub fn law_of_points()
    ensures points { PointsAreRight }
    ensures ends { SeeksEndRight }
    ensures reads { CutsAreRead }
    ensures others { OthersSayNothing }
    ensures parity { CutsAreByParity }
{}

/// Whatever is replied: a start that is refused changes nothing, and so does a step that finds no slot or no epoch; the reason that
/// each tells was met. A slot is sought and held only behind an epoch that was loaded below its last. Each phase that is deferred is
/// put into the slot that was held, once, and armed at the epoch that its raise was replied. The log is told as flushed where the last
/// arming's epoch was safe, and flushed was at least the commit's end. Rest is stored behind the durable words of all sessions, each of
/// which is its point. So a start, a step to wait-pending, a search and an end that have succeeded for one number, put one after another,
/// store or defer prepare, in-progress, wait-pending, wait-flush and rest, in this order, each once and nothing else as a phase.
pub fn law_of_phases()
    ensures starts { StartsEndRight }
    ensures enters { EntersEndRight }
    ensures waits { WaitsEndRight }
    ensures finishes { FinishesEndRight }
    ensures epoch { EpochComesFirst }
    ensures order { PhasesInOrder }
{}
