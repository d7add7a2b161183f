//! Versions at one home.
ghost use Rattle.std.specs.Prelude.{ℕ};
ghost use Rattle.law_log.specs.Ghosts.{Log};
ghost use Rattle.law_paper.specs.Apart.{ChangesCopied, PassesOlder, PassesWaiter, Trier, Waiter};

/// Updates of two versions stay apart at one home, by latches and by how close the sessions' views are. No update takes effect while one of an older
/// version is past its walk there, or waits with its latch shared: so none comes behind a later version. And no update changes a record in place while
/// one of a later version makes a new record of it: so no change is lost.
pub fn law_apart()
    ensures publishes { (quiet : ℕ) (log : Log) (r s : Trier) → PassesOlder quiet log r s → ⊥ }
    ensures waits { (quiet : ℕ) (log : Log) (r : Trier) (w : Waiter) → PassesWaiter quiet log r w → ⊥ }
    ensures changes { (quiet : ℕ) (log : Log) (r s : Trier) (x : ℕ) → ChangesCopied quiet log r s x → ⊥ }
{}
