//! What points keep.
ghost use Rattle.std.specs.Prelude.{ℕ, ◌≤◌, List};
ghost use Rattle.fkv_base.specs.declared.numbers.Serial.{Serial};
ghost use Rattle.fkv_map.specs.Map.{Map};
ghost use Rattle.law_log.specs.Ghosts.{Ghosts};
ghost use Rattle.law_log.specs.Laws.{NewestShowsContent, VersionsAreLegal};
ghost use Rattle.law_paper.specs.Kept.{KeepsPrefix, PointsSplit};

/// If a commit's points split the history by its version, what they keep is legal by itself. Its content is what the log shows of the versions up to that
/// one. The log's own laws say that both hold of the effects up to a version.
pub fn law_kept()
    ensures { (home : ℕ → ℕ) (m : Map) (version : ℕ) (points : List Serial) (n : ℕ) (g : Ghosts) → version ≤ n → NewestShowsContent home m version g → VersionsAreLegal home m version g → PointsSplit points n g.log.history → KeepsPrefix home m points n g }
{}
