//! Phases of commits by ranks, views and epochs.
ghost use Rattle.std.specs.Prelude.{◌≤◌, ◌∷◌, List};
ghost use Rattle.law_paper.specs.Phases.{AreEnabled, HaveFloor, IsSound, PhaseEvent, Phasing, phase_run, rank_of};

/// If each event of a run of phases was enabled, the phase word only goes on. Each view shows what was stored before the raises that it comes after. So the
/// view of a live session is never below its floor. From in-progress on all have seen prepare, and a tail at or above the commit's first address. From
/// wait-pending on all have seen in-progress. Once the raise for the commit's end is safe, all have seen wait-flush, and a tail at or above that end.
pub fn law_phases_are_seen()
    ensures sound { (opening : Phasing) (events : List PhaseEvent) → IsSound opening → AreEnabled opening events → IsSound (phase_run opening events) }
    ensures rises { (opening : Phasing) (event : PhaseEvent) (before : List PhaseEvent) → AreEnabled opening (event ∷ before) → rank_of (phase_run opening before) ≤ rank_of (phase_run opening (event ∷ before)) }
    ensures floor { (opening : Phasing) (events : List PhaseEvent) → IsSound opening → AreEnabled opening events → HaveFloor (phase_run opening events) }
{}
