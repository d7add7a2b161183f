//! What the phase word says.
ghost use Rattle.std.specs.Prelude.{◌≡◌};
ghost use Rattle.fkv_words.specs.PhaseWords.{phase_said};

use crate::wide_phase::WidePhase;
use fkv_base::{Phase, Version};

/// What a phase word says.
#[derive(Clone, Copy)]
pub enum PhaseSaid {
    Says(Phase, Version),
    /// No phase: no store writes such a word.
    Spoiled,
}

/// What this word says as a phase word: total, so a machine's table may go by any reply. It says a phase and version
/// exactly where [`WidePhase::unpack`] gives them.
pub fn phase_said(word: u64) -> PhaseSaid
    ensures { result ≡ phase_said word }
{
    match WidePhase::unpack(word) {
        Some(its) => PhaseSaid::Says(its.phase, its.version),
        None => PhaseSaid::Spoiled,
    }
}
