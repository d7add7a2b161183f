//! The numbers of the phases.
ghost use Rattle.std.specs.Prelude.{◌≡◌};
ghost use Rattle.fkv_words.specs.Fields.{Reads};
ghost use Rattle.fkv_words.specs.Phases.{phase_number};

use fkv_base::Phase;

/// The number of the phase.
pub(crate) fn number_of(phase: Phase) -> u64
    ensures { result ≡ phase_number phase }
{
    match phase {
        Phase::Rest => 0,
        Phase::Prepare => 1,
        Phase::InProgress => 2,
        Phase::WaitPending => 3,
        Phase::WaitFlush => 4,
    }
}

/// The phase with the number, if one has it.
pub(crate) fn phase_of(number: u64) -> Option<Phase>
    ensures { Reads phase_number number result }
{
    match number {
        0 => Some(Phase::Rest),
        1 => Some(Phase::Prepare),
        2 => Some(Phase::InProgress),
        3 => Some(Phase::WaitPending),
        4 => Some(Phase::WaitFlush),
        _ => None,
    }
}
