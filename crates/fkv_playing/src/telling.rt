//! What is printed of what the engine tells.
ghost use Rattle.std.specs.Prelude.{◌≡◌, OnOk, Some};
ghost use Rattle.fkv_words.specs.PhaseWords as words;
ghost use Rattle.std.specs.Io.KnownBytes.{Appends};
ghost use Rattle.fkv_playing.specs.Beats.{outcome_of_told};
ghost use Rattle.fkv_playing.specs.Texts.{answer_told, phase_told, turn_told};

use crate::calls::{Outcome, Telling};
use crate::seats::Seat;
use fkv_base::{Fault, Key, Phase, Version};
use fkv_core::Told;
use fkv_keeper::Turn;
use fkv_map::Call;
use fkv_session::Answer;
use fkv_texts::{
    write_answer, write_finished, write_finished_commit, write_keeper_refusal, write_turn,
};
use fkv_words::{PhaseSaid, phase_said};
use std::io::{self, Write};

/// The phase and the version that a phase word says.
pub(crate) fn phase_told(word: u64) -> (Phase, Version)
    ensures { result ≡ phase_told (words.phase_said word) }
{
    match phase_said(word) {
        PhaseSaid::Says(phase, version) => (phase, version),
        PhaseSaid::Spoiled => (Phase::Rest, Version(0)),
    }
}

/// The answer to a session's call, or what it has finished.
pub(crate) fn tell_answer<W: Write>(
    output: &mut W,
    telling: Telling,
    number: usize,
    call: Call,
    answer: &Answer,
    seat: &Seat,
) -> io::Result<()>
    ensures { OnOk result (Appends (W.contents output.old) (W.contents output.new) (answer_told telling number call answer.now (Some seat.now))) }
{
    let waiting = seat.waiting.as_slice();
    match telling {
        Telling::Whole => write_answer(output, number as u64, call, waiting, answer),
        Telling::Finished => match answer {
            Answer::Polled(finished, _) => {
                write_finished(output, number as u64, waiting, finished.as_slice())
            }
            _ => Ok(()),
        },
    }
}

/// The answer to a turn with the keys that a sweep wants, or what it has finished.
pub(crate) fn tell_turn<W: Write>(
    output: &mut W,
    telling: Telling,
    phase: (Phase, Version),
    wanted: &[Key],
    its: &Result<Turn, Fault>,
) -> io::Result<()>
    ensures { OnOk result (Appends (W.contents output.old) (W.contents output.new) (turn_told telling phase wanted.now its.now)) }
{
    match telling {
        Telling::Whole => write_turn(output, phase.0, phase.1, wanted, its),
        Telling::Finished => match its {
            Ok(turn) => match &turn.finished {
                Some(commit) => write_finished_commit(output, commit),
                None => Ok(()),
            },
            Err(fault) => write_keeper_refusal(output, *fault),
        },
    }
}

/// How a step comes out that has told this.
pub(crate) fn outcome_of_told(told: &Told) -> Outcome
    ensures { result ≡ outcome_of_told told.now }
{
    match told {
        Told::Session(_, _) | Told::Commit(_) => Outcome::Answered,
        Told::Turn(Ok(turn)) => match &turn.finished {
            Some(_) => Outcome::Closed,
            None => Outcome::Answered,
        },
        Told::Turn(Err(_)) => Outcome::Closed,
    }
}
