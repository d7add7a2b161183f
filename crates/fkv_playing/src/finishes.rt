//! The finish of a commit.
ghost use Rattle.std.specs.Prelude.{◌≡◌, ◌++◌, IfOk, OnOk};
ghost use Rattle.fkv_playing.specs.Finishes.{AreRounds, IsFinish, most_rounds, round_of, rounds};
ghost use Rattle.fkv_playing.specs.InTurn.{Writes};
ghost use Rattle.fkv_playing.specs.Players.{EngineStep};

use crate::breaking::Breaks;
use crate::calls::{ActorCall, Outcome, Telling};
use crate::players::Player;
use crate::seats::Seat;
use fkv_base::Phase;
use fkv_map::Call;
use fkv_texts::{write_not_finished, write_nothing_to_finish};
use std::alloc::Global;
use std::io::{self, Write};

/// A finish has at most so many rounds.
const MOST_ROUNDS: usize = 64;

impl<D: Breaks> Player<D> {
    /// Finishes the commit that runs: rounds in which each session that is awake is refreshed and polled, and the keeper takes a
    /// turn, until a turn has finished the commit or is refused, or a crash strikes. It prints what is finished on the way.
    pub fn finish<W: Write>(&mut self, alloc: Global, output: &mut W) -> io::Result<Outcome>
        ensures { IfOk result (λ outcome. Writes (IsFinish (EngineStep D.honest D.seen D.may_leave D.failed D.refuses D.expects D.broken) self.old self.new outcome) (W.contents output.old) (W.contents output.new)) }
    {
        if self.phase().0 == Phase::Rest {
            write_nothing_to_finish(output)?;
            return Ok(Outcome::Answered);
        }
        self.play_rounds(alloc, output)
    }

    fn play_rounds<W: Write>(&mut self, alloc: Global, output: &mut W) -> io::Result<Outcome>
        ensures { IfOk result (λ outcome. Writes (AreRounds (EngineStep D.honest D.seen D.may_leave D.failed D.refuses D.expects D.broken) self.old self.new outcome) (W.contents output.old) (W.contents output.new)) }
    {
        let calls = calls_of_rounds(alloc, &self.seats)?;
        let outcome = self.play_calls(output, Telling::Finished, calls.as_slice())?;
        if outcome == Outcome::Answered {
            write_not_finished(output)?;
        }
        Ok(outcome)
    }
}

/// The calls of all rounds.
fn calls_of_rounds(alloc: Global, seats: &[Seat]) -> io::Result<Vec<ActorCall>>
    ensures { IfOk result (λ calls. calls.items ≡ rounds most_rounds (round_of seats.now)) }
{
    let mut calls = Vec::new(alloc);
    for _ in 0..MOST_ROUNDS {
        push_round(&mut calls, seats)?;
    }
    Ok(calls)
}

/// One round more.
fn push_round(calls: &mut Vec<ActorCall>, seats: &[Seat]) -> io::Result<()>
    ensures { OnOk result (calls.new.items ≡ calls.old.items ++ round_of seats.now) }
{
    for (number, seat) in seats.iter().enumerate() {
        if seat.is_awake {
            calls.push(ActorCall::Session(number, Call::Refresh))?;
            calls.push(ActorCall::Session(number, Call::Poll))?;
        }
    }
    calls.push(ActorCall::Turn)?;
    Ok(())
}
