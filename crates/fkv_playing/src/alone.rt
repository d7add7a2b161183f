//! Calls that are played alone, each to its end.
ghost use Rattle.std.specs.Prelude.{◌≡◌, ◌≤◌, ℕ, IfOk, length, take};
ghost use Rattle.fkv_playing.specs.Finishes.{IsPlayedAlone};
ghost use Rattle.fkv_playing.specs.InTurn.{InTurn, Writes};
ghost use Rattle.fkv_playing.specs.Players.{EngineStep};

use crate::breaking::Breaks;
use crate::calls::{ActorCall, Outcome, Stage, Telling};
use crate::players::Player;
use std::io::{self, Write};

impl<D: Breaks> Player<D> {
    /// Begins a call, and moves its actor alone until it has ended.
    pub(crate) fn play_alone<W: Write>(
        &mut self,
        output: &mut W,
        telling: Telling,
        call: ActorCall,
    ) -> io::Result<Outcome>
        ensures { IfOk result (λ outcome. Writes (IsPlayedAlone (EngineStep D.honest D.seen D.may_leave D.failed D.refuses D.expects D.broken) telling call self.old self.new outcome) (W.contents output.old) (W.contents output.new)) }
    {
        let mut outcome = self.beat(output, telling, call, Stage::Begins)?;
        for _ in 0..u64::MAX {
            if outcome != Outcome::GoesOn {
                return Ok(outcome);
            }
            outcome = self.beat(output, telling, call, Stage::Moves)?;
        }
        // No call of a life has so many moves.
        Err(io::ErrorKind::Other.into())
    }

    /// Plays these calls, each alone, up to one that isn't just answered.
    pub(crate) fn play_calls<W: Write>(
        &mut self,
        output: &mut W,
        telling: Telling,
        calls: &[ActorCall],
    ) -> io::Result<Outcome>
        ensures { IfOk result (λ outcome. (count : ℕ) × (outcome ≡ Outcome.Answered → length calls.now ≤ count)
            × Writes (InTurn (IsPlayedAlone (EngineStep D.honest D.seen D.may_leave D.failed D.refuses D.expects D.broken) telling) Outcome.Answered (take count calls.now) self.old self.new outcome) (W.contents output.old) (W.contents output.new)) }
    {
        for call in calls {
            let outcome = self.play_alone(output, telling, *call)?;
            if outcome != Outcome::Answered {
                return Ok(outcome);
            }
        }
        Ok(Outcome::Answered)
    }
}
