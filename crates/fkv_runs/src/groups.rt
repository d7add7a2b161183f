//! A group of calls, over a crash that strikes in it.
ghost use Rattle.std.specs.Prelude.{◌≡◌, IfOk, is_none};
ghost use Rattle.fkv_playing.specs.InTurn.{Writes};
ghost use Rattle.fkv_runs.specs.Openings.{medium_of};
ghost use Rattle.fkv_runs.specs.Runs.{IsGroupPlayed, KeepsSettings, state_behind};

use crate::crashing::Crashes;
use crate::runs::Run;
use fkv_playing::{ActorCall, Picks, queues_of};
use std::io::{self, Write};

impl<D: Crashes> Run<D> {
    /// Plays the calls of a group; behind a crash that strikes in it the rest of them, in the next life. None where the run was
    /// refused.
    pub(crate) fn group<W: Write>(
        self,
        output: &mut W,
        calls: &[ActorCall],
        picks: &mut Picks,
    ) -> io::Result<Option<Run<D>>>
        ensures { IfOk result (λ next. (KeepsSettings self.settings next) × Writes (IsGroupPlayed (medium_of D.honest D.seen D.may_leave D.failed D.refuses D.expects D.broken D.armed) self.settings calls.now self.state (state_behind self.state next) (is_none next)) (W.contents output.old) (W.contents output.new)) }
    {
        let mut run = self;
        let mut queues = queues_of(run.alloc, calls)?;
        if !run.player.play_group(output, &mut queues, picks)? {
            return Ok(Some(run));
        }
        let Some(next) = run.crash(output)? else {
            return Ok(None);
        };
        let mut run = next;
        if run.player.play_group(output, &mut queues, picks)? {
            // Behind a crash no other one is to come in this piece.
            return Err(io::ErrorKind::Other.into());
        }
        Ok(Some(run))
    }
}
