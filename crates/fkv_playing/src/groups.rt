//! Calls of several actors, interleaved.
ghost use Rattle.std.specs.Prelude.{◌≡◌, ◌<◌, IfOk, length, slice_get, Some};
ghost use Rattle.fkv_playing.specs.Groups.{GroupState, IsBeatOf, IsGroup, IsPick, is_struck_by, missing_session};
ghost use Rattle.fkv_playing.specs.InTurn.{Writes};
ghost use Rattle.fkv_playing.specs.Players.{EngineStep};
ghost use Rattle.fkv_playing.specs.Queues.{HasSteps, QueueState, held, next_step, queue_behind};

use crate::breaking::Breaks;
use crate::calls::{ActorCall, Outcome, Stage, Telling};
use crate::players::Player;
use crate::queues::{Queue, count_steps, give_up, picked};
use fkv_base::Fault;
use fkv_texts::write_session_refusal;
use rand_core::{Rng, SeedableRng};
use rand_pcg::Pcg64;
use std::io::{self, Write};

/// Who steps next among the actors that have a step left.
#[derive(Drop)]
pub struct Picks {
    generator: Option<Pcg64>,
}

impl Picks {
    /// With a seed, words of its generator pick; without one, the first actor steps until it has no step left.
    pub fn new(seed: Option<u64>) -> Picks {
        Picks {
            generator: seed.map(Pcg64::seed_from_u64),
        }
    }

    /// Which of so many steps: a number below the count, where there is one.
    fn next(&mut self, count: usize) -> usize {
        match &mut self.generator {
            Some(generator) if count > 0 => (generator.next_u64() % count as u64) as usize,
            _ => 0,
        }
    }
}

impl<D: Breaks> Player<D> {
    /// Plays what is left of these queues, one step of a picked actor at a time, until nobody has a step left, or a crash strikes: then each
    /// call in hand is given up. It answers whether one has.
    pub fn play_group<W: Write>(
        &mut self,
        output: &mut W,
        queues: &mut Vec<Queue>,
        picks: &mut Picks,
    ) -> io::Result<bool>
        ensures { IfOk result (λ struck. Writes (IsGroup (EngineStep D.honest D.seen D.may_leave D.failed D.refuses D.expects D.broken) (record { player = self.old; queues = queues.old.items }) (record { player = self.new; queues = queues.new.items }) struck) (W.contents output.old) (W.contents output.new)) }
    {
        for _ in 0..u64::MAX {
            let nth = picks.next(count_steps(queues));
            let Some(at) = picked(queues, nth) else {
                return Ok(false);
            };
            if self.pick_at(output, queues, at)? == Outcome::Struck {
                give_up(queues);
                return Ok(true);
            }
        }
        // No group has so many steps.
        Err(io::ErrorKind::Other.into())
    }

    /// One step of the actor whose queue stands at this place.
    fn pick_at<W: Write>(
        &mut self,
        output: &mut W,
        queues: &mut Vec<Queue>,
        at: usize,
    ) -> io::Result<Outcome>
        requires { at < length queues.old.items }
        ensures { (queue : QueueState) → slice_get queues.old.items at ≡ Some queue → HasSteps queue → IfOk result (λ outcome. Writes (IsPick (EngineStep D.honest D.seen D.may_leave D.failed D.refuses D.expects D.broken) at (record { player = self.old; queues = queues.old.items }) (record { player = self.new; queues = queues.new.items }) (is_struck_by outcome)) (W.contents output.old) (W.contents output.new)) }
    {
        self.pick(output, &mut queues[at])
    }

    /// One step of the actor with this queue.
    fn pick<W: Write>(&mut self, output: &mut W, queue: &mut Queue) -> io::Result<Outcome>
        ensures { HasSteps queue.old → IfOk result (λ outcome. (call : ActorCall) × (stage : Stage) × (next_step queue.old ≡ Some (call, stage)) × (queue.new ≡ queue_behind outcome (held queue.old))
            × Writes (λ text. IsBeatOf (EngineStep D.honest D.seen D.may_leave D.failed D.refuses D.expects D.broken) call stage self.old self.new outcome text (missing_session self.old.seats call)) (W.contents output.old) (W.contents output.new)) }
    {
        let Some((call, stage)) = queue.take_step() else {
            return Ok(Outcome::Answered);
        };
        let outcome = self.step_of(output, call, stage)?;
        queue.note(outcome);
        Ok(outcome)
    }

    /// One step of this call. A session that the store hasn't is refused.
    fn step_of<W: Write>(
        &mut self,
        output: &mut W,
        call: ActorCall,
        stage: Stage,
    ) -> io::Result<Outcome>
        ensures { IfOk result (λ outcome. Writes (λ text. IsBeatOf (EngineStep D.honest D.seen D.may_leave D.failed D.refuses D.expects D.broken) call stage self.old self.new outcome text (missing_session self.old.seats call)) (W.contents output.old) (W.contents output.new)) }
    {
        match self.missing_session(call) {
            Some(number) => {
                write_session_refusal(output, number as u64, Fault::NoSession)?;
                Ok(Outcome::Answered)
            }
            None => self.beat(output, Telling::Whole, call, stage),
        }
    }

    /// The session that a call names, where the store hasn't it.
    fn missing_session(&self, call: ActorCall) -> Option<usize>
        ensures { result ≡ missing_session self.now.seats call }
    {
        match call {
            ActorCall::Session(number, _) if number >= self.seats.len() => Some(number),
            _ => None,
        }
    }
}
