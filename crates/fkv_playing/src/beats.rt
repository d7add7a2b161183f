//! A beat: one step of the engine, and what is printed of what it tells.
ghost use Rattle.std.specs.Prelude.{◌≡◌, ◌++◌, IfOk, OnOk, Option, Some, slice_get};
ghost use Rattle.std.specs.Io.KnownBytes.{Appends};
ghost use Rattle.fkv_core.specs.Told.{IsLastAnswer};
ghost use Rattle.fkv_core.specs.declared.events.Told.{Told};
ghost use Rattle.fkv_playing.specs.Beats.{IsBeat, IsHeard, effects_behind, seats_behind};
ghost use Rattle.fkv_playing.specs.InTurn.{Writes};
ghost use Rattle.fkv_playing.specs.Players.{EngineStep};
ghost use Rattle.fkv_playing.specs.Seats.{seats_answered};
ghost use Rattle.fkv_playing.specs.Texts.{answer_told, text_of};

use crate::breaking::Breaks;
use crate::calls::{ActorCall, Outcome, Stage, Telling};
use crate::players::Player;
use crate::seats::Seat;
use crate::telling::{outcome_of_told, tell_answer, tell_turn};
use fkv_core::{Event, Told};
use fkv_map::Call;
use fkv_session::Answer;
use fkv_texts::write_commit;
use std::io::{self, Write};

impl<D: Breaks> Player<D> {
    /// One step of this call at its stage. Where a crash strikes in it, nobody hears what was told.
    pub(crate) fn beat<W: Write>(
        &mut self,
        output: &mut W,
        telling: Telling,
        call: ActorCall,
        stage: Stage,
    ) -> io::Result<Outcome>
        ensures { IfOk result (λ outcome. Writes (IsBeat (EngineStep D.honest D.seen D.may_leave D.failed D.refuses D.expects D.broken) telling call stage self.old self.new outcome) (W.contents output.old) (W.contents output.new)) }
    {
        let event = call.event(stage, self.sweeps);
        let has_ended = self.world.advance(event);
        self.sweeps = call.leaves_sweeping(stage, self.sweeps);
        self.note_effect(event)?;
        if has_ended {
            return self.hear_end(output, telling, call.asked(), event);
        }
        if self.is_struck() {
            return Ok(Outcome::Struck);
        }
        Ok(Outcome::GoesOn)
    }

    /// Takes the answer to the call that this event has ended. It stands apart from `beat`, since an answer is large, and most beats
    /// end no call.
    #[inline(never)]
    fn hear_end<W: Write>(
        &mut self,
        output: &mut W,
        telling: Telling,
        call: Call,
        event: Event,
    ) -> io::Result<Outcome>
        ensures { IfOk result (λ outcome. (its : Option Told) × IsLastAnswer event self.old.world.now its × Writes (IsHeard D.broken telling call its self.old self.new outcome) (W.contents output.old) (W.contents output.new)) }
    {
        let told = self.world.answer(event);
        if self.is_struck() {
            return Ok(Outcome::Struck);
        }
        match &told {
            None => Ok(Outcome::GoesOn),
            Some(told) => {
                self.hear(output, telling, call, told)?;
                Ok(outcome_of_told(told))
            }
        }
    }

    /// Keeps the update whose effect was just told, if there is one.
    fn note_effect(&mut self, event: Event) -> io::Result<()>
        ensures { OnOk result (self.new ≡ record self.old { history = self.old.history ++ effects_behind self.old.keeps_history event self.old.world.now }) }
    {
        if !self.keeps_history {
            return Ok(());
        }
        if let Event::Move(number) = event {
            if let Some(entry) = self.world.effect(number) {
                self.history.push(entry)?;
            }
        }
        Ok(())
    }

    /// Prints what was told, and notes it.
    fn hear<W: Write>(
        &mut self,
        output: &mut W,
        telling: Telling,
        call: Call,
        told: &Told,
    ) -> io::Result<()>
        ensures text { OnOk result (Appends (W.contents output.old) (W.contents output.new) (text_of telling call self.old.seats self.old.world.now told.now)) }
        ensures seats { OnOk result (self.new ≡ record self.old { seats = seats_behind call self.old.seats (Some told.now) }) }
    {
        match told {
            Told::Session(number, answer) => {
                hear_answer(&mut self.seats, output, telling, *number, call, answer)
            }
            Told::Commit(begun) => write_commit(output, *begun),
            Told::Turn(its) => {
                tell_turn(output, telling, self.phase(), self.world.wanted(), its)
            }
        }
    }
}

/// Prints an answer to this session's call, and notes what it says of the session, where there is a seat of this number.
fn hear_answer<W: Write>(
    seats: &mut Vec<Seat>,
    output: &mut W,
    telling: Telling,
    number: usize,
    call: Call,
    answer: &Answer,
) -> io::Result<()>
    ensures text { OnOk result (Appends (W.contents output.old) (W.contents output.new) (answer_told telling number call answer.now (slice_get seats.old.items number))) }
    ensures seats { OnOk result (seats.new.items ≡ seats_answered number call answer.now seats.old.items) }
{
    match seats.get_mut(number) {
        Some(seat) => {
            tell_answer(output, telling, number, call, answer, seat)?;
            seat.note(call, answer)
        }
        None => Ok(()),
    }
}
