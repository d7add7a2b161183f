//! A run of a store in memory: its lives, piece by piece.
ghost use Rattle.std.specs.Prelude.{◌≡◌, ◌-◌, Bool, [], IfOk, OnErr, is_none, true, false};
ghost use Rattle.fkv_playing.specs.Players.{PlayerState, waits_for_crash};
ghost use Rattle.fkv_playing.specs.InTurn.{Writes};
ghost use Rattle.fkv_runs.specs.Beginnings.{BreaksOff};
ghost use Rattle.fkv_runs.specs.Openings.{Begins, medium_of};
ghost use Rattle.fkv_runs.specs.Runs.{IsCrashed, IsCrashedWhere, IsFinishStruck, IsLegOf, IsPartOfRun, IsPiece, IsRun, KeepsSettings, Prepares, RunState, is_due, is_struck_at, state_behind, status_of};

use crate::crashes::take_crash;
use crate::crashing::Crashes;
use crate::openings::begin;
use crate::pieces::Piece;
use crate::settings::Settings;
use crate::telling::write_text;
use fkv_opening::Opened;
use fkv_playing::{Outcome, Picks, Player, Waits};
use std::alloc::Global;
use std::io::{self, Write};
use std::marker::Model;

/// A run: the life in hand, and whether all reports so far have agreed with their checks.
#[derive(Drop)]
pub(crate) struct Run<D: Crashes> {
    pub(crate) alloc: Global,
    pub(crate) player: Player<D>,
    pub(crate) agrees: bool,
    pub(crate) settings: Settings,
}

impl<D: Crashes> Model for Run<D> {
    ghost use Rattle.fkv_runs.specs.Runs.{RunModel};

    ghost Value = { RunModel D };

    ghost view = { λ m. record { state = record { player = m.player; agrees = m.agrees }; settings = m.settings } };
}

/// Plays these pieces over the lives of a store in memory, the first of which begins with this opened store over this device. The status: 3
/// where a crash's image was refused, and that is printed; 1 where a report did not agree with its check; else 0. Where memory is refused
/// or the writer fails, what is written is a beginning of what these pieces write.
pub fn play_lives<D: Crashes, W: Write>(
    alloc: Global,
    output: &mut W,
    opened: Opened,
    device: D,
    pieces: &[Piece],
    picks: &mut Picks,
    settings: Settings,
) -> io::Result<u8>
    ensures whole { IfOk result (λ status. (player : PlayerState D) × Begins opened device [] settings.checks player
        × Writes (IsRun (medium_of D.honest D.seen D.may_leave D.failed D.refuses D.expects D.broken D.armed) settings pieces.now (record { player = player; agrees = true }) status) (W.contents output.old) (W.contents output.new)) }
    ensures part { OnErr result (BreaksOff (λ text. (player : PlayerState D) × Begins opened device [] settings.checks player
        × IsPartOfRun (medium_of D.honest D.seen D.may_leave D.failed D.refuses D.expects D.broken D.armed) settings pieces.now (record { player = player; agrees = true }) text) (W.contents output.old) (W.contents output.new)) }
{
    let player = begin(alloc, opened, device, Vec::new(alloc), settings.checks)?;
    let run = Run {
        alloc,
        player,
        agrees: true,
        settings,
    };
    run.play(output, pieces, picks)
}

impl<D: Crashes> Run<D> {
    /// Plays these pieces, and takes the crash that still is to come behind the last.
    pub(crate) fn play<W: Write>(
        self,
        output: &mut W,
        pieces: &[Piece],
        picks: &mut Picks,
    ) -> io::Result<u8>
        ensures whole { IfOk result (λ status. Writes (IsRun (medium_of D.honest D.seen D.may_leave D.failed D.refuses D.expects D.broken D.armed) self.settings pieces.now self.state status) (W.contents output.old) (W.contents output.new)) }
        ensures part { OnErr result (BreaksOff (IsPartOfRun (medium_of D.honest D.seen D.may_leave D.failed D.refuses D.expects D.broken D.armed) self.settings pieces.now self.state) (W.contents output.old) (W.contents output.new)) }
    {
        let mut run = self;
        for piece in pieces {
            let Some(next) = run.tell_piece(output, piece, picks)? else {
                return Ok(3);
            };
            run = next;
        }
        run.end(output)
    }

    /// Takes the crash that still is to come, where there is one.
    fn end<W: Write>(self, output: &mut W) -> io::Result<u8>
        ensures whole { IfOk result (λ status. (over : Bool) × (after : RunState D) × (status ≡ status_of over after.agrees) × Writes (IsCrashedWhere (is_due self.state.player.waits) (medium_of D.honest D.seen D.may_leave D.failed D.refuses D.expects D.broken D.armed) self.settings self.state after over) (W.contents output.old) (W.contents output.new)) }
        ensures part { OnErr result (BreaksOff (λ text. (over : Bool) × (after : RunState D) × IsCrashedWhere (is_due self.state.player.waits) (medium_of D.honest D.seen D.may_leave D.failed D.refuses D.expects D.broken D.armed) self.settings self.state after over text) (W.contents output.old) (W.contents output.new)) }
    {
        if !is_due(self.player.waits()) {
            return Ok(status_of(self.agrees));
        }
        let Some(run) = self.tell_crash(output)? else {
            return Ok(3);
        };
        Ok(status_of(run.agrees))
    }

    /// Takes a crash, and then writes what is printed of it. None where its image was refused.
    fn tell_crash<W: Write>(self, output: &mut W) -> io::Result<Option<Run<D>>>
        ensures whole { IfOk result (λ next. (KeepsSettings self.settings next) × Writes (IsCrashed (medium_of D.honest D.seen D.may_leave D.failed D.refuses D.expects D.broken D.armed) self.settings self.state (state_behind self.state next) (is_none next)) (W.contents output.old) (W.contents output.new)) }
        ensures part { OnErr result (BreaksOff (λ text. (over : Bool) × (after : RunState D) × IsCrashed (medium_of D.honest D.seen D.may_leave D.failed D.refuses D.expects D.broken D.armed) self.settings self.state after over text) (W.contents output.old) (W.contents output.new)) }
    {
        let mut said = Vec::new(self.alloc);
        let next = self.crash(&mut said)?;
        write_text(output, said.as_slice())?;
        Ok(next)
    }

    /// Plays one piece, and then writes what it says. None where the run was refused.
    fn tell_piece<W: Write>(
        self,
        output: &mut W,
        piece: &Piece,
        picks: &mut Picks,
    ) -> io::Result<Option<Run<D>>>
        ensures whole { IfOk result (λ next. (KeepsSettings self.settings next) × Writes (IsPiece (medium_of D.honest D.seen D.may_leave D.failed D.refuses D.expects D.broken D.armed) self.settings piece.now self.state (state_behind self.state next) (is_none next)) (W.contents output.old) (W.contents output.new)) }
        ensures part { OnErr result (BreaksOff (λ text. (over : Bool) × (after : RunState D) × IsPiece (medium_of D.honest D.seen D.may_leave D.failed D.refuses D.expects D.broken D.armed) self.settings piece.now self.state after over text) (W.contents output.old) (W.contents output.new)) }
    {
        let mut said = Vec::new(self.alloc);
        let next = self.piece(&mut said, piece, picks)?;
        write_text(output, said.as_slice())?;
        Ok(next)
    }

    /// Plays one piece. None where the run was refused.
    fn piece<W: Write>(
        self,
        output: &mut W,
        piece: &Piece,
        picks: &mut Picks,
    ) -> io::Result<Option<Run<D>>>
        ensures { IfOk result (λ next. (KeepsSettings self.settings next) × Writes (IsPiece (medium_of D.honest D.seen D.may_leave D.failed D.refuses D.expects D.broken D.armed) self.settings piece.now self.state (state_behind self.state next) (is_none next)) (W.contents output.old) (W.contents output.new)) }
    {
        match piece {
            Piece::Group(calls) => self.group(output, calls, picks),
            Piece::Finish => self.finish(output),
            Piece::Crash => self.crash(output),
            Piece::CrashAt(call) => Ok(Some(self.prepare_crash(*call))),
            Piece::FailAt(call) => Ok(Some(self.prepare_failure(*call))),
        }
    }

    /// A crash is to strike at the device's call of this number, counted from 1.
    fn prepare_crash(self, call: u64) -> Run<D>
        ensures run { Prepares (medium_of D.honest D.seen D.may_leave D.failed D.refuses D.expects D.broken D.armed) (call - 1) (waits_for_crash (D.broken self.state.player.world.device)) self.state result.state false [] }
        ensures settings { result.settings ≡ self.settings }
    {
        let mut run = self;
        D::crash_behind(&mut run.player, call.saturating_sub(1));
        run
    }

    /// The device's call of this number is to fail, counted from 1, and each later one.
    fn prepare_failure(self, call: u64) -> Run<D>
        ensures run { Prepares (medium_of D.honest D.seen D.may_leave D.failed D.refuses D.expects D.broken D.armed) (call - 1) Waits.Failure self.state result.state false [] }
        ensures settings { result.settings ≡ self.settings }
    {
        let mut run = self;
        D::fail_behind(&mut run.player, call.saturating_sub(1));
        run
    }

    /// Finishes the commit that runs, and takes a crash that strikes in it.
    fn finish<W: Write>(self, output: &mut W) -> io::Result<Option<Run<D>>>
        ensures { IfOk result (λ next. (KeepsSettings self.settings next) × Writes (IsLegOf (IsFinishStruck (medium_of D.honest D.seen D.may_leave D.failed D.refuses D.expects D.broken D.armed)) (medium_of D.honest D.seen D.may_leave D.failed D.refuses D.expects D.broken D.armed) self.settings self.state (state_behind self.state next) (is_none next)) (W.contents output.old) (W.contents output.new)) }
    {
        let mut run = self;
        if has_struck(run.player.finish(run.alloc, output)?) {
            return run.crash(output);
        }
        Ok(Some(run))
    }

    /// Takes a crash, and goes on with the next life. None where its image was refused, and that is printed.
    pub(crate) fn crash<W: Write>(self, output: &mut W) -> io::Result<Option<Run<D>>>
        ensures { IfOk result (λ next. (KeepsSettings self.settings next) × Writes (IsCrashed (medium_of D.honest D.seen D.may_leave D.failed D.refuses D.expects D.broken D.armed) self.settings self.state (state_behind self.state next) (is_none next)) (W.contents output.old) (W.contents output.new)) }
    {
        let Run {
            alloc,
            player,
            agrees,
            settings,
        } = self;
        let Some(next) = take_crash(alloc, output, player, settings)? else {
            return Ok(None);
        };
        Ok(Some(Run {
            alloc,
            player: next.player,
            agrees: agrees && next.agrees,
            settings,
        }))
    }
}

/// A crash that still is to come is taken at the end.
fn is_due(waits: Waits) -> bool
    ensures { result ≡ is_due waits }
{
    match waits {
        Waits::Crash | Waits::CrashAtEnd => true,
        Waits::Nothing | Waits::Failure => false,
    }
}

/// The status of a run that came to its end: 0 where all reports have agreed with their checks, and else 1.
fn status_of(agrees: bool) -> u8
    ensures { result ≡ status_of false agrees }
{
    if agrees { 0 } else { 1 }
}

/// A crash has struck in a finish that comes out so.
fn has_struck(outcome: Outcome) -> bool
    ensures { result ≡ is_struck_at outcome }
{
    match outcome {
        Outcome::Struck => true,
        Outcome::GoesOn | Outcome::Answered | Outcome::Closed => false,
    }
}
