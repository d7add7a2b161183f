//! A run over one life.
ghost use Rattle.std.specs.Prelude.{◌≡◌, [], IfOk, OnErr, OnOk, false};
ghost use Rattle.fkv_playing.specs.InTurn.{Writes};
ghost use Rattle.fkv_playing.specs.Players.{EngineStep, PlayerState};
ghost use Rattle.fkv_runs.specs.Beginnings.{BreaksOff};
ghost use Rattle.fkv_runs.specs.Files.{IsGroupOfLife, IsPartOfLife, IsPieceOfLife, IsRunOfLife};
ghost use Rattle.fkv_runs.specs.Openings.{Begins};

use crate::openings::begin;
use crate::pieces::Piece;
use crate::telling::write_text;
use fkv_opening::Opened;
use fkv_playing::{ActorCall, Breaks, Picks, Player, queues_of};
use std::alloc::Global;
use std::io::{self, Write};

/// Plays these pieces over one life, which begins with this opened store over this device. Pieces that crash or fail a device are
/// left out. Where memory is refused or the writer fails, what is written is a beginning of what these pieces write.
pub fn play_life<D: Breaks + Drop, W: Write>(
    alloc: Global,
    output: &mut W,
    opened: Opened,
    device: D,
    pieces: &[Piece],
    picks: &mut Picks,
) -> io::Result<()>
    ensures whole { OnOk result ((player : PlayerState D) × Begins opened device [] false player
        × Writes (IsRunOfLife (EngineStep D.honest D.seen D.may_leave D.failed D.refuses D.expects D.broken) pieces.now player) (W.contents output.old) (W.contents output.new)) }
    ensures part { OnErr result (BreaksOff (λ text. (player : PlayerState D) × Begins opened device [] false player
        × IsPartOfLife (EngineStep D.honest D.seen D.may_leave D.failed D.refuses D.expects D.broken) pieces.now player text) (W.contents output.old) (W.contents output.new)) }
{
    let mut player = begin(alloc, opened, device, Vec::new(alloc), false)?;
    for piece in pieces {
        tell_piece(alloc, output, &mut player, piece, picks)?;
    }
    Ok(())
}

/// Plays one piece, and then writes what it says.
fn tell_piece<D: Breaks + Drop, W: Write>(
    alloc: Global,
    output: &mut W,
    player: &mut Player<D>,
    piece: &Piece,
    picks: &mut Picks,
) -> io::Result<()>
    ensures whole { OnOk result (Writes (IsPieceOfLife (EngineStep D.honest D.seen D.may_leave D.failed D.refuses D.expects D.broken) piece.now player.old player.new false) (W.contents output.old) (W.contents output.new)) }
    ensures part { OnErr result (BreaksOff (λ text. (after : PlayerState D) × IsPieceOfLife (EngineStep D.honest D.seen D.may_leave D.failed D.refuses D.expects D.broken) piece.now player.old after false text) (W.contents output.old) (W.contents output.new)) }
{
    let mut said = Vec::new(alloc);
    play_piece(alloc, &mut said, player, piece, picks)?;
    write_text(output, said.as_slice())
}

fn play_piece<D: Breaks + Drop, W: Write>(
    alloc: Global,
    output: &mut W,
    player: &mut Player<D>,
    piece: &Piece,
    picks: &mut Picks,
) -> io::Result<()>
    ensures { OnOk result (Writes (IsPieceOfLife (EngineStep D.honest D.seen D.may_leave D.failed D.refuses D.expects D.broken) piece.now player.old player.new false) (W.contents output.old) (W.contents output.new)) }
{
    match piece {
        Piece::Group(calls) => play_calls(alloc, output, player, calls, picks),
        Piece::Finish => {
            player.finish(alloc, output)?;
            Ok(())
        }
        Piece::Crash | Piece::CrashAt(_) | Piece::FailAt(_) => Ok(()),
    }
}

fn play_calls<D: Breaks + Drop, W: Write>(
    alloc: Global,
    output: &mut W,
    player: &mut Player<D>,
    calls: &[ActorCall],
    picks: &mut Picks,
) -> io::Result<()>
    ensures { OnOk result (Writes (IsGroupOfLife (EngineStep D.honest D.seen D.may_leave D.failed D.refuses D.expects D.broken) calls.now player.old player.new) (W.contents output.old) (W.contents output.new)) }
{
    let mut queues = queues_of(alloc, calls)?;
    if player.play_group(output, &mut queues, picks)? {
        // Nobody waits for a crash here.
        return Err(io::ErrorKind::Other.into());
    }
    Ok(())
}
