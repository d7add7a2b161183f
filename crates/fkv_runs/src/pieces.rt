//! The pieces of a script.
ghost use Rattle.std.specs.Prelude.{◌≡◌, ◌∷◌, [], ◌++◌, List, IfOk, IfSome, IfNone, OnOk, Ok, true, false};
ghost use Rattle.fkv_runs.specs.Pieces.{ArePieces, is_group, is_mark, line_of, lines_of};

use fkv_lines::Line;
use fkv_playing::ActorCall;
use std::alloc::Global;
use std::io;

/// A piece of a script: what is played before anything else begins.
#[derive(Drop)]
pub enum Piece {
    /// Calls of sessions and of the keeper: one, or some that are interleaved.
    Group(Vec<ActorCall>),
    /// The finish of a commit.
    Finish,
    /// A crash.
    Crash,
    /// A crash strikes at the device's call of this number, counted from 1.
    CrashAt(u64),
    /// The device's call of this number fails, counted from 1, and each later one.
    FailAt(u64),
}

/// The pieces of these lines, in their order. Where calls are interleaved, all that stand together are one piece; else each is one of
/// its own.
pub fn pieces_of(alloc: Global, lines: &[Line], interleaved: bool) -> io::Result<Vec<Piece>>
    ensures { IfOk result (λ pieces. ArePieces interleaved lines.now pieces.items) }
{
    let mut pieces = Vec::new(alloc);
    for line in lines {
        put(alloc, &mut pieces, *line, interleaved)?;
    }
    Ok(pieces)
}

/// One line more, behind those of the pieces.
fn put(alloc: Global, pieces: &mut Vec<Piece>, line: Line, interleaved: bool) -> io::Result<()>
    ensures { OnOk result ((lines : List Line) → ArePieces interleaved lines pieces.old.items → ArePieces interleaved (lines ++ (line ∷ [])) pieces.new.items) }
{
    let Some(call) = call_of(line) else {
        pieces.push(mark_of(alloc, line))?;
        return Ok(());
    };
    if interleaved {
        if let Some(last) = pieces.last_mut() {
            if last.join(call)? {
                return Ok(());
            }
        }
    }
    let mut calls = Vec::new(alloc);
    calls.push(call)?;
    pieces.push(Piece::Group(calls))?;
    Ok(())
}

impl Piece {
    /// Puts a call behind those of a group. False where this is none.
    fn join(&mut self, call: ActorCall) -> io::Result<bool>
        ensures joined { result ≡ Ok true → (is_group self.old ≡ true) × (is_group self.new ≡ true) × (lines_of self.new ≡ lines_of self.old ++ (line_of call ∷ [])) }
        ensures other { result ≡ Ok false → (is_group self.old ≡ false) × (self.new ≡ self.old) }
    {
        let Piece::Group(calls) = self else {
            return Ok(false);
        };
        calls.push(call)?;
        Ok(true)
    }
}

/// The call of a line that is one.
fn call_of(line: Line) -> Option<ActorCall>
    ensures some { IfSome result (λ call. line_of call ≡ line) }
    ensures none { IfNone result (is_mark line ≡ true) }
{
    match line {
        Line::Call(number, call) => Some(ActorCall::Session(number as usize, call)),
        Line::Commit(kind) => Some(ActorCall::Commit(kind)),
        Line::Trim => Some(ActorCall::Trim),
        Line::Turn => Some(ActorCall::Turn),
        Line::Finish | Line::Crash | Line::CrashAt(_) | Line::FailAt(_) => None,
    }
}

/// The piece of a line that is no call; an empty group of one that is.
fn mark_of(alloc: Global, line: Line) -> Piece
    ensures lines { is_mark line ≡ true → lines_of result ≡ line ∷ [] }
    ensures alone { is_mark line ≡ true → is_group result ≡ false }
{
    match line {
        Line::Finish => Piece::Finish,
        Line::Crash => Piece::Crash,
        Line::CrashAt(call) => Piece::CrashAt(call),
        Line::FailAt(call) => Piece::FailAt(call),
        Line::Call(_, _) | Line::Commit(_) | Line::Trim | Line::Turn => {
            Piece::Group(Vec::new(alloc))
        }
    }
}
