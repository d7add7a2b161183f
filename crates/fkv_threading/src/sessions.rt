//! A session's thread.
ghost use Rattle.std.specs.Prelude.{◌≡◌};
ghost use Rattle.fkv_threading.specs.Said as said;

use crate::gates::Gate;
use crate::players::{Player, SessionEnd};
use crate::progress::Progress;
use fkv_base::Fault;
use fkv_disk::Device;
use fkv_map::Call;
use fkv_session::Answer;
use std::sync::Wait;
use std::thread::yield_now;

/// Plays the lines of this session, goes on with refreshes and polls until the keeper's lines are through and nothing is pending, and lets it
/// sleep. Gives what it was told by all of these calls. `Memory` where memory was refused.
pub(crate) fn play_session<D: Device, G: Gate, R: Wait>(
    rt: &R,
    progress: &Progress,
    gate: &G,
    number: usize,
    player: Player<D>,
) -> Result<SessionEnd, Fault>
    ensures ok { said.IfOk result (λ its. said.IsTold (said.opening D.Device) player its.is_whole its.log) }
    ensures err { said.OnErr result (result ≡ said.Err said.Memory) }
{
    let played = play_calls(rt, progress, gate, number, player);
    if played.is_err() {
        progress.stop();
    }
    progress.end_session();
    match played {
        Ok(player) => Ok(player.end()),
        Err(fault) => Err(fault),
    }
}

fn play_calls<D: Device, G: Gate, R: Wait>(
    rt: &R,
    progress: &Progress,
    gate: &G,
    number: usize,
    player: Player<D>,
) -> Result<Player<D>, Fault>
    ensures ok { said.IfOk result (λ end. end ≡ player) }
    ensures err { said.OnErr result (result ≡ said.Err said.Memory) }
{
    let calls = player.count_left() as u64;
    let mut at = player;
    for before in 0..calls {
        gate.before(number, before + 1);
        at = play_call(rt, progress, at)?;
    }
    end(rt, progress, at)
}

/// Makes the next call. One that is refused since too many requests are pending is made again behind a refresh and a poll.
fn play_call<D: Device, R: Wait>(
    rt: &R,
    progress: &Progress,
    player: Player<D>,
) -> Result<Player<D>, Fault>
    ensures ok { said.IfOk result (λ end. end ≡ player) }
    ensures err { said.OnErr result (result ≡ said.Err said.Memory) }
{
    let mut at = player;
    for _ in rt.forever() {
        if progress.is_stopped() {
            break;
        }
        let (next, is_answered) = at.call_next()?;
        at = next;
        if is_answered {
            break;
        }
        let (next, _) = catch_up(at)?;
        at = next;
        yield_now();
    }
    Ok(at)
}

/// A refresh and a poll, and how many requests are left.
fn catch_up<D: Device>(player: Player<D>) -> Result<(Player<D>, usize), Fault>
    ensures ok { said.IfOk result (λ its. its.0 ≡ player) }
    ensures err { said.OnErr result (result ≡ said.Err said.Memory) }
{
    let (refreshed, _) = player.call_own(Call::Refresh)?;
    let (polled, answer) = refreshed.call_own(Call::Poll)?;
    match answer {
        Answer::Polled(_, left) => Ok((polled, left)),
        _ => Ok((polled, 0)),
    }
}

/// Catches up until the keeper's lines are through and nothing is pending. Then the session sleeps.
fn end<D: Device, R: Wait>(
    rt: &R,
    progress: &Progress,
    player: Player<D>,
) -> Result<Player<D>, Fault>
    ensures ok { said.IfOk result (λ end. end ≡ player) }
    ensures err { said.OnErr result (result ≡ said.Err said.Memory) }
{
    let at = catch_up_whole(rt, progress, player)?;
    if progress.is_stopped() {
        return Ok(at);
    }
    let (slept, _) = at.call_own(Call::Sleep)?;
    Ok(slept)
}

/// Refreshes and polls until the keeper's lines are through and nothing is pending, or it is stopped.
fn catch_up_whole<D: Device, R: Wait>(
    rt: &R,
    progress: &Progress,
    player: Player<D>,
) -> Result<Player<D>, Fault>
    ensures ok { said.IfOk result (λ end. end ≡ player) }
    ensures err { said.OnErr result (result ≡ said.Err said.Memory) }
{
    let mut at = player;
    for _ in rt.forever() {
        if progress.is_stopped() {
            break;
        }
        let is_through = progress.are_keeper_lines_through();
        let (next, left) = catch_up(at)?;
        at = next;
        if is_through && left == 0 {
            break;
        }
        yield_now();
    }
    Ok(at)
}
