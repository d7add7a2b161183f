//! The keeper's thread.
ghost use Rattle.std.specs.Prelude.{◌≡◌};
ghost use Rattle.fkv_threading.specs.Said as said;

use crate::keeping::Keeping;
use crate::progress::Progress;
use fkv_base::{CommitKind, Fault, Version};
use fkv_disk::Device;
use fkv_keeper::Finished;
use fkv_lines::Line;
use std::sync::Wait;
use std::thread::yield_now;

/// What the keeper's thread leaves.
#[derive(Drop)]
pub struct KeeperEnd<D: Device + Drop> {
    pub device: D,
    /// The last commit that a turn told as finished.
    pub finished: Option<Finished>,
    /// The number of the last commit that was begun.
    pub begun: Option<Version>,
    /// The refusal that ended the run.
    pub fault: Option<Fault>,
}

/// Plays the keeper's lines, and makes turns until all sessions have ended.
pub(crate) fn play_keeper<D: Device + Drop, R: Wait>(
    rt: &R,
    progress: &Progress,
    lines: &[Line],
    sessions: u64,
    mut keeping: Keeping<D>,
) -> KeeperEnd<D>
    ensures { said.IsKept D.Device keeping.key keeping.first result.device result.finished result.begun result.fault }
{
    play_lines(rt, progress, lines, &mut keeping);
    progress.end_keeper_lines();
    turn_until_ended(rt, progress, sessions, &mut keeping);
    if keeping.has_refused() {
        progress.stop();
    }
    keeping.end()
}

fn play_lines<D: Device + Drop, R: Wait>(
    rt: &R,
    progress: &Progress,
    lines: &[Line],
    keeping: &mut Keeping<D>,
)
    ensures { keeping.new ≡ keeping.old }
{
    let mut runs = false;
    for line in lines {
        if has_stopped(progress, keeping) {
            break;
        }
        match *line {
            Line::Commit(kind) => runs = begin(rt, progress, keeping, kind),
            // No session keeps what a sweep would want, so nothing is swept.
            Line::Trim => runs = begin(rt, progress, keeping, CommitKind::Full),
            Line::Finish if runs => {
                finish(rt, progress, keeping);
                runs = false;
            }
            _ => {}
        }
    }
}

fn has_stopped<D: Device + Drop>(progress: &Progress, keeping: &Keeping<D>) -> bool {
    keeping.has_refused() || progress.is_stopped()
}

/// Begins a commit, and makes turns as long as no drain slot is free for it. Whether it runs: one that is refused for good is left out.
fn begin<D: Device + Drop, R: Wait>(
    rt: &R,
    progress: &Progress,
    keeping: &mut Keeping<D>,
    kind: CommitKind,
) -> bool
    ensures { keeping.new ≡ keeping.old }
{
    for _ in rt.forever() {
        match keeping.ask_commit(kind) {
            Ok(_) => return true,
            Err(Fault::DrainFull) => {}
            Err(_) => break,
        }
        keeping.turn();
        if has_stopped(progress, keeping) {
            break;
        }
        yield_now();
    }
    false
}

/// Makes turns until the commit is finished.
fn finish<D: Device + Drop, R: Wait>(rt: &R, progress: &Progress, keeping: &mut Keeping<D>)
    ensures { keeping.new ≡ keeping.old }
{
    for _ in rt.forever() {
        let is_finished = keeping.turn();
        if is_finished || has_stopped(progress, keeping) {
            break;
        }
        yield_now();
    }
}

fn turn_until_ended<D: Device + Drop, R: Wait>(
    rt: &R,
    progress: &Progress,
    sessions: u64,
    keeping: &mut Keeping<D>,
)
    ensures { keeping.new ≡ keeping.old }
{
    for _ in rt.forever() {
        if has_stopped(progress, keeping) || progress.have_ended(sessions) {
            break;
        }
        keeping.turn();
        yield_now();
    }
}
