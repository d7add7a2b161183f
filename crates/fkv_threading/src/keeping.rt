//! The keeper at a table, and what its calls have told.
ghost use Rattle.std.specs.Prelude.{◌≡◌};
ghost use Rattle.fkv_threading.specs.Said as said;

use crate::keepers::KeeperEnd;
use fkv_base::{CommitKind, Fault, Version};
use fkv_disk::Device;
use fkv_keeper::{Finished, Turn};
use fkv_threads::KeeperSeat;
use std::marker::Model;
use std::snapshot::Snapshot;

/// A keeper that is ready for its next call, with what all its calls have told: the last commit that a turn told as finished, the last number that was told as
/// begun, and the fault for which a turn has ended the run. A contract sees it as the table's key, and the device with which it began.
#[derive(Drop)]
pub(crate) struct Keeping<D: Device + Drop> {
    pub(crate) seat: KeeperSeat<D>,
    /// The device, as the table was opened over it.
    pub(crate) first: Snapshot<D>,
    pub(crate) finished: Option<Finished>,
    pub(crate) begun: Option<Version>,
    pub(crate) fault: Option<Fault>,
}

impl<D: Device + Drop> Model for Keeping<D> {
    ghost use Rattle.std.specs.Prelude.{◌≡◌, false};
    ghost use Rattle.fkv_threading.specs.Said as said;

    ghost Value = { said.KeeperPlace D };

    ghost view = { λ s. record { key = s.seat.key; first = s.first.value } };

    ghost invariant = { λ s. (s.seat.in_turn ≡ false)
        × said.WasKept D.Device s.seat.key s.first.value s.finished s.begun s.fault s.seat.seen s.seat.device };
}

impl<D: Device + Drop> Keeping<D> {
    /// Makes a turn to its end, and keeps what it tells. Whether it has finished a commit. One that was refused memory has left its copy to a later one.
    pub(crate) fn turn(&mut self) -> bool
        ensures { self.new ≡ self.old }
    {
        let answer = self.seat.turn();
        note(&mut self.finished, &mut self.fault, answer)
    }

    /// Begins a commit, and keeps its number.
    pub(crate) fn ask_commit(&mut self, kind: CommitKind) -> Result<Version, Fault>
        ensures { self.new ≡ self.old }
    {
        let answer = self.seat.ask_commit(kind);
        note_begun(&mut self.begun, &answer);
        answer
    }

    /// Whether a turn was refused, but for memory.
    pub(crate) fn has_refused(&self) -> bool {
        self.fault.is_some()
    }

    /// The device, behind the turns' calls, and what all calls have told.
    pub(crate) fn end(self) -> KeeperEnd<D>
        ensures { said.IsKept D.Device self.key self.first result.device result.finished result.begun result.fault }
    {
        let Keeping {
            seat,
            finished,
            begun,
            fault,
            ..
        } = self;
        KeeperEnd {
            device: seat.into_device(),
            finished,
            begun,
            fault,
        }
    }
}

/// Notes what a turn with this answer has told. Whether it has finished a commit.
fn note(
    finished: &mut Option<Finished>,
    fault: &mut Option<Fault>,
    answer: Result<Turn, Fault>,
) -> bool
    ensures finished { finished.new ≡ said.finish_by finished.old answer }
    ensures fault { fault.new ≡ said.fault_by fault.old answer }
{
    match answer {
        Ok(turn) => {
            let Turn { finished: its, .. } = turn;
            if its.is_none() {
                return false;
            }
            *finished = its;
            true
        }
        Err(Fault::Memory) => false,
        Err(why) => {
            *fault = Some(why);
            false
        }
    }
}

/// Notes the number that was told as begun, if one was.
fn note_begun(begun: &mut Option<Version>, answer: &Result<Version, Fault>)
    ensures { begun.new ≡ said.begun_by begun.old answer.now }
{
    if let Ok(number) = answer {
        *begun = Some(*number);
    }
}
