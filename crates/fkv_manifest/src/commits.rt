//! What a commit writes once its records are flushed.
ghost use Rattle.std.specs.Prelude.{◌≡◌, ◌≤◌, ◌↔◌, [], Bool, is_ok, true};
ghost use Rattle.fkv_disk.specs.Asks.{first_asked, kinds_by};
ghost use Rattle.fkv_disk.specs.Device.{Elapses, HasCause, MakesCalls};
ghost use Rattle.fkv_manifest.specs.Committing.{commit_start, commit_call, commit_next, commit_step_next, commit_answer};
ghost use Rattle.fkv_manifest.specs.Devices.{DoesNext, calls_next, calls_told, next_made};
ghost use Rattle.fkv_manifest.specs.Made.{with_call};

use crate::answers::WriteAnswer;
use crate::calls::NextCall;
use crate::gates::GateWrites;
use fkv_base::Fault;
use fkv_disk::Device;
use std::marker::Model;

/// How far the machine has come.
#[derive(Clone, Copy)]
pub(crate) enum Committing {
    WritesTriples,
    SyncsTriples,
    PutsSlot,
    Broken(Fault),
}

/// Writes the triples of a checkpoint into their area, where there are some, and syncs; then it puts the commit's slot in
/// force. As long as the slot's gate isn't open the last commit stands, and once the last sync has answered this one does.
#[derive(Drop)]
pub struct CommitWrites {
    area: u64,
    triples: Vec<u8>,
    gate: GateWrites,
    step: Committing,
}

impl Model for CommitWrites {
    ghost use Rattle.fkv_manifest.specs.Committing.{CommitWriter};

    ghost Value = { CommitWriter };

    ghost view = { λ m. record { area = m.area; triples = m.triples.items; gate = m.gate; step = m.step } };
}

impl CommitWrites {
    /// The machine before its first call, for triples that are to lie at `area`. A commit that reuses a checkpoint has none.
    pub fn new(area: u64, triples: Vec<u8>, gate: GateWrites) -> CommitWrites
        ensures { result ≡ record { area = area; triples = triples.items; gate = gate; step = commit_start triples.items } }
    {
        let step = if triples.is_empty() {
            Committing::SyncsTriples
        } else {
            Committing::WritesTriples
        };
        CommitWrites {
            area,
            triples,
            gate,
            step,
        }
    }

    /// How far it has come.
    #[tactic(auto, unfolding(crate::specs::Committing::commit_step_answer, crate::specs::Gating::gate_answer))]
    pub fn answer(&self) -> WriteAnswer
        ensures { result ≡ commit_answer self.now }
    {
        match self.step {
            Committing::WritesTriples | Committing::SyncsTriples => WriteAnswer::Device,
            Committing::PutsSlot => self.gate.answer(),
            Committing::Broken(fault) => WriteAnswer::Broken(fault),
        }
    }

    /// The call of the device that it needs, if it needs one.
    #[tactic(auto, unfolding(crate::specs::Committing::commit_step_call, crate::specs::Committing::commit_step_answer))]
    pub fn next_call(&self) -> Option<NextCall<'_>>
        ensures call { (done : Bool) → next_made result done ≡ commit_call self.now done }
        ensures counted { calls_told result ≡ calls_next (commit_answer self.now) }
    {
        match self.step {
            Committing::WritesTriples => Some(NextCall::Writes(self.area, &self.triples)),
            Committing::SyncsTriples => Some(NextCall::Syncs),
            Committing::PutsSlot => self.gate.next_call(),
            Committing::Broken(_) => None,
        }
    }

    /// Makes the one call of the device that it needs, and goes on. Where it needs none it makes none, and stays where it
    /// is. `Fault::Device` where the call failed: the machine is broken then.
    #[tactic(auto, unfolding(crate::specs::Committing::commit_step_call, crate::specs::Committing::commit_step_answer, crate::specs::Committing::gate_after))]
    pub fn device_step<D: Device>(&mut self, d: &mut D) -> Result<(), Fault>
        ensures next { self.new ≡ commit_next self.old (is_ok result) }
        ensures cause { HasCause (D.failed d.old) (D.failed d.new) result }
        ensures counted { MakesCalls (calls_next (commit_answer self.old)) (D.refuses d.old) (D.refuses d.new) result }
        ensures kind { D.expects d.new ≡ kinds_by (first_asked (with_call (commit_call self.old true) [])) (is_ok result) (D.expects d.old) }
        ensures honest { D.honest d.old ↔ D.honest d.new }
        ensures does { D.honest d.old → DoesNext (commit_call self.old (is_ok result)) (D.seen d.old) (D.seen d.new) (D.may_leave d.old) (D.may_leave d.new) }
        ensures time { D.honest d.old → Elapses (D.moment d.old) (D.moment d.new) (D.left_since d.old) (D.left_since d.new) (D.may_leave d.new) }
    {
        let called = match self.step {
            Committing::WritesTriples => d.write(self.area, &self.triples),
            Committing::SyncsTriples => d.sync(),
            Committing::PutsSlot => self.gate.device_step(d),
            Committing::Broken(_) => Ok(()),
        };
        self.step = step_called(self.step, called.is_ok());
        called
    }
}

// Where a call of the device leads. Behind the triples the slot's own machine goes on.
#[tactic(auto, unfolding(crate::specs::Committing::commit_step_next))]
fn step_called(step: Committing, done: bool) -> Committing
    ensures { result ≡ commit_step_next step done }
{
    match (step, done) {
        (Committing::WritesTriples, true) => Committing::SyncsTriples,
        (Committing::SyncsTriples, true) => Committing::PutsSlot,
        (Committing::WritesTriples | Committing::SyncsTriples, false) => {
            Committing::Broken(Fault::Device)
        }
        (other, _) => other,
    }
}
