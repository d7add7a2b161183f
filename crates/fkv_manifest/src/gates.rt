//! How a slot comes into force behind its gate.
ghost use Rattle.std.specs.Prelude.{◌≡◌, ◌<◌, ◌≤◌, ◌↔◌, [], Bool, is_ok, true, if◌then◌else◌};
ghost use Rattle.fkv_disk.specs.Asks.{first_asked, kinds_by};
ghost use Rattle.fkv_disk.specs.Device.{Elapses, HasCause, MakesCalls};
ghost use Rattle.fkv_manifest.specs.Gating.{gate_start, gate_call, gate_next, gate_answer, gate_calls_left};
ghost use Rattle.fkv_manifest.specs.Devices.{DoesNext, calls_next, calls_told, next_made};
ghost use Rattle.fkv_manifest.specs.Made.{with_call};

use crate::answers::WriteAnswer;
use crate::calls::{NextCall, make_call};
use fkv_base::Fault;
use fkv_disk::Device;
use fkv_record::OPEN;
use std::marker::Model;

/// The byte of a closed gate.
const CLOSED: u8 = 0;

/// How far the machine has come.
#[derive(Clone, Copy)]
pub(crate) enum Gating {
    Closes,
    SyncsClosed,
    WritesBody,
    SyncsBody,
    Opens,
    SyncsOpen,
    Written,
    Broken(Fault),
}

/// Puts a slot in force: where its gate stands open it is closed and synced, then the bytes behind the gate are written and
/// synced, and then the gate is opened and synced. So no crash finds an open gate before bytes that aren't whole. A gate
/// that stands closed isn't written: a torn write could open it before whatever bytes lie there.
#[derive(Drop)]
pub struct GateWrites {
    place: u64,
    start: usize,
    slot: [u8; 512],
    step: Gating,
}

impl Model for GateWrites {
    ghost use Rattle.std.specs.Prelude.{◌≤◌};
    ghost use Rattle.fkv_manifest.specs.Gating.{GateWriter};

    ghost Value = { GateWriter };

    ghost view = { λ m. record { place = m.place; start = m.start; slot = m.slot; step = m.step } };

    ghost invariant = { λ m. (m.place ≤ 1024) × (m.start ≤ 512) };
}

impl GateWrites {
    /// The machine before its first call, for a slot that is to lie at `place`. Of its bytes those from `start` on are
    /// written behind the gate; those between the gate and `start` stand there already.
    pub fn new(place: u64, start: usize, slot: [u8; 512], is_open: bool) -> GateWrites
        requires place { place ≤ 1024 }
        requires start { start ≤ 512 }
        ensures { result ≡ record { place = place; start = start; slot = slot; step = gate_start is_open } }
    {
        let step = if is_open {
            Gating::Closes
        } else {
            Gating::WritesBody
        };
        GateWrites {
            place,
            start,
            slot,
            step,
        }
    }

    /// How far it has come.
    #[tactic(auto, unfolding(crate::specs::Gating::gate_answer))]
    pub fn answer(&self) -> WriteAnswer
        ensures { result ≡ gate_answer self.now.step }
    {
        match self.step {
            Gating::Written => WriteAnswer::Written,
            Gating::Broken(fault) => WriteAnswer::Broken(fault),
            _ => WriteAnswer::Device,
        }
    }

    /// The call of the device that it needs, if it needs one. A machine that is walked without a device goes on by `went`.
    #[tactic(auto, unfolding(crate::specs::Gating::gate_step_call, crate::specs::Gating::gate_answer))]
    pub fn next_call(&self) -> Option<NextCall<'_>>
        ensures call { (done : Bool) → next_made result done ≡ gate_call self.now done }
        ensures counted { calls_told result ≡ calls_next (gate_answer self.now.step) }
    {
        match self.step {
            Gating::Closes => Some(NextCall::Writes(self.place, &[CLOSED])),
            Gating::WritesBody => {
                let body = &self.slot[self.start..];
                Some(NextCall::Writes(self.place + self.start as u64, body))
            }
            Gating::Opens => Some(NextCall::Writes(self.place, &[OPEN])),
            Gating::SyncsClosed | Gating::SyncsBody | Gating::SyncsOpen => Some(NextCall::Syncs),
            Gating::Written | Gating::Broken(_) => None,
        }
    }

    /// Goes on from its next call, which succeeded or failed. Where it needs none it stays where it is.
    pub fn went(&mut self, done: bool)
        ensures { self.new ≡ record self.old { step = gate_next self.old.step done } }
    {
        self.step = step_called(self.step, done);
    }

    /// Makes the one call of the device that it needs, and goes on. Where it needs none it makes none, and stays where it
    /// is. `Fault::Device` where the call failed: the machine is broken then.
    pub fn device_step<D: Device>(&mut self, d: &mut D) -> Result<(), Fault>
        ensures next { self.new ≡ record self.old { step = gate_next self.old.step (is_ok result) } }
        ensures cause { HasCause (D.failed d.old) (D.failed d.new) result }
        ensures counted { MakesCalls (calls_next (gate_answer self.old.step)) (D.refuses d.old) (D.refuses d.new) result }
        ensures kind { D.expects d.new ≡ kinds_by (first_asked (with_call (gate_call self.old true) [])) (is_ok result) (D.expects d.old) }
        ensures honest { D.honest d.old ↔ D.honest d.new }
        ensures does { D.honest d.old → DoesNext (gate_call self.old (is_ok result)) (D.seen d.old) (D.seen d.new) (D.may_leave d.old) (D.may_leave d.new) }
        ensures time { D.honest d.old → Elapses (D.moment d.old) (D.moment d.new) (D.left_since d.old) (D.left_since d.new) (D.may_leave d.new) }
    {
        let called = make_call(self.next_call(), d);
        self.went(called.is_ok());
        called
    }
}

// Where a call of the device leads.
#[tactic(auto, unfolding(crate::specs::Gating::gate_next))]
fn step_called(step: Gating, done: bool) -> Gating
    ensures { result ≡ gate_next step done }
{
    match (step, done) {
        (Gating::Written, _) => Gating::Written,
        (Gating::Broken(fault), _) => Gating::Broken(fault),
        (_, false) => Gating::Broken(Fault::Device),
        (Gating::Closes, true) => Gating::SyncsClosed,
        (Gating::SyncsClosed, true) => Gating::WritesBody,
        (Gating::WritesBody, true) => Gating::SyncsBody,
        (Gating::SyncsBody, true) => Gating::Opens,
        (Gating::Opens, true) => Gating::SyncsOpen,
        (Gating::SyncsOpen, true) => Gating::Written,
    }
}
