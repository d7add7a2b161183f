//! What a session was told of its updates.
ghost use Rattle.std.specs.Prelude.{◌≡◌, ◌++◌, [], Err, OnErr, OnOk};
ghost use Rattle.fkv_base.specs.declared.faults.Fault.TheVariants.{Memory};
ghost use Rattle.fkv_thread_scripts.specs.Logs.{accepted_by, durable_by, operations_of, told_by, update_in, update_of, updates_in};

use fkv_base::{Fault, Serial};
use fkv_map::{Call, Op};
use fkv_session::{Answer, Finished};
use std::alloc::Global;

/// The updates of a session in one life, and the order in which their results came.
#[derive(Drop)]
pub struct Log {
    /// The last serial before this life.
    pub first: u64,
    /// The updates that were accepted, in the order of their serials.
    pub accepted: Vec<Op>,
    /// The serials whose results were told, in the order of the results.
    pub told: Vec<Serial>,
    /// The last answer to `Durable`.
    pub durable: Serial,
}

impl Log {
    /// That of a session which goes on from this point.
    pub fn new(alloc: Global, point: Serial) -> Log
        ensures first { result.first ≡ point.0 }
        ensures accepted { result.accepted.items ≡ [] }
        ensures told { result.told.items ≡ [] }
        ensures durable { result.durable ≡ point }
    {
        Log {
            first: point.0,
            accepted: Vec::new(alloc),
            told: Vec::new(alloc),
            durable: point,
        }
    }

    /// Notes the answer to a call. `Memory` where memory was refused.
    pub fn note(&mut self, call: Call, answer: &Answer) -> Result<(), Fault>
        ensures first { self.new.first ≡ self.old.first }
        ensures accepted { OnOk result (self.new.accepted.items ≡ self.old.accepted.items ++ accepted_by call answer.now) }
        ensures told { OnOk result (self.new.told.items ≡ self.old.told.items ++ told_by answer.now) }
        ensures durable { OnOk result (self.new.durable ≡ durable_by self.old.durable answer.now) }
        ensures err { OnErr result (result ≡ Err Memory) }
    {
        match answer {
            Answer::Done(serial, _) => {
                self.accept(call)?;
                self.told.push(*serial)?;
            }
            Answer::Pending(_, _) => self.accept(call)?,
            Answer::Polled(finished, _) => note_finished(&mut self.told, finished.as_slice())?,
            Answer::Durable(serial) => self.durable = *serial,
            _ => {}
        }
        Ok(())
    }

    fn accept(&mut self, call: Call) -> Result<(), Fault>
        ensures first { self.new.first ≡ self.old.first }
        ensures accepted { OnOk result (self.new.accepted.items ≡ self.old.accepted.items ++ operations_of call) }
        ensures told { self.new.told ≡ self.old.told }
        ensures durable { self.new.durable ≡ self.old.durable }
        ensures err { OnErr result (result ≡ Err Memory) }
    {
        if let Call::Op(op) = call {
            self.accepted.push(op)?;
        }
        Ok(())
    }

    /// The update of this serial.
    pub fn update(&self, serial: Serial) -> Option<Op>
        ensures { result ≡ update_of self.now.first self.now.accepted.items serial }
    {
        if serial.0 <= self.first {
            return None;
        }
        let place = serial.0 - (self.first + 1);
        self.accepted.get(place as usize).copied()
    }
}

/// Notes the updates that a poll has finished.
fn note_finished(told: &mut Vec<Serial>, finished: &[Finished]) -> Result<(), Fault>
    ensures told { OnOk result (told.new.items ≡ told.old.items ++ updates_in finished.now) }
    ensures err { OnErr result (result ≡ Err Memory) }
{
    for one in finished {
        note_one(told, *one)?;
    }
    Ok(())
}

fn note_one(told: &mut Vec<Serial>, one: Finished) -> Result<(), Fault>
    ensures told { OnOk result (told.new.items ≡ told.old.items ++ update_in one) }
    ensures err { OnErr result (result ≡ Err Memory) }
{
    if let Finished::Update(serial, _) = one {
        told.push(serial)?;
    }
    Ok(())
}
