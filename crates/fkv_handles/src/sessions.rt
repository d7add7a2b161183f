//! A session's handle.
ghost use Rattle.std.specs.Prelude.{◌≡◌, ◌<◌, ◌≤◌, ◌^◌, None};
ghost use Rattle.fkv_handles.specs.Said as said;

use fkv_base::{Addr, Fault, Key, Serial};
use fkv_disk::Device;
use fkv_map::{Call, Op};
use fkv_posted::Posted;
use fkv_session::{Finished, Told};
use fkv_spread::Keys;
use fkv_threads::{Offsets, Seated};

/// A session's handle, until it is ended. It may go into any thread.
#[derive(Drop)]
pub struct Session {
    pub(crate) keys: Keys,
    pub(crate) seated: Option<Seated<Posted<'static>>>,
}

/// The operation on the key as it lies in the store.
#[inline(always)]
fn laid(keys: Keys, op: Op) -> Op
    ensures { result ≡ said.laid_op keys op }
{
    match op {
        Op::Upsert(key, value) => Op::Upsert(keys.laid(key), value),
        Op::Delete(key) => Op::Delete(keys.laid(key)),
        Op::Add(key, number) => Op::Add(keys.laid(key), number),
        Op::Max(key, number) => Op::Max(keys.laid(key), number),
        Op::Merge(key, merge, number) => Op::Merge(keys.laid(key), merge, number),
        Op::Read(key) => Op::Read(keys.laid(key)),
    }
}

/// The call on the key as it lies in the store.
#[inline(always)]
fn laid_in(keys: Keys, call: Call) -> Call
    ensures { result ≡ said.laid_call keys call }
{
    match call {
        Call::Op(op) => Call::Op(laid(keys, op)),
        other => other,
    }
}

impl Session {
    /// Runs a call to its end, as `Seated::call` does, and gives what it was told. It waits for no other thread, and a refusal is told too. The key
    /// of an operation is the caller's. A poll tells how many requests are left, and `finished` those that it has finished. `NoSession` once the
    /// handle is ended.
    pub fn tell(&mut self, call: Call) -> Told
        ensures called { said.IsToldCall (said.opening ⟦<Posted<'static> as Device>⟧) (said.sitting_of self.old)
            (said.laid_call (said.keys_of self.old) call) result (said.sitting_of self.new) }
        ensures keys { said.keys_of self.new ≡ said.keys_of self.old }
    {
        let its_call = laid_in(self.keys, call);
        match &mut self.seated {
            Some(seated) => seated.call(its_call),
            None => Told::Refused(Fault::NoSession),
        }
    }

    /// What the last poll has finished, in the order of acceptance. Nothing once the handle is ended.
    pub fn finished(&self) -> &[Finished]
        ensures value { result.now ≡ said.finished_in (said.sitting_of self.now) }
        ensures fits { said.length result.now ≤ said.max_pending }
    {
        match &self.seated {
            Some(seated) => seated.finished(),
            None => &[],
        }
    }

    /// The last serial that the session has given, 0 if it has given none. A commit keeps the session's updates up to one of its serials. `NoSession` once
    /// the handle is ended.
    pub fn serial(&self) -> Result<Serial, Fault>
        ensures given { said.IsLastSerial (said.opening ⟦<Posted<'static> as Device>⟧) (said.sitting_of self.now) result }
    {
        match &self.seated {
            Some(seated) => Ok(seated.serial()),
            None => Err(Fault::NoSession),
        }
    }

    /// Two handles of one store meet, as where a thread has told another one of its calls. Each session has then seen what either had seen, and its next calls
    /// stand behind all of that. `NoSession` if a handle was ended, and then both stay as they are.
    pub fn meet(&mut self, other: &mut Session) -> Result<(), Fault>
        requires one_store { said.AreOfOneStore (said.sitting_of self.old) (said.sitting_of other.old) }
        ensures met { said.HaveMet (said.opening ⟦<Posted<'static> as Device>⟧) (said.sitting_of self.old) (said.sitting_of other.old) result
            (said.sitting_of self.new) (said.sitting_of other.new) }
        ensures keys { (said.keys_of self.new ≡ said.keys_of self.old) × (said.keys_of other.new ≡ said.keys_of other.old) }
    {
        let Some(one) = self.seated.take() else {
            return Err(Fault::NoSession);
        };
        let Some(two) = other.seated.take() else {
            self.seated = Some(one);
            return Err(Fault::NoSession);
        };
        let (one, two) = one.meet(two);
        self.seated = Some(one);
        other.seated = Some(two);
        Ok(())
    }

    /// Runs an operation to its end, as `tell` does a call.
    #[inline(always)]
    pub fn op(&mut self, op: Op) -> Told
        ensures called { said.IsToldCall (said.opening ⟦<Posted<'static> as Device>⟧) (said.sitting_of self.old)
            (said.Op (said.laid_op (said.keys_of self.old) op)) result (said.sitting_of self.new) }
        ensures keys { said.keys_of self.new ≡ said.keys_of self.old }
    {
        let op = laid(self.keys, op);
        match &mut self.seated {
            Some(seated) => seated.op(op),
            None => Told::Refused(Fault::NoSession),
        }
    }

    /// Fetches the cache line of the key's bucket into the processor's cache, for an operation that comes soon. It is worth it where the index doesn't fit
    /// there, for several keys in a row: they are waited for at once. Nothing changes. The key is the caller's.
    #[inline(always)]
    pub fn fetch_bucket(&self, key: Key) {
        if let Some(seated) = &self.seated {
            seated.fetch_bucket(self.keys.laid(key));
        }
    }

    /// Fetches the cache line of the key's newest record, as `fetch_bucket` does that of its bucket, which comes first.
    #[inline(always)]
    pub fn fetch_record(&self, key: Key) {
        if let Some(seated) = &self.seated {
            seated.fetch_record(self.keys.laid(key));
        }
    }

    /// A hint at where the key's entry leads: the address of the newest record of its home, which may be another key's. 0 where none is seen, and once the
    /// handle is ended. Nothing is claimed of it, and nothing changes. The key is the caller's.
    pub fn where_led(&self, key: Key) -> u64
        ensures fits { result < 2 ^ 48 }
    {
        match &self.seated {
            Some(seated) => seated.where_led(self.keys.laid(key)),
            None => 0,
        }
    }

    /// A hint at how far the log has come. None once the handle is ended.
    pub fn offsets(&self) -> Option<Offsets>
        ensures some { said.is_some result ≡ said.is_some (said.sitting_of self.now) }
    {
        match &self.seated {
            Some(seated) => Some(seated.offsets()),
            None => None,
        }
    }

    /// A hint at the keys of the records in memory from this address on, as many as there are places. Each is the caller's. Gives their count, 0 once the
    /// handle is ended.
    pub fn keys_from(&self, from: Addr, keys: &mut [u64]) -> usize
        ensures count { result ≤ said.length keys.new }
        ensures room { said.length keys.new ≡ said.length keys.old }
    {
        let Some(seated) = &self.seated else {
            return 0;
        };
        let count = seated.keys_from(from, keys);
        for i in 0..count {
            keys[i] = self.keys.told(Key(keys[i])).0;
        }
        count
    }

    /// Ends the handle, and gives its share of the table up. A session that is awake holds each later commit up: it sleeps first.
    pub fn end(&mut self)
        ensures ended { said.sitting_of self.new ≡ None }
        ensures keys { said.keys_of self.new ≡ said.keys_of self.old }
    {
        self.seated = None;
    }
}
