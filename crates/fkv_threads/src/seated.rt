//! A session that sits at a table: with its pass, and a share of the table.
ghost use Rattle.std.specs.Prelude.{◌≡◌, ◌<◌, ◌≤◌, ◌^◌, length};
ghost use Rattle.fkv_threads.specs.Said as said;

use crate::passes::join;
use fkv_base::{Addr, Key, Serial};
use fkv_disk::Device;
use fkv_map::{Call, Op};
use fkv_session::{Finished, Told};
use law_threads::{Offsets, Pass, Session, Table, World, law_threads};
use std::alloc::Global;
use std::marker::Model;
use std::snapshot::Snapshot;
use std::sync::Arc;

/// A session that is ready for its next call, with its pass and its share of the table. It may go into any thread. A contract sees it as the store and the
/// table, the session's number, what its pass has seen, and what its last poll has finished.
#[derive(Drop)]
pub struct Seated<D: Device> {
    table: Arc<Table<D>, Global>,
    session: Session,
    pass: Pass<D>,
    _apart: Apart,
}

/// What is at the end of a session's block of memory. Each call writes the session's words there, and reads the block's start. Without this the words of one
/// session and the start of the next one's block could share a cache line, and each call would wait for the other session's.
type Apart = [u64; 32];

impl<D: Device> Model for Seated<D> {
    ghost use Rattle.std.specs.Prelude.{◌≡◌};
    ghost use Rattle.fkv_threads.specs.Modelled as model;

    ghost Value = { model.Sitting (model.Opening D) };

    ghost view = { λ s. model.sitting_of s.table.value.table.shared.key s.table.value.table.shared.table_id s.session.machine s.pass.seat.me };

    ghost invariant = { λ s. model.IsReady (model.opening D.Device) s.table.value.table.shared.key s.table.value.table.shared.table_id s.pass.seat.table_id
        s.pass.seat.me s.session.machine s.session.desk };
}

impl<D: Device> Seated<D> {
    /// The session with its pass, at the table.
    pub(crate) fn new(table: Arc<Table<D>, Global>, session: Session, pass: Pass<D>) -> Seated<D>
        requires ready { said.IsReady (said.opening D.Device) table.value.table.shared.key table.value.table.shared.table_id pass.seat.table_id pass.seat.me
            session.machine session.desk }
        ensures value { result ≡ said.sitting_of table.value.table.shared.key table.value.table.shared.table_id session.machine pass.seat.me }
    {
        Seated {
            table,
            session,
            pass,
            _apart: [0; 32],
        }
    }

    /// Runs a call to its end, in any thread, and waits for no other one. It has no error of its own: a refusal is told too. A poll is told how many
    /// requests are left, and `finished` tells those that it has finished. A done update has taken effect by what the session then has seen. A read
    /// gives its key's value after some beginning of the history that holds what the session had seen. The calls follow one legal history. A point
    /// that is told as durable is a sealed commit's. It is no less than what the session was told before, and each image that is left then or later
    /// recovers a point at or above it. This is so of the table of each opened store, in all lives, with commits too, if fewer than 2^64 - 1 calls
    /// begin in them. What is said of images also asks that the life began with one that reaches far.
    pub fn call(&mut self, call: Call) -> Told
        ensures called { said.IsToldCallOf (said.opening D.Device) self.old call result self.new }
    {
        law_threads::<Snapshot<World<D>>>();
        self.session.call(&self.table, &mut self.pass, call)
    }

    /// Runs an operation to its end, as `call` does. It is inlined: a caller whose operation is always of one kind has none of the others' steps.
    #[inline(always)]
    pub fn op(&mut self, op: Op) -> Told
        ensures called { said.IsToldCallOf (said.opening D.Device) self.old (said.Op op) result self.new }
    {
        law_threads::<Snapshot<World<D>>>();
        self.session.op(&self.table, &mut self.pass, op)
    }

    /// Two sessions of one table meet, as where a thread has told another one of its calls. Each has then seen what either had seen, and is ready for its next
    /// call as before. So that call stands behind all of these, and a read of the one gives what the other was told as done, or something newer. It makes
    /// four loads of the epoch's word, waits for nobody, and has no error.
    pub fn meet(self, other: Seated<D>) -> (Seated<D>, Seated<D>)
        requires one_table { said.AreOfOneTable self other }
        ensures met { said.IsMeetingOf (said.opening D.Device) self other result.0 result.1 }
    {
        law_threads::<Snapshot<World<D>>>();
        let Seated {
            table,
            session,
            pass,
            ..
        } = self;
        let Seated {
            table: its_table,
            session: its_session,
            pass: its_pass,
            ..
        } = other;
        let (pass, its_pass) = join(&table, pass, its_pass);
        (
            Seated::new(table, session, pass),
            Seated::new(its_table, its_session, its_pass),
        )
    }

    /// What the last poll has finished, in the order of acceptance.
    pub fn finished(&self) -> &[Finished]
        ensures value { result.now ≡ self.now.finished }
        ensures fits { length result.now ≤ said.max_pending }
    {
        self.session.finished()
    }

    /// The last serial that the session has given, and 0 if it has given none. After an opening that is its point.
    pub fn serial(&self) -> Serial
        ensures given { said.IsLastGiven (said.opening D.Device) self.now.key self.now.seen self.now.number result.0 }
    {
        self.session.serial(&self.table, &self.pass)
    }

    /// Fetches the cache line of the key's bucket, for an operation that comes soon. Nothing changes.
    #[inline(always)]
    pub fn fetch_bucket(&self, key: Key) {
        self.session.fetch_bucket(&self.table, key);
    }

    /// Fetches the cache line of the key's newest record, which its bucket names. Nothing changes.
    #[inline(always)]
    pub fn fetch_record(&self, key: Key) {
        self.session.fetch_record(&self.table, key);
    }

    /// A hint at where the key's entry leads: the address of the newest record of its home, or 0. Nothing is claimed of it, and nothing changes.
    pub fn where_led(&self, key: Key) -> u64
        ensures fits { result < 2 ^ 48 }
    {
        self.table.where_led(key)
    }

    /// A hint at how far the log has come.
    pub fn offsets(&self) -> Offsets {
        self.table.offsets()
    }

    /// A hint at the keys of the records in memory from this address on, each as it lies in the store: as many as there are places. Gives their count.
    pub fn keys_from(&self, from: Addr, keys: &mut [u64]) -> usize
        ensures count { result ≤ length keys.new }
        ensures room { length keys.new ≡ length keys.old }
    {
        self.table.keys_from(from, keys)
    }
}
