//! Many operations of a session, one after another.
ghost use Rattle.std.specs.Prelude.{◌≡◌, ◌≤◌, length};
ghost use Rattle.fkv_threads.specs.Said as said;

use crate::seated::Seated;
use fkv_disk::Device;
use fkv_map::Op;
use fkv_session::Told;

/// The cache lines of so many operations are loaded before the first of them runs, so that they wait for memory together.
const TOGETHER: usize = 16;

/// Loads cache lines of the operations from this one on, if it is the first of those that wait together: those of all their buckets, and then
/// those of all records. A session that doesn't know yet where buckets lie finds out by its first operation. So behind that the rest of the first ones
/// have their turn again. It is no step of the session.
fn fetch<D: Device>(seated: &Seated<D>, ops: &[Op], from: usize)
    requires { from ≤ length ops.now }
{
    let behind = from % TOGETHER;
    if behind != 0 && from != 1 {
        return;
    }
    let count = (TOGETHER - behind).min(ops.len() - from);
    let next = &ops[from..from + count];
    for op in next {
        seated.fetch_bucket(op.key());
    }
    for op in next {
        seated.fetch_record(op.key());
    }
}

impl<D: Device> Seated<D> {
    /// Runs the operations one after another, in their order, each as `op` does, and writes what each was told at its place. It waits for no other
    /// thread. The cache lines of sixteen operations are mostly loaded before the first of these runs. So many keys of a large store take less time than by as
    /// many calls of `op`.
    pub fn ops(&mut self, ops: &[Op], told: &mut [Told])
        requires room { length ops.now ≡ length told.old }
        ensures count { length told.new ≡ length told.old }
        ensures ran { said.HaveRun (said.opening D.Device) self.old ops.now told.new self.new }
    {
        for at in 0..ops.len() {
            fetch(self, ops, at);
            told[at] = self.op(ops[at]);
        }
    }
}
