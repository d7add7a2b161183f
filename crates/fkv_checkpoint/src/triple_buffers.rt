//! Memory for triples, in their spelling.
ghost use Rattle.std.specs.Prelude.{◌≡◌, ◌+◌, ◌*◌, ◌<◌, ◌≤◌, ◌^◌, ◌++◌, [], length, vec_len, IfOk, OnErr, Err};
ghost use Rattle.std.specs.Vec.{vec_capacity};
ghost use Rattle.fkv_base.specs.declared.faults.Fault.TheVariants.{Memory};
ghost use Rattle.fkv_checkpoint.specs.Triples.{copied_list, all_bytes};

use fkv_base::Fault;
use fkv_record::{Triple, write_triple};
use std::alloc::Global;
use std::marker::Model;

/// Triples one after another, in memory that was asked for at once. Of a large one only what holds triples is touched.
#[derive(Drop)]
pub(crate) struct TripleBuffer {
    bytes: Vec<u8>,
    count: usize,
    /// How many triples it has room for.
    most: usize,
}

impl Model for TripleBuffer {
    ghost use Rattle.std.specs.Prelude.{◌≡◌, ◌*◌, ◌≤◌, vec_len};
    ghost use Rattle.std.specs.Vec.{vec_capacity};
    ghost use Rattle.fkv_checkpoint.specs.Triples.{HeldTriples, IsSpelled, entries_in};

    ghost Value = { HeldTriples };

    ghost view = { λ m. record { space = 16 * m.most; entries = entries_in m.count m.bytes.items } };

    ghost invariant = { λ m. (16 * m.most ≤ vec_capacity m.bytes) × (vec_len m.bytes ≡ 16 * m.count) × IsSpelled m.count m.bytes.items };
}

/// The bytes of a triple.
const TRIPLE_BYTES: usize = 16;

impl TripleBuffer {
    /// Memory for so many triples.
    pub(crate) fn new(alloc: Global, most: usize) -> Result<TripleBuffer, Fault>
        requires { most < 2 ^ 32 }
        ensures made { IfOk result (λ buffer. buffer ≡ record { space = 16 * most; entries = [] }) }
        ensures err { OnErr result (result ≡ Err Memory) }
    {
        let bytes = Vec::with_capacity(alloc, TRIPLE_BYTES * most)?;
        Ok(TripleBuffer {
            bytes,
            count: 0,
            most,
        })
    }

    /// Puts a triple behind the others, if there is one.
    pub(crate) fn put(&mut self, triple: Option<Triple>)
        requires { 16 * (length self.old.entries + length (copied_list triple)) ≤ self.old.space }
        ensures { self.new ≡ record self.old { entries = self.old.entries ++ copied_list triple } }
    {
        if let Some(triple) = triple {
            append(&mut self.bytes, &write_triple(triple));
            self.count += 1;
        }
    }

    /// How many triples it holds.
    pub(crate) fn count(&self) -> usize
        ensures { result ≡ length self.now.entries }
    {
        self.count
    }

    /// Their bytes, for good.
    pub(crate) fn into_bytes(self) -> Vec<u8>
        ensures { result.items ≡ all_bytes self.entries }
    {
        self.bytes
    }

    /// Their bytes.
    pub(crate) fn bytes(&self) -> &[u8]
        ensures { result.now ≡ all_bytes self.now.entries }
    {
        self.bytes.as_slice()
    }
}

/// Puts bytes behind others, in room that is there.
fn append(bytes: &mut Vec<u8>, more: &[u8])
    requires { vec_len bytes.old + length more.now ≤ vec_capacity bytes.old }
    ensures items { bytes.new.items ≡ bytes.old.items ++ more.now }
    ensures len { vec_len bytes.new ≡ vec_len bytes.old + length more.now }
    ensures capacity { vec_capacity bytes.old ≤ vec_capacity bytes.new }
{
    let _ = bytes.extend_from_slice(more);
}
