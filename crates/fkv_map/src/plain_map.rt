//! The plain map.
ghost use Rattle.std.specs.Prelude.{◌≡◌, ◌↔◌, ◌⊎◌, IfOk, IfErr, OnOk, OnErr, Err, None, option_map};
ghost use Rattle.std.specs.FinMap.{empty, entries, get, insert, remove};
ghost use Rattle.fkv_base.specs.declared.faults.Fault.TheVariants.{ValueReserved, Memory};
ghost use Rattle.fkv_map.specs.Map.{applied, reply_to, IsReserved, PutsNewKey, as_numbers, IsAscending};

use crate::operations::{Op, Reply, greater_with, sum_with};
use fkv_base::{Fault, Key, Value};
use std::alloc::Global;
use std::collections::BTreeMap;
use std::marker::Model;

/// A map from keys to values, to which operations are applied one after another.
#[derive(Drop)]
pub struct PlainMap {
    values: BTreeMap<Key, Value>,
    alloc: Global,
}

impl Model for PlainMap {
    ghost use Rattle.std.specs.Prelude.{ℕ};
    ghost use Rattle.std.specs.Ordering.{nat_cmp};
    ghost use Rattle.std.specs.FinMap.{FinMap, code, from_entries};
    ghost use Rattle.std.specs.Coded.{coded_ℕ};
    ghost use Rattle.fkv_map.specs.Map.{as_numbers};

    ghost Value = { FinMap nat_cmp ℕ };

    ghost coded = { code coded_ℕ coded_ℕ };

    ghost view = { λ a. from_entries (as_numbers a.values.entries) };
}

impl PlainMap {
    /// The map in which no key has a value. It takes no memory yet.
    pub fn new(alloc: Global) -> PlainMap
        ensures { result ≡ empty }
    {
        PlainMap {
            values: BTreeMap::new(alloc),
            alloc,
        }
    }

    /// Applies an operation and replies to it. `ValueReserved` where it brings 2^64 - 1, and else `Memory` where
    /// memory for a key that has no value yet was refused; both leave the map as it was.
    pub fn apply(&mut self, op: Op) -> Result<Reply, Fault>
        ensures reserved { (result ≡ Err ValueReserved) ↔ IsReserved op }
        ensures reply { IfOk result (λ reply. reply ≡ reply_to self.old op) }
        ensures applied { OnOk result (self.new ≡ applied self.old op) }
        ensures cause { IfErr result (λ fault. (fault ≡ ValueReserved) ⊎ (fault ≡ Memory)) }
        ensures memory { (result ≡ Err Memory) → PutsNewKey self.old op }
        ensures unchanged { OnErr result (self.new ≡ self.old) }
    {
        if op.is_reserved() {
            return Err(Fault::ValueReserved);
        }
        match op {
            Op::Upsert(key, value) => {
                self.set(key, value)?;
                Ok(Reply::Nothing)
            }
            Op::Delete(key) => {
                self.take_out(key);
                Ok(Reply::Nothing)
            }
            Op::Add(key, n) => {
                let sum = sum_with(self.get(key), n);
                self.set(key, sum)?;
                Ok(Reply::Number(sum))
            }
            Op::Max(key, n) => {
                let greater = greater_with(self.get(key), n);
                self.set(key, greater)?;
                Ok(Reply::Number(greater))
            }
            Op::Read(key) => Ok(Reply::of_read(self.get(key))),
            Op::Merge(key, merge, n) => {
                let old = self.get(key);
                match merge.value_merged(old, n) {
                    Some(merged) => self.set(key, merged)?,
                    None => self.take_out(key),
                }
                Ok(merge.reply_from(old, n))
            }
        }
    }

    /// The keys with their values, by ascending keys. `Memory` where memory for them was refused.
    pub fn pairs(&self) -> Result<Vec<(Key, Value)>, Fault>
        ensures entries { IfOk result (λ pairs. as_numbers pairs.items ≡ entries self.now) }
        ensures ascending { IfOk result (λ pairs. IsAscending (as_numbers pairs.items)) }
        ensures cause { OnErr result (result ≡ Err Memory) }
    {
        let mut pairs = Vec::with_capacity(self.alloc, self.values.len())?;
        for (key, value) in &self.values {
            pairs.push((*key, *value))?;
        }
        Ok(pairs)
    }

    fn get(&self, key: Key) -> Option<Value>
        ensures { option_map (λ value. value.0) result ≡ get self.now key.0 }
    {
        self.values.get(&key).copied()
    }

    fn set(&mut self, key: Key, value: Value) -> Result<(), Fault>
        ensures set { OnOk result (self.new ≡ insert self.old key.0 value.0) }
        ensures cause { OnErr result (result ≡ Err Memory) }
        ensures absent { OnErr result (get self.old key.0 ≡ None) }
        ensures unchanged { OnErr result (self.new ≡ self.old) }
    {
        self.values.insert(key, value)?;
        Ok(())
    }

    fn take_out(&mut self, key: Key)
        ensures { self.new ≡ remove self.old key.0 }
    {
        let _ = self.values.remove(&key);
    }
}
