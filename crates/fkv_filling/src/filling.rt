//! The words of the index that a store opens with.
ghost use Rattle.std.specs.Prelude.{◌≡◌, ◌+◌, ◌*◌, ◌^◌, ◌<◌, ◌≤◌, ◌++◌, drop, length, IfOk, OnOk, OnErr, Err};
ghost use Rattle.fkv_base.specs.declared.faults.Fault.TheVariants.{Memory};
ghost use Rattle.fkv_filling.specs.Filled.{all_slots, AreByBucket, AreByTag, first_words, eight_words, link_words, other_links, IsFilled};

use fkv_base::{Fault, Shape};
use fkv_entries::{HomeEntry, needed};
use std::alloc::Global;

/// The words of an index, and how far it is filled.
#[derive(Drop)]
pub struct IndexWords {
    /// Eight words for each bucket, and behind them eight for each overflow bucket.
    pub words: Vec<u64>,
    /// How many overflow buckets are taken.
    pub taken: u64,
}

const EMPTY: [u64; 7] = [0; 7];

/// The index with these entries: the buckets are filled upwards. `Memory` where memory was refused.
#[tactic(auto, using(crate::proofs::Grouped::going_start, crate::proofs::FilledBuckets::filling_done))]
pub fn index_words(alloc: Global, shape: &Shape, entries: &[HomeEntry]) -> Result<IndexWords, Fault>
    requires { length entries.now ≤ 7 * (2 ^ shape.now.bucket_bits + shape.now.overflow) }
    ensures ok { IfOk result (λ index. IsFilled (2 ^ shape.now.bucket_bits) shape.now.overflow entries.now index.words.items index.taken) }
    ensures err { OnErr result (result ≡ Err Memory) }
{
    let grouped = by_bucket(alloc, entries)?;
    let mut words = Vec::new(alloc);
    let mut behind = Vec::new(alloc);
    let mut taken = 0;
    let mut next = 0;
    for bucket in 0..1 << shape.bucket_bits {
        let sorted = sorted_words(alloc, shape, &grouped[next..], bucket)?;
        push_link(&mut words, &sorted, taken, 0)?;
        push_other_links(&mut behind, &sorted, taken)?;
        taken += needed(sorted.len() as u64);
        next += sorted.len();
    }
    behind.resize(8 * shape.overflow as usize, 0)?;
    words.extend_from_slice(&behind)?;
    Ok(IndexWords { words, taken })
}

/// The entries by bucket, so that the index is filled in one pass over them.
fn by_bucket(alloc: Global, entries: &[HomeEntry]) -> Result<Vec<HomeEntry>, Fault>
    ensures ok { IfOk result (λ grouped. AreByBucket entries.now grouped.items) }
    ensures err { OnErr result (result ≡ Err Memory) }
{
    let mut grouped = Vec::new(alloc);
    grouped.extend_from_slice(entries)?;
    grouped.sort_by_key(|home| home.bucket)?;
    Ok(grouped)
}

/// The words of a bucket's entries, which come first of these, by tag.
fn sorted_words(
    alloc: Global,
    shape: &Shape,
    entries: &[HomeEntry],
    bucket: u64,
) -> Result<Vec<u64>, Fault>
    requires { length entries.now ≤ 7 * (2 ^ shape.now.bucket_bits + shape.now.overflow) }
    ensures ok { IfOk result (λ words. AreByTag (first_words bucket entries.now) words.items) }
    ensures few { IfOk result (λ words. length words.items ≤ all_slots) }
    ensures err { OnErr result (result ≡ Err Memory) }
{
    let mut words = words_in(alloc, entries, bucket)?;
    words.sort()?;
    Ok(words)
}

/// The words of a bucket's entries, which come first of these.
#[tactic(auto, using(crate::proofs::Grouped::words_more, crate::proofs::Grouped::words_stop, crate::proofs::Grouped::words_whole))]
fn words_in(alloc: Global, entries: &[HomeEntry], bucket: u64) -> Result<Vec<u64>, Fault>
    ensures ok { IfOk result (λ words. words.items ≡ first_words bucket entries.now) }
    ensures err { OnErr result (result ≡ Err Memory) }
{
    let mut words = Vec::new(alloc);
    for home in entries {
        if home.bucket != bucket {
            break;
        }
        words.push(home.entry.pack())?;
    }
    Ok(words)
}

/// Pushes the eight words of a bucket.
#[tactic(auto, using(crate::proofs::FilledBuckets::eight_pushed))]
fn push_bucket(index: &mut Vec<u64>, words: &[u64], next: u64) -> Result<(), Fault>
    ensures ok { OnOk result (index.new.items ≡ index.old.items ++ eight_words words.now next) }
    ensures err { OnErr result (result ≡ Err Memory) }
{
    let slots = 7.min(words.len());
    index.extend_from_slice(&words[..slots])?;
    index.extend_from_slice(&EMPTY[..7 - slots])?;
    index.push(next)?;
    Ok(())
}

/// Pushes link j of a bucket's chain.
#[tactic(auto, unfolding(crate::specs::Filled::link_words))]
fn push_link(index: &mut Vec<u64>, words: &[u64], taken: u64, j: u64) -> Result<(), Fault>
    requires in_words { 7 * j ≤ length words.now }
    requires few { length words.now ≤ all_slots }
    requires taken { taken < 2 ^ 60 }
    ensures ok { OnOk result (index.new.items ≡ index.old.items ++ link_words words.now taken j) }
    ensures err { OnErr result (result ≡ Err Memory) }
{
    let next = if j < needed(words.len() as u64) {
        taken + j + 1
    } else {
        0
    };
    push_bucket(index, &words[7 * j as usize..], next)
}

/// Pushes the overflow buckets of a bucket's chain.
#[tactic(auto, using(crate::proofs::FilledBuckets::behind_start, crate::proofs::FilledBuckets::behind_step))]
fn push_other_links(index: &mut Vec<u64>, words: &[u64], taken: u64) -> Result<(), Fault>
    requires few { length words.now ≤ all_slots }
    requires taken { taken < 2 ^ 60 }
    ensures ok { OnOk result (index.new.items ≡ index.old.items ++ other_links words.now taken) }
    ensures err { OnErr result (result ≡ Err Memory) }
{
    for j in 0..needed(words.len() as u64) {
        push_link(index, words, taken, j + 1)?;
    }
    Ok(())
}
