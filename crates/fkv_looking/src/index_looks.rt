//! How full the buckets of the index are.
ghost use Rattle.std.specs.Prelude.{◌≡◌, ◌+◌, ◌<◌, ◌^◌, IfOk, OnErr, Err};
ghost use Rattle.fkv_base.specs.declared.faults.Fault.TheVariants.{Memory};
ghost use Rattle.fkv_looking.specs.Buckets.{IsIndexLook, IsTally, bucket_of, itself, greatest};

use fkv_base::Fault;
use fkv_opening::Opened;
use std::alloc::Global;

/// How full the buckets of the index are.
#[derive(Drop)]
pub struct IndexLook {
    /// How many entries each bucket has, bucket by bucket.
    pub entries: Vec<u64>,
    /// How many buckets have no entry, one, and so on up to the most that one has.
    pub buckets: Vec<u64>,
}

/// How many entries each bucket has.
fn entries_by_bucket(alloc: Global, opened: &Opened) -> Result<Vec<u64>, Fault>
    ensures ok { IfOk result (λ counts. IsTally bucket_of (2 ^ opened.now.shape.bucket_bits) opened.now.entries.items counts.items) }
    ensures err { OnErr result (result ≡ Err Memory) }
{
    let mut counts = vec![in alloc; 0u64; 1usize << opened.shape.bucket_bits]?;
    for entry in &opened.entries {
        counts[entry.bucket as usize] += 1;
    }
    Ok(counts)
}

/// The greatest of the numbers; 0 of none.
fn greatest(numbers: &[u64]) -> u64
    ensures { result ≡ greatest numbers.now }
{
    let mut greatest = 0;
    for number in numbers {
        greatest = greatest.max(*number);
    }
    greatest
}

/// How many buckets have each number of entries, up to the most that one has.
fn buckets_by_entries(alloc: Global, entries: &[u64]) -> Result<Vec<u64>, Fault>
    requires { greatest entries.now < 2 ^ 63 }
    ensures ok { IfOk result (λ counts. IsTally itself (greatest entries.now + 1) entries.now counts.items) }
    ensures err { OnErr result (result ≡ Err Memory) }
{
    let most = greatest(entries);
    let mut counts = vec![in alloc; 0u64; most as usize + 1]?;
    for number in entries {
        counts[*number as usize] += 1;
    }
    Ok(counts)
}

/// How full the buckets of an opened store's index are.
pub(crate) fn index_look(alloc: Global, opened: &Opened) -> Result<IndexLook, Fault>
    ensures ok { IfOk result (λ look. IsIndexLook opened.now look) }
    ensures err { OnErr result (result ≡ Err Memory) }
{
    let entries = entries_by_bucket(alloc, opened)?;
    let buckets = buckets_by_entries(alloc, &entries)?;
    Ok(IndexLook { entries, buckets })
}
