//! Homes as numbers.
ghost use Rattle.std.specs.Prelude.{◌≡◌, ◌≤◌};
ghost use Rattle.fkv_base.specs.Limits.{max_bucket_bits};
ghost use Rattle.fkv_scan.specs.Log.{record_home, triple_home};

use fkv_record::{Record, Triple};
use fkv_words::{bucket_of, tag_of};

/// How many tags there are.
const TAGS: u64 = 1 << 15;

/// The home of a record in an index of 2^bits buckets: its bucket and its tag as one number.
#[tactic(auto, unfolding(crate::specs::Log::record_home))]
pub(crate) fn record_home(found: &Record, bits: u64) -> u64
    requires { bits ≤ max_bucket_bits }
    ensures { result ≡ record_home bits found.now }
{
    bucket_of(found.key, bits) * TAGS + u64::from(tag_of(found.key, bits))
}

/// The home of a triple.
pub(crate) fn triple_home(triple: &Triple) -> u64
    ensures { result ≡ triple_home triple.now }
{
    u64::from(triple.bucket) * TAGS + u64::from(triple.tag)
}
