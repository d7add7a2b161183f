//! Cache lines that are loaded before the calls that read them, so that many calls wait for memory at once.
//!
//! Such a load is no step of the table: it needs no pass, adds no event, and nothing is told of what it finds.
ghost use Rattle.std.specs.Prelude.{◌<◌, ◌^◌};

use crate::positions::{Part, position};
use crate::rule::Table;
use crate::sessions::Session;
use fkv_base::Key;
use fkv_disk::Device;

/// The slots of a bucket. Behind them stands one word more, the link.
pub(crate) const SLOTS: usize = 7;

/// The word at a place, as it is just now, for its cache line. 0 where the table has none there: it may be that of a smaller store.
#[inline(always)]
pub(crate) fn glance<D: Device>(table: &Table<D>, place: usize) -> u64
    requires { place < 2 ^ 62 }
{
    let at = position(place, Part::Any);
    if at < table.table.word_count() {
        table.table.shared.peek(at)
    } else {
        0
    }
}

impl Session {
    /// Loads the cache lines of the key's bucket, for a call of the key that soon follows. It changes nothing. Before the
    /// session's first operation, behind a refresh, and behind a call that its machine has made, the place isn't known, and nothing is loaded.
    #[inline(always)]
    pub fn fetch_bucket<D: Device>(&self, table: &Table<D>, key: Key) {
        let Some(going) = self.machine.goes_by() else {
            return;
        };
        let bucket = going.start(key).bucket;
        let _ = glance(table, bucket);
        let _ = glance(table, bucket + SLOTS);
    }

    /// Loads the cache lines of the record to which the key's entry leads, if that is in memory. It changes nothing, and seeks no entry in overflow
    /// buckets. It reads the bucket, so call `fetch_bucket` some time before.
    #[inline(always)]
    pub fn fetch_record<D: Device>(&self, table: &Table<D>, key: Key) {
        let Some(going) = self.machine.goes_by() else {
            return;
        };
        let start = going.start(key);
        for slot in 0..SLOTS {
            let word = glance(table, start.bucket + slot);
            if let Some(header) = going.record_led_to(start.tag, word) {
                let _ = glance(table, header);
                let _ = glance(table, header + 2);
                return;
            }
        }
    }
}
