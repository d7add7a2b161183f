//! Hints at what the words of the table say just now. They are loads that are no steps: a hint needs no pass and adds no event, and nothing is
//! claimed of what it tells. Who goes by one only chooses what to call.
ghost use Rattle.std.specs.Prelude.{◌≡◌, ◌<◌, ◌≤◌, ◌+◌, ◌^◌, IfSome, length};

use crate::fetching::{SLOTS, glance};
use crate::rule::Table;
use fkv_base::{Addr, Key};
use fkv_disk::Device;
use fkv_plane::{RecordWord, SharedWord};

/// How far the log has come, each as it was at some moment of the call. No offset is below the one before.
#[derive(Clone, Copy, Debug, PartialEq, Eq)]
pub struct Offsets {
    pub closed: u64,
    pub head: u64,
    pub flushed: u64,
    pub safe_read_only: u64,
    pub read_only: u64,
    pub tail: u64,
    /// How many overflow buckets of the index are taken.
    pub overflow: u64,
}

/// A key's entry is looked for in so many buckets at most.
const MOST_BUCKETS: usize = 8;

const ADDR_MASK: u64 = (1 << 48) - 1;
/// A tag has fifteen bits.
const TAG_MASK: u64 = (1 << 15) - 1;

impl<D: Device> Table<D> {
    fn shared_word(&self, word: SharedWord) -> u64 {
        glance(self, word.place())
    }

    /// How far the log has come. What is nearer to its end is loaded later: so each offset that is told is at or above those before.
    pub fn offsets(&self) -> Offsets {
        let closed = self.shared_word(SharedWord::Closed);
        let head = self.shared_word(SharedWord::Head);
        let flushed = self.shared_word(SharedWord::Flushed);
        let safe_read_only = self.shared_word(SharedWord::SafeReadOnly);
        let read_only = self.shared_word(SharedWord::ReadOnly);
        let tail = self.shared_word(SharedWord::Tail);
        let overflow = self.shared_word(SharedWord::Taken);
        Offsets {
            closed,
            head,
            flushed,
            safe_read_only,
            read_only,
            tail,
            overflow,
        }
    }

    /// The place of the first word of a bucket: of an overflow bucket by its number, and of the home with 0. None where there is no such bucket.
    fn bucket_numbered(&self, home: usize, number: usize) -> Option<usize>
        ensures { IfSome result (λ place. place + 8 < 2 ^ 62) }
    {
        if number != 0 {
            if number > self.places.overflow {
                return None;
            }
            return Some(self.places.overflow(number, 0));
        }
        if home < self.places.buckets {
            Some(self.places.bucket(home, 0))
        } else {
            None
        }
    }

    /// The address to which the slot of this tag leads in a bucket, and 0 if no slot does.
    fn led_from(&self, bucket: usize, tag: u64) -> u64
        requires { bucket + 8 < 2 ^ 62 }
        ensures { result < 2 ^ 48 }
    {
        for slot in 0..SLOTS {
            let word = glance(self, bucket + slot);
            let addr = word & ADDR_MASK;
            if word >> 48 == tag && addr != 0 {
                return addr;
            }
        }
        0
    }

    /// The address to which the key's entry leads: that of the newest record of its home, which may be another key's. 0 where no entry is seen. It may have
    /// changed since, and the search ends after eight buckets.
    pub fn where_led(&self, key: Key) -> u64
        ensures fits { result < 2 ^ 48 }
    {
        if self.places.buckets == 0 {
            return 0;
        }
        let buckets = self.places.buckets as u64;
        let home = (key.0 % buckets) as usize;
        let tag = (key.0 / buckets) & TAG_MASK;
        let mut number = 0;
        for _ in 0..MOST_BUCKETS {
            let Some(bucket) = self.bucket_numbered(home, number) else {
                return 0;
            };
            let led = self.led_from(bucket, tag);
            if led != 0 {
                return led;
            }
            number = (glance(self, bucket + SLOTS) & ADDR_MASK) as usize;
            if number == 0 {
                return 0;
            }
        }
        0
    }

    /// Writes the keys of the records in memory from this address on, as many as there are places. A key is told as it lies in the store. Gives their
    /// count. A record may be spoiled or no longer the newest: `where_led` then leads elsewhere. Their buckets are loaded, so that this is soon found out.
    pub fn keys_from(&self, from: Addr, keys: &mut [u64]) -> usize
        ensures count { result ≤ length keys.new }
        ensures room { length keys.new ≡ length keys.old }
    {
        let its = self.offsets();
        if from.0 < its.head || from.0 >= its.tail {
            return 0;
        }
        let count = keys.len().min((its.tail - from.0) as usize);
        for i in 0..count {
            let place = self.places.record(Addr(from.0 + i as u64), RecordWord::Key);
            let key = glance(self, place);
            keys[i] = key;
            self.fetch_home(Key(key));
        }
        count
    }

    /// Loads the cache line of the key's bucket, which `where_led` reads. Many are waited for at once so.
    fn fetch_home(&self, key: Key) {
        let buckets = self.places.buckets as u64;
        if buckets != 0 {
            let _ = glance(self, self.places.bucket((key.0 % buckets) as usize, 0));
        }
    }
}
