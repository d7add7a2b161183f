ghost use Rattle.std.specs.Prelude.{◌<◌};

use fkv_base::{Addr, Shape};
use fkv_entries::{HomeEntry, needed};
use fkv_filling::index_words;
use fkv_words::Entry;
use std::test::Fail;

/// The word of an entry with tag 1 and address 2, less that with tag 0 and address 1.
const NEXT: u64 = 281474976710657;

/// The home of this tag in bucket 0, whose address is one above the tag.
fn home(tag: u16) -> HomeEntry
    requires { tag < 100 }
{
    HomeEntry {
        bucket: 0,
        entry: Entry {
            addr: Addr(u64::from(tag) + 1),
            tag,
        },
    }
}

/// What follows the first seven slots: the link, the eighth home, and nothing.
fn links_and_last(at: usize) -> u64 {
    match at {
        7 => 1,
        8 => 1 + 7 * NEXT,
        _ => 0,
    }
}

/// Seven homes fit into a bucket, and the eighth needs an overflow bucket. Eight homes of one bucket fill its seven slots by tag, and
/// the last one stands in an overflow bucket. A second one stays empty.
#[test]
fn the_eighth_home_stands_in_an_overflow_bucket(rt: HostRuntime) -> Result<(), Fail> {
    for (homes, buckets) in [(0, 0), (7, 0), (8, 1), (14, 1), (15, 2)] {
        assert!(rt; needed(homes) == buckets);
    }
    let shape = Shape::new(0, 4, 2, 1, 1, 2, 8)?;
    let entries = [
        home(7),
        home(2),
        home(0),
        home(1),
        home(6),
        home(3),
        home(5),
        home(4),
    ];
    let index = index_words(rt.alloc(), &shape, &entries)?;
    assert!(rt; (index.taken, index.words.len()) == (1, 24));
    for (at, word) in index.words.iter().enumerate() {
        let wanted = if at < 7 {
            1 + at as u64 * NEXT
        } else {
            links_and_last(at)
        };
        assert!(rt; *word == wanted, "{at}");
    }
    Ok(())
}
