//! How much of each capacity of a store is used.
ghost use Rattle.std.specs.Prelude.{◌≡◌, ◌≤◌, nat_lt, count_by, length};
ghost use Rattle.fkv_looking.specs.Uses.{AreUses, has_taken};

use fkv_base::Serial;
use fkv_opening::Opened;
use fkv_record::most_triples;

/// So much of a capacity is used.
#[derive(Clone, Copy)]
pub struct Capacity {
    pub used: u64,
    /// What there is, used or not.
    pub most: u64,
}

/// What an opened store has used of what its shape gives it.
#[derive(Clone, Copy)]
pub struct Uses {
    /// Entries of the index: the most are seven for each bucket and each overflow bucket. A store may be full sooner, since an overflow
    /// bucket serves one bucket.
    pub entries: Capacity,
    /// Addresses of the log below its end, of those that the device has.
    pub records: Capacity,
    /// Commits since the store was made: the number of the newest, and of the last that there can be.
    pub commits: Capacity,
    /// Sessions that have a point above 0.
    pub sessions: Capacity,
}

/// How many of the sessions have taken a serial that is kept.
fn count_taken(points: &[Serial]) -> u64
    ensures { result ≡ count_by has_taken points.now }
{
    let mut count = 0;
    for point in points {
        if point.0 > 0 {
            count += 1;
        }
    }
    count
}

/// What the store has used.
pub(crate) fn uses_of(opened: &Opened) -> Uses
    ensures { AreUses opened.now result }
{
    Uses {
        entries: Capacity {
            used: opened.entries.len() as u64,
            most: most_triples(opened.shape),
        },
        records: Capacity {
            used: opened.tail.0 - 1,
            most: opened.shape.disk_pages * opened.shape.page - 1,
        },
        commits: Capacity {
            used: opened.number.0,
            most: opened.shape.class.last_version() - 1,
        },
        sessions: Capacity {
            used: count_taken(&opened.points),
            most: opened.shape.sessions,
        },
    }
}
