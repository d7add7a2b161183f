//! What holds of entries for which an index has room.
ghost use Rattle.std.specs.Prelude.{ℕ, ◌+◌, ◌*◌, ◌≤◌, List, length};
ghost use Rattle.fkv_entries.specs.Room.{HaveRoom};
ghost use Rattle.fkv_entries.specs.declared.home_entries.HomeEntry.{HomeEntry};

/// Entries for which an index has room are no more than its slots, seven to a bucket.
pub fn law_entries_in_room()
    ensures { (buckets overflow : ℕ) (entries : List HomeEntry) → HaveRoom buckets overflow entries → length entries ≤ 7 * (buckets + overflow) }
{}
