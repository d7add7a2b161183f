//! The limits that every crate of the store goes by.

/// Sessions of a store, at most.
pub const MAX_SESSIONS: u64 = 32;
/// Requests of one session that are pending, at most.
pub const MAX_PENDING: usize = 64;
/// Requests of one session that a living store keeps room for: those that are pending, at most, and one to spare.
pub const MAX_IN_HAND: u64 = 65;
/// Drain slots, in which actions wait for their epoch.
pub const DRAIN_SLOTS: usize = 8;
/// Bits of the number of a bucket, at most.
pub const MAX_BUCKET_BITS: u64 = 24;
/// Overflow buckets, at most.
pub const MAX_OVERFLOW: u64 = 16777216;
/// Pages of the log on the device, at most.
pub const MAX_DISK_PAGES: u64 = 1073741824;
/// Records of a page, at least.
pub const MIN_PAGE: u64 = 4;
/// Records of a page, at most.
pub const MAX_PAGE: u64 = 65536;
/// Frames, at least.
pub const MIN_FRAMES: u64 = 2;
/// Frames, at most.
pub const MAX_FRAMES: u64 = 4096;
/// Bits of the number of a bucket in a specified store, at most.
pub const SMALL_BUCKET_BITS: u64 = 10;
/// Overflow buckets of a specified store, at most.
pub const SMALL_OVERFLOW: u64 = 1024;
/// Pages of a specified store's log on the device, at most.
pub const SMALL_DISK_PAGES: u64 = 65536;
/// Records of a page in a specified store, at most.
pub const SMALL_PAGE: u64 = 1024;
/// Frames of a specified store, at most.
pub const SMALL_FRAMES: u64 = 64;
/// From this epoch on, 2^48 - 1024, nobody raises it: so raises that are under way together stay below 2^48.
pub const LAST_EPOCH: u64 = 281474976709632;
