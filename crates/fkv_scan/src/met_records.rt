//! What the scan keeps of a record until it is taken in.
ghost use Rattle.std.specs.Prelude.{◌<◌, ◌^◌};

use fkv_base::{Addr, Version};

/// What a valid record tells of its home.
#[derive(Clone, Copy)]
pub(crate) struct MetRecord {
    pub home: u64,
    pub addr: Addr,
    /// Where the record leads, or address 0 where that lies below the log's begin.
    pub previous: Addr,
    /// The version as which its mark is read.
    pub version: Version,
    pub ghost previous_fits: { previous.0 < 2 ^ 48 },
}
