//! Entries of the index as a checkpoint keeps them.
ghost use Rattle.std.specs.Prelude.{◌<◌, ◌^◌};

use fkv_base::Addr;

/// An entry of the index: its home, bucket and tag, and where its chain begins.
#[derive(Clone, Copy, Debug, PartialEq, Eq)]
pub struct Triple {
    /// The bucket. How many there are is the shape's to say.
    pub bucket: u32,
    /// The tag, below 2^15.
    pub tag: u16,
    /// The address, 1 to 2^48 - 1.
    pub addr: Addr,
    pub ghost bucket_fits: { bucket < 2 ^ 32 },
    pub ghost tag_fits: { tag < 2 ^ 15 },
    pub ghost some_addr: { 0 < addr.0 },
    pub ghost addr_fits: { addr.0 < 2 ^ 48 },
}
