//! A call of a device that is still to be made.

/// A call of a device, for a caller that makes it himself.
#[derive(Clone, Copy)]
pub enum DeviceAsk<'a> {
    /// A read of so many bytes from this offset on.
    Read(u64, usize),
    /// A write of these bytes from this offset on.
    Write(u64, &'a [u8]),
    Sync,
}
