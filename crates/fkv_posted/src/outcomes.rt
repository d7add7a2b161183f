//! How a call of the medium has gone.

/// The lengths of reads that can be told: that of a record, and that of the records which a sweep reads in a row.
pub const READ_BYTES: usize = 24;

pub const PIECE_BYTES: usize = 768;

/// How a call of the medium has gone, as the caller tells who has made it.
#[derive(Clone, Copy, Drop)]
pub enum Told {
    /// A read of a record from this offset on gave these bytes.
    Read(u64, [u8; READ_BYTES]),
    /// A read of records in a row did.
    Piece(u64, [u8; PIECE_BYTES]),
    /// A write succeeded.
    Written,
    /// A sync succeeded.
    Synced,
    /// The call failed.
    Failed,
}
