//! What can be told of a slot, whatever else stands in it.
ghost use Rattle.std.specs.Prelude.{◌≡◌};
ghost use Rattle.fkv_record.specs.Places.{open_number};

use crate::numbers::number_at;

/// The first byte of an open slot. Any other closes it.
pub const OPEN: u8 = 0xa5;

/// The number of the commit that an open slot names, or `None` of a closed one. The rest of the slot may be anything, so
/// that the newer of two open slots is known before either is read.
pub fn open_number(bytes: &[u8; 512]) -> Option<u64>
    ensures { result ≡ open_number bytes.now }
{
    (bytes[0] == OPEN).then(|| number_at(bytes, 8))
}
