//! What came of a call of the device, as C tells it.
ghost use Rattle.std.specs.Prelude.{◌≡◌};
ghost use Rattle.fkv_face.specs.Outcomes as says;

use fkv_disk::DeviceAsk;
use fkv_posted::{PIECE_BYTES, READ_BYTES, Told};

/// The first of the bytes, as many as there is room, and zeros where there are fewer.
fn first_bytes<const N: usize>(bytes: &[u8]) -> [u8; N]
    ensures { result ≡ says.first_bytes N bytes.now }
{
    let mut read = [0; N];
    let count = bytes.len().min(N);
    let (front, _) = read.split_at_mut(count);
    front.copy_from_slice(&bytes[..count]);
    read
}

/// How the call that is posted has gone: it has failed where that isn't 0, and a read gave these bytes.
pub(crate) fn outcome_of(ask: Option<DeviceAsk<'_>>, failed: u32, bytes: &[u8]) -> Told
    ensures { result ≡ says.outcome_of (says.asked_call ask.entry) failed bytes.now }
{
    if failed != 0 {
        return Told::Failed;
    }
    match ask {
        Some(DeviceAsk::Read(place, PIECE_BYTES)) => Told::Piece(place, first_bytes(bytes)),
        Some(DeviceAsk::Read(place, _)) => Told::Read(place, first_bytes::<READ_BYTES>(bytes)),
        Some(DeviceAsk::Write(_, _)) => Told::Written,
        Some(DeviceAsk::Sync) => Told::Synced,
        None => Told::Failed,
    }
}
