//! Where a record of the log lies while it is in memory.
ghost use Rattle.std.specs.Prelude.{◌≡◌};
ghost use Rattle.fkv_frames.specs.Pages.{page_of, frame_of, place_of};

use fkv_base::{Addr, Shape};

/// The page of an address: pages have the shape's number of records each, and the first begins at address 0.
pub fn page_of(shape: &Shape, addr: Addr) -> u64
    ensures { result ≡ page_of shape.now addr.0 }
{
    addr.0 / shape.page
}

/// The frame that holds the address's page while it is in memory. Pages take the frames in turn.
pub fn frame_of(shape: &Shape, addr: Addr) -> u64
    ensures { result ≡ frame_of shape.now addr.0 }
{
    page_of(shape, addr) & (shape.frames - 1)
}

/// The place of the first of the record's three words, counted from the first word of the frames.
pub fn place_of(shape: &Shape, addr: Addr) -> usize
    ensures { result ≡ place_of shape.now addr.0 }
{
    let ring = shape.frames * shape.page;
    3 * (addr.0 & (ring - 1)) as usize
}
