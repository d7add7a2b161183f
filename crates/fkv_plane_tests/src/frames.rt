use fkv_base::{Addr, Shape};
use fkv_frames::{frame_of, page_of, place_of};
use std::test::Fail;

/// Pages of 16 records take four frames in turn, and a record has three words of its frame.
#[test]
fn pages_take_the_frames_in_turn(rt: HostRuntime) -> Result<(), Fail> {
    let shape = Shape::new(4, 16, 4, 2, 1, 0, 64)?;
    for (addr, page, frame, place) in [
        (1, 0, 0, 3),
        (15, 0, 0, 45),
        (16, 1, 1, 48),
        (63, 3, 3, 189),
        (64, 4, 0, 0),
        (100, 6, 2, 108),
        (127, 7, 3, 189),
    ] {
        let addr = Addr(addr);
        let found = (
            page_of(&shape, addr),
            frame_of(&shape, addr),
            place_of(&shape, addr),
        );
        assert!(rt; found == (page, frame, place));
    }
    Ok(())
}
