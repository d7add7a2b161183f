//! A store in memory, and lines that are played over it.
use crate::lines::{Line, Says, actor, beginning, is_phase, moving, told, turned};
use fkv_base::{Fault, Shape};
use fkv_core::{Event, Told, World};
use fkv_creating::create;
use fkv_disk::{Fuse, MemDisk};
use fkv_opening::recover;
use fkv_plane::SharedWord;
use std::alloc::Global;

/// As `assert!`, but by a call: a branch of its own costs a proof more.
macro_rules! hold {
    ($rt:expr; $holds:expr) => {
        $crate::holding::holds($rt, $holds, concat!("assertion failed: ", stringify!($holds)))
    };
}

pub(crate) use hold;

/// Bucket bits, page, frames, mutable pages, sessions, overflow buckets, and pages on the device.
pub(crate) type Sizes = [u64; 7];

/// Room for some records, for one session and for two.
pub(crate) const WIDE: Sizes = [4, 16, 4, 2, 1, 0, 64];

pub(crate) const WIDE_FOR_TWO: Sizes = [4, 16, 4, 2, 2, 0, 64];

/// Two frames of four records, of which one page is mutable.
pub(crate) const NARROW_FOR_TWO: Sizes = [4, 4, 2, 1, 2, 0, 64];

/// The rounds in which a commit is to finish, the copy of 2^18 buckets among them.
const ROUNDS: u64 = 320;

/// The engine on a device in memory, which a fuse may make fail.
pub(crate) type Store = World<Fuse<MemDisk>>;

/// A new store, opened as recovery tells it.
pub(crate) fn new_store(alloc: Global, sizes: Sizes) -> Result<Store, Fault> {
    let [bits, page, frames, mutable, sessions, overflow, pages] = sizes;
    opened_store(
        alloc,
        Shape::new(bits, page, frames, mutable, sessions, overflow, pages)?,
    )
}

/// A new store of this shape, opened as recovery tells it.
pub(crate) fn opened_store(alloc: Global, shape: Shape) -> Result<Store, Fault> {
    let mut disk = MemDisk::new(alloc);
    let _ = create(&mut disk, shape)?;
    store_of(alloc, disk)
}

/// The store that is recovered from an image.
pub(crate) fn store_of(alloc: Global, image: MemDisk) -> Result<Store, Fault> {
    let mut disk = Fuse::new(image);
    let opened = recover(alloc, &mut disk)?;
    World::open(alloc, opened, disk)
}

/// The life ends, and leaves this image: each byte that isn't synced is torn.
pub(crate) fn crash(mut store: Store, torn: u8) -> Result<MemDisk, Fault> {
    let _ = store.step(Event::Crash);
    store.end().crash(torn)
}

/// So many steps of one actor, or fewer where its call ends before.
pub(crate) fn steps(store: &mut Store, moves: Event, count: u64) -> Option<Told> {
    for _ in 0..count {
        let told = store.step(moves);
        if told.is_some() {
            return told;
        }
    }
    None
}

/// Begins a call, and moves its actor by so many steps, or fewer where the call ends before.
pub(crate) fn begin(store: &mut Store, begins: Event, count: u64) -> Option<Told> {
    let told = store.step(begins);
    if told.is_some() {
        return told;
    }
    steps(store, moving(begins), count)
}

/// Begins a call, and moves its actor to its end.
fn call(store: &mut Store, begins: Event) -> Option<Told> {
    let told = store.step(begins);
    if told.is_some() {
        return told;
    }
    store.finish(actor(begins))
}

/// What comes of a line, whose call is moved to its end.
pub(crate) fn whole(store: &mut Store, line: Line) -> Option<Told> {
    match line {
        Line::Finish => finish(store),
        line => call(store, beginning(line)),
    }
}

pub(crate) fn play(store: &mut Store, lines: &[Line]) {
    for line in lines {
        let _ = whole(store, *line);
    }
}

/// Each round is a refresh and a poll of the first two sessions, of which the second may be missing, and a turn. It ends where a
/// commit finishes or a turn is refused.
fn finish(store: &mut Store) -> Option<Told> {
    for _ in 0..ROUNDS {
        for line in [
            Line::Refresh(0),
            Line::Poll(0),
            Line::Refresh(1),
            Line::Poll(1),
        ] {
            let _ = call(store, beginning(line));
        }
        let turn = call(store, Event::Turn);
        if turn != turned(None) {
            return turn;
        }
    }
    None
}

/// Whether this came of the line, and the store is in the phase that it says.
pub(crate) fn is_said(store: &Store, line: Line, says: Says, came: Option<Told>) -> bool {
    came == told(beginning(line), says) && is_phase(says, store.word(SharedWord::Phase.place()))
}
