//! 2^20 keys of a living store in memory: commits of both kinds, crashes and recovery, compared pair by pair with the plain map. Over a file
//! tools/large plays the same by the built program, whose scripts are too short for so many keys in memory.
use crate::lines::Line;
use crate::lines::Line::{Commit, Finish, LogCommit, Refresh, Turn, Up};
use crate::stores::{Store, crash, hold, opened_store, play, store_of, whole};
use fkv_base::{Fault, Key, Shape, Value};
use fkv_core::Told;
use fkv_disk::MemDisk;
use fkv_map::{Op, PlainMap};
use fkv_opening::recover;
use fkv_pairs::content;
use fkv_session::Answer;
use std::alloc::Global;
use std::process::Abort;
use std::test::Fail;

const KEYS: u64 = 1 << 20;

/// A turn of the keeper comes behind so many updates, a quarter of a page.
const EACH: u64 = 256;

/// Updates of the keys from one up to another, each by half the sum of its key and a number.
#[derive(Clone, Copy)]
struct Updates {
    from: u64,
    to: u64,
    more: u64,
}

/// Updates, and the commit behind them.
type Kept = (Updates, Line);

/// The first life: a full commit, and one of the log.
const FIRST: [Kept; 2] = [
    (
        Updates {
            from: 0,
            to: 3 * KEYS / 4,
            more: 7,
        },
        Commit,
    ),
    (
        Updates {
            from: KEYS / 2,
            to: KEYS,
            more: 11,
        },
        LogCommit,
    ),
];

/// What no commit keeps, at the end of each life.
const LOST: Updates = Updates {
    from: 0,
    to: KEYS / 64,
    more: 13,
};

/// The second one, over what is recovered.
const SECOND: [Kept; 1] = [(
    Updates {
        from: 0,
        to: KEYS / 64,
        more: 17,
    },
    Commit,
)];

/// A new store of 2^18 buckets and 4,096 overflow buckets, with 65,536 records in memory and room for 2^22 on the device.
fn large_store(alloc: Global) -> Result<Store, Fault> {
    opened_store(alloc, Shape::large(18, 1024, 64, 32, 1, 4096, 4096)?)
}

/// Whether the update is done at once. Behind each 256th key the session sees how far the store has come, and the keeper makes a turn, twice.
fn is_done(store: &mut Store, key: u64, value: u64) -> bool {
    let told = whole(store, Up(0, key, value));
    if key % EACH == 0 {
        play(store, &[Refresh(0), Turn, Refresh(0), Turn]);
    }
    matches!(told, Some(Told::Session(_, Answer::Done(_, _))))
}

/// Makes the updates in the store and in the map. Whether each is done at once.
fn update(store: &mut Store, map: &mut PlainMap, updates: Updates) -> Result<bool, Fault> {
    let mut are_done = true;
    for key in updates.from..updates.to {
        let value = key.wrapping_add(updates.more) >> 1;
        are_done = are_done && is_done(store, key, value);
        map.apply(Op::Upsert(Key(key), Value(value)))?;
    }
    Ok(are_done)
}

/// Makes a commit. Whether it finishes.
fn commit(store: &mut Store, kind: Line) -> bool {
    let _ = whole(store, kind);
    match whole(store, Finish) {
        Some(Told::Turn(Ok(turn))) => turn.finished.is_some(),
        _ => false,
    }
}

/// Makes updates, and commits that keep them.
fn live(
    rt: &impl Abort,
    store: &mut Store,
    map: &mut PlainMap,
    life: &[Kept],
) -> Result<(), Fault> {
    for (updates, kind) in life {
        hold!(rt; update(store, map, *updates)?);
        hold!(rt; commit(store, *kind));
    }
    Ok(())
}

/// Makes updates that no commit keeps.
fn lose(rt: &impl Abort, alloc: Global, store: &mut Store) -> Result<(), Fault> {
    let mut lost = PlainMap::new(alloc);
    hold!(rt; update(store, &mut lost, LOST)?);
    Ok(())
}

/// Lives so, and ends. (The store isn't dropped, but ends in each case: its drop would be proved too.)
fn lived(
    rt: &impl Abort,
    mut store: Store,
    map: &mut PlainMap,
    life: &[Kept],
    alloc: Global,
) -> Result<MemDisk, Fault> {
    let kept = live(rt, &mut store, map, life);
    let lost = lose(rt, alloc, &mut store);
    let image = crash(store, 165)?;
    kept?;
    lost?;
    Ok(image)
}

/// The pairs that are recovered are those of the map.
fn compare(
    rt: &impl Abort,
    alloc: Global,
    image: &mut MemDisk,
    map: &PlainMap,
) -> Result<(), Fault> {
    let opened = recover(alloc, image)?;
    let pairs = content(alloc, &opened, image)?;
    let wanted = map.pairs()?;
    hold!(rt; pairs.as_slice() == wanted.as_slice());
    Ok(())
}

/// A life over this store, which leaves what the map has.
fn leaves(
    rt: &impl Abort,
    alloc: Global,
    store: Store,
    map: &mut PlainMap,
    life: &[Kept],
) -> Result<MemDisk, Fault> {
    let mut image = lived(rt, store, map, life, alloc)?;
    compare(rt, alloc, &mut image, map)?;
    Ok(image)
}

/// Two lives, of which the second one begins with what the first one leaves.
fn both_lives(rt: &impl Abort, alloc: Global, map: &mut PlainMap) -> Result<(), Fault> {
    let left = leaves(rt, alloc, large_store(alloc)?, map, &FIRST)?;
    leaves(rt, alloc, store_of(alloc, left)?, map, &SECOND)?;
    Ok(())
}

#[test]
fn a_million_keys_are_recovered(rt: HostRuntime) -> Result<(), Fail> {
    let mut map = PlainMap::new(rt.alloc());
    both_lives(&rt, rt.alloc(), &mut map)?;
    Ok(())
}
