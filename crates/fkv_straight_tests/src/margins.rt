//! Both bodies of a call at the bounds of a living store, and just below them.
use crate::bodies::{OFTEN, SESSIONS, has_met};
use crate::meetings::Meeting;
use crate::scripts::{Draws, Keys};
use crate::twins::{Twins, Ways, play};
use crate::wrongs::Wrong;
use fkv_base::Shape;
use fkv_plane::Places;
use std::alloc::Global;
use std::process::Abort;
use std::test::Fail;

/// So many operations over each store, and so many stores of each shape.
const OPERATIONS: u64 = 250;

const STORES: u64 = 4;

/// A living store of three sessions, by its bucket bits, page, frames, mutable pages, overflow buckets, and pages on the device; and how many homes
/// and how many keys of each are drawn over it. Its calls leave 195 overflow buckets and 585 addresses.
type Scene = ([u64; 6], u64, u64);

/// No overflow bucket for calls, one, and two; logs that leave 7, 87 and 183 addresses to calls, of which one has more homes than slots.
const SCENES: [Scene; 6] = [
    ([0, 16, 4, 2, 195, 4096], 9, 2),
    ([0, 16, 4, 2, 196, 4096], 18, 2),
    ([1, 16, 2, 1, 197, 4096], 40, 1),
    ([2, 16, 4, 2, 1100, 37], 12, 1),
    ([2, 16, 4, 2, 1100, 42], 12, 2),
    ([1, 16, 4, 1, 197, 48], 40, 1),
];

/// Plays the scene from this seed.
fn play_scene<R: Abort>(
    rt: &R,
    alloc: Global,
    scene: Scene,
    seed: u64,
    ways: &mut Ways,
) -> Result<(), Wrong> {
    let ([bits, page, frames, mutable, overflow, pages], homes, keys) = scene;
    let shape = Shape::large(bits, page, frames, mutable, SESSIONS, overflow, pages)?;
    let drawn = Keys::of(Places::of(&shape).buckets, homes, keys);
    let mut draws = Draws::new(seed, drawn, SESSIONS);
    let mut twins = Twins::open(alloc, shape, 0)?;
    play(rt, &mut twins, &mut draws, OPERATIONS, ways)
}

/// Just below the bound of the log calls go straight, and below that of the index the machine goes on with them.
const STRAIGHT: [Meeting; 1] = [Meeting::LastAddress];

const HANDED_OVER: [Meeting; 1] = [Meeting::LastBucket];

/// At both bounds it does.
const REFUSED: [Meeting; 2] = [Meeting::IndexFull, Meeting::LogFull];

#[test]
fn both_bodies_agree_at_the_bounds(rt: HostRuntime) -> Result<(), Fail> {
    let mut ways = Ways::new();
    for (at, scene) in SCENES.iter().enumerate() {
        for store in 0..STORES {
            let seed = (at as u64).wrapping_mul(STORES).wrapping_add(store);
            if let Err(wrong) = play_scene(&rt, rt.alloc(), *scene, seed, &mut ways) {
                assert!(rt; false, "scene {at}, store {store}: {}", wrong.said());
            }
        }
    }
    assert!(rt; has_met(&ways.straight, &STRAIGHT, 0));
    assert!(rt; has_met(&ways.handed_over, &HANDED_OVER, 0));
    assert!(rt; has_met(&ways.handed_over, &REFUSED, OFTEN));
    Ok(())
}
