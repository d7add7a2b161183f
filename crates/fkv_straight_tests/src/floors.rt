//! Both bodies of a call over a log whose begin rises: mailboxes tell that records below it are gone.
use crate::bodies::SESSIONS;
use crate::scripts::{Draws, Keys};
use crate::twins::{Twins, Ways, play};
use crate::wrongs::Wrong;
use fkv_base::Shape;
use fkv_plane::Places;
use std::alloc::Global;
use std::process::Abort;
use std::test::Fail;

/// So often the begin rises, behind so many operations each.
const RISES: usize = 60;

const OPERATIONS: u64 = 50;

/// Records are gone so often at least, of those that mailboxes ask for.
const GONE: u64 = 30;

/// Plays operations over stores of two buckets and two pages in memory. Gives how many records were gone.
fn play_rising<R: Abort>(rt: &R, alloc: Global, seed: u64, ways: &mut Ways) -> Result<u64, Wrong> {
    let shape = Shape::new(1, 16, 2, 1, SESSIONS, 2, 65_536)?;
    let drawn = Keys::of(Places::of(&shape).buckets, 20, 2);
    let mut draws = Draws::new(seed, drawn, SESSIONS);
    let mut twins = Twins::open(alloc, shape, 0)?;
    for _ in 0..RISES {
        play(rt, &mut twins, &mut draws, OPERATIONS, ways)?;
        twins.rise();
    }
    Ok(twins.gone())
}

#[test]
fn both_bodies_agree_where_the_begin_rises(rt: HostRuntime) -> Result<(), Fail> {
    let mut ways = Ways::new();
    for seed in 0..2 {
        match play_rising(&rt, rt.alloc(), seed, &mut ways) {
            Ok(gone) => assert!(rt; gone >= GONE, "{gone} were gone"),
            Err(wrong) => assert!(rt; false, "from seed {seed}: {}", wrong.said()),
        }
    }
    Ok(())
}
