//! Lives of stores that four sessions and the keeper share, each ended by a crash at some call of the device.
#![tactic(auto)]

mod begins;
mod draws;
mod handshakes;
mod lives;
mod scripts;
mod shapes;
mod verdicts;

use draws::Draws;
use handshakes::run_at_once;
use lives::hammer;
use std::env;
use std::io::{self, Write};
use std::process::ExitCode;
use std::sync::Wait;
use std::thread::Threads;

fn main(rt: HostRuntime) -> ExitCode {
    match answered(&rt, &rt) {
        Ok(true) => ExitCode::SUCCESS,
        _ => ExitCode::FAILURE,
    }
}

/// `fkv_hammer SEED LIVES SHAPES`: two sessions that wait for each other, and so many lives over each of the first so many shapes, from this seed.
/// Whether nothing was wrong.
fn answered<H: Threads + Wait + Sync>(rt: &HostRuntime, hands: &H) -> io::Result<bool> {
    let mut numbers = [1, 1, shapes::COUNT];
    for (at, word) in env::args(rt)?.skip(1).enumerate() {
        if let (Some(number), Ok(given)) = (numbers.get_mut(at), word.as_str().parse::<u64>()) {
            *number = given;
        }
    }
    let [seed, lives, count] = numbers;
    let mut draws = Draws::new(seed);
    let mut out = io::writer(rt);
    if !run_at_once(rt, hands, rt.alloc()) {
        writeln!(out, "two sessions don't run at once")?;
        return Ok(false);
    }
    for number in 0..count {
        if let Err(wrong) = hammer(hands, rt.alloc(), &mut draws, number, lives) {
            writeln!(out, "seed {seed}, shape {number}: {wrong}")?;
            return Ok(false);
        }
    }
    writeln!(out, "{count} shapes, {lives} lives each: nothing is wrong")?;
    Ok(true)
}
