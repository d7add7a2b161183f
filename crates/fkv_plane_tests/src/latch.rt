use fkv_latch::LatchAnswer::{Busy, Dropped, Taken};
use fkv_latch::LatchTask::{DropExclusive, DropShared, TakeExclusive, TakeShared};
use fkv_latch::{Latch, LatchAnswer, LatchTask};
use fkv_plane::{Ask, PlainWords};
use std::process::Abort;
use std::test::Fail;

/// The place of the latch.
const PLACE: usize = 3;

/// The word of a bucket with a link to overflow bucket 5, and what each who shares its latch adds, and who holds it alone.
const LINK: u64 = 5;

const SHARE: u64 = 281474976710656;

const ALONE: u64 = 9223372036854775808;

/// Moves a try to its end.
fn go_on(plane: &mut PlainWords, machine: &mut Latch) -> Option<LatchAnswer> {
    for _ in 0..4 {
        let reply = plane.perform(&machine.ask());
        if let Ask::Done(answer) = machine.drive(reply) {
            return Some(answer);
        }
    }
    None
}

/// One try of a task, made to its end.
fn tried(plane: &mut PlainWords, task: LatchTask) -> Option<LatchAnswer> {
    let mut machine = Latch::new();
    machine.start(task, PLACE);
    go_on(plane, &mut machine)
}

/// Those who share a latch keep one alone out, and one alone keeps all out.
fn tries(rt: &impl Abort, plane: &mut PlainWords) {
    for (task, answer, word) in [
        (TakeShared, Taken, LINK + SHARE),
        (TakeShared, Taken, LINK + 2 * SHARE),
        (TakeExclusive, Busy, LINK + 2 * SHARE),
        (DropShared, Dropped, LINK + SHARE),
        (DropShared, Dropped, LINK),
        (TakeExclusive, Taken, LINK + ALONE),
        (TakeExclusive, Busy, LINK + ALONE),
        (TakeShared, Busy, LINK + ALONE),
        (DropExclusive, Dropped, LINK),
    ] {
        let came = (tried(plane, task), plane.word(PLACE));
        assert!(rt; came == (Some(answer), word));
    }
}

/// Of two that find the latch free, the one whose Cas comes second gets nothing; and whoever comes in between is counted.
fn another_is_quicker(rt: &impl Abort, plane: &mut PlainWords) {
    let mut slow = Latch::new();
    let loads = slow.start(TakeExclusive, PLACE);
    assert!(rt; loads == Ask::Load(PLACE));
    let sets = slow.drive(plane.perform(&loads));
    assert!(rt; sets == Ask::Cas(PLACE, LINK, LINK + ALONE));
    assert!(rt; tried(plane, TakeShared) == Some(Taken));
    assert!(rt; go_on(plane, &mut slow) == Some(Busy));
    assert!(rt; plane.word(PLACE) == LINK + SHARE);
}

#[test]
fn a_latch_is_shared_or_held_alone(rt: HostRuntime) -> Result<(), Fail> {
    let mut plane = PlainWords::new(rt.alloc(), 4)?;
    plane.perform::<()>(&Ask::Store(PLACE, LINK));
    tries(&rt, &mut plane);
    another_is_quicker(&rt, &mut plane);
    Ok(())
}
