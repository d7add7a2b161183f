//! Epochs, the actions that wait for them, and who is waited for.
ghost use Rattle.std.specs.Prelude.{◌≤◌};
ghost use Rattle.fkv_base.specs.Limits.{max_sessions};

use fkv_base::{Addr, DRAIN_SLOTS, LAST_EPOCH, Phase, Version};
use fkv_epoch::{
    Arm, Claim, Leave, Protect, Raise, RaiseAnswer, Refresh, RefreshAnswer, Scan, Seen,
};
use fkv_plane::{Action, Ask, PlainWords};
use std::process::Abort;
use std::test::Fail;

fn store(plane: &mut PlainWords, place: usize, word: u64) {
    plane.perform::<()>(&Ask::Store(place, word));
}

/// Moves a scan to its end.
fn scan(plane: &mut PlainWords, sessions: usize)
    requires { sessions ≤ max_sessions }
{
    let mut machine = Scan::new(sessions);
    machine.start();
    for _ in 0..16 {
        let reply = plane.perform(&machine.ask());
        machine.drive(reply);
    }
}

/// One ask of a claim.
fn claim_on(plane: &mut PlainWords, machine: &mut Claim) -> Ask<()> {
    match machine.ask() {
        Ask::Take(slot) => match plane.take(slot) {
            Some(action) => machine.given(action),
            None => Ask::Done(()),
        },
        other => machine.drive(plane.perform(&other)),
    }
}

/// Moves a claim to its end.
fn claim(plane: &mut PlainWords) {
    let mut machine = Claim::new();
    machine.start();
    for _ in 0..64 {
        if let Ask::Done(()) = claim_on(plane, &mut machine) {
            return;
        }
    }
}

/// Holds a slot and raises the epoch, and tells how that ended.
fn raise(plane: &mut PlainWords) -> RaiseAnswer {
    let mut machine = Raise::new();
    machine.start();
    for _ in 0..32 {
        let reply = plane.perform(&machine.ask());
        match machine.drive(reply) {
            Ask::Done(RaiseAnswer::HasSlot(_)) => {
                machine.raise();
            }
            Ask::Done(answer) => return answer,
            _ => {}
        }
    }
    RaiseAnswer::NoSlot
}

/// Raises the epoch and arms the action. Tells the epoch at which it is armed.
fn arm(plane: &mut PlainWords, action: Action) -> Option<u64> {
    let RaiseAnswer::Raised(slot, epoch) = raise(plane) else {
        return None;
    };
    if slot >= DRAIN_SLOTS || epoch > 1000 {
        return None;
    }
    let mut machine = Arm::new();
    if let Ask::Put(slot, action) = machine.start(slot, epoch, action) {
        let _ = plane.put(slot, action);
    }
    machine.drive(0);
    let reply = plane.perform(&machine.ask());
    match machine.drive(reply) {
        Ask::Done(()) => Some(epoch),
        _ => None,
    }
}

/// Moves a refresh of session 0 to its end.
fn refresh(plane: &mut PlainWords) -> Option<Seen> {
    let mut machine = Refresh::new(0);
    machine.start();
    let mut found = None;
    for _ in 0..8 {
        let reply = plane.perform(&machine.ask());
        match machine.drive(reply) {
            Ask::Done(RefreshAnswer::Loaded(seen)) => {
                found = Some(seen);
                machine.finish();
            }
            Ask::Done(RefreshAnswer::Stored) => return found,
            _ => {}
        }
    }
    None
}

/// The head that a refresh of session 0 shows.
fn refreshed_head(plane: &mut PlainWords) -> Option<Addr> {
    match refresh(plane) {
        Some(seen) => Some(seen.head),
        None => None,
    }
}

/// Session 0 leaves.
fn leave(plane: &mut PlainWords) {
    let mut machine = Leave::new(0);
    machine.start();
    let reply = plane.perform(&machine.ask());
    machine.drive(reply);
}

/// An action is armed at epoch 5, and 8 becomes safe.
fn eight_is_safe(rt: &impl Abort, plane: &mut PlainWords) {
    store(plane, 5, 16);
    assert!(rt; arm(plane, Action::SafeReadOnly(Addr(16))) == Some(5));
    plane.perform::<()>(&Ask::Add(0, 3));
    scan(plane, 1);
    assert!(rt; plane.word(1) == 8);
}

/// A session loads the epoch as 5 and stalls, 8 becomes safe, and it stores 5.
fn stalls(rt: &impl Abort, plane: &mut PlainWords, machine: &mut Protect) {
    store(plane, 0, 5);
    let loads = machine.start();
    machine.drive(plane.perform(&loads));
    eight_is_safe(rt, plane);
    assert!(rt; machine.ask() == Ask::Store(24, 5));
    machine.drive(plane.perform(&machine.ask()));
}

/// What was armed meanwhile runs.
fn runs_what_was_armed(rt: &impl Abort, plane: &mut PlainWords) {
    claim(plane);
    assert!(rt; (plane.word(24), plane.word(6)) == (5, 16));
}

/// What the session loads then is fresh.
fn loads_afresh(rt: &impl Abort, plane: &mut PlainWords, machine: &mut Protect) {
    let phase = machine.ask();
    let read_only = machine.drive(plane.perform(&phase));
    let head = machine.drive(plane.perform(&read_only));
    let seen = Seen {
        phase: 0,
        read_only: Addr(16),
        head: Addr(0),
    };
    assert!(rt; machine.drive(plane.perform(&head)) == Ask::Done(seen));
}

#[test]
fn the_stall(rt: HostRuntime) -> Result<(), Fail> {
    let mut plane = PlainWords::new(rt.alloc(), 64)?;
    let mut machine = Protect::new(0);
    stalls(&rt, &mut plane, &mut machine);
    runs_what_was_armed(&rt, &mut plane);
    loads_afresh(&rt, &mut plane, &mut machine);
    Ok(())
}

/// A session that has not refreshed since the raise keeps the action waiting, and one that has lets it run.
fn protected(rt: &impl Abort, plane: &mut PlainWords) {
    store(plane, 8, 4);
    assert!(rt; arm(plane, Action::Close(Addr(4))) == Some(1));
    for (safe, closed, slot) in [(0, 0, 3), (1, 4, 0)] {
        scan(plane, 1);
        claim(plane);
        let words = (plane.word(1), plane.word(9), plane.word(16));
        assert!(rt; words == (safe, closed, slot));
        assert!(rt; refreshed_head(plane) == Some(Addr(4)));
    }
}

/// Nobody waits for a session that has left.
fn left(rt: &impl Abort, plane: &mut PlainWords) {
    leave(plane);
    let action = Action::Phase(Phase::InProgress, Version(2));
    assert!(rt; arm(plane, action) == Some(2));
    scan(plane, 1);
    claim(plane);
    assert!(rt; plane.word(2) == 2 * 65536 + 2);
}

#[test]
fn a_session_is_waited_for_until_it_leaves(rt: HostRuntime) -> Result<(), Fail> {
    let mut plane = PlainWords::new(rt.alloc(), 64)?;
    store(&mut plane, 0, 1);
    store(&mut plane, 24, 1);
    protected(&rt, &mut plane);
    left(&rt, &mut plane);
    Ok(())
}

/// A slot is armed, and the epoch is safe.
fn is_armed(rt: &impl Abort, plane: &mut PlainWords) {
    store(plane, 0, 1);
    assert!(rt; arm(plane, Action::Close(Addr(4))) == Some(1));
    scan(plane, 0);
}

/// Two actors find the same slot armed; the one whose Cas comes second claims nothing, and goes on to the next slot.
fn is_claimed_once(rt: &impl Abort, plane: &mut PlainWords) {
    let mut slow = Claim::new();
    slow.start();
    claim_on(plane, &mut slow);
    assert!(rt; claim_on(plane, &mut slow) == Ask::Cas(16, 3, 1));
    claim(plane);
    assert!(rt; plane.word(9) == 4);
    assert!(rt; claim_on(plane, &mut slow) == Ask::Load(17));
}

#[test]
fn two_claims_of_one_slot(rt: HostRuntime) -> Result<(), Fail> {
    let mut plane = PlainWords::new(rt.alloc(), 64)?;
    is_armed(&rt, &mut plane);
    is_claimed_once(&rt, &mut plane);
    Ok(())
}

/// A raise finds no epoch left, or a slot, or none.
fn raises(rt: &impl Abort, plane: &mut PlainWords) {
    for slot in 16..23 {
        store(plane, slot, 1);
    }
    for (epoch, answer, after) in [
        (LAST_EPOCH, RaiseAnswer::Spent, LAST_EPOCH),
        (7, RaiseAnswer::Raised(7, 7), 8),
        (7, RaiseAnswer::NoSlot, 7),
    ] {
        store(plane, 0, epoch);
        let came = (raise(plane), plane.word(0));
        assert!(rt; came == (answer, after));
    }
}

#[test]
fn a_raise_is_refused(rt: HostRuntime) -> Result<(), Fail> {
    raises(&rt, &mut PlainWords::new(rt.alloc(), 64)?);
    Ok(())
}
