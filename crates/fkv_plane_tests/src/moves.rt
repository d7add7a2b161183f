//! Offsets of the log that are moved, and pages that turn.
use crate::log::offsets;
use fkv_base::{Addr, LAST_EPOCH, Shape};
use fkv_log::{MoveAnswer, MoveOffset, Offset, ShiftAnswer, ShiftReadOnly, TurnForm, TurnPage};
use fkv_plane::{Action, Ask, PlainWords, SharedWord, drain_place};
use std::process::Abort;
use std::test::Fail;

/// A store whose log has the records 1 to 5, in a ring of two frames of four records each, on a device of eight pages.
fn five_records(plane: &mut PlainWords) -> Result<Shape, Fail> {
    for word in [
        SharedWord::Epoch,
        SharedWord::ReadOnly,
        SharedWord::SafeReadOnly,
        SharedWord::Flushed,
        SharedWord::Head,
        SharedWord::Closed,
    ] {
        plane.perform::<()>(&Ask::Store(word.place(), 1));
    }
    offsets(plane, 6, 8);
    Ok(Shape::new(0, 4, 2, 1, 1, 0, 8)?)
}

/// Closed, head, flushed, safe read-only and read-only offset, and the limit.
fn levels(plane: &PlainWords) -> [u64; 6] {
    [
        plane.word(SharedWord::Closed.place()),
        plane.word(SharedWord::Head.place()),
        plane.word(SharedWord::Flushed.place()),
        plane.word(SharedWord::SafeReadOnly.place()),
        plane.word(SharedWord::ReadOnly.place()),
        plane.word(SharedWord::Limit.place()),
    ]
}

/// Replies to an ask; an action goes into its slot.
fn reply<A: Drop>(plane: &mut PlainWords, ask: Ask<A>) -> u64 {
    match ask {
        Ask::Put(slot, action) => {
            let _ = plane.put(slot, action);
            0
        }
        other => plane.perform(&other),
    }
}

fn shift(plane: &mut PlainWords, shape: Shape) -> Option<ShiftAnswer> {
    let mut machine = ShiftReadOnly::new(shape);
    machine.start();
    for _ in 0..32 {
        let reply = reply(plane, machine.ask());
        if let Ask::Done(answer) = machine.drive(reply) {
            return Some(answer);
        }
    }
    None
}

/// A turn at the tail 8.
fn turn_page(plane: &mut PlainWords, shape: Shape, form: TurnForm) -> Option<MoveAnswer> {
    let mut machine = TurnPage::new(shape);
    machine.start(form, Addr(8));
    for _ in 0..32 {
        let reply = reply(plane, machine.ask());
        if let Ask::Done(answer) = machine.drive(reply) {
            return Some(answer);
        }
    }
    None
}

/// Each drain slot but the first is held.
fn hold_slots(plane: &mut PlainWords) {
    for slot in 1..8 {
        plane.perform::<()>(&Ask::Store(drain_place(slot), 1));
    }
}

/// The read-only offset is shifted to where the last page begins. Without a free slot, or at the last epoch, it isn't.
fn shifts(rt: &impl Abort, plane: &mut PlainWords, shape: Shape) {
    hold_slots(plane);
    for (tail, epoch, answer) in [
        (6, 1, ShiftAnswer::Through(Addr(6))),
        (8, 2, ShiftAnswer::NoSlot(Addr(8))),
        (8, LAST_EPOCH, ShiftAnswer::Spent(Addr(8))),
    ] {
        offsets(plane, tail, 8);
        plane.perform::<()>(&Ask::Store(SharedWord::Epoch.place(), epoch));
        let came = (shift(plane, shape), levels(plane));
        assert!(rt; came == (Some(answer), [1, 1, 1, 1, 4, 8]));
    }
    assert!(rt; plane.take(0) == Some(Action::SafeReadOnly(Addr(4))));
}

#[test]
fn the_read_only_offset_is_shifted(rt: HostRuntime) -> Result<(), Fail> {
    let mut plane = PlainWords::new(rt.alloc(), 128)?;
    let shape = five_records(&mut plane)?;
    shifts(&rt, &mut plane, shape);
    Ok(())
}

/// A page's frame is wanted again: its page is closed once it is flushed, by a whole turn alone, and opened for another
/// once it is closed. Each row has the closed offset and the flushed one, and the levels behind the turn.
fn turns(rt: &impl Abort, plane: &mut PlainWords, shape: Shape) {
    for (form, closed, flushed, after) in [
        (TurnForm::Whole, 1, 1, [1, 1, 1, 1, 1, 8]),
        (TurnForm::OpensOnly, 1, 8, [1, 1, 8, 1, 1, 8]),
        (TurnForm::Whole, 1, 8, [1, 4, 8, 1, 1, 8]),
        (TurnForm::OpensOnly, 4, 8, [4, 4, 8, 1, 1, 12]),
    ] {
        plane.perform::<()>(&Ask::Store(SharedWord::Closed.place(), closed));
        plane.perform::<()>(&Ask::Store(SharedWord::Flushed.place(), flushed));
        let came = (turn_page(plane, shape, form), levels(plane));
        assert!(rt; came == (Some(MoveAnswer::Through), after));
    }
    assert!(rt; plane.word(drain_place(0)) == 3);
    assert!(rt; plane.take(0) == Some(Action::Close(Addr(4))));
}

#[test]
fn a_page_is_closed_and_its_frame_opened(rt: HostRuntime) -> Result<(), Fail> {
    let mut plane = PlainWords::new(rt.alloc(), 128)?;
    let shape = five_records(&mut plane)?;
    turns(&rt, &mut plane, shape);
    Ok(())
}

/// An offset is moved once a slot is held, and before the epoch is raised.
fn moves(rt: &impl Abort, plane: &mut PlainWords) {
    let mut machine = MoveOffset::new();
    let mut ask = machine.start(Offset::ReadOnly, Addr(12));
    for wanted in [
        Ask::Load(0),
        Ask::Load(16),
        Ask::Cas(16, 0, 1),
        Ask::Max(5, 12),
        Ask::Add(0, 1),
        Ask::Put(0, Action::SafeReadOnly(Addr(12))),
        Ask::Store(16, 2),
    ] {
        assert!(rt; machine.ask() == wanted);
        ask = machine.drive(reply(plane, ask));
    }
    assert!(rt; ask == Ask::Done(MoveAnswer::Through));
}

#[test]
fn an_offset_is_moved(rt: HostRuntime) -> Result<(), Fail> {
    moves(&rt, &mut PlainWords::new(rt.alloc(), 64)?);
    Ok(())
}
