use fkv_base::{Addr, Phase, Shape, Version};
use fkv_plane::{
    Action, Ask, Places, PlainWords, RecordWord, SessionWord, SharedWord, drain_place, passed,
};
use std::process::Abort;
use std::test::Fail;

/// Each ask and the word as it was. Past the last word nothing changes, and a sum wraps.
fn asks(rt: &impl Abort, plane: &mut PlainWords) {
    for (ask, reply) in [
        (Ask::Store(2, 7), 0),
        (Ask::Swap(2, 9), 7),
        (Ask::Cas(2, 8, 1), 9),
        (Ask::Cas(2, 9, 5), 9),
        (Ask::Max(2, 4), 5),
        (Ask::Max(2, 6), 5),
        (Ask::Load(2), 6),
        (Ask::Store(1, 6), 0),
        (Ask::Add(1, u64::MAX), 6),
        (Ask::Load(1), 5),
        (Ask::Store(4, 6), 0),
        (Ask::Load(4), 0),
        (Ask::Done(()), 0),
    ] {
        assert!(rt; plane.perform(&ask) == reply);
    }
    assert!(rt; plane.word(1) == 5);
}

/// A slot has one action, and there are eight slots.
fn slots(rt: &impl Abort, plane: &mut PlainWords) {
    assert!(rt; plane.put(3, Action::Close(Addr(16))).is_none());
    let phase = Action::Phase(Phase::Rest, Version(2));
    assert!(rt; plane.put(3, phase) == Some(Action::Close(Addr(16))));
    assert!(rt; plane.take(3) == Some(Action::Phase(Phase::Rest, Version(2))));
    assert!(rt; plane.take(3).is_none());
    let close = Action::Close(Addr(1));
    assert!(rt; plane.put(8, close) == Some(Action::Close(Addr(1))));
}

fn passes(rt: &impl Abort) {
    assert!(rt; passed(Ask::<()>::Max(5, 12), 7) == Ask::Max(5, 12));
    assert!(rt; passed(Ask::Done(()), 7) == Ask::Done(7));
}

#[test]
fn each_ask_changes_its_word(rt: HostRuntime) -> Result<(), Fail> {
    let mut plane = PlainWords::new(rt.alloc(), 4)?;
    asks(&rt, &mut plane);
    slots(&rt, &mut plane);
    passes(&rt);
    Ok(())
}

/// The places of a store of 16 buckets and one overflow bucket, for two sessions, and 64 records in its frames.
#[test]
fn places_follow_each_other(rt: HostRuntime) -> Result<(), Fail> {
    let places = Places::of(&Shape::new(4, 16, 4, 2, 2, 1, 64)?);
    assert!(rt; places.sessions == 2 && places.ring == 64);
    assert!(rt; places.buckets == 16 && places.overflow == 1);
    let found = [
        SharedWord::Taken.place(),
        drain_place(7),
        SessionWord::MailValue.place(1),
        places.bucket(0, 0),
        places.bucket(15, 7),
        places.overflow(1, 7),
        places.record(Addr(1), RecordWord::Header),
        places.record(Addr(64 + 63), RecordWord::Value),
        places.word_count(),
    ];
    assert!(rt; found == [10, 23, 49, 56, 183, 191, 195, 383, 384]);
    Ok(())
}
