//! What may go straight.
use fkv_base::{Addr, Fault, Key, Phase, Serial, Shape, Value, Version};
use fkv_log::SeenOffsets;
use fkv_map::Op;
use fkv_ops::Seen;
use fkv_session::Session;
use fkv_straight::Going;
use std::test::Fail;

const UPSERT: Op = Op::Upsert(Key(3), Value(40));

const READ: Op = Op::Read(Key(3));

fn shape() -> Result<Shape, Fault> {
    Shape::new(4, 4, 2, 1, 1, 0, 64)
}

/// A session that has seen this phase of version 1.
fn session(phase: Phase) -> Result<Session, Fault> {
    let seen = Seen {
        phase,
        version: Version(1),
        offsets: SeenOffsets {
            head: Addr(1),
            read_only: Addr(3),
        },
    };
    Ok(Session::new(shape()?, 0, seen, Serial(0), Addr(1)))
}

#[test]
fn a_call_at_rest_goes_straight(rt: HostRuntime) -> Result<(), Fail> {
    let session = session(Phase::Rest)?;
    let going = Going::of(&session, UPSERT);
    let is_as_seen = match going {
        Some(its) => {
            its.head == 1 && its.read_only == 3 && its.version == 1 && !its.is_moving_on
        }
        None => false,
    };
    assert!(rt; is_as_seen);
    assert!(rt; Going::of(&session, READ).is_some());
    Ok(())
}

#[test]
fn an_update_in_prepare_may_go_straight(rt: HostRuntime) -> Result<(), Fail> {
    let session = session(Phase::Prepare)?;
    let prepares = match Going::of(&session, UPSERT) {
        Some(its) => its.is_preparing,
        None => false,
    };
    assert!(rt; prepares);
    assert!(rt; Going::of(&session, READ).is_some());
    Ok(())
}
