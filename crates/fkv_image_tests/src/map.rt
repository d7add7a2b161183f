use fkv_base::{Fault, Key, Serial, Value};
use fkv_map::{HistoryEntry, Merge, Op, PlainMap, Reply, kept, replay};
use std::test::Fail;

/// The greatest value: the word above it stands for no value.
const GREATEST: Value = Value(18446744073709551614);

const ABSENT: u64 = 18446744073709551615;

#[test]
fn operations_reply_the_new_value(rt: HostRuntime) -> Result<(), Fail> {
    let mut map = PlainMap::new(rt.alloc());
    let refused = Op::Upsert(Key(1), Value(ABSENT));
    assert!(rt; map.apply(refused) == Err(Fault::ValueReserved));
    for (op, reply) in [
        (Op::Add(Key(5), 7), Reply::Number(Value(7))),
        (Op::Add(Key(5), 7), Reply::Number(Value(14))),
        (Op::Delete(Key(5)), Reply::Nothing),
        (Op::Read(Key(5)), Reply::Absent),
        (Op::Add(Key(5), 1), Reply::Number(Value(1))),
        (Op::Read(Key(5)), Reply::Found(Value(1))),
        (Op::Upsert(Key(1), GREATEST), Reply::Nothing),
        (Op::Add(Key(1), 1), Reply::Number(GREATEST)),
        (Op::Max(Key(1), 5), Reply::Number(GREATEST)),
        (Op::Max(Key(2), 0), Reply::Number(Value(0))),
    ] {
        assert!(rt; map.apply(op)? == reply);
    }
    let pairs = map.pairs()?;
    let wanted = [(Key(1), GREATEST), (Key(2), Value(0)), (Key(5), Value(1))];
    assert!(rt; pairs.as_slice() == wanted.as_slice());
    Ok(())
}

// Each operation with the value that its key has, the one that it has then, and the reply.
#[test]
fn an_operation_goes_by_its_keys_value(rt: HostRuntime) {
    let five = Some(Value(5));
    for (op, old, new, reply) in [
        (
            Op::Add(Key(1), GREATEST.0),
            None,
            Some(GREATEST),
            Reply::Number(GREATEST),
        ),
        (
            Op::Add(Key(1), GREATEST.0),
            five,
            Some(GREATEST),
            Reply::Number(GREATEST),
        ),
        (Op::Max(Key(1), 3), five, five, Reply::Number(Value(5))),
        (Op::Delete(Key(1)), five, None, Reply::Nothing),
        (Op::Read(Key(1)), None, None, Reply::Absent),
    ] {
        assert!(rt; op.key() == Key(1));
        assert!(rt; op.value_applied(old) == new);
        assert!(rt; op.reply_from(old) == reply);
        assert!(rt; !op.is_reserved());
    }
    assert!(rt; Op::Add(Key(1), ABSENT).is_reserved());
    assert!(rt; !Op::Delete(Key(ABSENT)).is_reserved());
}

fn merge(which: Merge, n: u64) -> Op {
    Op::Merge(Key(1), which, n)
}

// Each merge where its key has no value: the value that it has then.
#[test]
fn a_merge_gives_a_first_value(rt: HostRuntime) {
    let zero = Some(Value(0));
    for (op, new) in [
        (merge(Merge::Min, 7), Some(Value(7))),
        (merge(Merge::Sub, 7), zero),
        (merge(Merge::And, 7), zero),
        (merge(Merge::Or, 7), Some(Value(7))),
        (merge(Merge::First, 7), Some(Value(7))),
        (merge(Merge::Min, GREATEST.0), Some(GREATEST)),
        (merge(Merge::Or, GREATEST.0), Some(GREATEST)),
        (merge(Merge::First, 0), zero),
    ] {
        assert!(rt; op.value_applied(None) == new);
        assert!(rt; new.map(Reply::Number) == Some(op.reply_from(None)));
    }
    let keep = merge(Merge::Keep, 7);
    assert!(rt; keep.value_applied(None) == None);
    assert!(rt; keep.reply_from(None) == Reply::Absent);
}

// Each merge with the value that its key has, and the one that it has then.
#[test]
fn a_merge_goes_by_its_keys_value(rt: HostRuntime) {
    for (op, old, new) in [
        (merge(Merge::Min, 3), 5, 3),
        (merge(Merge::Min, 9), 5, 5),
        (merge(Merge::Min, 0), GREATEST.0, 0),
        (merge(Merge::Sub, 3), 5, 2),
        (merge(Merge::Sub, 5), 5, 0),
        (merge(Merge::Sub, 9), 5, 0),
        (merge(Merge::Sub, 1), GREATEST.0, 18446744073709551613),
        (merge(Merge::And, 10), 12, 8),
        (merge(Merge::And, 0), 12, 0),
        (merge(Merge::And, GREATEST.0), GREATEST.0, GREATEST.0),
        (merge(Merge::Or, 10), 12, 14),
        (merge(Merge::Or, 0), 12, 12),
        (merge(Merge::Or, 1), GREATEST.0, GREATEST.0),
        (
            merge(Merge::Or, 9223372036854775807),
            9223372036854775808,
            GREATEST.0,
        ),
        (merge(Merge::First, 9), 5, 5),
        (merge(Merge::First, 9), 0, 0),
    ] {
        assert!(rt; op.key() == Key(1));
        assert!(rt; op.value_applied(Some(Value(old))) == Some(Value(new)));
        assert!(rt; op.reply_from(Some(Value(old))) == Reply::Number(Value(new)));
    }
    let keep = merge(Merge::Keep, 9);
    assert!(rt; keep.value_applied(Some(Value(5))) == Some(Value(5)));
    assert!(rt; keep.reply_from(Some(Value(5))) == Reply::Found(Value(5)));
}

// The word of no value is refused of each merge but a keep, which doesn't look at it.
#[test]
fn merges_refuse_the_reserved_number(rt: HostRuntime) -> Result<(), Fail> {
    let mut map = PlainMap::new(rt.alloc());
    for which in [Merge::Min, Merge::Sub, Merge::And, Merge::Or, Merge::First] {
        let refused = merge(which, ABSENT);
        assert!(rt; refused.is_reserved());
        assert!(rt; map.apply(refused) == Err(Fault::ValueReserved));
        assert!(rt; !merge(which, GREATEST.0).is_reserved());
    }
    let keep = merge(Merge::Keep, ABSENT);
    assert!(rt; !keep.is_reserved());
    assert!(rt; map.apply(keep)? == Reply::Absent);
    assert!(rt; map.pairs()?.as_slice() == [].as_slice());
    assert!(rt; map.apply(merge(Merge::First, 4))? == Reply::Number(Value(4)));
    assert!(rt; map.apply(keep)? == Reply::Found(Value(4)));
    assert!(rt; map.apply(merge(Merge::Sub, 5))? == Reply::Number(Value(0)));
    assert!(rt; map.pairs()?.as_slice() == [(Key(1), Value(0))].as_slice());
    Ok(())
}

fn adds(session: usize, serial: u64, n: u64, sum: u64) -> HistoryEntry {
    HistoryEntry {
        session,
        serial: Serial(serial),
        op: Op::Add(Key(5), n),
        reply: Reply::Number(Value(sum)),
    }
}

#[test]
fn a_history_is_replayed_up_to_the_points(rt: HostRuntime) -> Result<(), Fail> {
    let history = [adds(0, 1, 7, 7), adds(1, 1, 1, 8), adds(0, 2, 7, 15)];
    let before = kept(rt.alloc(), &history, &[Serial(1), Serial(1)])?;
    assert!(rt; before.as_slice() == &history[..2]);
    let all = replay(rt.alloc(), &history)?.pairs()?;
    assert!(rt; all.as_slice() == [(Key(5), Value(15))].as_slice());
    let refused = replay(rt.alloc(), &[adds(0, 1, ABSENT, 0)]);
    assert!(rt; refused.err() == Some(Fault::ValueReserved));
    Ok(())
}
