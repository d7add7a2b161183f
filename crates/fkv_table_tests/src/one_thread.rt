//! A session of a table, in one thread.
ghost use Rattle.fkv_table.specs.Calls.{IsReady};
ghost use Rattle.fkv_table.specs.Planes.{opening_of};

use fkv_base::{Fault, Key, Serial, Shape, Value};
use fkv_creating::create_opened;
use fkv_disk::{Device, MemDisk};
use fkv_map::{Call, Op, Reply};
use fkv_opening::Opened;
use fkv_session::Answer;
use fkv_table::{OpenTable, Pass, Session, Table};
use law_opening::law_guard_opens;
use std::alloc::Global;
use std::test::Fail;

/// What a session was told by five calls, and its last serial behind them.
#[derive(PartialEq, Drop)]
struct Told {
    answers: [Answer; 5],
    last: Serial,
}

/// One session makes five calls, one behind the other.
fn call_in_turn<D: Device + Drop>(
    table: Table<D>,
    mut session: Session,
    pass: Pass<D>,
    ops: [Op; 5],
) -> Told
    requires ready { IsReady (opening_of D.seen) table.table.shared.key table.table.shared.table_id pass.seat.table_id pass.seat.me session.machine session.desk }
{
    let [a, b, c, d, e] = ops;
    let (pass, first) = session.run(&table, pass, Call::Op(a));
    let (pass, second) = session.run(&table, pass, Call::Op(b));
    let (pass, third) = session.run(&table, pass, Call::Op(c));
    let (pass, fourth) = session.run(&table, pass, Call::Op(d));
    let (pass, fifth) = session.run(&table, pass, Call::Op(e));
    let last = session.serial(&table, &pass);
    table.close();
    Told {
        answers: [first, second, third, fourth, fifth],
        last,
    }
}

/// So does the last session of an opened store.
fn told_of_opened<D: Device + Drop>(
    alloc: Global,
    opened: Opened,
    disk: D,
    ops: [Op; 5],
) -> Result<Option<Told>, Fault> {
    law_guard_opens();
    let OpenTable {
        table,
        mut sessions,
        ..
    } = Table::open(alloc, opened, disk)?;
    match sessions.pop() {
        Some((session, pass)) => Ok(Some(call_in_turn(table, session, pass, ops))),
        None => Ok(None),
    }
}

/// So does the session of a new store that has one.
fn told_of_new(alloc: Global, ops: [Op; 5]) -> Result<Option<Told>, Fault> {
    let shape = Shape::new(4, 16, 4, 2, 1, 0, 64)?;
    let mut disk = MemDisk::new(alloc);
    let opened = create_opened(alloc, &mut disk, shape)?;
    told_of_opened(alloc, opened, disk, ops)
}

#[test]
fn a_session_reads_what_it_wrote(rt: HostRuntime) -> Result<(), Fail> {
    let ops = [
        Op::Upsert(Key(1), Value(10)),
        Op::Read(Key(1)),
        Op::Read(Key(2)),
        Op::Delete(Key(1)),
        Op::Read(Key(1)),
    ];
    let told = told_of_new(rt.alloc(), ops);
    let answers = [
        Answer::Done(Serial(1), Reply::Nothing),
        Answer::Found(Value(10)),
        Answer::Absent,
        Answer::Done(Serial(2), Reply::Nothing),
        Answer::Absent,
    ];
    let wanted = Told {
        answers: answers,
        last: Serial(2),
    };
    assert!(rt; told == Ok(Some(wanted)));
    Ok(())
}

#[test]
fn sums_begin_anew_behind_a_delete(rt: HostRuntime) -> Result<(), Fail> {
    let ops = [
        Op::Add(Key(5), 7),
        Op::Add(Key(5), 7),
        Op::Delete(Key(5)),
        Op::Read(Key(5)),
        Op::Add(Key(5), 1),
    ];
    let told = told_of_new(rt.alloc(), ops);
    let answers = [
        Answer::Done(Serial(1), Reply::Number(Value(7))),
        Answer::Done(Serial(2), Reply::Number(Value(14))),
        Answer::Done(Serial(3), Reply::Nothing),
        Answer::Absent,
        Answer::Done(Serial(4), Reply::Number(Value(1))),
    ];
    let wanted = Told {
        answers: answers,
        last: Serial(4),
    };
    assert!(rt; told == Ok(Some(wanted)));
    Ok(())
}
