//! A store that is opened and used in one thread: two passes that meet, and the keeper's calls. The crate is above the order law.
ghost use Rattle.std.specs.Prelude.{◌≡◌, false};
ghost use Rattle.fkv_threads_tests.specs.Said as said;

use fkv_base::{CommitKind, Fault, Key, Shape, Value};
use fkv_creating::create_opened;
use fkv_disk::{Device, MemDisk};
use fkv_map::{Call, Op, Reply};
use fkv_opening::Opened;
use fkv_session::{Answer, Told};
use fkv_threads::{
    KeeperSeat, Leave, OpenSeats, OpenTable, Pass, Seated, Session, Table, TurnAsk, close, join,
    open, open_seats,
};
use std::alloc::Global;
use std::test::Fail;

/// A session gives a key its value, and adds to it eighteen times, by one call. What the last add was told.
fn write<D: Device>(writer: &mut Seated<D>) -> Told {
    writer.op(Op::Upsert(Key(7), Value(10)));
    let adds = [Op::Add(Key(7), 1); 18];
    let mut told = [Told::Absent; 18];
    writer.ops(&adds, &mut told);
    told[17]
}

/// Session 0 reads what session 1 wrote, after both have met. `Slept` where the last add wasn't told the whole sum, or the store has no two sessions.
fn write_and_read<D: Device + Drop>(mut sessions: Vec<Seated<D>>) -> Told
    requires first { said.AreFirstOfOne sessions.items }
{
    let Some(writer) = sessions.pop() else {
        return Told::Slept;
    };
    let Some(reader) = sessions.pop() else {
        return Told::Slept;
    };
    let (mut reader, mut writer) = reader.meet(writer);
    match write(&mut writer) {
        Told::Done(_, Reply::Number(Value(28))) => reader.call(Call::Op(Op::Read(Key(7)))),
        _ => Told::Slept,
    }
}

/// The keeper begins a turn, and makes it up to behind its first call of the device. Whether it tells that call just where it makes one.
fn begin_in_pieces<D: Device + Drop>(keeper: &mut KeeperSeat<D>) -> bool
    requires idle { keeper.old.in_turn ≡ false }
{
    let asks = matches!(
        keeper.drive(Leave {
            rests: true,
            sweep: true,
        }),
        TurnAsk::Device
    );
    let tells = keeper.posted().is_some();
    if asks {
        keeper.step();
    }
    asks == tells
}

/// The keeper asks for a commit, makes a turn, and begins another one in pieces. Whether all is done.
fn commit_and_turn<D: Device + Drop>(keeper: &mut KeeperSeat<D>) -> bool
    requires idle { keeper.old.in_turn ≡ false }
{
    let begun = keeper.ask_commit(CommitKind::Full);
    let turned = keeper.turn();
    let goes = begin_in_pieces(keeper);
    begun.is_ok() && turned.is_ok() && goes
}

/// So over the table of an opened store, after a commit's beginning and a turn of the keeper.
fn read_of_opened<D: Device + Drop>(alloc: Global, opened: Opened, disk: D) -> Result<Told, Fault>
    requires store { said.IsStoreOf (D.seen disk) opened }
    requires honest { D.honest disk }
    requires leaves { said.LeavesOnly (D.seen disk) (D.may_leave disk) }
{
    let OpenSeats {
        sessions,
        mut keeper,
        ..
    } = open_seats(alloc, opened, disk)?;
    if !commit_and_turn(&mut keeper) {
        return Ok(Told::Slept);
    }
    Ok(write_and_read(sessions))
}

/// So over a new store of this shape.
fn read_of_new(alloc: Global, shape: Shape) -> Result<Told, Fault> {
    let mut disk = MemDisk::new(alloc);
    let opened = create_opened(alloc, &mut disk, shape)?;
    read_of_opened(alloc, opened, disk)
}

/// Session 1 gives a key its value. Then the passes meet, and session 0 reads it.
fn call_and_meet<D: Device + Drop>(
    table: Table<D>,
    mut reader: Session,
    one: Pass<D>,
    mut writer: Session,
    two: Pass<D>,
) -> Answer
    requires reader { said.IsReady (said.opening D.Device) table.table.shared.key table.table.shared.table_id one.seat.table_id one.seat.me reader.machine reader.desk }
    requires writer { said.IsReady (said.opening D.Device) table.table.shared.key table.table.shared.table_id two.seat.table_id two.seat.me writer.machine writer.desk }
    requires apart { ¬ (reader.machine.seat.number ≡ writer.machine.seat.number) }
{
    let (two, _) = writer.run(&table, two, Call::Op(Op::Upsert(Key(7), Value(28))));
    let (one, _) = join(&table, one, two);
    let (_, read) = reader.run(&table, one, Call::Op(Op::Read(Key(7))));
    close(table);
    read
}

/// So over the table of an opened store, if it has two sessions.
fn meet_of_opened<D: Device + Drop>(alloc: Global, opened: Opened, disk: D) -> Result<Answer, Fault>
    requires store { said.IsStoreOf (D.seen disk) opened }
{
    let OpenTable {
        table,
        mut sessions,
        ..
    } = open(alloc, opened, disk)?;
    match sessions.pop() {
        Some((writer, two)) => match sessions.pop() {
            Some((reader, one)) => Ok(call_and_meet(table, reader, one, writer, two)),
            None => Ok(Answer::Slept),
        },
        None => Ok(Answer::Slept),
    }
}

/// So over a new store of this shape.
fn meet_of_new(alloc: Global, shape: Shape) -> Result<Answer, Fault> {
    let mut disk = MemDisk::new(alloc);
    let opened = create_opened(alloc, &mut disk, shape)?;
    meet_of_opened(alloc, opened, disk)
}

#[test]
fn a_session_reads_what_another_wrote(rt: HostRuntime) -> Result<(), Fail> {
    let read = match Shape::new(4, 16, 4, 2, 2, 0, 64) {
        Ok(shape) => read_of_new(rt.alloc(), shape),
        Err(why) => Err(why),
    };
    let found = match read {
        Ok(Told::Found(value)) => value.0,
        _ => 0,
    };
    assert_eq!(rt; found, 28);
    let met = match Shape::new(4, 16, 4, 2, 2, 0, 64) {
        Ok(shape) => meet_of_new(rt.alloc(), shape),
        Err(why) => Err(why),
    };
    let known = match met {
        Ok(Answer::Found(value)) => value.0,
        _ => 0,
    };
    assert_eq!(rt; known, 28);
    Ok(())
}
