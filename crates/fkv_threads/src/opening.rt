//! A store that was opened becomes a table that threads share, at which its sessions and its keeper sit.
ghost use Rattle.std.specs.Prelude.{◌≡◌, length};
ghost use Rattle.fkv_threads.specs.Said as said;

use crate::keeper_seats::KeeperSeat;
use crate::seated::Seated;
use fkv_base::Fault;
use fkv_disk::Device;
use fkv_opening::Opened;
use law_threads::{OpenTable, Pass, Session, Table, law_device_opens, law_guard_opens};
use std::alloc::Global;
use std::sync::Arc;

/// The table of a store that the device holds, and was opened from it. Each session is ready for its first call with its pass, and so is the keeper.
/// Nothing has happened yet. The device comes back, since the keeper alone calls it; if a crash leaves just what it reads as, the keeper's turns may
/// begin with it. `Memory` where memory was refused: then all that was handed in
/// is dropped, the device too.
pub fn open<D: Device + Drop>(
    alloc: Global,
    opened: Opened,
    device: D,
) -> Result<OpenTable<D>, Fault>
    requires store { said.IsStoreOf (D.seen device) opened }
    ensures over { said.IfOk result (λ t. said.IsOverStore (said.opening D.Device) t.table.table.shared.key opened (D.seen device)) }
    ensures count { said.IfOk result (λ t. length t.sessions.items ≡ opened.shape.sessions) }
    ensures sessions { said.IfOk result (λ t. said.EachAt t.sessions.items (λ i x. said.HasBegun
        (said.opening D.Device) t.table.table.shared.key t.table.table.shared.table_id i x.0.machine x.0.desk x.1.seat.table_id x.1.seat.me)) }
    ensures keeper { said.IfOk result (λ t. said.KeeperHasBegun (said.opening D.Device) t.table.table.shared.key t.table.table.shared.table_id
        t.keeper.machine t.pass.seat.table_id t.pass.seat.me) }
    ensures device { said.IfOk result (λ t. t.device ≡ device) }
    ensures after { said.LeavesOnly (D.seen device) (D.may_leave device) → said.IfOk result (λ t. said.IsAfterSeen
        (said.opening D.Device) t.table.table.shared.key t.pass.seat.me.0.seen (D.seen t.device) (D.may_leave t.device)) }
    ensures err { said.OnErr result (result ≡ said.Err said.Memory) }
{
    law_guard_opens();
    law_device_opens(&device);
    Table::open(alloc, opened, device)
}

/// A table with all who sit there.
#[derive(Drop)]
pub struct OpenSeats<D: Device + Drop> {
    /// One more share of the table.
    pub table: Arc<Table<D>, Global>,
    /// The sessions, in the order of their numbers.
    pub sessions: Vec<Seated<D>>,
    pub keeper: KeeperSeat<D>,
}

/// Opens the table as `open` does. Each session sits there with a share of it, and so does the keeper with the device, which is honest, and of which a crash
/// leaves just what it reads as. `Memory` where memory was refused: then all that was handed in is dropped, the device too.
pub fn open_seats<D: Device + Drop>(
    alloc: Global,
    opened: Opened,
    device: D,
) -> Result<OpenSeats<D>, Fault>
    requires store { said.IsStoreOf (D.seen device) opened }
    requires honest { D.honest device }
    requires leaves { said.LeavesOnly (D.seen device) (D.may_leave device) }
    ensures over { said.IfOk result (λ t. said.IsOverStore (said.opening D.Device) t.table.value.table.shared.key opened (D.seen device)) }
    ensures count { said.IfOk result (λ t. length t.sessions.items ≡ opened.shape.sessions) }
    ensures sessions { said.IfOk result (λ t. said.AreFirst t.table.value.table.shared.key t.table.value.table.shared.table_id t.sessions.items) }
    ensures keeper { said.IfOk result (λ t. said.IsFirstWatch t.table.value.table.shared.key t.table.value.table.shared.table_id device t.keeper) }
    ensures err { said.OnErr result (result ≡ said.Err said.Memory) }
{
    let OpenTable {
        table,
        sessions,
        keeper,
        pass,
        device,
    } = open(alloc, opened, device)?;
    let table = Arc::new(alloc, table)?;
    let share = Arc::try_clone(&table)?;
    let sessions = seats(alloc, &table, sessions)?;
    let keeper = KeeperSeat::new(share, keeper, pass, device);
    Ok(OpenSeats {
        table,
        sessions,
        keeper,
    })
}

/// Each session sits with its pass, and a share of the table.
fn seats<D: Device>(
    alloc: Global,
    table: &Arc<Table<D>, Global>,
    sessions: Vec<(Session, Pass<D>)>,
) -> Result<Vec<Seated<D>>, Fault>
    requires begun { said.EachAt sessions.items (λ i x. said.HasBegun (said.opening D.Device) table.now.value.table.shared.key
        table.now.value.table.shared.table_id i x.0.machine x.0.desk x.1.seat.table_id x.1.seat.me) }
    ensures same { said.IfOk result (λ seats. seats.items ≡ said.map (said.sitting_at table.now.value.table.shared.key table.now.value.table.shared.table_id)
        sessions.items) }
    ensures err { said.OnErr result (result ≡ said.Err said.Memory) }
{
    let mut seats = Vec::new(alloc);
    for (session, pass) in sessions {
        let share = Arc::try_clone(table)?;
        seats.push(Seated::new(share, session, pass))?;
    }
    Ok(seats)
}
