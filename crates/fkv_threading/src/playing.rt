//! A store that threads share, from its opening until they have all ended.
ghost use Rattle.std.specs.Prelude.{◌≡◌, [], length};
ghost use Rattle.fkv_threading.specs.Said as said;

use crate::gates::Gate;
use crate::keepers::{KeeperEnd, play_keeper};
use crate::keeping::Keeping;
use crate::players::{Player, SessionEnd};
use crate::progress::Progress;
use crate::promises::SessionLog;
use crate::sessions::play_session;
use fkv_base::{Fault, Serial};
use fkv_disk::Device;
use fkv_lines::Line;
use fkv_map::Call;
use fkv_opening::Opened;
use fkv_thread_scripts::{Log, calls_of};
use fkv_threads::{OpenSeats, Seated, Table, open_seats};
use std::alloc::Global;
use std::snapshot::Snapshot;
use std::sync::Wait;
use std::thread::{self, PromisedHandle, Scope, Threads};

/// What the threads of a script leave.
#[derive(Drop)]
pub struct Played<D: Device + Drop> {
    /// What each session was told.
    pub logs: Vec<Log>,
    /// Each session has made all calls of its lines: no refusal has stopped it.
    pub is_whole: bool,
    pub keeper: KeeperEnd<D>,
}

/// Plays lines over a store that was opened from this device: each session's on a thread of its own, and the keeper's on the caller's. It returns
/// when they have all ended. Each log is what its session was told by its calls at the table, which are those of its lines. The keeper's last commit is
/// the last that a turn told as finished, of all turns, and its fault that for which a turn has ended the run. A turn tells `Device` only if the device has
/// counted a failure in it. `Memory` where memory or a thread was refused; then the store is dropped, the device too.
pub fn play<D: Device + Drop + Send, G: Gate + Sync, R: Threads + Wait + Sync>(
    rt: &R,
    alloc: Global,
    opened: Opened,
    device: D,
    lines: &[Line],
    gate: &G,
) -> Result<Played<D>, Fault>
    requires store { said.IsStoreOf (D.seen device) opened }
    requires honest { D.honest device }
    requires leaves { said.LeavesOnly (D.seen device) (D.may_leave device) }
    ensures ok { said.IfOk result (λ its. said.IsPlayed D.Device opened lines.now device its.is_whole its.logs.items its.keeper.device
        its.keeper.finished its.keeper.begun its.keeper.fault) }
    ensures err { said.OnErr result (result ≡ said.Err said.Memory) }
{
    let points = copy_of(alloc, &opened.points)?;
    let first = Snapshot::of(&device);
    let OpenSeats {
        table,
        sessions,
        keeper,
    } = open_seats(alloc, opened, device)?;
    let keeping = Keeping {
        seat: keeper,
        first,
        finished: None,
        begun: None,
        fault: None,
    };
    play_over(rt, alloc, &table, sessions, keeping, &points, lines, gate)
}

/// The same over a table, by sessions that go on from these points.
fn play_over<'t, D: Device + Drop + Send, G: Gate + Sync, R: Threads + Wait + Sync>(
    rt: &R,
    alloc: Global,
    table: &'t Table<D>,
    sessions: Vec<Seated<D>>,
    keeping: Keeping<D>,
    points: &[Serial],
    lines: &'t [Line],
    gate: &G,
) -> Result<Played<D>, Fault>
    requires first { said.AreFirst table.now.table.shared.key table.now.table.shared.table_id sessions.items }
    requires keeper { keeping.key ≡ table.now.table.shared.key }
    ensures ok { said.IfOk result (λ its. said.WerePlayed D.Device table.now.table.shared.key keeping.first points.now lines.now
        (length sessions.items) its.is_whole its.logs.items its.keeper.device its.keeper.finished its.keeper.begun its.keeper.fault) }
    ensures err { said.OnErr result (result ≡ said.Err said.Memory) }
{
    let players = seated(alloc, table, sessions, points, lines)?;
    play_seats(rt, alloc, table, players, keeping, points, lines, gate)
}

/// Each session with its pass, at the table, and with the calls of its lines.
fn seated<D: Device>(
    alloc: Global,
    table: &Table<D>,
    sessions: Vec<Seated<D>>,
    points: &[Serial],
    lines: &[Line],
) -> Result<Vec<Player<D>>, Fault>
    requires first { said.AreFirst table.now.table.shared.key table.now.table.shared.table_id sessions.items }
    ensures count { said.IfOk result (λ players. length players.items ≡ length sessions.items) }
    ensures players { said.IfOk result (λ players. said.AreSeated table.now.table.shared.key points.now lines.now players.items) }
    ensures err { said.OnErr result (result ≡ said.Err said.Memory) }
{
    let mut players = Vec::new(alloc);
    for seat in sessions {
        let number = players.len();
        let calls = calls_of(alloc, lines, number as u64)?;
        players.push(player_of(alloc, seat, point_of(points, number), calls))?;
    }
    Ok(players)
}

/// A session before its first call.
fn player_of<D: Device>(
    alloc: Global,
    seat: Seated<D>,
    point: Serial,
    calls: Vec<Call>,
) -> Player<D>
    requires { seat.seen ≡ [] }
    ensures { result ≡ record { key = seat.key; number = seat.number; point = point; calls = calls.items } }
{
    Player {
        seat,
        point,
        calls,
        answered: 0,
        log: Log::new(alloc, point),
    }
}

/// Plays lines by these sessions and the keeper, each session's on a thread of its own.
fn play_seats<'t, D: Device + Drop + Send, G: Gate + Sync, R: Threads + Wait + Sync>(
    rt: &R,
    alloc: Global,
    table: &'t Table<D>,
    players: Vec<Player<D>>,
    keeping: Keeping<D>,
    points: &[Serial],
    lines: &'t [Line],
    gate: &G,
) -> Result<Played<D>, Fault>
    requires seats { said.AreSeated table.now.table.shared.key points.now lines.now players.items }
    requires keeper { keeping.key ≡ table.now.table.shared.key }
    ensures ok { said.IfOk result (λ its. said.WerePlayed D.Device table.now.table.shared.key keeping.first points.now lines.now
        (length players.items) its.is_whole its.logs.items its.keeper.device its.keeper.finished its.keeper.begun its.keeper.fault) }
    ensures err { said.OnErr result (result ≡ said.Err said.Memory) }
{
    let progress = Progress::new();
    let shared = &progress;
    thread::scope(
        thread::scope_env(),
        rt,
        |scope| -> Result<Played<D>, Fault>
            requires { said.AreSeated table.now.table.shared.key points.now lines.now players.items × (keeping.key ≡ table.now.table.shared.key) }
            ensures ok { said.IfOk result (λ its. said.WerePlayed D.Device table.entry.now.table.shared.key keeping.first points.entry.now lines.entry.now
                (length players.items) its.is_whole its.logs.items its.keeper.device its.keeper.finished its.keeper.begun its.keeper.fault) }
            ensures err { said.OnErr result (result ≡ said.Err said.Memory) }
        {
            let played = play_in(
                scope, rt, alloc, shared, gate, lines, table, points, players, keeping,
            );
            if played.is_err() {
                shared.stop();
            }
            played
        },
    )
}

/// The same with these threads' scope.
fn play_in<'s, 't: 's, E, D: Device + Drop + Send, G: Gate + Sync, R: Threads + Wait + Sync>(
    scope: &'s Scope<'s, E>,
    rt: &'s R,
    alloc: Global,
    progress: &'s Progress,
    gate: &'s G,
    lines: &'t [Line],
    table: &'t Table<D>,
    points: &[Serial],
    players: Vec<Player<D>>,
    keeping: Keeping<D>,
) -> Result<Played<D>, Fault>
    requires seats { said.AreSeated table.now.table.shared.key points.now lines.now players.items }
    requires keeper { keeping.key ≡ table.now.table.shared.key }
    ensures ok { said.IfOk result (λ its. said.WerePlayed D.Device table.now.table.shared.key keeping.first points.now lines.now
        (length players.items) its.is_whole its.logs.items its.keeper.device its.keeper.finished its.keeper.begun its.keeper.fault) }
    ensures err { said.OnErr result (result ≡ said.Err said.Memory) }
{
    let count = players.len() as u64;
    let handles = spawn_all(
        scope, rt, alloc, progress, gate, lines, table, points, players,
    )?;
    let keeper = play_keeper(rt, progress, lines, count, keeping);
    let (logs, is_whole) = joined(rt, alloc, table, points, lines, handles)?;
    Ok(Played {
        logs,
        is_whole,
        keeper,
    })
}

/// Plays each session's lines on a thread of its own. `Memory` where a thread or memory was refused; then those that run already are to be stopped.
fn spawn_all<'s, 't: 's, E, D: Device + Drop + Send, G: Gate + Sync, R: Threads + Wait + Sync>(
    scope: &'s Scope<'s, E>,
    rt: &'s R,
    alloc: Global,
    progress: &'s Progress,
    gate: &'s G,
    lines: &'t [Line],
    table: &'t Table<D>,
    points: &[Serial],
    players: Vec<Player<D>>,
) -> Result<Vec<PromisedHandle<Result<SessionEnd, Fault>, SessionLog<'t, D>>>, Fault>
    requires { said.AreSeated table.now.table.shared.key points.now lines.now players.items }
    ensures count { said.IfOk result (λ handles. length handles.items ≡ length players.items) }
    ensures promised { said.IfOk result (λ handles. said.EachAt handles.items (λ i h. said.part_of h.promise.table.now.table.shared.key h.promise.number
        h.promise.point h.promise.lines.now ≡ said.part_at table.now.table.shared.key points.now lines.now i)) }
    ensures err { said.OnErr result (result ≡ said.Err said.Memory) }
{
    let mut handles = Vec::new(alloc);
    for player in players {
        let number = handles.len();
        let promise = SessionLog {
            table,
            lines,
            number,
            point: point_of(points, number),
        };
        let spawned = scope.spawn_with(
            promise,
            move || -> Result<SessionEnd, Fault>
                ensures { said.IfOk result (λ end. said.IsTold (said.opening D.Device) player end.is_whole end.log)
                    × said.OnErr result (result ≡ said.Err said.Memory) }
            { play_session(rt, progress, gate, number, player) },
        );
        let Ok(handle) = spawned else {
            return Err(Fault::Memory);
        };
        handles.push(handle)?;
    }
    Ok(handles)
}

/// What each session was told, as its thread gives it back, and whether they have all made the calls of their lines.
fn joined<'t, D: Device, R: Threads>(
    rt: &R,
    alloc: Global,
    table: &'t Table<D>,
    points: &[Serial],
    lines: &[Line],
    handles: Vec<PromisedHandle<Result<SessionEnd, Fault>, SessionLog<'t, D>>>,
) -> Result<(Vec<Log>, bool), Fault>
    requires { said.EachAt handles.items (λ i h. said.part_of h.promise.table.now.table.shared.key h.promise.number h.promise.point h.promise.lines.now ≡
        said.part_at table.now.table.shared.key points.now lines.now i) }
    ensures count { said.IfOk result (λ its. length its.0.items ≡ length handles.entry.items) }
    ensures told { said.IfOk result (λ its. said.AreLogs (said.opening D.Device) table.now.table.shared.key points.now lines.now its.1 its.0.items) }
    ensures err { said.OnErr result (result ≡ said.Err said.Memory) }
{
    let mut logs = Vec::new(alloc);
    let mut are_whole = true;
    for handle in handles {
        let SessionEnd { log, is_whole } = handle.join(rt)?;
        are_whole &= is_whole;
        logs.push(log)?;
    }
    Ok((logs, are_whole))
}

fn copy_of(alloc: Global, points: &[Serial]) -> Result<Vec<Serial>, Fault>
    ensures ok { said.IfOk result (λ copy. copy.items ≡ points.now) }
    ensures err { said.OnErr result (result ≡ said.Err said.Memory) }
{
    let mut copy = Vec::new(alloc);
    for point in points {
        copy.push(*point)?;
    }
    Ok(copy)
}

/// The point of the session of this number.
fn point_of(points: &[Serial], number: usize) -> Serial
    ensures { result ≡ said.point_at points.now number }
{
    match points.get(number) {
        Some(point) => *point,
        None => Serial(0),
    }
}
