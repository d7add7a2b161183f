//! The keeper's calls. What a turn needs of the device is posted.
ghost use Rattle.std.specs.Prelude.{◌≡◌};
ghost use Rattle.fkv_face.specs.Turns as says;

use crate::answers::refused;
use crate::held_keeper::HeldKeeper;
use crate::outcomes::outcome_of;
use crate::points::tell_points;
use fkv_base::{CommitKind, Fault, Key, Version};
use fkv_disk::{Device, DeviceAsk};
use fkv_handles::{Leave, TurnAsk};
use fkv_keeper::Turn;
use fkv_posted::Posted;
use std::ptr::from_ref;

/// What a turn has come to.
#[repr(C)]
pub struct Turned {
    /// The place of the call that is posted, in bytes.
    pub place: u64,
    /// Its length in bytes.
    pub length: u64,
    /// What a write is to write, up to the next call of this keeper.
    pub bytes: *const u8,
    /// 1 where the turn has finished a commit: its number, and its points.
    pub finished: u64,
    pub number: u64,
    /// 1 where a part was left to a later turn, since no drain slot was free.
    pub drain_full: u64,
}

/// What C is told of a piece of a turn.
#[derive(Clone, Copy)]
struct Code {
    number: i32,
}

const OVER: i32 = 0;

const READ: i32 = 1;

const WRITE: i32 = 2;

const SYNC: i32 = 3;

/// Tells where the call lies that is posted.
fn place(turned: &mut Turned, place: u64, length: usize)
    ensures { turned.new ≡ record turned.old { place = place; length = length } }
{
    turned.place = place;
    turned.length = length as u64;
}

/// Tells the call that is posted.
fn posted(ask: Option<DeviceAsk<'_>>, turned: &mut Turned) -> Code
    ensures { says.IsPosted (says.asked_call ask.entry) result.number turned.old turned.new }
{
    match ask {
        Some(DeviceAsk::Read(at, length)) => {
            place(turned, at, length);
            Code { number: READ }
        }
        Some(DeviceAsk::Write(at, bytes)) => {
            place(turned, at, bytes.len());
            if let Some(first) = bytes.first() {
                turned.bytes = from_ref(first);
            }
            Code { number: WRITE }
        }
        Some(DeviceAsk::Sync) => Code { number: SYNC },
        None => Code { number: OVER },
    }
}

/// Tells what a turn has done that is over.
fn over(turn: Turn, turned: &mut Turned, points: &mut [u64]) -> Code
    ensures { says.IsOver turn result.number turned.old turned.new points.old points.new }
{
    turned.drain_full = if turn.drain_full { 1 } else { 0 };
    match turn.finished {
        Some(its) => {
            turned.finished = 1;
            turned.number = its.number.0;
            tell_points(&its.points, points);
        }
        None => turned.finished = 0,
    }
    Code { number: OVER }
}

/// Tells what comes next of a turn.
fn next(keeper: &mut HeldKeeper, ask: TurnAsk, turned: &mut Turned, points: &mut [u64]) -> Code
    ensures next { says.IsNext ask (says.due_of (says.watch_of keeper.old.value)) result.number turned.old turned.new points.old points.new }
    ensures same { keeper.new.value ≡ keeper.old.value }
{
    match ask {
        TurnAsk::Device => posted(keeper.lent().posted(), turned),
        TurnAsk::Over(Ok(turn)) => over(turn, turned, points),
        TurnAsk::Over(Err(why)) => Code {
            number: refused(why),
        },
    }
}

/// Begins a turn, or tells again what the turn in hand has posted. `READ` or `WRITE` with place and length, `SYNC`, or `OVER`. A turn ends early
/// with `Broken`, `Device`, `EpochsSpent` or `Memory`.
#[unsafe(no_mangle)]
pub extern "C" fn fkv_turn(keeper: &mut HeldKeeper, turned: &mut Turned, points: &mut [u64]) -> i32
    ensures { says.IsTurned ⟦<Posted<'static> as Device>⟧ keeper.old.value result turned.old turned.new points.old points.new keeper.new.value }
{
    let ask = keeper.lent().turn(Leave {
        rests: true,
        sweep: true,
    });
    next(keeper, ask, turned, points).number
}

/// As `fkv_turn`, but that writes of a commit that rest, or a flush, don't go on: the turn serves mailboxes alone then.
#[unsafe(no_mangle)]
pub extern "C" fn fkv_serve(keeper: &mut HeldKeeper, turned: &mut Turned, points: &mut [u64]) -> i32
    ensures { says.IsTurned ⟦<Posted<'static> as Device>⟧ keeper.old.value result turned.old turned.new points.old points.new keeper.new.value }
{
    let ask = keeper.lent().turn(Leave {
        rests: false,
        sweep: false,
    });
    next(keeper, ask, turned, points).number
}

/// As `fkv_serve`, but that a sweep of the log's front goes on, behind a commit of the kind `TRIM`.
#[unsafe(no_mangle)]
pub extern "C" fn fkv_sweep(keeper: &mut HeldKeeper, turned: &mut Turned, points: &mut [u64]) -> i32
    ensures { says.IsTurned ⟦<Posted<'static> as Device>⟧ keeper.old.value result turned.old turned.new points.old points.new keeper.new.value }
{
    let ask = keeper.lent().turn(Leave {
        rests: false,
        sweep: true,
    });
    next(keeper, ask, turned, points).number
}

/// 1 where the writes of the commit in hand rest, or a flush does, and weren't let go on: `fkv_serve` only serves then. (A hint: no clause speaks of it.)
#[unsafe(no_mangle)]
pub extern "C" fn fkv_rests(keeper: &mut HeldKeeper) -> i32
    ensures same { keeper.new.value ≡ keeper.old.value }
{
    if keeper.lent().rests() { 1 } else { 0 }
}

/// Tells how the call that is posted has gone, and what comes next, as `fkv_turn` tells it. The bytes are what a read gave: what was last written
/// there. A call that failed is told by a number that isn't 0.
#[unsafe(no_mangle)]
pub extern "C" fn fkv_told(
    keeper: &mut HeldKeeper,
    failed: u32,
    bytes: &[u8],
    turned: &mut Turned,
    points: &mut [u64],
) -> i32
    requires honest { says.IsToldHonestly (says.outcome_of (says.due_of (says.watch_of keeper.old.value)) failed bytes.now) (says.watch_of keeper.old.value) }
    ensures { says.IsTold ⟦<Posted<'static> as Device>⟧ failed bytes.now keeper.old.value result turned.old turned.new points.old points.new keeper.new.value }
{
    let told = outcome_of(keeper.lent().posted(), failed, bytes);
    let ask = keeper.lent().tell(told);
    next(keeper, ask, turned, points).number
}

/// A full commit behind which the log's front is swept.
const TRIM: u32 = 2;

fn kind_of(kind: u32) -> CommitKind
    ensures { result ≡ says.kind_of kind }
{
    match kind {
        0 | TRIM => CommitKind::Full,
        _ => CommitKind::Log,
    }
}

/// Begins a commit of a kind: a full one (0), or behind which the log's front is swept (`TRIM`), or a log commit.
fn ask(keeper: &mut HeldKeeper, kind: u32) -> Result<Version, Fault>
    ensures { says.IsAskedBy ⟦<Posted<'static> as Device>⟧ (says.kind_of kind) (says.watch_of keeper.old.value) result (says.watch_of keeper.new.value) }
{
    if kind == TRIM {
        return keeper.lent().ask_trim();
    }
    let kind = kind_of(kind);
    keeper.lent().ask_commit(kind)
}

/// Begins a commit, and tells its number: a full one where `kind` is 0, one behind which the log's front is swept where it is 2, and else a log
/// commit. `Broken`, `CommitRunning`, also in the middle of a turn, `VersionsSpent`, `LostFull`, `EpochsSpent`, `DrainFull`.
#[unsafe(no_mangle)]
pub extern "C" fn fkv_commit(keeper: &mut HeldKeeper, kind: u32, number: &mut u64) -> i32
    ensures { says.HasAsked ⟦<Posted<'static> as Device>⟧ kind keeper.old.value result number.old number.new keeper.new.value }
{
    match ask(keeper, kind) {
        Ok(version) => {
            *number = version.0;
            0
        }
        Err(why) => refused(why),
    }
}

/// Ends the handle, and gives its share of the table up. Its block is left to the caller, who frees it.
#[unsafe(no_mangle)]
pub extern "C" fn fkv_end_keeper(keeper: &mut HeldKeeper)
    ensures { says.watch_of keeper.new.value ≡ says.None }
{
    keeper.lent().end();
}

/// Tells the keys, as many as there is room for, and how many those are.
fn tell_keys(wanted: &[Key], keys: &mut [u64]) -> usize
    ensures { says.IsWanted wanted.now result keys.old keys.new }
{
    let count = wanted.len().min(keys.len());
    for i in 0..count {
        keys[i] = wanted[i].0;
    }
    count
}

/// Writes the keys that the sweep's last turn has found wanted, as the store has them, as far as there is room, and tells how many those are.
#[unsafe(no_mangle)]
pub extern "C" fn fkv_wanted(keeper: &mut HeldKeeper, keys: &mut [u64]) -> usize
    ensures told { says.IsWanted (says.wanted_of (says.watch_of keeper.old.value)) result keys.old keys.new }
    ensures same { keeper.new.value ≡ keeper.old.value }
{
    tell_keys(keeper.lent().wanted(), keys)
}

/// Where the log of the newest finished commit begins: no record below that is read any more, nor counts behind a crash. 0 once the handle is ended.
#[unsafe(no_mangle)]
pub extern "C" fn fkv_begin(keeper: &mut HeldKeeper) -> u64
    ensures told { result ≡ says.begin_told (says.begin_of (says.watch_of keeper.old.value)) }
    ensures same { keeper.new.value ≡ keeper.old.value }
{
    match keeper.lent().begin() {
        Some(begin) => begin.0,
        None => 0,
    }
}
