//! Calls of many keys: the calls one behind the other. What they read of memory is fetched ahead, which changes nothing.
ghost use Rattle.std.specs.Prelude.{◌≡◌, ◌≤◌};
ghost use Rattle.fkv_face.specs.Many as says;

use crate::answers::{NO_MERGE, ROOM_SMALL};
use crate::held_session::HeldSession;
use crate::sessions::{merge_numbered, run_op};
use fkv_base::{Key, Value};
use fkv_disk::Device;
use fkv_handles::Session;
use fkv_map::{Merge, Op};
use fkv_posted::Posted;

/// One read of many: what `fkv_get` answers and tells.
#[repr(C)]
#[derive(Clone, Copy)]
pub struct EachRead {
    pub value: u64,
    pub result: i32,
}

/// One update of many: what `fkv_upsert`, `fkv_add` or `fkv_merge` answers and tells.
#[repr(C)]
#[derive(Clone, Copy)]
pub struct EachUpdate {
    pub serial: u64,
    pub value: u64,
    pub reason: u64,
    pub result: i32,
}

/// What an update does with a key and a number.
#[derive(Clone, Copy)]
enum Kind {
    Upsert,
    Add,
    Merge(Merge),
}

/// So many keys are fetched at once: about as many misses as a processor's core waits for at the same time.
const AHEAD: usize = 16;

/// Fetches the cache lines of the keys' buckets, and then those of their records, which the buckets name.
#[inline(always)]
fn fetch_each(session: &Session, keys: &[u64]) {
    for key in keys {
        session.fetch_bucket(Key(*key));
    }
    for key in keys {
        session.fetch_record(Key(*key));
    }
}

/// Fetches for the next keys, where those are done for which it was done before. A session that doesn't know yet where buckets lie finds out by its
/// first call, so behind that the rest of the first keys have their turn again.
#[inline(always)]
fn fetch_ahead(session: &mut HeldSession, keys: &[u64], done: usize)
    requires { done ≤ says.length keys.now }
    ensures same { session.new.value ≡ session.old.value }
{
    let behind = done % AHEAD;
    if behind == 0 || done == 1 {
        let rest = &keys[done..];
        let count = rest.len().min(AHEAD - behind);
        fetch_each(session.lent(), &rest[..count]);
    }
}

#[inline(always)]
fn read_one(session: &mut HeldSession, key: u64) -> EachRead
    ensures { says.IsEachRead (says.opening ⟦<Posted<'static> as Device>⟧) session.old.value key result session.new.value }
{
    let its = run_op(session, Op::Read(Key(key)));
    EachRead {
        value: its.first,
        result: its.result,
    }
}

/// Reads each key, in order.
fn read_each(session: &mut HeldSession, keys: &[u64], told: &mut [EachRead])
    requires { says.length keys.now ≤ says.length told.old }
    ensures { says.AreCalled (says.IsEachRead (says.opening ⟦<Posted<'static> as Device>⟧)) session.old.value keys.now told.old told.new session.new.value }
{
    for i in 0..keys.len() {
        fetch_ahead(session, keys, i);
        told[i] = read_one(session, keys[i]);
    }
}

/// Reads many keys, in order: each as `fkv_get` does, and its answer is told at its place. A refusal of one doesn't end the others. 0; `ROOM_SMALL`
/// where there are fewer places than keys, and then nothing is done.
#[unsafe(no_mangle)]
pub extern "C" fn fkv_get_many(
    session: &mut HeldSession,
    keys: &[u64],
    told: &mut [EachRead],
) -> i32
    ensures { says.AreRead (says.opening ⟦<Posted<'static> as Device>⟧) session.old.value keys.now result told.old told.new session.new.value }
{
    if told.len() < keys.len() {
        return ROOM_SMALL;
    }
    read_each(session, keys, told);
    0
}

#[inline(always)]
fn op_of(kind: Kind, key: u64, number: u64) -> Op
    ensures { result ≡ says.making kind key number }
{
    match kind {
        Kind::Upsert => Op::Upsert(Key(key), Value(number)),
        Kind::Add => Op::Add(Key(key), number),
        Kind::Merge(which) => Op::Merge(Key(key), which, number),
    }
}

#[inline(always)]
fn update_one(session: &mut HeldSession, kind: Kind, key: u64, number: u64) -> EachUpdate
    ensures { says.IsEachUpdate (says.opening ⟦<Posted<'static> as Device>⟧) (says.making kind) session.old.value (key, number) result session.new.value }
{
    let its = run_op(session, op_of(kind, key, number));
    EachUpdate {
        serial: its.first,
        value: its.second,
        reason: its.third,
        result: its.result,
    }
}

/// Updates each key by its number, in order.
#[inline(always)]
fn update_each(
    session: &mut HeldSession,
    kind: Kind,
    keys: &[u64],
    numbers: &[u64],
    told: &mut [EachUpdate],
)
    requires numbers { says.length numbers.now ≡ says.length keys.now }
    requires room { says.length keys.now ≤ says.length told.old }
    ensures { says.AreCalled (says.IsEachUpdate (says.opening ⟦<Posted<'static> as Device>⟧) (says.making kind)) session.old.value
        (says.zip keys.now numbers.now) told.old told.new session.new.value }
{
    for i in 0..keys.len() {
        fetch_ahead(session, keys, i);
        told[i] = update_one(session, kind, keys[i], numbers[i]);
    }
}

#[inline(always)]
fn update_many(
    session: &mut HeldSession,
    kind: Kind,
    keys: &[u64],
    numbers: &[u64],
    told: &mut [EachUpdate],
) -> i32
    ensures { says.AreUpdated (says.opening ⟦<Posted<'static> as Device>⟧) (says.making kind) session.old.value keys.now numbers.now result told.old told.new
        session.new.value }
{
    if numbers.len() != keys.len() || told.len() < keys.len() {
        return ROOM_SMALL;
    }
    update_each(session, kind, keys, numbers, told);
    0
}

/// Gives many keys their values, in order: each as `fkv_upsert` does, and its answer is told at its place. A refusal of one doesn't end the others.
/// 0; `ROOM_SMALL` where there are other than as many values as keys, or fewer places, and then nothing is done.
#[unsafe(no_mangle)]
pub extern "C" fn fkv_upsert_many(
    session: &mut HeldSession,
    keys: &[u64],
    values: &[u64],
    told: &mut [EachUpdate],
) -> i32
    ensures { says.AreUpdated (says.opening ⟦<Posted<'static> as Device>⟧) says.upsert_of session.old.value keys.now values.now result told.old told.new
        session.new.value }
{
    update_many(session, Kind::Upsert, keys, values, told)
}

/// Adds to the values of many keys, in order, as `fkv_add` does. It answers and refuses as `fkv_upsert_many`.
#[unsafe(no_mangle)]
pub extern "C" fn fkv_add_many(
    session: &mut HeldSession,
    keys: &[u64],
    numbers: &[u64],
    told: &mut [EachUpdate],
) -> i32
    ensures { says.AreUpdated (says.opening ⟦<Posted<'static> as Device>⟧) says.add_of session.old.value keys.now numbers.now result told.old told.new
        session.new.value }
{
    update_many(session, Kind::Add, keys, numbers, told)
}

/// Merges numbers into the values of many keys, in order, as `fkv_merge` does. It answers and refuses as `fkv_upsert_many`; or `NO_MERGE` where no merge
/// has that number, and then nothing is done.
#[unsafe(no_mangle)]
pub extern "C" fn fkv_merge_many(
    session: &mut HeldSession,
    which: u32,
    keys: &[u64],
    numbers: &[u64],
    told: &mut [EachUpdate],
) -> i32
    ensures { says.AreMerged (says.opening ⟦<Posted<'static> as Device>⟧) (says.merge_numbered which) session.old.value keys.now numbers.now result told.old
        told.new session.new.value }
{
    match merge_numbered(which) {
        Some(which) => update_many(session, Kind::Merge(which), keys, numbers, told),
        None => NO_MERGE,
    }
}
