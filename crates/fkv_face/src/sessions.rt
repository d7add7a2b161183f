//! A session's calls.
ghost use Rattle.std.specs.Prelude.{◌≡◌};
ghost use Rattle.fkv_face.specs.Calls as says;

use crate::answers::{NO_MERGE, refused};
use crate::held_session::HeldSession;
use crate::told::{DONE, Numbers, told_by};
use fkv_base::{Key, Value};
use fkv_disk::Device;
use fkv_map::{Call, Merge, Op};
use fkv_posted::Posted;

/// What an update has told: its serial, the value that an add, a max or a merge left, and why it waits, if it does.
#[repr(C)]
pub struct Update {
    pub serial: u64,
    pub value: u64,
    pub reason: u64,
}

/// The phase and the version that a session has seen.
#[repr(C)]
pub struct Seen {
    pub phase: u64,
    pub version: u64,
}

pub(crate) fn run(session: &mut HeldSession, call: Call) -> Numbers
    ensures { says.IsToldIn (says.opening ⟦<Posted<'static> as Device>⟧) session.old.value call result session.new.value }
{
    told_by(session.lent().tell(call))
}

/// An operation by what it was told: it is called so often that no `Answer` is made for it.
#[inline(always)]
pub(crate) fn run_op(session: &mut HeldSession, op: Op) -> Numbers
    ensures { says.IsToldIn (says.opening ⟦<Posted<'static> as Device>⟧) session.old.value (says.Operation op) result session.new.value }
{
    told_by(session.lent().op(op))
}

/// Tells what came of an update.
#[inline(always)]
fn tell_update(its: Numbers, told: &mut Update) -> i32
    ensures result { result ≡ its.result }
    ensures told { told.new ≡ record { serial = its.first; value = its.second; reason = its.third } }
{
    told.serial = its.first;
    told.value = its.second;
    told.reason = its.third;
    its.result
}

/// Asks for the value of a key. `FOUND`, with the value; `NONE`; or `PENDING`, with the ticket by which a poll answers. `Asleep`, `PendingFull`.
#[unsafe(no_mangle)]
pub extern "C" fn fkv_get(session: &mut HeldSession, key: u64, value: &mut u64) -> i32
    ensures { says.IsRead (says.opening ⟦<Posted<'static> as Device>⟧) session.old.value key result value.new session.new.value }
{
    let its = run_op(session, Op::Read(Key(key)));
    *value = its.first;
    its.result
}

/// Gives a key this value. `DONE`, or `PENDING` with the reason. `Asleep`, `ValueReserved`, `PendingFull`, `SerialsSpent`, `IndexFull`, `LogFull`.
#[unsafe(no_mangle)]
pub extern "C" fn fkv_upsert(
    session: &mut HeldSession,
    key: u64,
    value: u64,
    told: &mut Update,
) -> i32
    ensures { says.IsUpdated (says.opening ⟦<Posted<'static> as Device>⟧) session.old.value (says.upsert_of key value) result told.new session.new.value }
{
    tell_update(run_op(session, Op::Upsert(Key(key), Value(value))), told)
}

/// Adds to the value of a key, up to 2^64 - 2, and tells what it left. Answers and refusals are those of `fkv_upsert`.
#[unsafe(no_mangle)]
pub extern "C" fn fkv_add(
    session: &mut HeldSession,
    key: u64,
    number: u64,
    told: &mut Update,
) -> i32
    ensures { says.IsUpdated (says.opening ⟦<Posted<'static> as Device>⟧) session.old.value (says.add_of key number) result told.new session.new.value }
{
    tell_update(run_op(session, Op::Add(Key(key), number)), told)
}

/// Raises the value of a key to this number, and tells what it left. Answers and refusals are those of `fkv_upsert`.
#[unsafe(no_mangle)]
pub extern "C" fn fkv_max(
    session: &mut HeldSession,
    key: u64,
    number: u64,
    told: &mut Update,
) -> i32
    ensures { says.IsUpdated (says.opening ⟦<Posted<'static> as Device>⟧) session.old.value (says.max_of key number) result told.new session.new.value }
{
    tell_update(run_op(session, Op::Max(Key(key), number)), told)
}

/// The merge of this number, if there is one.
#[inline(always)]
pub(crate) fn merge_numbered(number: u32) -> Option<Merge>
    ensures { result ≡ says.merge_numbered number }
{
    match number {
        0 => Some(Merge::Keep),
        1 => Some(Merge::Min),
        2 => Some(Merge::Sub),
        3 => Some(Merge::And),
        4 => Some(Merge::Or),
        5 => Some(Merge::First),
        _ => None,
    }
}

/// Merges a number into the value of a key, as the merge of this number does, and tells what it left. Answers and refusals are those of `fkv_upsert`; or
/// `NO_MERGE` where no merge has that number, and then nothing is done. A keep tells what `fkv_keep` does, and doesn't look at its number.
#[unsafe(no_mangle)]
pub extern "C" fn fkv_merge(
    session: &mut HeldSession,
    key: u64,
    which: u32,
    number: u64,
    told: &mut Update,
) -> i32
    ensures { says.IsMerged (says.opening ⟦<Posted<'static> as Device>⟧) session.old.value (says.merge_numbered which) key number result told.old told.new
        session.new.value }
{
    match merge_numbered(which) {
        Some(which) => tell_update(run_op(session, Op::Merge(Key(key), which, number)), told),
        None => NO_MERGE,
    }
}

/// An update that leaves the value of a key as it is. It tells that value, and the word of no value where there is none. Answers and refusals are those of
/// `fkv_delete`.
#[unsafe(no_mangle)]
pub extern "C" fn fkv_keep(session: &mut HeldSession, key: u64, told: &mut Update) -> i32
    ensures { says.IsUpdated (says.opening ⟦<Posted<'static> as Device>⟧) session.old.value (says.keep_of key) result told.new session.new.value }
{
    tell_update(run_op(session, Op::Merge(Key(key), Merge::Keep, 0)), told)
}

/// Takes the value of a key away. Answers and refusals are those of `fkv_upsert`, but for `ValueReserved`.
#[unsafe(no_mangle)]
pub extern "C" fn fkv_delete(session: &mut HeldSession, key: u64, told: &mut Update) -> i32
    ensures { says.IsUpdated (says.opening ⟦<Posted<'static> as Device>⟧) session.old.value (says.delete_of key) result told.new session.new.value }
{
    tell_update(run_op(session, Op::Delete(Key(key))), told)
}

/// Tells the phase and the version that the session has seen from now on. `Asleep`.
#[unsafe(no_mangle)]
pub extern "C" fn fkv_refresh(session: &mut HeldSession, seen: &mut Seen) -> i32
    ensures { says.IsSeen (says.opening ⟦<Posted<'static> as Device>⟧) session.old.value says.refresh result seen.new session.new.value }
{
    let its = run(session, Call::Refresh);
    seen.phase = its.first;
    seen.version = its.second;
    its.result
}

/// The session sleeps: it holds nobody up. `Asleep`, `PendingLeft`.
#[unsafe(no_mangle)]
pub extern "C" fn fkv_sleep(session: &mut HeldSession) -> i32
    ensures { says.IsPlain (says.opening ⟦<Posted<'static> as Device>⟧) session.old.value says.sleep result session.new.value }
{
    run(session, Call::Sleep).result
}

/// The session is awake again, and has seen this phase and version. `Awake`.
#[unsafe(no_mangle)]
pub extern "C" fn fkv_wake(session: &mut HeldSession, seen: &mut Seen) -> i32
    ensures { says.IsSeen (says.opening ⟦<Posted<'static> as Device>⟧) session.old.value says.wake result seen.new session.new.value }
{
    let its = run(session, Call::Wake);
    seen.phase = its.first;
    seen.version = its.second;
    its.result
}

/// The last serial that the session has given, and 0 if it has given none. Behind an opening that is the session's point. `NoSession` once the handle is
/// ended, and then 0.
#[unsafe(no_mangle)]
pub extern "C" fn fkv_serial(session: &mut HeldSession, serial: &mut u64) -> i32
    ensures told { says.IsSerialTold (says.opening ⟦<Posted<'static> as Device>⟧) session.old.value result serial.new }
    ensures same { session.new.value ≡ session.old.value }
{
    match session.lent().serial() {
        Ok(its) => {
            *serial = its.0;
            DONE
        }
        Err(why) => {
            *serial = 0;
            refused(why)
        }
    }
}

/// Two sessions of one store meet: each has then seen what either had seen, and its next calls stand behind all of that. So each reads what the other was told
/// done, or something newer. `NoSession` if a handle was ended, and then both stay as they are.
#[unsafe(no_mangle)]
pub extern "C" fn fkv_meet(session: &mut HeldSession, other: &mut HeldSession) -> i32
    requires one_store { says.AreOfOneStore (says.sitting_of session.old.value) (says.sitting_of other.old.value) }
    ensures met { says.IsMet (says.opening ⟦<Posted<'static> as Device>⟧) session.old.value other.old.value result session.new.value other.new.value }
{
    match session.lent().meet(other.lent()) {
        Ok(()) => DONE,
        Err(why) => refused(why),
    }
}

/// The last serial of the session that a finished commit keeps: its updates up to there survive a crash from now on.
#[unsafe(no_mangle)]
pub extern "C" fn fkv_durable(session: &mut HeldSession, serial: &mut u64) -> i32
    ensures { says.IsOneNumber (says.opening ⟦<Posted<'static> as Device>⟧) session.old.value says.durable result serial.new session.new.value }
{
    let its = run(session, Call::Durable);
    *serial = its.first;
    its.result
}
