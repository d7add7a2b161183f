//! Hints: how far the log has come, and where records lie. Nothing is claimed of what they tell. So a caller goes by them only to choose what to call.
ghost use Rattle.std.specs.Prelude.{◌≡◌, ◌<◌, ◌≤◌, ◌^◌};
ghost use Rattle.fkv_face.specs.Hints as says;

use crate::answers::refused;
use crate::held_session::HeldSession;
use crate::held_store::HeldStore;
use crate::told::DONE;
use fkv_base::{Addr, Fault, Key};

/// How far the log has come, and how many overflow buckets are taken.
#[repr(C)]
pub struct Offsets {
    pub closed: u64,
    pub head: u64,
    pub flushed: u64,
    pub safe_read_only: u64,
    pub read_only: u64,
    pub tail: u64,
    pub overflow: u64,
}

/// Tells the offsets, if there are some. Otherwise the refusal is this one.
fn tell_offsets(its: Option<fkv_handles::Offsets>, why: Fault, offsets: &mut Offsets) -> i32
    ensures { says.AreTold (says.is_some its) why result offsets.old offsets.new }
{
    match its {
        Some(its) => {
            offsets.closed = its.closed;
            offsets.head = its.head;
            offsets.flushed = its.flushed;
            offsets.safe_read_only = its.safe_read_only;
            offsets.read_only = its.read_only;
            offsets.tail = its.tail;
            offsets.overflow = its.overflow;
            DONE
        }
        None => refused(why),
    }
}

/// Hints at how far the log has come. `NoSession` once the handle is ended.
#[unsafe(no_mangle)]
pub extern "C" fn fkv_hint_offsets(session: &mut HeldSession, offsets: &mut Offsets) -> i32
    ensures told { says.AreTold (says.is_some (says.sitting_of session.old.value)) says.NoSession result offsets.old offsets.new }
    ensures same { session.new.value ≡ session.old.value }
{
    tell_offsets(session.lent().offsets(), Fault::NoSession, offsets)
}

/// Hints at how far the log of a store has come. `Broken` once the store is closed.
#[unsafe(no_mangle)]
pub extern "C" fn fkv_hint_store(store: &mut HeldStore, offsets: &mut Offsets) -> i32
    ensures told { says.AreTold (says.store_is_open store.old.value) says.Broken result offsets.old offsets.new }
    ensures same { store.new.value ≡ store.old.value }
{
    tell_offsets(store.lent().offsets(), Fault::Broken, offsets)
}

/// Hints at the address of the newest record of a key's home, which may be another key's. 0 where none is seen.
#[unsafe(no_mangle)]
pub extern "C" fn fkv_hint_where(session: &mut HeldSession, key: u64) -> u64
    ensures fits { result < 2 ^ 48 }
    ensures same { session.new.value ≡ session.old.value }
{
    session.lent().where_led(Key(key))
}

/// Hints at the keys of the records in memory from an address on, as many as there is room for. Gives their count.
#[unsafe(no_mangle)]
pub extern "C" fn fkv_hint_keys(session: &mut HeldSession, address: u64, keys: &mut [u64]) -> usize
    ensures count { result ≤ says.length keys.new }
    ensures room { says.length keys.new ≡ says.length keys.old }
    ensures same { session.new.value ≡ session.old.value }
{
    session.lent().keys_from(Addr(address), keys)
}
