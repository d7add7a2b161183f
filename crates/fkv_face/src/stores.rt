//! A store is made, opened, handed out and closed.
ghost use Rattle.std.specs.Prelude.{◌≡◌};
ghost use Rattle.fkv_face.specs.Stores as says;

use crate::answers::{ROOM_SMALL, not_given, refused};
use crate::held_store::HeldStore;
use crate::sizes::{Image, Sizes, shape_of, tell};
use fkv_base::Fault;
use fkv_disk::Device;
use fkv_handles::{Store, image_of};
use fkv_posted::Posted;
use fkv_spread::Keys;
use std::alloc::Global;

fn send<T: Send>(_value: &T) {}

/// How the keys lie: 0 says that the library spreads them, and any other number that the caller has done so.
fn keys_told(keys: u32) -> Keys
    ensures { result ≡ says.keys_told keys }
{
    if keys == 0 {
        Keys::Spread
    } else {
        Keys::AsTheyAre
    }
}

/// How many records memory is given at most: 0 says all that fit, and the greatest number none.
fn most_told(warm: u64) -> u64
    ensures { result ≡ says.most_told warm }
{
    if warm == 0 {
        u64::MAX
    } else if warm == u64::MAX {
        0
    } else {
        warm
    }
}

/// Writes the bytes to the front of the room.
pub(crate) fn put(bytes: &[u8], into: &mut [u8]) -> i32
    ensures { says.IsPut bytes.now result into.old into.new }
{
    if into.len() < bytes.len() {
        return ROOM_SMALL;
    }
    let (front, _) = into.split_at_mut(bytes.len());
    front.copy_from_slice(bytes);
    0
}

/// Writes the image of a new living store: 1,536 bytes, for a file that the caller makes. Its index has the margin of its sessions on top of the
/// overflow buckets that are asked for. `BadShape`, `Memory`; `ROOM_SMALL` where there is less room.
#[unsafe(no_mangle)]
pub extern "C" fn fkv_image(alloc: Global, sizes: &Sizes, into: &mut [u8]) -> i32
    ensures { says.IsImage sizes.now result into.old into.new }
{
    match shape_of(sizes) {
        Ok(shape) => match image_of(alloc, shape.with_margin()) {
            Ok(bytes) => put(&bytes, into),
            Err(why) => refused(why),
        },
        Err(why) => refused(why),
    }
}

/// Opens the store of this image, of either class: the bytes of its file, all of them synced. They aren't needed behind the call. Memory gets
/// its newest records, at most so many: 0 says all that fit, and the greatest number none. It tells the sizes, the number of the last commit,
/// and the points, as many as there is room for. `NotAStore`, `Damaged` with the part and its place, `Memory`.
#[unsafe(no_mangle)]
pub extern "C" fn fkv_open(
    alloc: Global,
    bytes: &[u8],
    keys: u32,
    warm: u64,
    out: &mut *mut u8,
    sizes: &mut Sizes,
    image: &mut Image,
    points: &mut [u64],
) -> i32
    ensures { says.IsOpening (says.opening ⟦<Posted<'static> as Device>⟧) bytes.now keys warm result out.old out.new sizes.old sizes.new image.old image.new
        points.old points.new }
{
    match Store::open(alloc, bytes, keys_told(keys), most_told(warm)) {
        Ok((store, recovered)) => {
            tell(&recovered, sizes, image, points);
            match Box::new(alloc, store) {
                Ok(held) => {
                    *out = Box::into_raw(held).cast();
                    0
                }
                Err(_) => refused(Fault::Memory),
            }
        }
        Err(why) => {
            image.damaged(why);
            refused(why)
        }
    }
}

/// Takes a session's handle, which may go into any thread. `NoSession`, `HANDLE_TAKEN`; `Memory`, and then the handle is lost.
#[unsafe(no_mangle)]
pub extern "C" fn fkv_take_session(
    alloc: Global,
    store: &mut HeldStore,
    number: u64,
    out: &mut *mut u8,
) -> i32
    ensures { says.IsSessionTaken store.old.value number result out.old out.new store.new.value }
{
    match store.lent().take_session(number as usize) {
        Ok(session) => {
            send(&session);
            match Box::new(alloc, session) {
                Ok(held) => {
                    *out = Box::into_raw(held).cast();
                    0
                }
                Err(_) => refused(Fault::Memory),
            }
        }
        Err(why) => not_given(why),
    }
}

/// Takes the keeper's handle, which may go into any thread. `HANDLE_TAKEN`; `Memory`, and then the handle is lost.
#[unsafe(no_mangle)]
pub extern "C" fn fkv_take_keeper(alloc: Global, store: &mut HeldStore, out: &mut *mut u8) -> i32
    ensures { says.IsKeeperTaken store.old.value result out.old out.new store.new.value }
{
    match store.lent().take_keeper() {
        Ok(keeper) => {
            send(&keeper);
            match Box::new(alloc, keeper) {
                Ok(held) => {
                    *out = Box::into_raw(held).cast();
                    0
                }
                Err(_) => refused(Fault::Memory),
            }
        }
        Err(why) => not_given(why),
    }
}

/// Closes the store, and frees its table. `HANDLE_OUT` while a handle is out. The block of the handle is left to the caller, who frees it.
#[unsafe(no_mangle)]
pub extern "C" fn fkv_close(alloc: Global, store: &mut HeldStore) -> i32
    ensures { says.IsClosed store.old.value result store.new.value }
{
    match store.lent().close(alloc) {
        Ok(()) => 0,
        Err(why) => not_given(why),
    }
}
