//! A renewal, from file to file.
ghost use Rattle.std.specs.Prelude.{◌≡◌, ◌+◌, ◌*◌, ◌≤◌, Some, length};
ghost use Rattle.fkv_renew.specs.Said as said;

use crate::places::{NewFile, Place};
use crate::saved::{Saved, Taken};
use crate::sizes::shape_of;
use crate::stores::{Store, read_store};
use crate::telling::Teller;
use crate::words::Asked;
use fkv_base::{Addr, Fault, Shape, Version};
use fkv_disk::Device;
use fkv_files::{StorePlaces, Trouble};
use fkv_lines::Sizes;
use fkv_renewing::{law_pairs, renew};
use fkv_spread::Keys;
use std::alloc::{AllocError, Global};
use std::io::Write;

/// Why no store was renewed.
#[derive(Clone, Copy)]
pub(crate) enum Refusal {
    /// No store of their class has these sizes.
    Sizes(Sizes),
    /// The file of the old store, which isn't read then.
    Old(Trouble),
    /// The fault of the old store.
    Unopened(Fault),
    /// The file of the new one, under its first name.
    First(Trouble),
    /// Its own name.
    New(Trouble),
    /// The new store has no room.
    Unfit(Fault),
    /// Memory was refused.
    Memory,
}

impl From<AllocError> for Refusal {
    ghost use Rattle.fkv_renew.specs.declared.renewals.Refusal.TheVariants.{Memory};

    ghost from_gives = { λ _ refusal. refusal ≡ Memory };

    fn from(_error: AllocError) -> Refusal {
        Refusal::Memory
    }
}

/// What a file's name ends with until it is whole.
const ENDING: &str = ".renewing";

/// Renews the store in one file into another, which isn't there before: just its pairs, their keys laid as is asked for, and its points.
/// That one has another name until it is whole, and isn't there where the renewal is refused. The store's file is locked meanwhile, and
/// never written.
pub(crate) fn renew_file<S: StorePlaces, E: Write>(
    places: &S,
    alloc: Global,
    asked: Asked<'_>,
    teller: &mut Teller<E>,
) -> Result<Saved, Refusal>
    ensures ok { said.IfOk result (said.IsSavedFrom (said.files_of S.Disk.honest S.Disk.seen S.Disk.may_leave (S.is_opened places.now) (S.is_named places.now)) asked.entry) }
    ensures err { said.IfErr result (said.IsRefusal (said.files_of S.Disk.honest S.Disk.seen S.Disk.may_leave (S.is_opened places.now) (S.is_named places.now)) asked.entry) }
{
    let wanted = match wanted_of(asked.sizes) {
        Ok(wanted) => wanted,
        Err(sizes) => return Err(Refusal::Sizes(sizes)),
    };
    if let Err(trouble) = places.expect_none(asked.new) {
        return Err(Refusal::New(trouble));
    }
    let mut first = String::from_str(alloc, asked.new)?;
    first.push_str(ENDING)?;
    let (device, length) = match places.open_alone(asked.old) {
        Ok(found) => found,
        Err(trouble) => return Err(Refusal::Old(trouble)),
    };
    let mut place = NewFile::new(places, first.as_str(), asked.new, asked.old);
    renew_store(
        alloc, device, length, wanted, asked.keys, &mut place, teller,
    )
}

/// The shape of the sizes that are asked for, where some are; or sizes that no store of their class has.
fn wanted_of(sizes: Option<Sizes>) -> Result<Option<Shape>, Sizes>
    ensures ok { said.IfOk result (said.IsWanted sizes) }
    ensures err { said.IfErr result (λ refused. (sizes ≡ Some refused) × (¬ (said.AreSizes refused))) }
{
    let Some(sizes) = sizes else {
        return Ok(None);
    };
    match shape_of(sizes) {
        Ok(shape) => Ok(Some(shape)),
        Err(_) => Err(sizes),
    }
}

/// Renews the store on a device of so many bytes, its keys laid so, to a place where nothing has its name.
fn renew_store<D: Device + Drop, P: Place, E: Write>(
    alloc: Global,
    device: D,
    length: Option<u64>,
    wanted: Option<Shape>,
    keys: Keys,
    place: &mut P,
    teller: &mut Teller<E>,
) -> Result<Saved, Refusal>
    ensures ok { said.IfOk result (λ saved. (new : P.Device) × (P.named place.new ≡ Some new) × P.has_name place.old new × said.Renews D.honest D.seen P.Device.honest P.Device.seen P.Device.may_leave wanted keys device new saved) }
    ensures err { said.IfErr result (said.IsUnrenewed D.honest D.seen wanted keys device) }
    ensures unnamed { said.OnErr result (P.named place.new ≡ P.named place.old) }
{
    law_pairs();
    teller.step("1 of 2: reading the old store");
    // The device is kept to the end, and its file's lock with it.
    let (_device, store) = match read_store(alloc, device, length) {
        Ok(found) => found,
        Err(fault) => return Err(unopened_as(fault)),
    };
    let store = store.laid(keys);
    let shape = wanted.unwrap_or(store.opened.shape);
    teller.step("2 of 2: writing the new one");
    match write_store(alloc, &store, shape, place) {
        Ok(()) => Ok(saved_of(&store, shape)),
        Err(refusal) => Err(refusal),
    }
}

/// Writes a store of this shape with the pairs and the points of a store, and names it then.
fn write_store<P: Place>(
    alloc: Global,
    store: &Store,
    shape: Shape,
    place: &mut P,
) -> Result<(), Refusal>
    ensures room { said.OnOk result (said.HasRoomFor shape store.now.opened.points.items store.now.pairs.items) }
    ensures named { said.OnOk result (said.IsSomeAnd (P.named place.new) (said.IsRenewalOf P.Device.honest P.Device.seen P.Device.may_leave store.now shape)) }
    ensures has_name { said.OnOk result (said.IsSomeAnd (P.named place.new) (P.has_name place.old)) }
    ensures unnamed { said.OnErr result (P.named place.new ≡ P.named place.old) }
    ensures err { said.IfErr result (said.IsHindrance shape store.now.opened.points.items store.now.pairs.items) }
{
    let mut device = match place.make() {
        Ok(device) => device,
        Err(trouble) => return Err(Refusal::First(trouble)),
    };
    match renew(alloc, &store.opened, &store.pairs, shape, &mut device) {
        Ok(()) => {}
        Err(fault) => {
            place.discard(device);
            return Err(refused_as(fault));
        }
    }
    match place.name(device) {
        Ok(()) => Ok(()),
        Err(trouble) => Err(Refusal::New(trouble)),
    }
}

/// Why nothing is renewed, by the fault in reading the old store.
fn unopened_as(fault: Fault) -> Refusal
    ensures { result ≡ said.refusal_of_old fault }
{
    match fault {
        Fault::Memory => Refusal::Memory,
        _ => Refusal::Unopened(fault),
    }
}

/// Why nothing is renewed, by a renewal's own fault.
fn refused_as(fault: Fault) -> Refusal
    ensures { result ≡ said.refusal_by fault }
{
    match fault {
        Fault::Memory => Refusal::Memory,
        Fault::Device => Refusal::First(Trouble::Fault(Fault::Device)),
        _ => Refusal::Unfit(fault),
    }
}

/// What a renewal of this store to this shape has saved.
fn saved_of(store: &Store, shape: Shape) -> Saved
    requires { length store.now.pairs.items + 1 ≤ shape.disk_pages * shape.page }
    ensures { result ≡ said.saved_of store.now shape }
{
    let (opened, pairs) = (&store.opened, store.pairs.len());
    Saved {
        pairs,
        before: Taken::of(opened.shape, opened.tail, opened.number),
        after: Taken::of(shape, Addr(pairs as u64 + 1), Version(1)),
    }
}
