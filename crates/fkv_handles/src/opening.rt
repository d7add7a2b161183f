//! The parts of a store's opening.
ghost use Rattle.std.specs.Prelude.{◌≡◌};
ghost use Rattle.fkv_handles.specs.Said as said;

use crate::stores::Recovered;
use fkv_base::{Fault, Serial};
use fkv_disk::Device;
use fkv_opening::Opened;
use fkv_posted::Posted;
use fkv_threads::Seated;
use fkv_warming::recover_warm;
use std::alloc::Global;

/// What a store lies on whose caller makes the calls of the device.
type Medium = Posted<'static>;

/// The sessions, none of which is taken yet.
pub(crate) fn untaken(
    alloc: Global,
    sessions: Vec<Seated<Medium>>,
) -> Result<Vec<Option<Seated<Medium>>>, Fault>
    ensures same { said.IfOk result (λ places. places.items ≡ said.map said.Some sessions.entry.items) }
    ensures memory { said.OnErr result (result ≡ said.Err said.Memory) }
{
    let mut places = Vec::new(alloc);
    for seated in sessions {
        places.push(Some(seated))?;
    }
    Ok(places)
}

fn copied(alloc: Global, points: &[Serial]) -> Result<Vec<Serial>, Fault>
    ensures same { said.IfOk result (λ copies. copies.items ≡ points.now) }
    ensures memory { said.OnErr result (result ≡ said.Err said.Memory) }
{
    let mut copies = Vec::new(alloc);
    for point in points {
        copies.push(*point)?;
    }
    Ok(copies)
}

/// What the image has told.
pub(crate) fn told_of(alloc: Global, opened: &Opened) -> Result<Recovered, Fault>
    ensures told { said.IfOk result (said.IsRecovered opened.now) }
    ensures memory { said.OnErr result (result ≡ said.Err said.Memory) }
{
    let points = copied(alloc, &opened.points)?;
    Ok(Recovered {
        shape: opened.shape,
        number: opened.number,
        points,
        entries: opened.entries.len() as u64,
    })
}

/// The store of this image, with its newest records for memory, at most so many, and the medium that it lies on from now on.
pub(crate) fn opened_from(alloc: Global, bytes: &[u8], most: u64) -> Result<(Opened, Medium), Fault>
    ensures store { said.IfOk result (λ r. said.IsStoreOf bytes.now r.0) }
    ensures warm { said.IfOk result (λ r. r.0.warm.0 ≡ said.warm_from r.0 most) }
    ensures seen { said.IfOk result (λ r. ⟦<Posted<'static> as Device>⟧.seen r.1 ≡ bytes.now) }
    ensures honest { said.IfOk result (λ r. ⟦<Posted<'static> as Device>⟧.honest r.1) }
    ensures leaves { said.IfOk result (λ r. said.LeavesOnly (⟦<Posted<'static> as Device>⟧.seen r.1) (⟦<Posted<'static> as Device>⟧.may_leave r.1)) }
    ensures refused { said.IfErr result (said.IsOpeningRefused bytes.now) }
{
    let mut shown = Posted::new(bytes);
    match recover_warm(alloc, most, &mut shown) {
        Ok(opened) => Ok((opened, shown.into_posted())),
        Err(why) => Err(why),
    }
}
