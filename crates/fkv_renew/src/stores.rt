//! A store that is renewed.
ghost use Rattle.std.specs.Prelude.{◌≡◌};
ghost use Rattle.fkv_renew.specs.Said as said;

use fkv_base::{Fault, Key, Value};
use fkv_disk::{Device, PageSize, Pages, ReadAhead};
use fkv_files::pages_to_keep;
use fkv_opening::{Opened, recover};
use fkv_pairs::content;
use fkv_renewing::lay;
use fkv_spread::Keys;
use std::alloc::Global;

/// A store as its image defines it, with its pairs.
#[derive(Drop)]
pub(crate) struct Store {
    pub(crate) opened: Opened,
    pub(crate) pairs: Vec<(Key, Value)>,
}

impl Store {
    /// The store with its keys laid so.
    pub(crate) fn laid(self, keys: Keys) -> Store
        ensures { said.IsLaid keys self result }
    {
        let Store { opened, mut pairs } = self;
        lay(keys, &mut pairs);
        Store { opened, pairs }
    }
}

/// The store that a device of so many bytes holds, or the fault of its image. The device is read page by page, and never written.
pub(crate) fn read_store<D: Device + Drop>(
    alloc: Global,
    device: D,
    length: Option<u64>,
) -> Result<(D, Store), Fault>
    ensures held { D.honest device → said.IfOk result (λ found. said.IsHeld (D.seen device) found.1) }
    ensures refused { said.IfErr result (said.IsUnread (D.honest device) (D.seen device)) }
{
    let pages = Pages::new(alloc, PageSize::Kib4, pages_to_keep(length))?;
    let mut ahead = ReadAhead::new(device, pages);
    let opened = recover(alloc, &mut ahead)?;
    let pairs = content(alloc, &opened, &mut ahead)?;
    Ok((ahead.into_device(), Store { opened, pairs }))
}
