//! A device that reads ahead.
ghost use Rattle.std.specs.Prelude.{◌≡◌, ◌<◌, ◌≤◌, ◌+◌, ◌-◌, ◌%◌, ◌^◌, ◌↔◌, ℕ, List, length, true, false, is_ok, IsOk, OnOk};
ghost use Rattle.std.specs.List.{All};
ghost use Rattle.fkv_disk.specs.Bytes.{bytes_at};
ghost use Rattle.fkv_disk.specs.Device.{Writes, LeavesNoMore, LeavesTorn, LeavesOnly, Elapses, HasCause, MakesCalls};
ghost use Rattle.fkv_disk.specs.Kinds.{OnlyReads, Reading, Writing, Syncing, after_kind, nothing};
ghost use Rattle.fkv_disk.specs.Pages.{IsBlank, ArePagesOf};
ghost use Rattle.std.proofs.Props.{props};

use crate::Device;
use crate::pages::{Page, forget_range, read_by_pages};
use fkv_base::Fault;
use std::alloc::{AllocError, Global};

/// How long a page is.
#[derive(Clone, Copy, Debug, PartialEq, Eq)]
pub enum PageSize {
    Kib4,
    Kib8,
    Kib16,
    Kib32,
    Kib64,
}

impl PageSize {
    // In bytes.
    fn bytes(self) -> usize
        ensures { (4096 ≤ result) × (result ≤ 65536) }
    {
        match self {
            PageSize::Kib4 => 4096,
            PageSize::Kib8 => 8192,
            PageSize::Kib16 => 16384,
            PageSize::Kib32 => 32768,
            PageSize::Kib64 => 65536,
        }
    }
}

/// Memory for pages of a device, with none of them read yet.
#[derive(Drop)]
pub struct Pages {
    pages: Vec<Page>,
    size: usize,
    ghost blank: { All IsBlank pages.items } by { Prim.hlevel props },
    ghost some: { (0 < size) × (0 < length pages.items) },
}

impl Pages {
    /// Room for so many pages. `AllocError` where memory is refused.
    pub fn new(alloc: Global, size: PageSize, count: usize) -> Result<Pages, AllocError>
        requires { 0 < count }
    {
        let size = size.bytes();
        let mut pages = Vec::new(alloc);
        for _ in 0..count {
            pages.push(Page::new(alloc, size)?)?;
        }
        Ok(Pages { pages, size })
    }
}

/// Reads a device by whole pages, and keeps them in memory. So reads that lie in a page ask for it once, and one that
/// goes on where the last one ended finds its page kept. Each page has one place in memory, which it shares with others.
///
/// A read that crosses into the next page is served from both. One that is longer than a page, and one of a page that
/// the device refuses, is passed on as it is; so are writes and syncs. A write drops the pages that it touches.
///
/// What is claimed of it is what its device claims. But a kept page asks for no call: so it says nothing of which calls
/// to come are refused, and of the calls of its device each method tells. How many reads a page saves is measured, not
/// proved.
#[derive(Drop)]
pub struct ReadAhead<D: Device> {
    device: D,
    pages: Vec<Page>,
    size: usize,
    ghost are_kept: { D.Device.honest device → ArePagesOf (D.Device.seen device) pages.items } by { Prim.hlevel props },
    ghost some: { (0 < size) × (0 < length pages.items) },
}

impl<D: Device> ReadAhead<D> {
    ghost use Rattle.fkv_disk.specs.Ahead.{ahead_device};

    /// A device behind pages that are read from now on.
    pub fn new(device: D, pages: Pages) -> ReadAhead<D>
        ensures { ahead_device result ≡ device }
    {
        let Pages { pages, size } = pages;
        ReadAhead {
            device,
            pages,
            size,
        }
    }

    /// The device that it reads.
    pub fn device(&self) -> &D
        ensures { result.now ≡ ahead_device self.now }
    {
        &self.device
    }

    /// The device, without the pages.
    pub fn into_device(self) -> D
        ensures { result ≡ ahead_device self }
    {
        let ReadAhead { device, .. } = self;
        device
    }
}

impl<D: Device> Device for ReadAhead<D> {
    ghost use Rattle.fkv_disk.specs.Ahead.{ahead_device, HasKept};

    ghost honest = { λ ahead. D.Device.honest ahead.device };

    ghost seen = { λ ahead. D.Device.seen ahead.device };

    ghost may_leave = { λ ahead. D.Device.may_leave ahead.device };

    ghost moment = { λ ahead. D.Device.moment ahead.device };

    ghost left_since = { λ ahead. D.Device.left_since ahead.device };

    ghost failed = { λ ahead. D.Device.failed ahead.device };

    ghost refuses = { λ _ _. false };

    ghost expects = { λ _ _. nothing };

    ghost counts_now = { λ ahead. D.Device.counts_now ahead.device };

    ghost only_now = { λ ahead. D.Device.only_now ahead.device };

    ghost leaves_seen = { λ ahead. D.Device.leaves_seen ahead.device };

    ghost leaves_bytes = { λ ahead. D.Device.leaves_bytes ahead.device };

    fn read(&mut self, at: u64, into: &mut [u8]) -> Result<(), Fault>
        ensures honest { ⟦<ReadAhead<D> as Device>⟧.honest self.old ↔ ⟦<ReadAhead<D> as Device>⟧.honest self.new }
        ensures bytes { ⟦<ReadAhead<D> as Device>⟧.honest self.old → OnOk result (into.new ≡ bytes_at (⟦<ReadAhead<D> as Device>⟧.seen self.old) at (length into.old)) }
        ensures seen { ⟦<ReadAhead<D> as Device>⟧.honest self.old → ⟦<ReadAhead<D> as Device>⟧.seen self.new ≡ ⟦<ReadAhead<D> as Device>⟧.seen self.old }
        ensures crash { ⟦<ReadAhead<D> as Device>⟧.honest self.old → LeavesNoMore (⟦<ReadAhead<D> as Device>⟧.may_leave self.old) (⟦<ReadAhead<D> as Device>⟧.may_leave self.new) }
        ensures time { ⟦<ReadAhead<D> as Device>⟧.honest self.old → Elapses (⟦<ReadAhead<D> as Device>⟧.moment self.old) (⟦<ReadAhead<D> as Device>⟧.moment self.new) (⟦<ReadAhead<D> as Device>⟧.left_since self.old) (⟦<ReadAhead<D> as Device>⟧.left_since self.new) (⟦<ReadAhead<D> as Device>⟧.may_leave self.new) }
        ensures cause { HasCause (⟦<ReadAhead<D> as Device>⟧.failed self.old) (⟦<ReadAhead<D> as Device>⟧.failed self.new) result }
        ensures counted { MakesCalls 1 (⟦<ReadAhead<D> as Device>⟧.refuses self.old) (⟦<ReadAhead<D> as Device>⟧.refuses self.new) result }
        ensures kind { ⟦<ReadAhead<D> as Device>⟧.expects self.new ≡ after_kind Reading (⟦<ReadAhead<D> as Device>⟧.expects self.old) }

        ensures passed_on { OnlyReads D.refuses D.expects (ahead_device self.old) (ahead_device self.new) }
        ensures served { HasKept self.old at (length into.old) → (ahead_device self.new ≡ ahead_device self.old) × IsOk result }
    {
        read_by_pages(&mut self.device, &mut self.pages, self.size, at, into)
    }

    fn write(&mut self, at: u64, bytes: &[u8]) -> Result<(), Fault>
        ensures honest { ⟦<ReadAhead<D> as Device>⟧.honest self.old ↔ ⟦<ReadAhead<D> as Device>⟧.honest self.new }
        ensures seen { ⟦<ReadAhead<D> as Device>⟧.honest self.old → Writes at bytes.now (is_ok result) (⟦<ReadAhead<D> as Device>⟧.seen self.old) (⟦<ReadAhead<D> as Device>⟧.seen self.new) }
        ensures crash { ⟦<ReadAhead<D> as Device>⟧.honest self.old → LeavesTorn at (length bytes.now) (⟦<ReadAhead<D> as Device>⟧.may_leave self.old) (⟦<ReadAhead<D> as Device>⟧.may_leave self.new) }
        ensures time { ⟦<ReadAhead<D> as Device>⟧.honest self.old → Elapses (⟦<ReadAhead<D> as Device>⟧.moment self.old) (⟦<ReadAhead<D> as Device>⟧.moment self.new) (⟦<ReadAhead<D> as Device>⟧.left_since self.old) (⟦<ReadAhead<D> as Device>⟧.left_since self.new) (⟦<ReadAhead<D> as Device>⟧.may_leave self.new) }
        ensures cause { HasCause (⟦<ReadAhead<D> as Device>⟧.failed self.old) (⟦<ReadAhead<D> as Device>⟧.failed self.new) result }
        ensures counted { MakesCalls 1 (⟦<ReadAhead<D> as Device>⟧.refuses self.old) (⟦<ReadAhead<D> as Device>⟧.refuses self.new) result }
        ensures kind { ⟦<ReadAhead<D> as Device>⟧.expects self.new ≡ after_kind (Writing at bytes.now (is_ok result)) (⟦<ReadAhead<D> as Device>⟧.expects self.old) }

        ensures passed_on { MakesCalls 1 (D.refuses (ahead_device self.old)) (D.refuses (ahead_device self.new)) result }
        ensures passed_kind { D.expects (ahead_device self.new) ≡ after_kind (Writing at bytes.now (is_ok result)) (D.expects (ahead_device self.old)) }
    {
        forget_range(&mut self.pages, at, bytes.len());
        self.device.write(at, bytes)
    }

    fn sync(&mut self) -> Result<(), Fault>
        ensures honest { ⟦<ReadAhead<D> as Device>⟧.honest self.old ↔ ⟦<ReadAhead<D> as Device>⟧.honest self.new }
        ensures durable { ⟦<ReadAhead<D> as Device>⟧.honest self.old → OnOk result (LeavesOnly (⟦<ReadAhead<D> as Device>⟧.seen self.old) (⟦<ReadAhead<D> as Device>⟧.may_leave self.new)) }
        ensures seen { ⟦<ReadAhead<D> as Device>⟧.honest self.old → ⟦<ReadAhead<D> as Device>⟧.seen self.new ≡ ⟦<ReadAhead<D> as Device>⟧.seen self.old }
        ensures crash { ⟦<ReadAhead<D> as Device>⟧.honest self.old → LeavesNoMore (⟦<ReadAhead<D> as Device>⟧.may_leave self.old) (⟦<ReadAhead<D> as Device>⟧.may_leave self.new) }
        ensures time { ⟦<ReadAhead<D> as Device>⟧.honest self.old → Elapses (⟦<ReadAhead<D> as Device>⟧.moment self.old) (⟦<ReadAhead<D> as Device>⟧.moment self.new) (⟦<ReadAhead<D> as Device>⟧.left_since self.old) (⟦<ReadAhead<D> as Device>⟧.left_since self.new) (⟦<ReadAhead<D> as Device>⟧.may_leave self.new) }
        ensures cause { HasCause (⟦<ReadAhead<D> as Device>⟧.failed self.old) (⟦<ReadAhead<D> as Device>⟧.failed self.new) result }
        ensures counted { MakesCalls 1 (⟦<ReadAhead<D> as Device>⟧.refuses self.old) (⟦<ReadAhead<D> as Device>⟧.refuses self.new) result }
        ensures kind { ⟦<ReadAhead<D> as Device>⟧.expects self.new ≡ after_kind (Syncing (is_ok result)) (⟦<ReadAhead<D> as Device>⟧.expects self.old) }

        ensures passed_on { MakesCalls 1 (D.refuses (ahead_device self.old)) (D.refuses (ahead_device self.new)) result }
        ensures passed_kind { D.expects (ahead_device self.new) ≡ after_kind (Syncing (is_ok result)) (D.expects (ahead_device self.old)) }
    {
        self.device.sync()
    }

    fn failures(&self) -> u64 {
        self.device.failures()
    }
}
