//! Pages of a device in memory.
ghost use Rattle.std.specs.Prelude.{◌≡◌, ◌<◌, ◌≤◌, ◌+◌, ◌-◌, ◌^◌, ℕ, List, length, true, false, take, drop, IsOk, IfOk, OnOk};
ghost use Rattle.std.specs.List.{All};
ghost use Rattle.fkv_disk.specs.Bytes.{bytes_at};
ghost use Rattle.fkv_disk.specs.Device.{HasCause};
ghost use Rattle.fkv_disk.specs.Kinds.{OnlyReads};
ghost use Rattle.fkv_disk.specs.Pages.{IsPageOf, ArePagesOf, IsBlank, AreKept, keeps, AlikeOutside};
ghost use Rattle.fkv_disk.specs.Quiet.{IsQuiet};

use crate::Device;
use fkv_base::Fault;
use std::alloc::{AllocError, Global};

/// Room for the bytes of a device from a place on.
#[derive(Drop)]
pub(crate) struct Page {
    pub(crate) at: u64,
    pub(crate) kept: bool,
    pub(crate) bytes: Vec<u8>,
}

impl Page {
    // Room for so many bytes, with none of them kept yet.
    pub(crate) fn new(alloc: Global, size: usize) -> Result<Page, AllocError>
        ensures { IfOk result IsBlank }
    {
        let mut bytes = Vec::new(alloc);
        bytes.resize(size, 0)?;
        Ok(Page {
            at: 0,
            kept: false,
            bytes,
        })
    }

    // Whether it keeps the `n` bytes from `at` on.
    fn keeps(&self, at: u64, n: usize) -> bool
        ensures { result ≡ keeps self.now at n }
    {
        self.kept
            && self.at <= at
            && n <= self.bytes.len()
            && at - self.at <= (self.bytes.len() - n) as u64
    }

    // The bytes from `at` on, which it keeps.
    fn copy(&self, at: u64, into: &mut [u8])
        requires { keeps self.now at (length into.old) ≡ true }
        ensures { (seen : List ℕ) → IsPageOf seen self.now → into.new ≡ bytes_at seen at (length into.old) }
    {
        let from = (at - self.at) as usize;
        let end = from + into.len();
        into.copy_from_slice(&self.bytes[from..end]);
    }

    // Reads the bytes of the device from `at` on. After a refusal it keeps none.
    fn load<D: Device>(&mut self, device: &mut D, at: u64)
        ensures quiet { IsQuiet D.honest D.seen D.may_leave D.moment D.left_since D.failed device.old device.new }
        ensures reads { OnlyReads D.refuses D.expects device.old device.new }
        ensures kept { D.honest device.old → IsPageOf (D.seen device.old) self.new }
    {
        self.at = at;
        self.kept = device.read(at, &mut self.bytes).is_ok();
    }

    // Reads from what it keeps. Where these bytes aren't among that, it first reads itself anew, from `start` on. What
    // it can't keep is read from the device.
    pub(crate) fn read<D: Device>(
        &mut self,
        device: &mut D,
        start: u64,
        at: u64,
        into: &mut [u8],
    ) -> Result<(), Fault>
        ensures quiet { IsQuiet D.honest D.seen D.may_leave D.moment D.left_since D.failed device.old device.new }
        ensures reads { OnlyReads D.refuses D.expects device.old device.new }
        ensures cause { HasCause (D.failed device.old) (D.failed device.new) result }
        ensures bytes { D.honest device.old → IsPageOf (D.seen device.old) self.old → OnOk result (into.new ≡ bytes_at (D.seen device.old) at (length into.old)) }
        ensures kept { D.honest device.old → IsPageOf (D.seen device.old) self.old → IsPageOf (D.seen device.old) self.new }
        ensures served { keeps self.old at (length into.old) ≡ true → (device.new ≡ device.old) × IsOk result }
    {
        if !self.keeps(at, into.len()) {
            self.load(device, start);
        }
        if self.keeps(at, into.len()) {
            self.copy(at, into);
            return Ok(());
        }
        device.read(at, into)
    }

    // Keeps nothing more where it has one of the `n` bytes from `at` on.
    fn forget(&mut self, at: u64, n: usize)
        ensures same { (seen : List ℕ) → IsPageOf seen self.old → IsPageOf seen self.new }
        ensures apart { (old new : List ℕ) → AlikeOutside at n old new → IsPageOf old self.old → IsPageOf new self.new }
    {
        let touches = if at < self.at {
            self.at - at < n as u64
        } else {
            at - self.at < self.bytes.len() as u64
        };
        if touches {
            self.kept = false;
        }
    }
}

// Reads what lies in one page, by the place in memory that is this page's.
fn read_piece<D: Device>(
    device: &mut D,
    pages: &mut [Page],
    size: usize,
    at: u64,
    into: &mut [u8],
) -> Result<(), Fault>
    requires { (0 < size) × (0 < length pages.old) }
    ensures quiet { IsQuiet D.honest D.seen D.may_leave D.moment D.left_since D.failed device.old device.new }
    ensures reads { OnlyReads D.refuses D.expects device.old device.new }
    ensures cause { HasCause (D.failed device.old) (D.failed device.new) result }
    ensures bytes { D.honest device.old → ArePagesOf (D.seen device.old) pages.old → OnOk result (into.new ≡ bytes_at (D.seen device.old) at (length into.old)) }
    ensures kept { D.honest device.old → ArePagesOf (D.seen device.old) pages.old → ArePagesOf (D.seen device.old) pages.new }
    ensures served { AreKept size pages.old at (length into.old) → (device.new ≡ device.old) × IsOk result }
{
    let size = size as u64;
    let place = (at / size) as usize % pages.len();
    pages[place].read(device, at - at % size, at, into)
}

// Reads by one page or two. What is longer than a page is read from the device, and so is what passes 2^64 where a page ends.
pub(crate) fn read_by_pages<D: Device>(
    device: &mut D,
    pages: &mut [Page],
    size: usize,
    at: u64,
    into: &mut [u8],
) -> Result<(), Fault>
    requires { (0 < size) × (0 < length pages.old) }
    ensures quiet { IsQuiet D.honest D.seen D.may_leave D.moment D.left_since D.failed device.old device.new }
    ensures reads { OnlyReads D.refuses D.expects device.old device.new }
    ensures cause { HasCause (D.failed device.old) (D.failed device.new) result }
    ensures bytes { D.honest device.old → ArePagesOf (D.seen device.old) pages.old → OnOk result (into.new ≡ bytes_at (D.seen device.old) at (length into.old)) }
    ensures kept { D.honest device.old → ArePagesOf (D.seen device.old) pages.old → ArePagesOf (D.seen device.old) pages.new }
    ensures served { AreKept size pages.old at (length into.old) → (device.new ≡ device.old) × IsOk result }
{
    let room = size - (at % size as u64) as usize;
    if into.len() <= room {
        return read_piece(device, pages, size, at, into);
    }
    if into.len() > size || room as u64 > u64::MAX - at {
        return device.read(at, into);
    }
    let (head, rest) = into.split_at_mut(room);
    read_piece(device, pages, size, at, head)?;
    read_piece(device, pages, size, at + room as u64, rest)
}

// Drops each page that has one of the `n` bytes from `at` on.
pub(crate) fn forget_range(pages: &mut [Page], at: u64, n: usize)
    ensures same { (seen : List ℕ) → ArePagesOf seen pages.old → ArePagesOf seen pages.new }
    ensures apart { (old new : List ℕ) → AlikeOutside at n old new → ArePagesOf old pages.old → ArePagesOf new pages.new }
    ensures len { length pages.new ≡ length pages.old }
{
    for page in pages.iter_mut() {
        page.forget(at, n);
    }
}
