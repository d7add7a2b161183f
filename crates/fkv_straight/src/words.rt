//! What words, operations and phases say, as short as a straight call wants it.
ghost use Rattle.std.specs.Prelude.{◌≡◌, ◌<◌, ◌≤◌, ◌^◌};
ghost use Rattle.fkv_index.specs.Slots.{entry_addr, is_entry};
ghost use Rattle.fkv_ops.specs.HeaderWords.{header_said};
ghost use Rattle.fkv_ops.specs.Requests.{is_blind, is_read};
ghost use Rattle.fkv_ops.specs.Trying.{is_prepare, is_moving_on};

use fkv_base::{Addr, Phase, Version};
use fkv_map::Op;
use fkv_ops::HeaderSaid;

const ADDR_MASK: u64 = (1 << 48) - 1;

/// The last mark of a version.
const LAST_MARK: u64 = 8191;

/// Below it are the places of the shared words, of which each has a cache line of its own.
const PAST_SHARED: i64 = 24;

/// The place. The compiler knows from here on that it isn't a shared word's, nor are those shortly behind it. So no step at one of them asks where it lies.
/// One test of a number with a sign says that it is neither below nor very large.
#[inline(always)]
pub(crate) fn past_shared(place: usize) -> usize
    requires above { 24 ≤ place }
    requires fits { place < 2 ^ 62 }
    ensures { result ≡ place }
{
    if (place as i64) < PAST_SHARED {
        unreachable!();
    }
    place
}

/// The address in the word of an entry, of a header or of a link.
#[inline]
pub(crate) fn addr_of(word: u64) -> u64
    ensures { result ≡ entry_addr word }
{
    word & ADDR_MASK
}

/// Whether the word of a slot is an entry.
#[inline]
pub(crate) fn is_entry(word: u64) -> bool
    ensures { result ≡ is_entry word }
{
    word & ADDR_MASK != 0 && word >> 48 < 1 << 15
}

/// What a header says. A header that is valid has no bit above those of its mark, so one test is enough for it.
#[inline]
pub(crate) fn header_said(word: u64) -> HeaderSaid
    ensures { result ≡ header_said word }
{
    let mark = word >> 48;
    if mark.wrapping_sub(1) >= LAST_MARK {
        return fkv_ops::header_said(word);
    }
    let previous = addr_of(word);
    HeaderSaid::Says(Addr(previous), Version(mark))
}

/// Whether updates share the latch of their bucket.
#[inline]
pub(crate) fn is_preparing(phase: Phase) -> bool
    ensures { result ≡ is_prepare phase }
{
    matches!(phase, Phase::Prepare)
}

/// Whether a commit's sessions go on to the next version.
#[inline]
pub(crate) fn is_moving_on(phase: Phase) -> bool
    ensures { result ≡ is_moving_on phase }
{
    matches!(phase, Phase::InProgress | Phase::WaitPending)
}

/// Whether it is a read.
#[inline]
pub(crate) fn is_read(op: Op) -> bool
    ensures { result ≡ is_read op }
{
    matches!(op, Op::Read(_))
}

/// Whether the new value doesn't depend on the old one.
#[inline]
pub(crate) fn is_blind(op: Op) -> bool
    ensures { result ≡ is_blind op }
{
    matches!(op, Op::Upsert(_, _) | Op::Delete(_))
}
