//! An update by a copy of the record that was met.
ghost use Rattle.std.specs.Prelude.{◌≡◌, ◌<◌, ◌≤◌, ◌==◌, ◌&&◌, not, false};
ghost use Rattle.fkv_map.specs.declared.operations.Call.{Call};
ghost use Rattle.fkv_ops.specs.Requests.{is_read};
ghost use Rattle.fkv_ops.specs.Trying.{is_marked};
ghost use Rattle.fkv_session.specs.Sessions.{};
ghost use Rattle.fkv_straight.specs.Course.{Course, Goes};
ghost use Rattle.fkv_straight.specs.Met.{IsMet, IsCopied};
ghost use Rattle.fkv_straight.specs.Standing.{ComesTo};

use crate::appending::append;
use crate::going::Going;
use crate::lines::Line;
use crate::outcomes::Outcome;
use crate::searching::{Record, Slot};
use crate::words::is_blind;
use fkv_base::{Addr, Version};
use fkv_map::Op;
use fkv_ops::{is_marked, value_of_word};
use fkv_plane::{RecordWord, SharedWord};

/// Appends the copy. The old value is loaded first, where it counts.
#[inline(always)]
fn copy<L: Line>(line: &mut L, going: &Going, op: Op, its: Record) -> Outcome
    requires at { (c : Course) × Goes c (L.seat line.old) op going.now × IsCopied c its (L.stands line.old) }
    requires room { L.kept line.old ≤ 49 }
    requires updates { is_read op ≡ false }
    requires calm { going.now.is_preparing ≡ false }
    ensures seat { L.seat line.new ≡ L.seat line.old }
    ensures led { (start : L) (call : Call) → L.led start call line.old → L.led start call line.new }
    ensures done { (c : Course) → Goes c (L.seat line.old) op going.now → IsCopied c its (L.stands line.old) → ComesTo c result (L.stands line.new) }
{
    let slot = Slot {
        place: its.place,
        entry: its.entry,
    };
    let blind = is_blind(op);
    if blind {
        append(line, going, op, slot, None)
    } else {
        let place = going.record(Addr(its.addr), RecordWord::Value);
        let word = line.load(place);
        let old = value_of_word(word);
        append(line, going, op, slot, old)
    }
}

/// Whether the record is of the session's version, wherever it lies: no older version has that mark.
#[inline(always)]
fn is_surely_own(going: &Going, its: Record) -> bool
    ensures { result ≡ not (is_marked (record { 0 = going.now.version })) && its.mark == going.now.mark }
{
    !is_marked(Version(going.version)) && its.mark == going.mark
}

/// Copies a record below the safe read-only offset, which nobody changes any more. One between the two offsets may be changed still by a
/// session that has looked less lately: it is the machine's.
#[inline(always)]
pub(crate) fn copy_below<L: Line>(line: &mut L, going: &Going, op: Op, its: Record) -> Outcome
    requires at { (c : Course) × Goes c (L.seat line.old) op going.now × IsMet c its (L.stands line.old) }
    requires room { L.kept line.old ≤ 48 }
    requires updates { is_read op ≡ false }
    requires calm { going.now.is_preparing ≡ false }
    requires below { its.addr < going.now.read_only }
    ensures seat { L.seat line.new ≡ L.seat line.old }
    ensures led { (start : L) (call : Call) → L.led start call line.old → L.led start call line.new }
    ensures done { (c : Course) → Goes c (L.seat line.old) op going.now → IsMet c its (L.stands line.old) → ComesTo c result (L.stands line.new) }
{
    let place = SharedWord::SafeReadOnly.place();
    let safe = line.load(place);
    if safe <= its.addr {
        return Outcome::Unusual;
    }
    let own = is_surely_own(going, its);
    if going.is_moving_on && !own {
        return Outcome::Unusual;
    }
    copy(line, going, op, its)
}

/// Copies a record of another version, which stays as it was for a commit.
#[inline(always)]
pub(crate) fn copy_later<L: Line>(line: &mut L, going: &Going, op: Op, its: Record) -> Outcome
    requires at { (c : Course) × Goes c (L.seat line.old) op going.now × IsMet c its (L.stands line.old) }
    requires room { L.kept line.old ≤ 48 }
    requires updates { is_read op ≡ false }
    requires calm { going.now.is_preparing ≡ false }
    requires mutable { going.now.read_only ≤ its.addr }
    requires other { its.mark ≡ going.now.mark → ⊥ }
    ensures seat { L.seat line.new ≡ L.seat line.old }
    ensures led { (start : L) (call : Call) → L.led start call line.old → L.led start call line.new }
    ensures done { (c : Course) → Goes c (L.seat line.old) op going.now → IsMet c its (L.stands line.old) → ComesTo c result (L.stands line.new) }
{
    if going.is_moving_on {
        return Outcome::Unusual;
    }
    copy(line, going, op, its)
}
