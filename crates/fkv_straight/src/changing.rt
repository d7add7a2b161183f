//! An update, straight: in place, or by a new record.
ghost use Rattle.std.specs.Prelude.{◌≡◌, ◌<◌, ◌≤◌, ◌+◌, IfSome, IfNone, true, false};
ghost use Rattle.fkv_map.specs.declared.operations.Call.{Call};
ghost use Rattle.fkv_ops.specs.Requests.{is_read, is_blind};
ghost use Rattle.fkv_session.specs.Sessions.{is_busy};
ghost use Rattle.fkv_straight.specs.Course.{Course, course_of, Goes};
ghost use Rattle.fkv_straight.specs.Met.{Begins, HasChanged, HasLost, HasMet, IsMet, IsUnshifted};
ghost use Rattle.fkv_straight.specs.Standing.{ComesTo};

use crate::appending::{append_first, append_past};
use crate::copying::{copy_below, copy_later};
use crate::going::Going;
use crate::lines::Line;
use crate::outcomes::Outcome;
use crate::searching::{Met, Record, search};
use crate::words::is_blind;
use fkv_map::{Call, Op, Reply};
use fkv_ops::{value_of_word, word_of_value};

/// The value becomes one that doesn't depend on it, by one Swap.
#[inline(always)]
fn swap_value<L: Line>(line: &mut L, going: &Going, op: Op, its: Record) -> Reply
    requires at { (c : Course) × Goes c (L.seat line.old) op going.now × IsMet c its (L.stands line.old) }
    requires stays { (c : Course) → Goes c (L.seat line.old) op going.now → IsUnshifted c its }
    requires room { L.kept line.old ≤ 49 }
    requires updates { is_read op ≡ false }
    requires blind { is_blind op ≡ true }
    requires mutable { going.now.read_only ≤ its.addr }
    requires own { its.mark ≡ going.now.mark }
    ensures seat { L.seat line.new ≡ L.seat line.old }
    ensures led { (start : L) (call : Call) → L.led start call line.old → L.led start call line.new }
    ensures kept { L.kept line.new ≤ L.kept line.old + 2 }
    ensures done { (c : Course) → Goes c (L.seat line.old) op going.now → IsMet c its (L.stands line.old) → HasChanged c result (L.stands line.new) }
{
    let place = its.at + 2;
    let made = op.value_applied(None);
    let new = word_of_value(made);
    let _ = line.swap_past(place, new);
    op.reply_from(None)
}

/// The value becomes what the operation makes of it, by one Cas. None if another session was quicker.
#[inline(always)]
fn change_value<L: Line>(line: &mut L, going: &Going, op: Op, its: Record) -> Option<Reply>
    requires at { (c : Course) × Goes c (L.seat line.old) op going.now × IsMet c its (L.stands line.old) }
    requires stays { (c : Course) → Goes c (L.seat line.old) op going.now → IsUnshifted c its }
    requires room { L.kept line.old ≤ 49 }
    requires updates { is_read op ≡ false }
    requires seeing { is_blind op ≡ false }
    requires mutable { going.now.read_only ≤ its.addr }
    requires own { its.mark ≡ going.now.mark }
    ensures seat { L.seat line.new ≡ L.seat line.old }
    ensures led { (start : L) (call : Call) → L.led start call line.old → L.led start call line.new }
    ensures kept { L.kept line.new ≤ L.kept line.old + 2 }
    ensures done { (c : Course) → Goes c (L.seat line.old) op going.now → IsMet c its (L.stands line.old)
        → IfSome result (λ reply. HasChanged c reply (L.stands line.new)) }
    ensures lost { (c : Course) → Goes c (L.seat line.old) op going.now → IsMet c its (L.stands line.old) → IfNone result (HasLost c (L.stands line.new)) }
{
    let place = its.at + 2;
    let old = line.load_past(place);
    let value = value_of_word(old);
    let made = op.value_applied(value);
    let new = word_of_value(made);
    let reply = op.reply_from(value);
    let found = line.cas_past(place, old, new);
    if found == old { Some(reply) } else { None }
}

/// Changes the record that was met in place. None if another session was quicker.
#[inline(always)]
pub(crate) fn change<L: Line>(line: &mut L, going: &Going, op: Op, its: Record) -> Option<Reply>
    requires at { (c : Course) × Goes c (L.seat line.old) op going.now × IsMet c its (L.stands line.old) }
    requires stays { (c : Course) → Goes c (L.seat line.old) op going.now → IsUnshifted c its }
    requires room { L.kept line.old ≤ 49 }
    requires updates { is_read op ≡ false }
    requires mutable { going.now.read_only ≤ its.addr }
    requires own { its.mark ≡ going.now.mark }
    ensures seat { L.seat line.new ≡ L.seat line.old }
    ensures led { (start : L) (call : Call) → L.led start call line.old → L.led start call line.new }
    ensures kept { L.kept line.new ≤ L.kept line.old + 2 }
    ensures done { (c : Course) → Goes c (L.seat line.old) op going.now → IsMet c its (L.stands line.old)
        → IfSome result (λ reply. HasChanged c reply (L.stands line.new)) }
    ensures lost { (c : Course) → Goes c (L.seat line.old) op going.now → IsMet c its (L.stands line.old) → IfNone result (HasLost c (L.stands line.new)) }
{
    let blind = is_blind(op);
    if blind {
        let reply = swap_value(line, going, op, its);
        Some(reply)
    } else {
        change_value(line, going, op, its)
    }
}

/// An update of the record that was met: in place where the session may change it, and else by a copy.
#[inline(always)]
fn update_record<L: Line>(line: &mut L, going: &Going, op: Op, its: Record) -> Outcome
    requires at { (c : Course) × Goes c (L.seat line.old) op going.now × IsMet c its (L.stands line.old) }
    requires room { L.kept line.old ≤ 48 }
    requires updates { is_read op ≡ false }
    requires calm { going.now.is_preparing ≡ false }
    ensures seat { L.seat line.new ≡ L.seat line.old }
    ensures led { (start : L) (call : Call) → L.led start call line.old → L.led start call line.new }
    ensures done { (c : Course) → Goes c (L.seat line.old) op going.now → IsMet c its (L.stands line.old) → ComesTo c result (L.stands line.new) }
{
    if its.addr < going.read_only {
        return copy_below(line, going, op, its);
    }
    if its.mark != going.mark {
        return copy_later(line, going, op, its);
    }
    let changed = change(line, going, op, its);
    match changed {
        Some(reply) => Outcome::Done(reply),
        None => Outcome::Contended,
    }
}

/// Makes the steps of an update whose search has met this, up to its answer. The session isn't in prepare.
#[inline(always)]
pub(crate) fn update_met<L: Line>(line: &mut L, going: &Going, op: Op, met: Met) -> Outcome
    requires at { (c : Course) × Goes c (L.seat line.old) op going.now × HasMet c met (L.stands line.old) }
    requires room { L.kept line.old ≤ 48 }
    requires updates { is_read op ≡ false }
    requires calm { going.now.is_preparing ≡ false }
    ensures seat { L.seat line.new ≡ L.seat line.old }
    ensures led { (start : L) (call : Call) → L.led start call line.old → L.led start call line.new }
    ensures done { (c : Course) → Goes c (L.seat line.old) op going.now → HasMet c met (L.stands line.old) → ComesTo c result (L.stands line.new) }
{
    match met {
        Met::Found(record) => update_record(line, going, op, record),
        Met::Nowhere(slot) => append_first(line, going, op, slot),
        Met::OnDisk(slot, _) => append_past(line, going, op, slot),
    }
}

/// Makes the steps of an update up to its answer, in a call or a poll. The session isn't in prepare.
#[inline(always)]
pub(crate) fn update<L: Line>(line: &mut L, going: &Going, op: Op, call: Call) -> Outcome
    requires idle { is_busy (L.stands line.old).step ≡ false }
    requires goes { Goes (course_of (L.seat line.old) (L.stands line.old) op call) (L.seat line.old) op going.now }
    requires begins { Begins (course_of (L.seat line.old) (L.stands line.old) op call) call (L.stands line.old) }
    requires updates { is_read op ≡ false }
    requires calm { going.now.is_preparing ≡ false }
    ensures seat { L.seat line.new ≡ L.seat line.old }
    ensures led { L.led line.old call line.new }
    ensures done { ComesTo (course_of (L.seat line.old) (L.stands line.old) op call) result (L.stands line.new) }
{
    let met = search(line, going, op, call);
    match met {
        Some(its) => update_met(line, going, op, its),
        None => Outcome::Unusual,
    }
}
