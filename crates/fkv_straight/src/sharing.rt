//! An update of a session in prepare, straight: it shares the latch of its bucket while it changes its record in place.
ghost use Rattle.std.specs.Prelude.{◌≡◌, ◌≤◌, ◌<◌, true, false};
ghost use Rattle.fkv_map.specs.declared.operations.Call.{Call};
ghost use Rattle.fkv_map.specs.Keys.{key_of};
ghost use Rattle.fkv_index.specs.Slots.{home_of};
ghost use Rattle.fkv_plane.specs.Places.{bucket_place};
ghost use Rattle.fkv_ops.specs.Requests.{is_read};
ghost use Rattle.fkv_session.specs.Sessions.{is_busy};
ghost use Rattle.fkv_straight.specs.Course.{Course, course_of, Goes};
ghost use Rattle.fkv_straight.specs.Met.{Begins, HasChanged, IsAtFirst, IsMet};
ghost use Rattle.fkv_straight.specs.Standing.{ComesTo, IsDone};

use crate::changing::{change, update};
use crate::going::Going;
use crate::lines::Line;
use crate::outcomes::Outcome;
use crate::searching::{Met, Record, search_on};
use crate::words::addr_of;
use fkv_base::Version;
use fkv_index::home_of;
use fkv_map::{Call, Op, Reply};
use fkv_ops::is_next_marked;

/// One that shares a latch: they are counted from bit 48 on.
const ONE_SHARE: u64 = 1 << 48;

/// Takes one off, modulo 2^64.
const ONE_LESS: u64 = u64::MAX - ONE_SHARE + 1;

/// The bit of one that holds the latch alone.
const ALONE: u64 = 1 << 63;

/// The place of the latch of the key's bucket.
#[inline(always)]
fn latch_of(going: &Going, op: Op) -> usize
    ensures { result ≡ bucket_place going.now.places (home_of going.now.bits (key_of op)).bucket 7 }
{
    let key = op.key();
    let home = home_of(key, going.bits);
    going.places.bucket(home.bucket, 7)
}

/// Begins the call: it shares the latch of the key's bucket. False if another session holds that alone, and where the phase word is to be loaded
/// behind it: that is the machine's.
#[inline(always)]
fn share<L: Line>(line: &mut L, going: &Going, op: Op, call: Call) -> bool
    requires idle { is_busy (L.stands line.old).step ≡ false }
    requires goes { Goes (course_of (L.seat line.old) (L.stands line.old) op call) (L.seat line.old) op going.now }
    requires begins { Begins (course_of (L.seat line.old) (L.stands line.old) op call) call (L.stands line.old) }
    requires updates { is_read op ≡ false }
    requires prepares { going.now.is_preparing ≡ true }
    ensures seat { L.seat line.new ≡ L.seat line.old }
    ensures led { L.led line.old call line.new }
    ensures kept { L.kept line.new ≡ 1 }
    ensures first { result ≡ true → IsAtFirst (course_of (L.seat line.old) (L.stands line.old) op call) (L.stands line.new) }
{
    let place = latch_of(going, op);
    let found = line.first_add(call, place, ONE_SHARE);
    let marked = is_next_marked(Version(going.version));
    if marked {
        return false;
    }
    found < ALONE
}

/// Ends the call of an update that has changed its record: it drops its share.
#[inline(always)]
fn drop_share<L: Line>(line: &mut L, going: &Going, op: Op, reply: Reply)
    requires at { (c : Course) × Goes c (L.seat line.old) op going.now × HasChanged c reply (L.stands line.old) }
    requires room { L.kept line.old ≤ 51 }
    requires updates { is_read op ≡ false }
    requires prepares { going.now.is_preparing ≡ true }
    ensures seat { L.seat line.new ≡ L.seat line.old }
    ensures led { (start : L) (call : Call) → L.led start call line.old → L.led start call line.new }
    ensures done { (c : Course) → Goes c (L.seat line.old) op going.now → HasChanged c reply (L.stands line.old) → IsDone c reply (L.stands line.new) }
{
    let place = latch_of(going, op);
    let _ = line.add(place, ONE_LESS);
}

/// Changes the record that was met in place, and drops the share. The record has to be of the session's version, and the first of its chain. So no
/// later version stands above it.
#[inline(always)]
fn change_shared<L: Line>(line: &mut L, going: &Going, op: Op, its: Record) -> Outcome
    requires at { (c : Course) × Goes c (L.seat line.old) op going.now × IsMet c its (L.stands line.old) }
    requires room { L.kept line.old ≤ 49 }
    requires updates { is_read op ≡ false }
    requires prepares { going.now.is_preparing ≡ true }
    ensures seat { L.seat line.new ≡ L.seat line.old }
    ensures led { (start : L) (call : Call) → L.led start call line.old → L.led start call line.new }
    ensures done { (c : Course) → Goes c (L.seat line.old) op going.now → IsMet c its (L.stands line.old) → ComesTo c result (L.stands line.new) }
{
    let newest = addr_of(its.entry);
    if its.addr != newest {
        return Outcome::Unusual;
    }
    if its.addr < going.read_only || its.mark != going.mark {
        return Outcome::Unusual;
    }
    let changed = change(line, going, op, its);
    match changed {
        Some(reply) => {
            drop_share(line, going, op, reply);
            Outcome::Done(reply)
        }
        None => Outcome::Unusual,
    }
}

/// Makes the steps of an update up to its answer, where the session is in prepare. Only an update in place goes to its end.
#[inline(never)]
fn update_in_prepare<L: Line>(line: &mut L, going: &Going, op: Op, call: Call) -> Outcome
    requires idle { is_busy (L.stands line.old).step ≡ false }
    requires goes { Goes (course_of (L.seat line.old) (L.stands line.old) op call) (L.seat line.old) op going.now }
    requires begins { Begins (course_of (L.seat line.old) (L.stands line.old) op call) call (L.stands line.old) }
    requires updates { is_read op ≡ false }
    requires prepares { going.now.is_preparing ≡ true }
    ensures seat { L.seat line.new ≡ L.seat line.old }
    ensures led { L.led line.old call line.new }
    ensures done { ComesTo (course_of (L.seat line.old) (L.stands line.old) op call) result (L.stands line.new) }
{
    let shared = share(line, going, op, call);
    if !shared {
        return Outcome::Unusual;
    }
    let met = search_on(line, going, op);
    let Some(its) = met else {
        return Outcome::Unusual;
    };
    match its {
        Met::Found(record) => change_shared(line, going, op, record),
        _ => Outcome::Unusual,
    }
}

/// Makes the steps of an update up to its answer, in a call of its own.
#[inline(always)]
pub(crate) fn update_by_phase<L: Line>(line: &mut L, going: &Going, op: Op, call: Call) -> Outcome
    requires idle { is_busy (L.stands line.old).step ≡ false }
    requires goes { Goes (course_of (L.seat line.old) (L.stands line.old) op call) (L.seat line.old) op going.now }
    requires begins { Begins (course_of (L.seat line.old) (L.stands line.old) op call) call (L.stands line.old) }
    requires updates { is_read op ≡ false }
    ensures seat { L.seat line.new ≡ L.seat line.old }
    ensures led { L.led line.old call line.new }
    ensures done { ComesTo (course_of (L.seat line.old) (L.stands line.old) op call) result (L.stands line.new) }
{
    if going.is_preparing {
        update_in_prepare(line, going, op, call)
    } else {
        update(line, going, op, call)
    }
}
