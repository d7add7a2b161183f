//! A new record of a key, appended and published.
ghost use Rattle.std.specs.Prelude.{◌≡◌, ◌<◌, ◌≤◌, ◌+◌, ◌*◌, ◌^◌, ℕ, false, IfNone, Some};
ghost use Rattle.fkv_map.specs.declared.operations.Call.{Call};
ghost use Rattle.fkv_map.specs.Keys.{as_number};
ghost use Rattle.fkv_log.specs.declared.reserving.Reserving.TheVariants.{LoadsTail};
ghost use Rattle.fkv_index.specs.Slots.{entry_addr};
ghost use Rattle.fkv_index.specs.IndexWorld.{new_entry};
ghost use Rattle.fkv_ops.specs.Requests.{is_read};
ghost use Rattle.fkv_session.specs.Sessions.{};
ghost use Rattle.fkv_straight.specs.Course.{Course, home_in, Goes};
ghost use Rattle.fkv_straight.specs.Met.{HasMet, IsAtReserve, IsReserved, IsAtPublish, limit_of};
ghost use Rattle.fkv_straight.specs.Standing.{ComesTo};
ghost use Rattle.fkv_straight.specs.declared.appending.Reserved.TheVariants.{Lost, Taken};
ghost use Rattle.fkv_straight.specs.declared.outcomes.Outcome.TheVariants.{Contended};
ghost use Rattle.fkv_straight.specs.declared.searching.Met.TheVariants.{Nowhere, OnDisk};

use crate::going::Going;
use crate::lines::Line;
use crate::outcomes::Outcome;
use crate::searching::Slot;
use crate::words::{addr_of, is_blind};
use fkv_base::{Addr, Value};
use fkv_index::home_of;
use fkv_log::limit_within;
use fkv_map::Op;
use fkv_ops::word_of_value;
use fkv_plane::{RecordWord, SharedWord};

/// The word of a header with this mark.
#[inline(always)]
fn header_of(previous: u64, mark: u64) -> u64
    requires previous { previous < 2 ^ 48 }
    requires mark { mark < 2 ^ 13 }
    ensures { result ≡ previous + mark * 2 ^ 48 }
{
    previous + (mark << 48)
}

/// The word of an entry.
#[inline(always)]
fn entry_of(addr: u64, tag: u16) -> u64
    requires addr { addr < 2 ^ 48 }
    requires tag { tag < 2 ^ 15 }
    ensures { result ≡ new_entry addr tag }
{
    addr + (u64::from(tag) << 48)
}

/// What has come of an address that was to be reserved.
#[derive(Clone, Copy)]
enum Reserved {
    /// It is this one.
    Taken(u64),
    /// Another session was quicker.
    Lost,
    /// The log is full, or the tail stands where it may not.
    Unusual,
}

/// So often a raise of the tail is tried, the guess included.
const TRIES: usize = 8;

/// The guess, if the tail may stand there. Else the last address below the limit, where it seldom does.
#[inline(always)]
fn guess_between(guess: u64, previous: u64, limit: u64) -> u64 {
    if guess > previous && guess < limit {
        guess
    } else {
        limit.wrapping_sub(1)
    }
}

/// Takes the address at the tail: loads the tail and raises it, at one moment, so that nobody can be quicker in between. None if the tail went on each
/// time, or stands where it may not; then no step was made.
#[inline(always)]
fn take_at_once<L: Line>(
    line: &mut L,
    going: &Going,
    op: Op,
    slot: Slot,
    old: Option<Value>,
    limit: u64,
) -> Option<u64>
    requires at { (c : Course) × Goes c (L.seat line.old) op going.now
        × IsAtReserve c slot.place slot.entry (as_number old) (LoadsTail limit) (L.stands line.old) }
    requires room { L.kept line.old ≤ 51 }
    ensures seat { L.seat line.new ≡ L.seat line.old }
    ensures led { (start : L) (call : Call) → L.led start call line.old → L.led start call line.new }
    ensures kept { L.kept line.new ≤ 53 }
    ensures addr { (addr : ℕ) → result ≡ Some addr → addr < 2 ^ 48 }
    ensures fills { (c : Course) → Goes c (L.seat line.old) op going.now
        → IsAtReserve c slot.place slot.entry (as_number old) (LoadsTail limit) (L.stands line.old)
        → (addr : ℕ) → result ≡ Some addr → IsReserved c slot.place slot.entry (as_number old) addr (L.stands line.new) }
    ensures still { IfNone result (line.new ≡ line.old) }
{
    let place = SharedWord::Tail.place();
    let previous = addr_of(slot.entry);
    // A guess that misses tells where the tail stands, and fetches its cache line for writing.
    let guess = line.guess();
    let mut tail = guess_between(guess, previous, limit);
    'tries: for _ in 0..TRIES {
        if tail >= limit || tail <= previous || tail >= 1 << 48 {
            return None;
        }
        let found = line.raise(place, tail);
        if found == tail {
            return Some(tail);
        }
        tail = found;
    }
    None
}

/// Takes the address at the tail by a load and a Cas, if no other is quicker in between.
#[inline(always)]
fn take_by_steps<L: Line>(
    line: &mut L,
    going: &Going,
    op: Op,
    slot: Slot,
    old: Option<Value>,
    limit: u64,
) -> Reserved
    requires at { (c : Course) × Goes c (L.seat line.old) op going.now
        × IsAtReserve c slot.place slot.entry (as_number old) (LoadsTail limit) (L.stands line.old) }
    requires room { L.kept line.old ≤ 51 }
    requires updates { is_read op ≡ false }
    requires calm { going.now.is_preparing ≡ false }
    ensures seat { L.seat line.new ≡ L.seat line.old }
    ensures led { (start : L) (call : Call) → L.led start call line.old → L.led start call line.new }
    ensures kept { L.kept line.new ≤ 53 }
    ensures addr { (addr : ℕ) → result ≡ Taken addr → addr < 2 ^ 48 }
    ensures fills { (c : Course) → Goes c (L.seat line.old) op going.now
        → IsAtReserve c slot.place slot.entry (as_number old) (LoadsTail limit) (L.stands line.old)
        → (addr : ℕ) → result ≡ Taken addr → IsReserved c slot.place slot.entry (as_number old) addr (L.stands line.new) }
    ensures waits { (c : Course) → Goes c (L.seat line.old) op going.now
        → IsAtReserve c slot.place slot.entry (as_number old) (LoadsTail limit) (L.stands line.old)
        → result ≡ Lost → ComesTo c Contended (L.stands line.new) }
{
    let tail_place = SharedWord::Tail.place();
    let tail = line.load(tail_place);
    if tail >= limit {
        return Reserved::Unusual;
    }
    let previous = addr_of(slot.entry);
    if tail <= previous || tail >= 1 << 48 {
        return Reserved::Unusual;
    }
    let found = line.cas(tail_place, tail, tail + 1);
    if found == tail {
        Reserved::Taken(tail)
    } else {
        Reserved::Lost
    }
}

/// Reserves an address at the tail, above that of the slot's entry. A call takes none from its bound on.
#[inline(always)]
fn reserve<L: Line>(line: &mut L, going: &Going, op: Op, slot: Slot, old: Option<Value>) -> Reserved
    requires at { (c : Course) × Goes c (L.seat line.old) op going.now × IsAtReserve c slot.place slot.entry (as_number old) (limit_of c) (L.stands line.old) }
    requires room { L.kept line.old ≤ 50 }
    requires updates { is_read op ≡ false }
    requires calm { going.now.is_preparing ≡ false }
    ensures seat { L.seat line.new ≡ L.seat line.old }
    ensures led { (start : L) (call : Call) → L.led start call line.old → L.led start call line.new }
    ensures kept { L.kept line.new ≤ 53 }
    ensures addr { (addr : ℕ) → result ≡ Taken addr → addr < 2 ^ 48 }
    ensures fills { (c : Course) → Goes c (L.seat line.old) op going.now → IsAtReserve c slot.place slot.entry (as_number old) (limit_of c) (L.stands line.old)
        → (addr : ℕ) → result ≡ Taken addr → IsReserved c slot.place slot.entry (as_number old) addr (L.stands line.new) }
    ensures waits { (c : Course) → Goes c (L.seat line.old) op going.now → IsAtReserve c slot.place slot.entry (as_number old) (limit_of c) (L.stands line.old)
        → result ≡ Lost → ComesTo c Contended (L.stands line.new) }
{
    let limit_place = SharedWord::Limit.place();
    let loaded = line.load(limit_place);
    let limit = limit_within(going.bound, loaded);
    let taken = take_at_once(line, going, op, slot, old, limit);
    match taken {
        Some(addr) => Reserved::Taken(addr),
        None => take_by_steps(line, going, op, slot, old, limit),
    }
}

/// Writes the record at the address: its value, its key, and then its header.
#[inline(always)]
fn fill<L: Line>(line: &mut L, going: &Going, op: Op, slot: Slot, old: Option<Value>, addr: u64)
    requires at { (c : Course) × Goes c (L.seat line.old) op going.now × IsReserved c slot.place slot.entry (as_number old) addr (L.stands line.old) }
    requires room { L.kept line.old ≤ 53 }
    ensures seat { L.seat line.new ≡ L.seat line.old }
    ensures led { (start : L) (call : Call) → L.led start call line.old → L.led start call line.new }
    ensures kept { L.kept line.new ≤ 56 }
    ensures publishes { (c : Course) → Goes c (L.seat line.old) op going.now → IsReserved c slot.place slot.entry (as_number old) addr (L.stands line.old)
        → IsAtPublish c slot.place slot.entry (as_number old) addr (L.stands line.new) }
{
    let value_place = going.record(Addr(addr), RecordWord::Value);
    let made = op.value_applied(old);
    let value = word_of_value(made);
    let _ = line.store(value_place, value);
    let key_place = going.record(Addr(addr), RecordWord::Key);
    let key = op.key();
    let _ = line.store(key_place, key.0);
    let header_place = going.record(Addr(addr), RecordWord::Header);
    let previous = addr_of(slot.entry);
    let header = header_of(previous, going.mark);
    let _ = line.store(header_place, header);
}

/// Appends a record that is made of this old value, and publishes its entry in the slot, if no other is quicker.
#[inline(always)]
pub(crate) fn append<L: Line>(
    line: &mut L,
    going: &Going,
    op: Op,
    slot: Slot,
    old: Option<Value>,
) -> Outcome
    requires at { (c : Course) × Goes c (L.seat line.old) op going.now × IsAtReserve c slot.place slot.entry (as_number old) (limit_of c) (L.stands line.old) }
    requires room { L.kept line.old ≤ 50 }
    requires updates { is_read op ≡ false }
    requires calm { going.now.is_preparing ≡ false }
    ensures seat { L.seat line.new ≡ L.seat line.old }
    ensures led { (start : L) (call : Call) → L.led start call line.old → L.led start call line.new }
    ensures done { (c : Course) → Goes c (L.seat line.old) op going.now → IsAtReserve c slot.place slot.entry (as_number old) (limit_of c) (L.stands line.old)
        → ComesTo c result (L.stands line.new) }
{
    let reserved = reserve(line, going, op, slot, old);
    match reserved {
        Reserved::Taken(addr) => {
            fill(line, going, op, slot, old, addr);
            let home = home_of(op.key(), going.bits);
            let entry = entry_of(addr, home.tag);
            let found = line.cas(slot.place, slot.entry, entry);
            if found == slot.entry {
                let reply = op.reply_from(old);
                Outcome::Done(reply)
            } else {
                Outcome::Unusual
            }
        }
        Reserved::Lost => Outcome::Contended,
        Reserved::Unusual => Outcome::Unusual,
    }
}

/// Appends the first record of a key, at the end of its chain.
#[inline(always)]
pub(crate) fn append_first<L: Line>(line: &mut L, going: &Going, op: Op, slot: Slot) -> Outcome
    requires at { (c : Course) × Goes c (L.seat line.old) op going.now × HasMet c (Nowhere slot) (L.stands line.old) }
    requires room { L.kept line.old ≤ 48 }
    requires updates { is_read op ≡ false }
    requires calm { going.now.is_preparing ≡ false }
    ensures seat { L.seat line.new ≡ L.seat line.old }
    ensures led { (start : L) (call : Call) → L.led start call line.old → L.led start call line.new }
    ensures done { (c : Course) → Goes c (L.seat line.old) op going.now → HasMet c (Nowhere slot) (L.stands line.old) → ComesTo c result (L.stands line.new) }
{
    if going.is_moving_on {
        return Outcome::Unusual;
    }
    append(line, going, op, slot, None)
}

/// Appends a record whose value doesn't depend on what the device has of the chain.
#[inline(always)]
pub(crate) fn append_past<L: Line>(line: &mut L, going: &Going, op: Op, slot: Slot) -> Outcome
    requires at { (c : Course) × Goes c (L.seat line.old) op going.now × (addr : ℕ) × HasMet c (OnDisk slot addr) (L.stands line.old) }
    requires room { L.kept line.old ≤ 48 }
    requires updates { is_read op ≡ false }
    requires calm { going.now.is_preparing ≡ false }
    ensures seat { L.seat line.new ≡ L.seat line.old }
    ensures led { (start : L) (call : Call) → L.led start call line.old → L.led start call line.new }
    ensures done { (c : Course) → Goes c (L.seat line.old) op going.now → (addr : ℕ) → HasMet c (OnDisk slot addr) (L.stands line.old)
        → ComesTo c result (L.stands line.new) }
{
    let blind = is_blind(op);
    if !blind {
        return Outcome::Unusual;
    }
    if going.is_moving_on {
        return Outcome::Unusual;
    }
    append(line, going, op, slot, None)
}
