//! The search along bucket and chain, which all straight calls share.
ghost use Rattle.std.specs.Prelude.{◌≡◌, ◌==◌, ◌&&◌, not, ◌⊎◌, ◌<◌, ◌≤◌, ◌+◌, ◌-◌, ◌/◌, ◌^◌, ℕ, IfSome, false, is_some, true};
ghost use Rattle.fkv_map.specs.declared.operations.Call.{Call};
ghost use Rattle.fkv_map.specs.Keys.{key_of};
ghost use Rattle.fkv_plane.specs.Places.{bucket_place};
ghost use Rattle.fkv_index.specs.Slots.{entry_addr, home_of, is_entry};
ghost use Rattle.fkv_ops.specs.Requests.{is_read};
ghost use Rattle.fkv_session.specs.Sessions.{Seat, SessionState, is_busy};
ghost use Rattle.fkv_straight.specs.Course.{Course, course_of, shares, Goes};
ghost use Rattle.fkv_straight.specs.Memory.{is_in_memory};
ghost use Rattle.fkv_straight.specs.Met.{Begins, HasMet, HasSlot, IsAtFirst, IsAtLink, IsMet, IsReached};
ghost use Rattle.fkv_straight.specs.declared.searching.Judged.TheVariants.{Here, Other};
ghost use Rattle.fkv_straight.specs.declared.searching.Slot.{Slot};
ghost use Rattle.fkv_straight.specs.declared.searching.Record.{Record};
ghost use Rattle.fkv_straight.specs.declared.searching.Sought.TheVariants.{At, Passed};
ghost use Rattle.fkv_straight.specs.declared.searching.Visited.TheVariants.{Own, Other as Past};
ghost use Rattle.fkv_straight.specs.Standing.{};

use crate::going::Going;
use crate::lines::Line;
use crate::words::{addr_of, header_said, is_entry, is_read, past_shared};
use fkv_base::Addr;
use fkv_map::{Call, Op};
use fkv_ops::HeaderSaid;
use fkv_plane::RecordWord;

/// The slot of a home: its place, and the word that was found there, 0 where it is empty.
#[derive(Clone, Copy)]
pub struct Slot {
    pub place: usize,
    pub entry: u64,
}

/// The record of a key that was met in memory, and the slot from whose entry the walk to it began.
#[derive(Clone, Copy)]
pub struct Record {
    pub place: usize,
    pub entry: u64,
    pub addr: u64,
    pub header: u64,
    /// The mark of its version.
    pub mark: u64,
    /// The place of its header.
    pub at: usize,
}

/// What a search has met.
#[derive(Clone, Copy)]
pub enum Met {
    Found(Record),
    /// The chain ends, and has no record of the key.
    Nowhere(Slot),
    /// The chain leaves memory at this address.
    OnDisk(Slot, u64),
}

/// Searches through more overflow buckets, and walks along more records behind the first, are the machine's.
const LINKS: usize = 3;

const RECORDS: usize = 7;

/// What the word of a slot is to the search for a tag.
enum Judged {
    /// The search ends here: the slot is empty, or has an entry of the tag.
    Here,
    /// An entry of another tag.
    Other,
    Spoiled,
}

/// What a word is to the search. Most words have an address, and most that end a search have the tag.
#[inline(always)]
fn judge(word: u64, tag: u64) -> Judged
    requires tag { tag < 2 ^ 15 }
    ensures here { result ≡ Here → (word ≡ 0) ⊎ ((is_entry word ≡ true) × (word / 2 ^ 48 ≡ tag)) }
    ensures other { result ≡ Other → (is_entry word ≡ true) × ¬ (word / 2 ^ 48 ≡ tag) }
{
    let addr = addr_of(word);
    if addr == 0 {
        if word == 0 {
            return Judged::Here;
        }
        return Judged::Spoiled;
    }
    if word >> 48 == tag {
        return Judged::Here;
    }
    let entry = is_entry(word);
    if entry {
        Judged::Other
    } else {
        Judged::Spoiled
    }
}

/// What the search along a bucket's slots has come to.
enum Sought {
    At(Slot),
    /// Each slot has an entry of another tag.
    Passed,
    /// A word is none that a slot may have, or the machine has to count.
    Unusual,
}

/// Whether a search that ends at this word is the machine's: an update's that has a bound and is at an empty slot behind its first bucket. The machine
/// counts the taken buckets then.
#[inline(always)]
fn is_counted(going: &Going, op: Op, word: u64, passed: usize) -> bool
    ensures { result ≡ word == 0 && not (passed == 0) && is_some going.now.bound && not (is_read op) }
{
    word == 0 && passed != 0 && going.is_bounded() && !is_read(op)
}

/// Searches the seven slots of a bucket, of which the first has this word. So many buckets were passed before it.
#[inline(always)]
fn seek_in<L: Line>(
    line: &mut L,
    going: &Going,
    op: Op,
    tag: u64,
    base: usize,
    first: u64,
    passed: usize,
) -> Sought
    requires at { (c : Course) × Goes c (L.seat line.old) op going.now × HasSlot c base (going.now.places.overflow - passed) 0 first (L.stands line.old) }
    requires tag { tag ≡ (home_of going.now.bits (key_of op)).tag }
    requires past { 24 ≤ base }
    requires fits { base + 8 ≤ 2 ^ 62 }
    requires room { L.kept line.old ≤ 57 }
    ensures seat { L.seat line.new ≡ L.seat line.old }
    ensures led { (start : L) (call : Call) → L.led start call line.old → L.led start call line.new }
    ensures kept { L.kept line.new ≤ L.kept line.old + 6 }
    ensures found { (its : Slot) → result ≡ At its → (c : Course) → Goes c (L.seat line.old) op going.now
        → HasSlot c base (going.now.places.overflow - passed) 0 first (L.stands line.old)
        → IsReached c its.place its.entry (entry_addr its.entry) (L.stands line.new) }
    ensures passed { result ≡ Passed → (c : Course) → Goes c (L.seat line.old) op going.now
        → HasSlot c base (going.now.places.overflow - passed) 0 first (L.stands line.old)
        → IsAtLink c base (going.now.places.overflow - passed) (L.stands line.new) }
{
    let mut word = first;
    'slots: for slot in 0..6 {
        let judged = judge(word, tag);
        match judged {
            Judged::Here => {
                let counted = is_counted(going, op, word, passed);
                if counted {
                    return Sought::Unusual;
                }
                return Sought::At(Slot {
                    place: base + slot,
                    entry: word,
                });
            }
            Judged::Spoiled => return Sought::Unusual,
            Judged::Other => {}
        }
        word = line.load_past(base + slot + 1);
    }
    let judged = judge(word, tag);
    match judged {
        Judged::Here => {
            let counted = is_counted(going, op, word, passed);
            if counted {
                Sought::Unusual
            } else {
                Sought::At(Slot {
                    place: base + 6,
                    entry: word,
                })
            }
        }
        Judged::Spoiled => Sought::Unusual,
        Judged::Other => Sought::Passed,
    }
}

/// Goes on with the search behind the link of a bucket, in overflow buckets.
#[inline(always)]
fn seek_on<L: Line>(line: &mut L, going: &Going, op: Op, tag: u64, first: usize) -> Option<Slot>
    requires at { (c : Course) × Goes c (L.seat line.old) op going.now × IsAtLink c first going.now.places.overflow (L.stands line.old) }
    requires tag { tag ≡ (home_of going.now.bits (key_of op)).tag }
    requires fits { first + 8 ≤ 2 ^ 62 }
    requires room { L.kept line.old ≤ 8 }
    ensures seat { L.seat line.new ≡ L.seat line.old }
    ensures led { (start : L) (call : Call) → L.led start call line.old → L.led start call line.new }
    ensures kept { L.kept line.new ≤ L.kept line.old + 24 }
    ensures found { (c : Course) → Goes c (L.seat line.old) op going.now → IsAtLink c first going.now.places.overflow (L.stands line.old)
        → IfSome result (λ its. IsReached c its.place its.entry (entry_addr its.entry) (L.stands line.new)) }
{
    let mut base = first;
    'links: for links in 0..LINKS {
        if links >= going.places.overflow {
            return None;
        }
        let link = line.load(base + 7);
        let number = addr_of(link) as usize;
        if number == 0 || number > going.places.overflow {
            return None;
        }
        base = going.places.overflow(number, 0);
        let word = line.load(base);
        let sought = seek_in(line, going, op, tag, base, word, links + 1);
        match sought {
            Sought::At(slot) => return Some(slot),
            Sought::Unusual => return None,
            Sought::Passed => {}
        }
    }
    None
}

/// Finds the slot of the key's home, from its bucket's first word on. It is the first one with an entry of its tag, or the first empty one. Most
/// homes have it in the bucket itself, so that is no turn of the loop: there each reply has a place that is known.
#[inline(always)]
fn seek<L: Line>(line: &mut L, going: &Going, op: Op, first: usize, found: u64) -> Option<Slot>
    requires at { (c : Course) × Goes c (L.seat line.old) op going.now × HasSlot c first going.now.places.overflow 0 found (L.stands line.old) }
    requires past { 24 ≤ first }
    requires fits { first + 8 ≤ 2 ^ 62 }
    requires room { L.kept line.old ≤ 2 }
    ensures seat { L.seat line.new ≡ L.seat line.old }
    ensures led { (start : L) (call : Call) → L.led start call line.old → L.led start call line.new }
    ensures kept { L.kept line.new ≤ L.kept line.old + 31 }
    ensures found { (c : Course) → Goes c (L.seat line.old) op going.now → HasSlot c first going.now.places.overflow 0 found (L.stands line.old)
        → IfSome result (λ its. IsReached c its.place its.entry (entry_addr its.entry) (L.stands line.new)) }
{
    let start = going.start(op.key());
    let sought = seek_in(line, going, op, start.tag, first, found, 0);
    match sought {
        Sought::At(slot) => Some(slot),
        Sought::Unusual => None,
        Sought::Passed => seek_on(line, going, op, start.tag, first),
    }
}

/// What the walk has met at an address of the chain.
enum Visited {
    /// The key's record.
    Own(Record),
    /// Another key's: the chain goes on at this address.
    Other(u64),
    Spoiled,
}

/// Loads header and key of the record to which the walk has come.
#[inline(always)]
fn visit<L: Line>(line: &mut L, going: &Going, op: Op, slot: Slot, addr: u64) -> Visited
    requires at { (c : Course) × Goes c (L.seat line.old) op going.now × IsReached c slot.place slot.entry addr (L.stands line.old) }
    requires here { is_in_memory going.now.places.ring going.now.head addr ≡ true }
    requires room { L.kept line.old ≤ 62 }
    ensures seat { L.seat line.new ≡ L.seat line.old }
    ensures led { (start : L) (call : Call) → L.led start call line.old → L.led start call line.new }
    ensures kept { L.kept line.new ≤ L.kept line.old + 2 }
    ensures own { (its : Record) → result ≡ Own its → (c : Course) → Goes c (L.seat line.old) op going.now
        → IsReached c slot.place slot.entry addr (L.stands line.old) → IsMet c its (L.stands line.new) }
    ensures other { (next : ℕ) → result ≡ Past next → (c : Course) → Goes c (L.seat line.old) op going.now
        → IsReached c slot.place slot.entry addr (L.stands line.old) → IsReached c slot.place slot.entry next (L.stands line.new) }
{
    let key = op.key();
    let at = going.record(Addr(addr), RecordWord::Header);
    let header = line.load_past(at);
    let found = line.load_past(at + 1);
    let said = header_said(header);
    let HeaderSaid::Says(previous, version) = said else {
        return Visited::Spoiled;
    };
    if previous.0 >= addr {
        return Visited::Spoiled;
    }
    if found == key.0 {
        return Visited::Own(Record {
            place: slot.place,
            entry: slot.entry,
            addr,
            header,
            mark: version.0,
            at,
        });
    }
    Visited::Other(previous.0)
}

/// What a walk comes to at an address of the chain that isn't in memory.
#[inline(always)]
fn chain_end(going: &Going, slot: Slot, addr: u64) -> Option<Met>
    ensures met { (c : Course) (k : Seat) (op : Op) (s : SessionState) → Goes c k op going.now → IsReached c slot.place slot.entry addr s
        → IfSome result (λ its. HasMet c its s) }
{
    if addr == 0 {
        return Some(Met::Nowhere(slot));
    }
    if addr < going.head {
        return Some(Met::OnDisk(slot, addr));
    }
    None
}

/// Walks on from an address that was reached behind the chain's first record.
#[inline(always)]
fn walk_on<L: Line>(line: &mut L, going: &Going, op: Op, slot: Slot, from: u64) -> Option<Met>
    requires at { (c : Course) × Goes c (L.seat line.old) op going.now × IsReached c slot.place slot.entry from (L.stands line.old) }
    requires room { L.kept line.old ≤ 35 }
    ensures seat { L.seat line.new ≡ L.seat line.old }
    ensures led { (start : L) (call : Call) → L.led start call line.old → L.led start call line.new }
    ensures kept { L.kept line.new ≤ L.kept line.old + 14 }
    ensures met { (c : Course) → Goes c (L.seat line.old) op going.now → IsReached c slot.place slot.entry from (L.stands line.old)
        → IfSome result (λ its. HasMet c its (L.stands line.new)) }
{
    let mut addr = from;
    let mut is_here = going.is_in_memory(addr);
    let mut met = 0;
    'records: while is_here {
        let visited = visit(line, going, op, slot, addr);
        match visited {
            Visited::Own(its) => return Some(Met::Found(its)),
            Visited::Other(next) => addr = next,
            Visited::Spoiled => return None,
        }
        is_here = going.is_in_memory(addr);
        met += 1;
        if met >= RECORDS {
            return None;
        }
    }
    chain_end(going, slot, addr)
}

/// Walks from the slot's entry to the record of the key, as far as the chain lies in memory. Most keys have the first record of their chain, so that
/// is no turn of the loop.
#[inline(always)]
fn walk<L: Line>(line: &mut L, going: &Going, op: Op, slot: Slot) -> Option<Met>
    requires at { (c : Course) × Goes c (L.seat line.old) op going.now × IsReached c slot.place slot.entry (entry_addr slot.entry) (L.stands line.old) }
    requires room { L.kept line.old ≤ 33 }
    ensures seat { L.seat line.new ≡ L.seat line.old }
    ensures led { (start : L) (call : Call) → L.led start call line.old → L.led start call line.new }
    ensures kept { L.kept line.new ≤ L.kept line.old + 16 }
    ensures met { (c : Course) → Goes c (L.seat line.old) op going.now → IsReached c slot.place slot.entry (entry_addr slot.entry) (L.stands line.old)
        → IfSome result (λ its. HasMet c its (L.stands line.new)) }
{
    let addr = addr_of(slot.entry);
    let is_here = going.is_in_memory(addr);
    if !is_here {
        return chain_end(going, slot, addr);
    }
    let visited = visit(line, going, op, slot, addr);
    match visited {
        Visited::Own(its) => Some(Met::Found(its)),
        Visited::Other(next) => walk_on(line, going, op, slot, next),
        Visited::Spoiled => None,
    }
}

/// The place of the first slot of the key's home.
#[inline(always)]
fn first_slot_of(going: &Going, op: Op) -> usize
    ensures place { result ≡ bucket_place going.now.places (home_of going.now.bits (key_of op)).bucket 0 }
    ensures past { 24 ≤ result }
    ensures fits { result + 8 ≤ 2 ^ 62 }
{
    let start = going.start(op.key());
    past_shared(start.bucket)
}

/// Finds the slot of the key's home and walks its chain; nothing where that meets anything unusual.
#[inline(always)]
pub(crate) fn search<L: Line>(line: &mut L, going: &Going, op: Op, call: Call) -> Option<Met>
    requires idle { is_busy (L.stands line.old).step ≡ false }
    requires goes { Goes (course_of (L.seat line.old) (L.stands line.old) op call) (L.seat line.old) op going.now }
    requires begins { Begins (course_of (L.seat line.old) (L.stands line.old) op call) call (L.stands line.old) }
    requires calm { shares (course_of (L.seat line.old) (L.stands line.old) op call) ≡ false }
    ensures seat { L.seat line.new ≡ L.seat line.old }
    ensures led { L.led line.old call line.new }
    ensures kept { L.kept line.new ≤ 48 }
    ensures met { IfSome result (λ its. HasMet (course_of (L.seat line.old) (L.stands line.old) op call) its (L.stands line.new)) }
{
    let first = first_slot_of(going, op);
    let word = line.first_past(call, first);
    let slot = seek(line, going, op, first, word);
    match slot {
        Some(its) => walk(line, going, op, its),
        None => None,
    }
}

/// The same in a call that has shared the latch of the bucket.
#[inline(always)]
pub(crate) fn search_on<L: Line>(line: &mut L, going: &Going, op: Op) -> Option<Met>
    requires at { (c : Course) × Goes c (L.seat line.old) op going.now × IsAtFirst c (L.stands line.old) }
    requires room { L.kept line.old ≤ 1 }
    ensures seat { L.seat line.new ≡ L.seat line.old }
    ensures led { (start : L) (call : Call) → L.led start call line.old → L.led start call line.new }
    ensures kept { L.kept line.new ≤ 49 }
    ensures met { (c : Course) → Goes c (L.seat line.old) op going.now → IsAtFirst c (L.stands line.old)
        → IfSome result (λ its. HasMet c its (L.stands line.new)) }
{
    let first = first_slot_of(going, op);
    let word = line.load(first);
    let slot = seek(line, going, op, first, word);
    match slot {
        Some(its) => walk(line, going, op, its),
        None => None,
    }
}
