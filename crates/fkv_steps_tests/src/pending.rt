//! Mailboxes and attempts moved by hand over plain words. The store has two sessions, of which the second is looked at: its block
//! begins at place 40. The one bucket has the places 56 to 63, and eight places of records, three words each, come from 64 on.
use crate::words::{new_words, store};
use fkv_base::{Addr, Key, MAX_PENDING, Phase, Serial, Shape, Value, Version};
use fkv_log::SeenOffsets;
use fkv_map::{Op, Reply};
use fkv_ops::{DiskRecord, HeldRecord, Occasion, Reason, Request, Seen, TryAnswer};
use fkv_pending::{
    Attempt, Mail, MailAnswer, MailRecord, MailTask, PendingList, PendingRequest, RequestName,
    Ticket, law_attempts, law_mailbox,
};
use fkv_plane::{Ask, Places, PlainWords};
use std::process::Abort;
use std::test::Fail;

mod scripts;

/// One of a version, or of a tag.
const ONE: u64 = 1 << 48;

const KEY: Key = Key(3);
/// Another key of the same home.
const OTHER: Key = Key(32771);

/// The words of the mailbox.
const STATE: usize = 45;

const ADDRESS: usize = 46;

const HEADER_WORD: usize = 47;

const KEY_WORD: usize = 48;

const VALUE_WORD: usize = 49;
/// The first slot, and the entry in it: its record is on the device.
const SLOT: usize = 56;

const ENTRY: u64 = 4 + 3 * ONE;
/// What a request waits for: the record of the device, whether it has asked for it, the one that it holds meanwhile, and its floor.
#[derive(Clone, Copy)]
struct Wait {
    sought: Option<DiskRecord>,
    has_asked: bool,
    held: Option<HeldRecord>,
    floor: Addr,
}

/// A request of version 2, and what it waits for.
fn request(op: Op, wait: Option<Wait>) -> PendingRequest {
    PendingRequest {
        name: match op {
            Op::Read(_) => RequestName::Read(Ticket(1)),
            _ => RequestName::Update(Serial(1)),
        },
        request: Request {
            op,
            version: Version(2),
            has_latch: false,
            held: wait.and_then(|wait| wait.held),
            floor: wait.map_or(Addr(1), |wait| wait.floor),
        },
        sought: wait.and_then(|wait| wait.sought),
        has_asked: wait.is_some_and(|wait| wait.has_asked),
    }
}

/// A read with this number.
fn numbered(number: u64) -> PendingRequest {
    PendingRequest {
        name: RequestName::Read(Ticket(number)),
        ..request(Op::Read(KEY), None)
    }
}

/// A list of so many reads as it can have.
fn full_list() -> PendingList {
    let mut list = PendingList::new();
    for number in 0..64 {
        if list.len() < MAX_PENDING {
            list.push(numbered(number));
        }
    }
    list
}

/// What a list has at this index once 5 went, and 9 had become a delete.
fn listed(index: u64) -> Option<PendingRequest> {
    match index {
        8 => Some(request(Op::Delete(KEY), None)),
        0..5 => Some(numbered(index)),
        5..63 => Some(numbered(index.wrapping_add(1))),
        _ => None,
    }
}

/// A list that is full of reads has no update to latch.
fn is_full(rt: &impl Abort, list: &PendingList) {
    assert!(rt; PendingList::new().is_empty());
    assert!(rt; list.is_full());
    assert!(rt; list.first_unlatched().is_none());
}

fn is_an_update(rt: &impl Abort, delete: &PendingRequest) {
    assert!(rt; delete.is_unlatched());
    assert!(rt; delete.is_update_of(Version(2)));
    assert!(rt; !delete.request.is_read());
}

/// Two of them are deletes, of which the second has its latch.
fn has_two_updates(rt: &impl Abort, list: &PendingList) {
    assert!(rt; list.first_unlatched() == Some(9));
    assert!(rt; list.updates_of(Version(2)) == 2);
    assert!(rt; list.updates_of(Version(1)) == 0);
}

fn is_as_listed(rt: &impl Abort, list: &PendingList) {
    assert!(rt; list.len() == 63);
    for index in 0..64_u64 {
        assert!(rt; list.get(index as usize) == listed(index), "at {index}");
    }
}

#[test]
fn a_list_keeps_its_order(rt: HostRuntime) -> Result<(), Fail> {
    let mut list = full_list();
    is_full(&rt, &list);
    let delete = request(Op::Delete(KEY), None);
    is_an_update(&rt, &delete);
    list.set(9, delete);
    list.set(11, delete.with_latch(true));
    has_two_updates(&rt, &list);
    list.set(11, numbered(11));
    list.remove(5);
    is_as_listed(&rt, &list);
    Ok(())
}

/// What a mailbox with these words is asked for, and the asks that makes.
struct Errand<'a> {
    words: &'a [(usize, u64)],
    task: MailTask,
    asks: &'a [Ask<MailAnswer>],
}

fn runs(rt: &impl Abort, plane: &mut PlainWords, errand: &Errand<'_>) {
    let mut machine = Mail::new(1);
    assert!(rt; machine.ask() == Ask::Done(MailAnswer::NotReady));
    let mut ask = machine.start(errand.task);
    for (number, wanted) in errand.asks.iter().enumerate() {
        assert!(rt; ask == *wanted, "at ask {number}");
        ask = machine.drive(plane.perform(&ask));
    }
}

/// An address is put into a mailbox that is known to be empty.
fn puts(rt: &impl Abort) {
    let mut machine = Mail::new(1);
    assert!(rt; machine.put(Addr(2)) == Ask::Store(ADDRESS, 2));
    assert!(rt; machine.drive(4) == Ask::Store(STATE, 1));
    assert!(rt; machine.drive(0) == Ask::Done(MailAnswer::Asked));
}

#[test]
fn a_record_comes_by_the_mailbox(rt: HostRuntime) -> Result<(), Fail> {
    for errand in scripts::ERRANDS {
        runs(
            &rt,
            &mut new_words(rt.alloc(), 88, errand.words, &[])?,
            errand,
        );
    }
    puts(&rt);
    law_mailbox();
    Ok(())
}

/// An attempt, with its asks part by part, and where it isn't the last one the request that goes on from it. The words stand there from
/// then on.
struct Step<'a> {
    words: &'a [(usize, u64)],
    occasion: Occasion,
    asks: &'a [&'a [Ask<TryAnswer>]],
    left: Option<Wait>,
    is_orphaned: bool,
}

/// Moves an attempt on from this ask, along these, to the ask behind them.
fn follows(
    rt: &impl Abort,
    plane: &mut PlainWords,
    machine: &mut Attempt,
    ask: Ask<TryAnswer>,
    asks: &[Ask<TryAnswer>],
) -> Ask<TryAnswer> {
    let mut ask = ask;
    for (number, wanted) in asks.iter().enumerate() {
        assert!(rt; ask == *wanted, "at ask {number}");
        let makes_effect = matches!(ask, Ask::Cas(place, _, _) if place != 3);
        ask = machine.drive(plane.perform(&ask));
        assert!(rt;
            machine.effect().is_some() == makes_effect,
            "after ask {number}"
        );
    }
    ask
}

/// Makes an attempt, of a session whose seen head and read-only offset are 5.
fn attempts(
    rt: &impl Abort,
    plane: &mut PlainWords,
    machine: &mut Attempt,
    pending: PendingRequest,
    step: &Step<'_>,
) {
    let seen = Seen {
        phase: Phase::Rest,
        version: Version(2),
        offsets: SeenOffsets {
            head: Addr(5),
            read_only: Addr(5),
        },
    };
    let mut ask = machine.start(&pending, seen, step.occasion, 0, false);
    for part in step.asks {
        ask = follows(rt, plane, machine, ask, part);
    }
}

/// What is left behind the attempt: the request that goes on, if any.
fn leaves(rt: &impl Abort, machine: &Attempt, op: Op, step: &Step<'_>) {
    if step.left.is_some() {
        assert!(rt; *machine.pending() == request(op, step.left));
    }
    assert!(rt; machine.is_orphaned() == step.is_orphaned);
    assert!(rt; machine.spare() == 0);
}

fn is_new(rt: &impl Abort, machine: &Attempt, shape: &Shape) {
    assert!(rt; machine.ask() == Ask::Done(TryAnswer::Shift));
    assert!(rt; machine.places() == Places::of(shape));
}

/// What stands before the first attempt.
const BEFORE: [(usize, u64); 4] = [(3, 6), (4, 8), (6, 1), (SLOT, ENTRY)];

/// Makes one attempt after another for a request.
fn goes_on(
    rt: &impl Abort,
    plane: &mut PlainWords,
    shape: &Shape,
    (op, first): (Op, Option<Wait>),
    steps: &[Step<'_>],
) {
    let mut machine = Attempt::new(shape, 1);
    is_new(rt, &machine, shape);
    let mut pending = request(op, first);
    for step in steps {
        store(plane, step.words);
        attempts(rt, plane, &mut machine, pending, step);
        leaves(rt, &machine, op, step);
        pending = *machine.pending();
    }
}

#[test]
fn records_of_the_device_are_awaited(rt: HostRuntime) -> Result<(), Fail> {
    let shape = Shape::new(0, 4, 2, 1, 2, 0, 4)?;
    for (op, first, steps) in scripts::SCRIPTS {
        let mut plane = new_words(rt.alloc(), 88, &BEFORE, &[])?;
        goes_on(&rt, &mut plane, &shape, (*op, *first), steps);
    }
    law_attempts();
    Ok(())
}
