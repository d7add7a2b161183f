//! Two small stores of plain words, and how a session's calls are moved over them. The one has two sessions, whose blocks begin at
//! places 24 and 40; its one bucket has the places 56 to 63, and eight places of records, three words each, come from 64 on. The
//! other has sixteen buckets and one session, and no record yet.
use fkv_base::{Addr, Fault, Key, Phase, Shape, Value, Version};
use fkv_log::SeenOffsets;
use fkv_map::{Call, Op};
use fkv_ops::Seen;
use fkv_plane::{Ask, Places, PlainWords};
use fkv_session::{Session, Told};
use std::alloc::Global;
use std::process::Abort;

/// One of a version, of a tag, or of those that share a latch.
pub(crate) const ONE: u64 = 1 << 48;

pub(crate) const KEY: Key = Key(3);
/// A key of another home.
pub(crate) const OTHER: Key = Key(4);

pub(crate) const PREPARE: u64 = 1 + (1 << 16);

pub(crate) const IN_PROGRESS: u64 = 2 + (2 << 16);
/// The words of the first session.
pub(crate) const EPOCH: usize = 24;

pub(crate) const EVEN_CUT: usize = 25;

pub(crate) const ODD_CUT: usize = 26;

pub(crate) const OWING: usize = 27;

pub(crate) const DURABLE: usize = 28;

pub(crate) const MAIL: usize = 29;

pub(crate) const MAIL_ADDRESS: usize = 30;
/// In the store of two sessions, the first slot and the word with the bucket's latch.
pub(crate) const SLOT: usize = 56;

pub(crate) const LATCH: usize = 63;
/// The entry of the key whose record is at address 1, and of the one whose record is at address 5.
pub(crate) const FIRST: u64 = 1 + 3 * ONE;

pub(crate) const FIFTH: u64 = 5 + 3 * ONE;

pub(crate) const ADD: Call = Call::Op(Op::Add(KEY, 5));

pub(crate) const READ: Call = Call::Op(Op::Read(KEY));

pub(crate) const UPSERT: Call = Call::Op(Op::Upsert(OTHER, Value(40)));

/// The store of two sessions in version 1, with two records of the key, 10 at address 1 and 20 at address 5, of which none has an entry.
const TWO_SESSIONS: [(usize, u64); 17] = [
    (0, 1),
    (2, 1),
    (3, 6),
    (4, 8),
    (5, 1),
    (6, 1),
    (7, 1),
    (8, 1),
    (9, 1),
    (EPOCH, 1),
    (40, 1),
    (67, ONE),
    (68, KEY.0),
    (69, 10),
    (79, ONE),
    (80, KEY.0),
    (81, 20),
];

/// The new store of one session in version 1.
const ONE_SESSION: [(usize, u64); 10] = [
    (0, 1),
    (2, 1),
    (3, 1),
    (4, 8),
    (5, 1),
    (6, 1),
    (7, 1),
    (8, 1),
    (9, 1),
    (EPOCH, 1),
];

pub(crate) fn shape() -> Result<Shape, Fault> {
    Shape::new(0, 4, 2, 1, 2, 0, 8)
}

pub(crate) fn shape_of_one() -> Result<Shape, Fault> {
    Shape::new(4, 4, 2, 1, 1, 0, 64)
}

pub(crate) fn store(plane: &mut PlainWords, words: &[(usize, u64)]) {
    for (place, word) in words {
        plane.perform::<()>(&Ask::Store(*place, *word));
    }
}

/// These words stand.
pub(crate) fn stands(rt: &impl Abort, plane: &PlainWords, words: &[(usize, u64)]) {
    for (place, word) in words {
        assert!(rt; plane.word(*place) == *word, "at place {place}");
    }
}

/// The words of the store of two sessions.
pub(crate) fn words(alloc: Global) -> Result<PlainWords, Fault> {
    let mut plane = PlainWords::new(alloc, Places::of(&shape()?).word_count())?;
    store(&mut plane, &TWO_SESSIONS);
    Ok(plane)
}

/// The words of the store of one session.
pub(crate) fn words_of_one(alloc: Global) -> Result<PlainWords, Fault> {
    let mut plane = PlainWords::new(alloc, Places::of(&shape_of_one()?).word_count())?;
    store(&mut plane, &ONE_SESSION);
    Ok(plane)
}

/// What a session has seen of a store's version 1.
pub(crate) fn seen(phase: Phase, head: u64, read_only: u64) -> Seen {
    Seen {
        phase,
        version: Version(1),
        offsets: SeenOffsets {
            head: Addr(head),
            read_only: Addr(read_only),
        },
    }
}

/// Goes on with the reply to this ask.
pub(crate) fn go_on(plane: &mut PlainWords, session: &mut Session, ask: Ask<Told>) -> Ask<Told> {
    match ask {
        Ask::Put(slot, action) => {
            let _ = plane.put(slot, action);
            session.go_on(0)
        }
        Ask::Take(slot) => match plane.take(slot) {
            Some(action) => session.take(action),
            None => session.go_on(0),
        },
        other => session.go_on(plane.perform(&other)),
    }
}

/// Moves a call to its end.
pub(crate) fn told(plane: &mut PlainWords, session: &mut Session, call: Call) -> Option<Told> {
    let mut ask = session.begin(call);
    for _ in 0..200 {
        ask = match ask {
            Ask::Done(told) => return Some(told),
            other => go_on(plane, session, other),
        };
    }
    None
}
