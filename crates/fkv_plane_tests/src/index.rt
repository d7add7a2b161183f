//! Runs over an index, line by line.
use crate::index::Line::{
    Begins, Fills, Finds, Goes, Holds, Loads, Publishes, Resumes, Stores, Swaps,
};
use fkv_base::{Addr, Key, Shape};
use fkv_index::Found::{Contended, Full, Kept, NoSlot, Slot};
use fkv_index::PublishAnswer::{Lost, Won};
use fkv_index::Purpose::{Read, Update, UpdateWithin};
use fkv_index::{Find, FindAnswer, Found, Home, Publish, PublishAnswer, Purpose, home_of};
use fkv_plane::{Ask, Places, PlainWords};
use fkv_words::Entry;
use std::alloc::Global;
use std::process::Abort;
use std::test::Fail;

/// What is done, and what comes of it.
#[derive(Clone, Copy)]
enum Line {
    /// Entries of address 5 are published, for seven tags from this one up, in the slots from the place up.
    Fills(usize, u16),
    /// The place has this word from now on.
    Stores(usize, u64),
    /// The place has this word.
    Holds(usize, u64),
    /// A search for this key and purpose, with this bucket to spare, comes to this, with this one to spare.
    Finds(u64, Purpose, u64, Found, u64),
    /// In the slot at the place, where this word was found, this address and tag are published.
    Publishes(usize, u64, u64, u16, PublishAnswer),
    /// Another session begins a search for an update of this key.
    Begins(u64),
    /// So many of its asks are replied to.
    Goes(u64),
    /// It is about to load this place.
    Loads(usize),
    /// It is about to put the second word in the place of the first.
    Swaps(usize, u64, u64),
    /// It goes on to its end, and comes to this, with this bucket to spare.
    Resumes(Found, u64),
}

/// One more tag in the word of an entry, and the latch of a bucket that is held alone beside five shares.
const TAG: u64 = 281474976710656;

const LATCH: u64 = 9223372036854775808 + 5 * TAG;

/// Seven entries fill a bucket. A publish changes its slot only where the slot's word is what was found.
const ONE_BUCKET: [Line; 14] = [
    Finds(1, Update, 0, Slot(56, 0), 0),
    Publishes(56, 0, 5, 1, Won),
    Finds(2, Update, 0, Slot(57, 0), 0),
    Fills(56, 1),
    Finds(3, Update, 0, Slot(58, 3 * TAG + 5), 0),
    Publishes(58, 0, 6, 3, Lost),
    Holds(58, 3 * TAG + 5),
    Publishes(58, 3 * TAG + 5, 6, 3, Won),
    Holds(58, 3 * TAG + 6),
    Publishes(58, 3 * TAG + 5, 7, 3, Lost),
    Holds(58, 3 * TAG + 6),
    Finds(8, Read, 0, NoSlot, 0),
    Finds(8, Update, 0, Full, 0),
    Holds(63, 0),
];

/// The eighth word and the count of taken buckets are loaded just before their Cas, and the search goes on in the new bucket.
const EIGHTH_ENTRY: [Line; 17] = [
    Fills(56, 1),
    Begins(8),
    Loads(56),
    Goes(6),
    Loads(62),
    Goes(1),
    Loads(63),
    Goes(1),
    Loads(10),
    Goes(1),
    Swaps(10, 0, 1),
    Goes(1),
    Swaps(63, 0, 1),
    Resumes(Slot(64, 0), 0),
    Finds(8, Read, 0, Slot(64, 0), 0),
    Fills(64, 8),
    Finds(15, Update, 0, Full, 0),
];

/// Of two sessions that link at once, the one whose Cas comes second keeps its bucket, and links it later.
const TWO_LINK: [Line; 12] = [
    Fills(56, 1),
    Begins(8),
    Goes(10),
    Swaps(63, 0, 1),
    Finds(9, Update, 0, Slot(72, 0), 0),
    Resumes(Contended, 1),
    Finds(8, Update, 1, Slot(72, 0), 1),
    Fills(72, 8),
    Finds(15, Update, 1, Slot(64, 0), 0),
    Holds(63, 2),
    Holds(79, 1),
    Holds(10, 2),
];

/// Others fill the bucket that a search has linked: it ends there as contended, and links no second one.
const FILLED_BY_OTHERS: [Line; 9] = [
    Fills(56, 1),
    Begins(15),
    Goes(11),
    Loads(64),
    Fills(64, 8),
    Resumes(Contended, 0),
    Holds(63, 1),
    Holds(71, 0),
    Holds(10, 1),
];

/// An entry is found in an overflow bucket; a link too many ends the search, and so does a link to no overflow bucket.
const LINKS: [Line; 8] = [
    Fills(56, 1),
    Fills(64, 8),
    Stores(63, 1),
    Finds(9, Read, 0, Slot(65, 9 * TAG + 5), 0),
    Stores(71, 1),
    Finds(15, Read, 0, Contended, 0),
    Stores(63, 2),
    Finds(9, Read, 0, Contended, 0),
];

/// Within a bound a bucket is linked only where fewer are taken, whether or not a spare is at hand.
const WITHIN_A_BOUND: [Line; 9] = [
    Fills(56, 1),
    Finds(8, UpdateWithin(0), 0, Kept, 0),
    Finds(8, UpdateWithin(0), 2, Kept, 2),
    Finds(3, UpdateWithin(0), 0, Slot(58, 3 * TAG + 5), 0),
    Finds(8, UpdateWithin(1), 0, Slot(64, 0), 0),
    Holds(10, 1),
    Fills(64, 8),
    Finds(15, UpdateWithin(1), 0, Kept, 0),
    Finds(15, UpdateWithin(2), 0, Slot(72, 0), 0),
];

/// A link leaves the latch in the word that leads there as it is.
const BESIDE_A_LATCH: [Line; 8] = [
    Fills(64, 1),
    Stores(71, LATCH),
    Begins(17),
    Goes(10),
    Swaps(71, LATCH, LATCH + 1),
    Resumes(Slot(72, 0), 0),
    Holds(71, LATCH + 1),
    Holds(10, 1),
];

/// A word that no store gives ends the search.
const SPOILED: [Line; 2] = [Stores(80, TAG), Finds(19, Read, 0, Contended, 0)];

/// An index, a session whose searches are made to their end, and one that is slow.
#[derive(Drop)]
struct Searched {
    plane: PlainWords,
    quick: Find,
    slow: Find,
}

fn step(plane: &mut PlainWords, machine: &mut Find) -> Ask<FindAnswer> {
    let reply = plane.perform(&machine.ask());
    machine.drive(reply)
}

/// Moves a search to its end.
fn go_on(plane: &mut PlainWords, machine: &mut Find) -> Option<FindAnswer> {
    for _ in 0..64 {
        if let Ask::Done(answer) = step(plane, machine) {
            return Some(answer);
        }
    }
    None
}

fn publish(
    plane: &mut PlainWords,
    place: usize,
    word: u64,
    addr: u64,
    tag: u16,
) -> Option<PublishAnswer> {
    if addr == 0 || addr >= 1 << 48 || tag >= 1 << 15 {
        return None;
    }
    let entry = Entry {
        addr: Addr(addr),
        tag,
    };
    let mut machine = Publish::new();
    machine.start(place, word, entry);
    let reply = plane.perform(&machine.ask());
    match machine.drive(reply) {
        Ask::Done(answer) => Some(answer),
        _ => None,
    }
}

fn fill(plane: &mut PlainWords, place: usize, tag: u16) {
    for i in 0..7 {
        publish(
            plane,
            place.wrapping_add(i),
            0,
            5,
            tag.wrapping_add(i as u16),
        );
    }
}

fn search(
    plane: &mut PlainWords,
    machine: &mut Find,
    key: u64,
    purpose: Purpose,
    spare: u64,
) -> Option<FindAnswer> {
    machine.start(Key(key), purpose, spare);
    go_on(plane, machine)
}

/// Does what the line says, and tells whether this comes of it.
fn is_so(its: &mut Searched, line: Line) -> bool {
    match line {
        Fills(place, tag) => fill(&mut its.plane, place, tag),
        Stores(place, word) => {
            its.plane.perform::<()>(&Ask::Store(place, word));
        }
        Begins(key) => {
            its.slow.start(Key(key), Update, 0);
        }
        Goes(asks) => {
            for _ in 0..asks {
                step(&mut its.plane, &mut its.slow);
            }
        }
        Holds(place, word) => return its.plane.word(place) == word,
        Loads(place) => return its.slow.ask() == Ask::Load(place),
        Swaps(place, old, new) => return its.slow.ask() == Ask::Cas(place, old, new),
        Publishes(place, word, addr, tag, answer) => {
            return publish(&mut its.plane, place, word, addr, tag) == Some(answer);
        }
        Finds(key, purpose, has, found, spare) => {
            let answer = search(&mut its.plane, &mut its.quick, key, purpose, has);
            return answer == Some(FindAnswer { found, spare });
        }
        Resumes(found, spare) => {
            return go_on(&mut its.plane, &mut its.slow) == Some(FindAnswer { found, spare });
        }
    }
    true
}

/// Plays lines over an index of 2^bits buckets and so many overflow buckets.
fn play(
    rt: &impl Abort,
    alloc: Global,
    bits: u64,
    overflow: u64,
    lines: &[Line],
) -> Result<(), Fail> {
    let shape = Shape::new(bits, 4, 2, 1, 2, overflow, 64)?;
    let places = Places::of(&shape);
    let mut its = Searched {
        plane: PlainWords::new(alloc, 128)?,
        quick: Find::new(places, shape.bucket_bits),
        slow: Find::new(places, shape.bucket_bits),
    };
    for (at, line) in lines.iter().enumerate() {
        assert!(rt; is_so(&mut its, *line), "line {at} of {overflow}");
    }
    Ok(())
}

#[test]
fn searches_come_to_slots(rt: HostRuntime) -> Result<(), Fail> {
    assert!(rt; home_of(Key(19), 4) == Home { bucket: 3, tag: 1 });
    for (bits, overflow, lines) in [
        (0, 0, ONE_BUCKET.as_slice()),
        (0, 1, EIGHTH_ENTRY.as_slice()),
        (0, 2, TWO_LINK.as_slice()),
        (0, 2, FILLED_BY_OTHERS.as_slice()),
        (0, 1, LINKS.as_slice()),
        (0, 2, WITHIN_A_BOUND.as_slice()),
        (1, 2, BESIDE_A_LATCH.as_slice()),
        (4, 1, SPOILED.as_slice()),
    ] {
        play(&rt, rt.alloc(), bits, overflow, lines)?;
    }
    Ok(())
}
