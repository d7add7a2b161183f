//! Another session, that is quicker than a call.
use fkv_base::{Addr, Value, Version};
use fkv_plane::{Ask, Places, PlainWords, RecordWord, SharedWord};
use fkv_session::Told;

/// A session that steps just before a call's Cas of a record's value, or of the tail, so that the call loses it.
#[derive(Clone, Copy)]
pub(crate) struct Rival {
    pub(crate) places: Places,
    /// That of each record that it makes.
    pub(crate) version: Version,
    pub(crate) value: Value,
}

/// The word becomes the number.
fn put(words: &mut PlainWords, place: usize, word: u64) {
    let ask: Ask<Told> = Ask::Store(place, word);
    let _ = words.perform(&ask);
}

impl Rival {
    /// Whether it is the place of a record's value.
    fn is_value(&self, place: usize) -> bool {
        let first = self.places.record(Addr(0), RecordWord::Value);
        place >= first && place.wrapping_sub(first) % 3 == 0
    }

    /// Reserves the address at the tail, and gives its record up: an address that nobody fills would stop the flusher for ever.
    fn give_up(&self, words: &mut PlainWords, tail: u64) {
        let tail_place = SharedWord::Tail.place();
        put(words, tail_place, tail.wrapping_add(1));
        let value_place = self.places.record(Addr(tail), RecordWord::Value);
        put(words, value_place, self.value.0);
        let key_place = self.places.record(Addr(tail), RecordWord::Key);
        put(words, key_place, 0);
        let header_place = self.places.record(Addr(tail), RecordWord::Header);
        put(words, header_place, INVALID | mark_of(self.version) << 48);
    }

    /// Steps before this Cas.
    fn step(&self, words: &mut PlainWords, place: usize, expected: u64) {
        if words.word(place) != expected {
            return;
        }
        if place == SharedWord::Tail.place() {
            self.give_up(words, expected);
        } else if self.is_value(place) {
            put(words, place, self.value.0);
        }
    }
}

/// What a header keeps of a version.
pub(crate) fn mark_of(version: Version) -> u64 {
    (version.0.wrapping_sub(1) % 8191).wrapping_add(1)
}

/// Whether the header has this mark.
pub(crate) fn has_mark(header: u64, mark: u64) -> bool {
    header & MARK == mark << 48
}

/// The header with this mark in place of its own.
pub(crate) fn with_mark(header: u64, mark: u64) -> u64 {
    header & !MARK | mark << 48
}

/// Where a header keeps the mark.
const MARK: u64 = 8191 << 48;

/// Marks the header of a record that no entry names.
const INVALID: u64 = 1 << 62;

/// The rival, if there is one, steps before what is asked.
pub(crate) fn be_quicker(rival: Option<Rival>, words: &mut PlainWords, ask: &Ask<Told>) {
    if let (Some(rival), Ask::Cas(place, expected, _)) = (rival, ask) {
        rival.step(words, *place, *expected);
    }
}
