//! The three words of a record on the device, and records that are read in a row.
ghost use Rattle.std.specs.Prelude.{◌≡◌, ◌+◌, ◌<◌, ◌≤◌, ◌^◌, length, true};
ghost use Rattle.fkv_record.specs.Places.{number_at};
ghost use Rattle.fkv_sweep.specs.Sweeping.{words_at, is_counted, previous_in};

use fkv_base::{Addr, Key, Value};

/// The words of a record, as its bytes spell them.
#[derive(Clone, Copy)]
pub(crate) struct RecordWords {
    pub header: u64,
    pub key: Key,
    pub value: u64,
}

/// Records that were read in a row: their bytes, the address of the first one, and the address behind the last.
#[derive(Clone, Copy)]
pub(crate) struct Piece {
    pub first: Addr,
    pub end: Addr,
    pub bytes: [u8; 768],
}

/// The bytes of a record.
const RECORD_BYTES: usize = 24;

/// How many records are read in a row, and their bytes.
const PIECE_RECORDS: u64 = 32;

pub(crate) const PIECE_BYTES: usize = 768;

impl Piece {
    ghost use Rattle.fkv_sweep.specs.Sweeping.{no_piece, piece_read, piece_records, holds, words_held};

    /// No records.
    pub(crate) fn none() -> Piece
        ensures { result ≡ no_piece }
    {
        Piece {
            first: Addr(0),
            end: Addr(0),
            bytes: [0; PIECE_BYTES],
        }
    }

    /// The records from this address on, which have these bytes.
    pub(crate) fn read(first: Addr, bytes: &[u8; 768]) -> Piece
        requires { first.0 < 2 ^ 48 }
        ensures { result ≡ piece_read first bytes.now }
    {
        Piece {
            first,
            end: Addr(first.0 + PIECE_RECORDS),
            bytes: *bytes,
        }
    }

    /// Whether the record at this address is among them.
    pub(crate) fn holds(&self, addr: Addr) -> bool
        ensures { result ≡ holds self.now addr }
    {
        self.first <= addr && addr < self.end
    }

    /// Its words.
    pub(crate) fn words(&self, addr: Addr) -> RecordWords
        requires there { holds self.now addr ≡ true }
        requires few { self.now.end.0 ≤ self.now.first.0 + piece_records }
        ensures { result ≡ words_held self.now addr }
    {
        let place = (addr.0 - self.first.0) as usize;
        words_at(&self.bytes, RECORD_BYTES * place)
    }
}

/// The words of the record whose bytes begin at a place.
pub(crate) fn words_at(bytes: &[u8; 768], at: usize) -> RecordWords
    requires { (at + 24) ≤ 768 }
    ensures { result ≡ words_at bytes.now at }
{
    RecordWords {
        header: number_at(bytes, at),
        key: Key(number_at(bytes, at + 8)),
        value: number_at(bytes, at + 16),
    }
}

/// Whether the words are of a record that gives its key a value: its header has a version, and none of the bits above that, of which one
/// says that the record was given up; and its value isn't the absent one.
pub(crate) fn is_counted(words: RecordWords) -> bool
    ensures { result ≡ is_counted words }
{
    words.header >= 1 << 48 && words.header < 1 << 61 && words.value != Value::ABSENT
}

/// The address that a header leads to.
pub(crate) fn previous_in(header: u64) -> u64
    ensures { result ≡ previous_in header }
{
    header & (1 << 48) - 1
}

/// The number whose eight bytes begin at a place.
fn number_at(bytes: &[u8], at: usize) -> u64
    requires { (at + 8) ≤ length bytes.now }
    ensures { result ≡ number_at bytes.now at }
{
    u64::from_le_bytes([
        bytes[at],
        bytes[at + 1],
        bytes[at + 2],
        bytes[at + 3],
        bytes[at + 4],
        bytes[at + 5],
        bytes[at + 6],
        bytes[at + 7],
    ])
}
