//! The bytes of a record.
ghost use Rattle.std.specs.Prelude.{◌≡◌};
ghost use Rattle.fkv_words.specs.Fields.{Reads};
ghost use Rattle.fkv_record.specs.Layout.{record_bytes};

use crate::numbers::{numbers, spell};
use crate::records::Record;
use fkv_base::Key;
use fkv_words::Header;

/// The record that the bytes spell, if they spell one: header, key and value, eight bytes each.
pub fn read_record(bytes: &[u8; 24]) -> Option<Record>
    ensures { Reads record_bytes bytes.now result }
{
    let [header, key, value] = numbers::<3>(bytes);
    let header = Header::unpack(header)?;
    Some(Record {
        header,
        key: Key(key),
        value,
    })
}

/// The bytes of the record.
#[tactic(auto, unfolding(crate::specs::Layout::record_bytes))]
pub fn write_record(record: Record) -> [u8; 24]
    ensures { result ≡ record_bytes «record» }
{
    spell(&[record.header.pack(), record.key.0, record.value])
}
