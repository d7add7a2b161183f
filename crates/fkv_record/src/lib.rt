//! What lies on the device: each value has one spelling in bytes, and bytes are no other value's.
#![tactic(auto)]

mod formats;
mod gates;
mod image_places;
mod laws;
mod lost_numbers;
mod lost_ranges;
mod manifest_bytes;
mod manifest_slots;
mod numbers;
mod point_numbers;
mod points;
mod record_bytes;
mod records;
mod shape_bytes;
mod slot_bytes;
mod slots;
mod triple_bytes;
mod triples;

pub use fkv_begin::from_or_none;
pub use formats::Format;
pub use gates::{OPEN, open_number};
pub use image_places::{SHAPE_PLACE, SLOT_PLACES, area_place, most_triples, record_place};
pub use laws::{law_first_format, law_formats_apart, law_spellings_apart};
pub use lost_ranges::{LostRange, LostRanges, MAX_LOST};
pub use manifest_bytes::{read_manifest_slot, write_manifest_slot, write_newest_slot};
pub use manifest_slots::ManifestSlot;
pub use points::{MAX_POINTS, Points};
pub use record_bytes::{read_record, write_record};
pub use records::Record;
pub use shape_bytes::{read_shape, write_shape};
pub use slot_bytes::{read_slot, write_slot};
pub use slots::Slot;
pub use triple_bytes::{read_triple, write_triple};
pub use triples::Triple;
