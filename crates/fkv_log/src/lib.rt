//! The log in memory: how an address is reserved at its tail, how a record is written and invalidated there, how its words are
//! loaded, which region an address lies in, and how offsets and pages move on. Each machine makes one ask at a time.
#![tactic(auto)]

mod filling;
mod invalidating;
mod laws;
mod loading;
mod locating;
mod moving;
mod record_words;
mod regions;
mod reserving;
mod shifting;
mod turning;

pub use filling::Fill;
pub use invalidating::Invalidate;
pub use laws::{
    law_of_a_record_and_a_page, law_of_a_turn_and_a_shift, law_records_are_written,
    law_records_of_open_pages, law_reserve_step, law_reserved_once,
};
pub use loading::{LoadAnswer, LoadRecord};
pub use locating::{region, seen_region};
pub use moving::{MoveAnswer, MoveOffset, Offset};
pub use record_words::RecordWords;
pub use regions::{Region, SeenOffsets};
pub use reserving::{Reserve, ReserveAnswer, limit_within};
pub use shifting::{ShiftAnswer, ShiftReadOnly};
pub use turning::{TurnForm, TurnPage};
