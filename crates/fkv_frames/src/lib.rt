//! Pages of the log, the frames of memory that hold them in turn, and where a record lies in the frames.
#![tactic(auto)]

mod laws;
mod pages;

pub use laws::{law_places_in_frames, law_places_of_open_pages};
pub use pages::{frame_of, page_of, place_of};
