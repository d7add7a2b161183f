//! Tests of recovery: calls of the device that fail, crashes and refused memory; and what is answered of an image that a tool names.
//! The tables of images in the four formats, whole and damaged, are in tools/openings, which runs this crate's program on each. The
//! tests stand in a crate of their own, since a crate with tests is proved twice.
#![tactic(auto)]

mod paged;
mod watched;

pub use paged::recover_by_pages;
pub use watched::{Stand, Watched, recover_watched};

#[cfg(test)]
mod answers;
#[cfg(test)]
mod image_answers;
#[cfg(test)]
mod posted;
#[cfg(test)]
mod refused_memory;
#[cfg(test)]
mod stops;
#[cfg(test)]
mod stores;
