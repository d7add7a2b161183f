//! Tests of numbers and of the plain map, of what stands in an image, and of how a store is created: bytes written by hand. They stand in a
//! crate of their own, since a crate with tests is proved twice. What is recovered of images, sound and damaged ones, is in tools/openings,
//! crashes and failures at each call of a commit in tools/rows.
#![tactic(auto)]

#[cfg(test)]
mod base;
#[cfg(test)]
mod creating;
#[cfg(test)]
mod disk;
#[cfg(test)]
mod laws;
#[cfg(test)]
mod manifest;
#[cfg(test)]
mod map;
#[cfg(test)]
mod places;
#[cfg(test)]
mod record;
#[cfg(test)]
mod slots;
#[cfg(test)]
mod window;
