//! A picture of a store, as an SVG: its log as a strip of pages, and its index as squares, each as dark as its buckets are full.
//!
//! It has the same size for every store: where there are more pages or buckets than it has bars or squares, each stands for several.
#![tactic(auto)]

mod bars;
mod columns;
mod gauges;
mod marks;
mod parts;
mod pictures;
mod rows;
mod shares;
mod square_layouts;
mod squares;
mod stacks;
mod stills;
mod strip_layouts;
mod strips;

pub use pictures::{Picture, picture_of};
