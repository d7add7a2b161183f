//! Tests of the shared words and of what stands right above them: words, places, epochs, pages, the log, the index and latches. They
//! stand in a crate of their own, since a crate with tests is proved twice. What was worked out by hand stands in tables, since a loop
//! over a table is proved once.
#![tactic(auto)]

#[cfg(test)]
mod epoch;
#[cfg(test)]
mod filling;
#[cfg(test)]
mod frames;
#[cfg(test)]
mod index;
#[cfg(test)]
mod latch;
#[cfg(test)]
mod laws;
#[cfg(test)]
mod log;
#[cfg(test)]
mod moves;
#[cfg(test)]
mod plane;
#[cfg(test)]
mod words;
