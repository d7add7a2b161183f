//! Tests of the engine's world: calls that are moved by hand beside each other, and what happens behind a crash. Whole scripts and their
//! answers, and what is recovered behind them, are rows of the built program (tools/rows). They stand in a crate of their own, since a
//! crate with tests is proved twice.
#![tactic(auto)]

#[cfg(test)]
mod beside_each_other;
#[cfg(test)]
mod crashes;
#[cfg(test)]
mod first_layout;
#[cfg(test)]
mod holding;
#[cfg(test)]
mod in_parts;
#[cfg(test)]
mod lines;
#[cfg(test)]
mod million;
#[cfg(test)]
mod resting;
#[cfg(test)]
mod stopped_calls;
#[cfg(test)]
mod stores;
