//! Tests of the sweep, over plain words and a device in memory. They stand in a crate of their own, since a crate with tests is proved
//! twice.
#![tactic(auto)]

#[cfg(test)]
mod sweeps;
