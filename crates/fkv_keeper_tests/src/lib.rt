//! Tests of the keeper: its turns, and whole commits on a device in memory. They stand in a crate of their own, since a crate with
//! tests is proved twice.
#![tactic(auto)]

#[cfg(test)]
mod commits;
#[cfg(test)]
mod resting;
#[cfg(test)]
mod stepwise;
#[cfg(test)]
mod turns;
#[cfg(test)]
mod whole_calls;
