//! Tests of how a run ends early, and of words where memory is refused. Words, lines and scripts, what is answered to them and what is refused
//! are rows for the built program, in tools/rows. The tests stand in a crate of their own, since a crate with tests is proved twice.
#![tactic(auto)]

#[cfg(test)]
mod options;
