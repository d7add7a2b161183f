//! Tests of sessions: calls moved ask by ask over plain words. They stand in a crate of their own, since a crate with tests is proved
//! twice. Whole scripts, with a keeper beside, run over the built program.
#![tactic(auto)]

#[cfg(test)]
mod calls;
#[cfg(test)]
mod scenes;
#[cfg(test)]
mod store;
