//! Tests of the machines of operations, of requests that wait, of commits, of the index's copy and of flushing, each moved ask by ask. They stand in a crate of their own,
//! since a crate with tests is proved twice.
#![tactic(auto)]

#[cfg(test)]
mod checkpoint;
#[cfg(test)]
mod commit;
#[cfg(test)]
mod flush;
#[cfg(test)]
mod ops;
#[cfg(test)]
mod pending;
#[cfg(test)]
mod words;
