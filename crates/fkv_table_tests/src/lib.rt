//! Tests of a table that threads share, in one thread. They stand in a crate of their own, since what a table's calls suppose of its world is a law
//! above `fkv_table`. The calls of `fkv_threads`, which has the thread law's clauses, are tested there.
#![tactic(auto)]

#[cfg(test)]
mod one_thread;
