//! The store for C: its handles, each a word that C keeps, and their calls. A result below 0 is minus the number of a refusal.
#![tactic(auto)]

mod answers;
mod held_keeper;
mod held_session;
mod held_store;
mod hints;
mod keepers;
mod many;
mod names;
mod outcomes;
mod points;
mod polls;
mod renewals;
mod sessions;
mod sizes;
mod spreading;
mod stores;
mod told;
