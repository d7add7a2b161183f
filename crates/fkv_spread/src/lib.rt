//! How the keys of a store's caller lie in it: bucket and tag are the low bits of the number that a key lies under, so keys that differ in
//! few bits are spread first.
#![tactic(auto)]

mod keys;
mod spreading;
#[cfg(test)]
mod tests;

pub use keys::Keys;
pub use spreading::{spread, spread_back};
