//! Tests of renewal: a renewed store is opened, and shows its pairs and its points.
#![tactic(auto)]

#[cfg(test)]
mod renewed;
