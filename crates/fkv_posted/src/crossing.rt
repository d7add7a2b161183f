//! What crosses threads: a posted medium, by value.
use crate::posted::Posted;

fn may_be_sent<T: Send>(_it: &T) {}

/// A posted medium goes into any thread.
pub fn crosses(posted: &Posted<'_>) {
    may_be_sent(posted);
}
