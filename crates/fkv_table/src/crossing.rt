//! What crosses threads: the table by reference, a pass and its session by value.
use crate::rule::{Pass, Table};
use crate::sessions::Session;
use fkv_disk::Device;

fn may_be_shared<T: Sync>(_it: &T) {}

fn may_be_sent<T: Send>(_it: &T) {}

/// Threads share a table, and a pass and its session go into any of them, whatever the device is.
pub fn crosses<D: Device>(table: &Table<D>, pass: &Pass<D>, session: &Session) {
    may_be_shared(table);
    may_be_sent(pass);
    may_be_sent(session);
}
