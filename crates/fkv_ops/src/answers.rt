//! What a try of a request comes to.
ghost use Rattle.std.specs.Prelude.{◌≡◌};
ghost use Rattle.fkv_ops.specs.Waiting.{told_of, waiting_of};

use fkv_base::{Addr, Value};
use fkv_map::Reply;

/// Why a request has to wait.
#[derive(Clone, Copy, Debug, PartialEq, Eq)]
pub enum Reason {
    /// Its record lies in the fuzzy region.
    Fuzzy,
    /// Its record may lie on the device.
    Disk,
    /// The latch of its bucket was held, or another session was quicker.
    Latch,
    /// Another session was quicker.
    Contended,
    /// The page after the limit isn't open yet.
    NoRoom,
    /// The index or the log is full. A new request is refused there.
    Full,
}

/// A record that is to be read from the device: where it is, and the word of the entry from which the walk to it began.
#[derive(Clone, Copy, Debug, PartialEq, Eq)]
pub struct DiskRecord {
    pub entry: u64,
    pub addr: Addr,
}

/// What a try has come to.
#[derive(Clone, Copy, Debug, PartialEq, Eq)]
pub enum TryAnswer {
    /// The update has taken effect.
    Done(Reply),
    /// The read found a value.
    Found(Value),
    /// The read found no value.
    Absent,
    /// The request waits, for any reason but the device.
    Wait(Reason),
    /// The request waits for a record of the device.
    AwaitsDisk(DiskRecord),
    /// The session is to refresh and to try again: another session has gone on to the next version.
    Shift,
    /// At the call: the home has no slot, none is empty, and all overflow buckets are taken. Or the key has no entry, and no more of them are left than polls may need.
    IndexFull,
    /// At the call: the log has no page for another record. Or no more records are left than polls may need.
    LogFull,
}

/// Why a request would wait.
#[derive(Clone, Copy)]
pub(crate) enum Waiting {
    For(Reason),
    ForRecord(DiskRecord),
}

impl Waiting {
    /// What a request is told that waits.
    pub(crate) fn told(self) -> TryAnswer
        ensures { result ≡ told_of self }
    {
        match self {
            Waiting::For(reason) => TryAnswer::Wait(reason),
            Waiting::ForRecord(record) => TryAnswer::AwaitsDisk(record),
        }
    }
}

impl TryAnswer {
    /// Why its request waits, if it does.
    pub(crate) fn waiting(self) -> Option<Waiting>
        ensures { result ≡ waiting_of self }
    {
        match self {
            TryAnswer::Wait(reason) => Some(Waiting::For(reason)),
            TryAnswer::AwaitsDisk(record) => Some(Waiting::ForRecord(record)),
            _ => None,
        }
    }
}
