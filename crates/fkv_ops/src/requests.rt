//! Requests, and what a try of one goes by.
ghost use Rattle.std.specs.Prelude.{◌≡◌, ◌<◌, ◌^◌, ℕ};
ghost use Rattle.fkv_ops.specs.Bounds.{bounds_at};
ghost use Rattle.fkv_ops.specs.Requests.{purpose_at, is_read, is_blind, is_chain_end};

use crate::bounds::Bounds;
use fkv_base::{Addr, Key, Phase, Version};
use fkv_begin::from_or_none;
use fkv_index::Purpose;
use fkv_log::SeenOffsets;
use fkv_map::Op;

/// A record that was read from the device for a request.
#[derive(Clone, Copy, Debug, PartialEq, Eq)]
pub struct HeldRecord {
    /// The word of the entry from which the walk to the record began.
    pub entry: u64,
    /// The record before it in its chain, 0 where there is none.
    pub previous: Addr,
    pub key: Key,
    /// The word of its value.
    pub value: u64,
}

/// An operation that was asked for, with what goes with it from one try to the next.
#[derive(Clone, Copy, Debug, PartialEq, Eq)]
pub struct Request {
    pub op: Op,
    /// The session's version when it accepted the request, 1 to `Version::LAST`.
    pub version: Version,
    /// Whether it shares the latch of its bucket.
    pub has_latch: bool,
    pub held: Option<HeldRecord>,
    /// The log began there or above when the walk to what it holds or awaits began: an address below counts as 0 to it.
    pub floor: Addr,
    pub ghost some_version: { 0 < version.0 },
    pub ghost version_fits: { version.0 < 2 ^ 45 },
}

impl Request {
    ghost use Rattle.fkv_ops.specs.Resting.{no_request};

    /// What a machine at rest has in place of a request: a read of key 0.
    pub fn none() -> Request
        ensures { result ≡ no_request }
    {
        Request {
            op: Op::Read(Key(0)),
            version: Version(1),
            has_latch: false,
            held: None,
            floor: Addr(0),
        }
    }

    /// Whether it is a read.
    pub fn is_read(&self) -> bool
        ensures { result ≡ is_read self.now.op }
    {
        is_read(self.op)
    }

    /// Whether a chain that leads to this address has ended there: it is 0, or below the request's floor.
    pub fn is_chain_end(&self, addr: Addr) -> bool
        ensures { result ≡ is_chain_end self.now.floor addr }
    {
        from_or_none(self.floor, addr) == Addr(0)
    }
}

/// What a session loaded when it last refreshed or woke.
#[derive(Clone, Copy, Debug, PartialEq, Eq)]
pub struct Seen {
    pub phase: Phase,
    pub version: Version,
    pub offsets: SeenOffsets,
}

impl Seen {
    ghost use Rattle.fkv_ops.specs.Resting.{nothing_seen};

    /// What a machine at rest has in place of what a session has seen: the first version at rest.
    pub fn nothing() -> Seen
        ensures { result ≡ nothing_seen }
    {
        Seen {
            phase: Phase::Rest,
            version: Version(1),
            offsets: SeenOffsets {
                head: Addr(0),
                read_only: Addr(0),
            },
        }
    }
}

/// When a request is tried. Where the index or the log is full a new request is refused, and one that is pending waits.
#[derive(Clone, Copy)]
pub enum Occasion {
    /// With the bounds of the store's calls.
    Call(Option<Bounds>),
    Poll,
}

impl Occasion {
    /// The bounds of an update that is tried then.
    pub(crate) fn bounds(self) -> Option<Bounds>
        ensures { result ≡ bounds_at self }
    {
        match self {
            Occasion::Call(bounds) => bounds,
            Occasion::Poll => None,
        }
    }
}

/// A read seeks a slot that there is, an update one that it may fill.
pub(crate) fn purpose_at(occasion: Occasion, op: Op) -> Purpose
    ensures { result ≡ purpose_at occasion op }
{
    if is_read(op) {
        return Purpose::Read;
    }
    match occasion.bounds() {
        Some(bounds) => Purpose::UpdateWithin(bounds.taken),
        None => Purpose::Update,
    }
}

pub(crate) fn is_read(op: Op) -> bool
    ensures { result ≡ is_read op }
{
    matches!(op, Op::Read(_))
}

/// The new value doesn't depend on the old one.
pub(crate) fn is_blind(op: Op) -> bool
    ensures { result ≡ is_blind op }
{
    matches!(op, Op::Upsert(_, _) | Op::Delete(_))
}
