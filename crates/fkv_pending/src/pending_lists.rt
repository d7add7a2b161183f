//! The requests of a session that wait.
ghost use Rattle.std.specs.Prelude.{◌≡◌, ◌<◌, ◌+◌, ◌==◌, [], ◌∷◌, ◌++◌, length, slice_get, slice_set, count_by, false};
ghost use Rattle.std.specs.List.{remove, position};
ghost use Rattle.fkv_pending.specs.Pending.{is_unlatched, is_update_of};
ghost use Rattle.fkv_base.specs.Limits.{max_pending};

use crate::pending_requests::PendingRequest;
use arrayvec::ArrayVec;
use fkv_base::{MAX_PENDING, Version};
use std::marker::Model;

/// At most `MAX_PENDING` requests that wait, in the order in which they were accepted.
#[derive(Drop)]
pub struct PendingList {
    requests: ArrayVec<PendingRequest, MAX_PENDING>,
}

impl Model for PendingList {
    ghost use Rattle.std.specs.Prelude.{List, length, ◌≤◌};
    ghost use Rattle.fkv_base.specs.Limits.{max_pending};
    ghost use Rattle.fkv_pending.specs.declared.pending_requests.PendingRequest.{PendingRequest};

    ghost Value = { List PendingRequest };

    ghost view = { λ m. m.requests.items };

    ghost invariant = { λ m. length m.requests.items ≤ max_pending };
}

impl PendingList {
    /// No request waits.
    pub fn new() -> PendingList
        ensures { result ≡ [] }
    {
        PendingList {
            requests: ArrayVec::new(),
        }
    }

    /// How many requests wait.
    pub fn len(&self) -> usize
        ensures { result ≡ length self.now }
    {
        self.requests.len()
    }

    /// Whether no request waits.
    pub fn is_empty(&self) -> bool
        ensures { result ≡ (length self.now == 0) }
    {
        self.requests.is_empty()
    }

    /// Whether no further request can wait.
    pub fn is_full(&self) -> bool
        ensures full { result ≡ (length self.now == max_pending) }
        ensures room { result ≡ false → length self.now < max_pending }
    {
        self.requests.is_full()
    }

    /// The request at an index, in the order of acceptance.
    pub fn get(&self, index: usize) -> Option<PendingRequest>
        ensures { result ≡ slice_get self.now index }
    {
        self.requests.as_slice().get(index).copied()
    }

    /// One more request waits, behind all others.
    pub fn push(&mut self, request: PendingRequest)
        requires { length self.old < max_pending }
        ensures { self.new ≡ self.old ++ request ∷ [] }
    {
        self.requests.push(request);
    }

    /// The request at an index waits for something else.
    pub fn set(&mut self, index: usize, request: PendingRequest)
        ensures set { self.new ≡ slice_set self.old index request }
        ensures same_length { length self.new ≡ length self.old }
    {
        if let Some(place) = self.requests.get_mut(index) {
            *place = request;
        }
    }

    /// The request at an index is finished and leaves the list. The others stay as they are, in their order.
    pub fn remove(&mut self, index: usize)
        ensures rest { self.new ≡ remove self.old index }
        ensures fewer { index < length self.old → length self.new + 1 ≡ length self.old }
    {
        self.requests.pop_at(index);
    }

    /// The first update that doesn't share the latch of its bucket.
    pub fn first_unlatched(&self) -> Option<usize>
        ensures { result ≡ position is_unlatched self.now }
    {
        self.requests
            .as_slice()
            .iter()
            .position(|request| request.is_unlatched())
    }

    /// How many updates of this version wait.
    pub fn updates_of(&self, version: Version) -> usize
        ensures { result ≡ count_by (is_update_of version) self.now }
    {
        self.requests
            .as_slice()
            .iter()
            .filter(|request| request.is_update_of(version))
            .count()
    }
}
