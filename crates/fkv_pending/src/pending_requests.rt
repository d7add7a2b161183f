//! A request that waits.
ghost use Rattle.std.specs.Prelude.{◌≡◌};
ghost use Rattle.fkv_pending.specs.Pending.{no_pending, with_sought, with_held, with_latch, with_asked, without_gone, is_unlatched, is_update_of};

use fkv_base::{Addr, Serial, Version};
use fkv_ops::{DiskRecord, HeldRecord, Request};

/// The number of a read that went pending. Tickets of a session count from 1; after 2^64 - 1 comes 1.
#[derive(Clone, Copy, Debug, PartialEq, Eq)]
pub struct Ticket(pub u64);

/// What a request is called by.
#[derive(Clone, Copy, Debug, PartialEq, Eq)]
pub enum RequestName {
    Update(Serial),
    Read(Ticket),
}

/// A request that waits, and what it waits for.
#[derive(Clone, Copy, Debug, PartialEq, Eq)]
pub struct PendingRequest {
    pub name: RequestName,
    pub request: Request,
    /// The record of the device that it awaits.
    pub sought: Option<DiskRecord>,
    /// Whether its address is in the mailbox, so that the record which comes is for it.
    pub has_asked: bool,
}

impl Default for PendingRequest {
    /// A read of key 0 that awaits nothing.
    fn default() -> PendingRequest
        ensures { result ≡ no_pending }
    {
        PendingRequest {
            name: RequestName::Read(Ticket(1)),
            request: Request::none(),
            sought: None,
            has_asked: false,
        }
    }
}

impl PendingRequest {
    /// It awaits this record from now on.
    #[tactic(auto, unfolding(crate::specs::Pending::with_sought))]
    pub(crate) fn seek(&mut self, sought: Option<DiskRecord>)
        ensures { self.new ≡ with_sought self.old sought }
    {
        self.sought = sought;
    }

    /// It holds this record from now on.
    #[tactic(auto, unfolding(crate::specs::Pending::with_held))]
    pub(crate) fn hold(&mut self, held: Option<HeldRecord>)
        ensures { self.new ≡ with_held self.old held }
    {
        self.request.held = held;
    }

    /// What it sought lay below this begin of the log, and is gone. It drops what it held too, and goes by that begin from now on.
    #[tactic(auto, unfolding(crate::specs::Pending::without_gone))]
    pub(crate) fn lose(&mut self, begin: Addr)
        ensures { self.new ≡ without_gone self.old begin }
    {
        self.sought = None;
        self.request.held = None;
        self.request.floor = begin;
    }

    /// It shares the latch of its bucket from now on, or doesn't.
    #[tactic(auto, unfolding(crate::specs::Pending::with_latch))]
    pub(crate) fn set_latch(&mut self, has_latch: bool)
        ensures { self.new ≡ with_latch self.old has_latch }
    {
        self.request.has_latch = has_latch;
    }

    /// It has asked for its record from now on, or hasn't.
    #[tactic(auto, unfolding(crate::specs::Pending::with_asked))]
    pub(crate) fn set_asked(&mut self, has_asked: bool)
        ensures { self.new ≡ with_asked self.old has_asked }
    {
        self.has_asked = has_asked;
    }

    /// The same request, which shares the latch of its bucket, or does not.
    #[tactic(auto, unfolding(crate::specs::Pending::with_latch))]
    pub fn with_latch(self, has_latch: bool) -> PendingRequest
        ensures { result ≡ with_latch self has_latch }
    {
        let mut changed = self;
        changed.request.has_latch = has_latch;
        changed
    }

    /// Whether it is an update that doesn't share the latch of its bucket.
    pub fn is_unlatched(&self) -> bool
        ensures { result ≡ is_unlatched self.now }
    {
        !self.request.is_read() && !self.request.has_latch
    }

    /// Whether it is an update of this version.
    pub fn is_update_of(&self, version: Version) -> bool
        ensures { result ≡ is_update_of version self.now }
    {
        !self.request.is_read() && self.request.version == version
    }
}
