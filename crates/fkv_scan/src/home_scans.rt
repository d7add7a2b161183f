//! What the scan knows of a home.
ghost use Rattle.std.specs.Prelude.{◌≡◌};

use crate::met_records::MetRecord;
use fkv_base::{Addr, Version};

/// What the scan found of a home.
#[derive(Clone, Copy)]
pub struct HomeScan {
    /// The newest record of the home that the scan met and that counts.
    pub newest: Option<Addr>,
    /// Where the chain of the home goes on below the scan's start, address 0 where it doesn't. Known of each home once
    /// the scan has ended.
    pub below: Option<Addr>,
    /// The last record of the home that was met and isn't lost.
    pub(crate) last: Option<Addr>,
    /// Its version.
    pub(crate) last_version: Version,
}

impl HomeScan {
    ghost use Rattle.fkv_scan.specs.Steps.{is_way, is_next, is_first, links, met, led, unled};

    /// A home before the scan, by the address of its triple.
    pub(crate) fn led(addr: Addr, start: Addr) -> HomeScan
        ensures { result ≡ led addr start.0 }
    {
        HomeScan {
            newest: None,
            below: if addr.0 < start.0 { Some(addr) } else { None },
            last: None,
            last_version: Version(0),
        }
    }

    /// A home that has no triple, before a record of it is met.
    pub(crate) fn unled() -> HomeScan
        ensures { result ≡ unled }
    {
        HomeScan {
            newest: None,
            below: Some(Addr(0)),
            last: None,
            last_version: Version(0),
        }
    }

    /// Whether the address is the one below the start that is known, if one is.
    fn is_way(&self, addr: Addr) -> bool
        ensures { result ≡ is_way self.now.below addr.0 }
    {
        match self.below {
            Some(way) => way.0 == addr.0,
            None => true,
        }
    }

    /// Whether the record leads to the last one, whose version isn't above its own.
    fn is_next(&self, found: &MetRecord) -> bool
        ensures { result ≡ is_next self.now.last self.now.last_version.0 found.now.previous found.now.version.0 }
    {
        match self.last {
            Some(last) => last.0 == found.previous.0 && self.last_version.0 <= found.version.0,
            None => false,
        }
    }

    /// Whether a valid record is on the chain of its home. A lost one may lead to any valid record of the
    /// home; `leads` says whether it does.
    #[tactic(auto, unfolding(crate::specs::Steps::links))]
    pub(crate) fn links(&self, found: &MetRecord, is_lost: bool, leads: bool, start: Addr) -> bool
        ensures { result ≡ links self.now found.now.previous found.now.version.0 is_lost leads start.0 }
    {
        if found.previous.0 < start.0 {
            return self.is_way(found.previous) && (is_lost || self.last.is_none());
        }
        if is_lost { leads } else { self.is_next(found) }
    }

    /// What is known once the valid record was met, where the commit has this number.
    #[tactic(auto, unfolding(crate::specs::Steps::met))]
    pub(crate) fn met(&self, found: &MetRecord, is_lost: bool, start: Addr, number: u64) -> HomeScan
        ensures { result ≡ met self.now found.now.addr found.now.previous found.now.version is_lost start.0 number }
    {
        let counts = !is_lost && found.version.0 <= number;
        HomeScan {
            newest: if counts {
                Some(found.addr)
            } else {
                self.newest
            },
            below: if found.previous.0 < start.0 {
                Some(found.previous)
            } else {
                self.below
            },
            last: if is_lost { self.last } else { Some(found.addr) },
            last_version: if is_lost {
                self.last_version
            } else {
                found.version
            },
        }
    }
}
