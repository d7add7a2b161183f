//! The newest finished commit.
ghost use Rattle.std.specs.Prelude.{◌≡◌};

use crate::answers::MAX_POINTS;
use arrayvec::ArrayVec;
use fkv_base::{Addr, Serial, Version};

/// One of the two areas of an image in which triples lie.
#[derive(Clone, Copy, Debug, PartialEq, Eq)]
pub enum Area {
    First,
    Second,
}

impl Area {
    ghost use Rattle.fkv_keeper.specs.LastCommits.{other_area, area_number};

    /// The other one.
    pub fn other(self) -> Area
        ensures { result ≡ other_area self }
    {
        match self {
            Area::First => Area::Second,
            Area::Second => Area::First,
        }
    }

    /// Its number, 0 or 1.
    pub fn number(self) -> u64
        ensures { result ≡ area_number self }
    {
        match self {
            Area::First => 0,
            Area::Second => 1,
        }
    }
}

/// A copy of the index that a commit has made.
#[derive(Clone, Copy, Debug, PartialEq, Eq)]
pub struct Checkpoint {
    /// The number of the commit that made it.
    pub number: Version,
    /// A home's entry that it doesn't have is of a record from here on.
    pub first: Addr,
    pub triples: u64,
    pub area: Area,
}

/// What is known of the newest finished commit, and of the device's two slots.
#[derive(Drop)]
pub struct LastCommit {
    pub number: Version,
    /// The address at which its log begins: below it nothing is read, and nothing counts after a crash.
    pub begin: Addr,
    /// The point of each session.
    pub points: ArrayVec<Serial, MAX_POINTS>,
    /// The checkpoint that it uses, which an earlier commit may have made.
    pub checkpoint: Checkpoint,
    /// Whether the gate of slot 0 and that of slot 1 are open.
    pub gates: (bool, bool),
}

impl LastCommit {
    ghost use Rattle.fkv_keeper.specs.LastCommits.{is_gate_open, gate_opened};

    /// Whether the gate of the slot of this commit number stands open.
    pub(crate) fn is_gate_open(&self, number: Version) -> bool
        ensures { result ≡ is_gate_open self.now.gates number }
    {
        if number.0 % 2 == 0 {
            self.gates.0
        } else {
            self.gates.1
        }
    }

    /// The gate of the slot of this commit number stands open now.
    pub(crate) fn opens_gate(&mut self, number: Version)
        ensures { self.new ≡ record self.old { gates = gate_opened self.old.gates number } }
    {
        if number.0 % 2 == 0 {
            self.gates.0 = true;
        } else {
            self.gates.1 = true;
        }
    }
}
