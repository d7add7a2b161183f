//! What the shared words of a store hold when it opens.
ghost use Rattle.std.specs.Prelude.{◌<◌};

use crate::opened_store::Opened;
use fkv_base::{Addr, Phase, Serial, Version};
use fkv_marks::mark;
use fkv_words::{CutWord, WidePhase};

/// The words that a store has once.
#[derive(Clone, Copy)]
pub struct OpeningWords {
    pub epoch: u64,
    pub safe_epoch: u64,
    pub phase: WidePhase,
    pub tail: Addr,
    /// The room up to this address is open to new records.
    pub limit: Addr,
    pub read_only: Addr,
    pub safe_read_only: Addr,
    pub flushed: Addr,
    pub head: Addr,
    pub closed: Addr,
    /// The word of each drain slot.
    pub drain: u64,
}

/// The words of one session.
#[derive(Clone, Copy)]
pub struct SessionWords {
    pub epoch: u64,
    pub even_cut: CutWord,
    pub odd_cut: CutWord,
    pub owing: u64,
    /// The last serial that is durable, and the last that was taken.
    pub durable: Serial,
    pub mail_state: u64,
    pub mail_address: u64,
    pub mail_header: u64,
    pub mail_key: u64,
    pub mail_value: u64,
}

impl Opened {
    ghost use Rattle.fkv_opening.specs.Opening.{AreOpeningWords, AreSessionWords, IsOpeningCut};

    /// The words that the store has once, as it opens: at rest in the version behind the commit's, the whole log is on the
    /// device, and memory has its records from `warm` on.
    pub fn words(&self) -> OpeningWords
        ensures { AreOpeningWords self.now result }
    {
        let page = self.shape.page;
        OpeningWords {
            epoch: 1,
            safe_epoch: 0,
            phase: WidePhase {
                version: Version(self.number.0 + 1),
                phase: Phase::Rest,
            },
            tail: self.tail,
            limit: Addr((self.tail.0 / page + 2).min(self.shape.disk_pages) * page),
            read_only: self.tail,
            safe_read_only: self.tail,
            flushed: self.tail,
            head: self.warm,
            closed: self.warm,
            drain: 0,
        }
    }

    /// The words of a session, 0 to sessions - 1, as the store opens: it is awake, and its point is its last serial.
    pub fn session(&self, session: usize) -> SessionWords
        requires { session < self.now.shape.sessions }
        ensures { AreSessionWords self.now session result }
    {
        SessionWords {
            epoch: 1,
            even_cut: self.cut(session, 0),
            odd_cut: self.cut(session, 1),
            owing: 0,
            durable: self.points[session],
            mail_state: 0,
            mail_address: 0,
            mail_header: 0,
            mail_key: 0,
            mail_value: 0,
        }
    }

    /// The cut word of this parity. It has the mark of the version that it cuts.
    fn cut(&self, session: usize, parity: u64) -> CutWord
        requires { session < self.now.shape.sessions }
        ensures { IsOpeningCut self.now session parity result }
    {
        if self.number.0 % 2 == parity {
            CutWord {
                serial: self.points[session],
                version: mark(self.number),
            }
        } else {
            CutWord {
                serial: Serial(0),
                version: Version(0),
            }
        }
    }
}
