//! How a try comes to a new record of its key.
ghost use Rattle.std.specs.Prelude.{◌≡◌, Bool};
ghost use Rattle.fkv_words.specs.declared.headers.Header.{Header};
ghost use Rattle.fkv_ops.specs.Trying.{wants_exclusive, is_moving_on, appends, copies_from, copies, held_used, awaits, header_of};

use crate::answers::{DiskRecord, TryAnswer};
use crate::appending::FoundSlot;
use crate::bounds::tail_bound;
use crate::requests::{HeldRecord, is_blind};
use crate::trying::{OldValue, Try, Trying};
use crate::values::{value_of_word, word_of_value};
use fkv_base::{Addr, Phase, Value};
use fkv_latch::LatchTask;
use fkv_log::RecordWords;
use fkv_marks::mark;
use fkv_words::Header;

impl Try {
    /// Comes to a new record of the key, under the exclusive latch where that is wanted.
    #[tactic(auto, unfolding(crate::specs::Trying::copies))]
    pub(crate) fn copies(&mut self, old: OldValue, is_current: bool)
        ensures { self.new ≡ record self.old { state = copies self.old.places self.old.state old is_current } }
    {
        if self.wants_exclusive(is_current) {
            self.with_latch(LatchTask::TakeExclusive, Trying::TakesExclusive(old));
        } else {
            self.copies_from(old);
        }
    }

    /// Whether others may still be at the version before, and no record of the session's version was found in memory.
    fn wants_exclusive(&self, is_current: bool) -> bool
        ensures { result ≡ wants_exclusive self.now.state is_current }
    {
        is_moving_on(self.seen.phase) && self.request.version == self.seen.version && !is_current
    }

    /// The old value is loaded first, where it is in memory and counts.
    #[tactic(auto, unfolding(crate::specs::Trying::copies_from))]
    pub(crate) fn copies_from(&mut self, old: OldValue)
        ensures { self.new ≡ record self.old { state = copies_from self.old.state old } }
    {
        match old {
            OldValue::Known(word) => self.appends(word),
            OldValue::InMemory if is_blind(self.request.op) => self.appends(Value::ABSENT),
            OldValue::InMemory => {
                self.walk.load_value();
                self.step = Trying::LoadsOld;
            }
        }
    }

    /// A new record is made of the old value, whose word this is.
    #[tactic(auto, unfolding(crate::specs::Trying::appends))]
    pub(crate) fn appends(&mut self, old: u64)
        ensures { self.new ≡ record self.old { state = appends self.old.state old } }
    {
        let op = self.request.op;
        let old = value_of_word(old);
        let slot = FoundSlot {
            place: self.walk.place(),
            entry: self.walk.entry(),
            tag: self.home.tag,
        };
        let its_words = RecordWords {
            header: self.header(),
            key: op.key(),
            value: word_of_value(op.value_applied(old)),
        };
        let bound = tail_bound(self.occasion.bounds());
        self.append.start(slot, its_words, bound);
        self.step = Trying::Appends(op.reply_from(old));
    }

    /// The header of the new record.
    fn header(&self) -> Header
        ensures { result ≡ header_of self.now.state.request self.now.state.walk.entry }
    {
        let own = mark(self.request.version);
        Header {
            previous: Addr(self.walk.entry() & (1 << 48) - 1),
            version: own,
            invalid: false,
        }
    }

    /// What the request holds tells the old value, or where the walk goes on.
    #[tactic(auto, unfolding(crate::specs::Trying::held_used))]
    pub(crate) fn held_used(&mut self, addr: Addr, held: Option<HeldRecord>)
        ensures { self.new ≡ record self.old { state = held_used self.old.places self.old.state addr held } }
    {
        match held {
            Some(held) if held.entry == self.walk.entry() => {
                if held.key == self.request.op.key() {
                    self.copies(OldValue::Known(held.value), false);
                } else if self.request.is_chain_end(held.previous) {
                    self.copies(OldValue::Known(Value::ABSENT), false);
                } else {
                    self.awaits(held.previous);
                }
            }
            _ => self.awaits(addr),
        }
    }

    /// The request waits for the record at this address.
    pub(crate) fn awaits(&mut self, addr: Addr)
        ensures { self.new ≡ record self.old { state = awaits self.old.places self.old.state addr } }
    {
        let entry = self.walk.entry();
        self.ends(TryAnswer::AwaitsDisk(DiskRecord { entry, addr }));
    }
}

/// While a commit's sessions go on to the next version, records of that version are made under the exclusive latch.
fn is_moving_on(phase: Phase) -> bool
    ensures { result ≡ is_moving_on phase }
{
    matches!(phase, Phase::InProgress | Phase::WaitPending)
}
