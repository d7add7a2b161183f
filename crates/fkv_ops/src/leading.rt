//! Where a try goes on by what the machines inside it ask.
ghost use Rattle.std.specs.Prelude.{◌≡◌, Option};
ghost use Rattle.fkv_ops.specs.Trying.{wants_shared, must_shift, is_prepare, is_above, shared_ledto, latch_shared, is_marked, is_next_marked, is_still_in, phase_loaded, is_surely_own, walk_ledto, walked, has_walked, must_count, met_nowhere, count_loaded, met_disk, met_record, region_met, changes, is_own_version, safe_loaded, current_ledto, value_changed, answer_ledto, told_value, exclusive_ledto, old_ledto, append_ledto, exclusive_dropped, shared_dropped, latch_moved, walk_moved};
ghost use Rattle.fkv_ops.specs.Walking.{walk_ask, walk_next};
ghost use Rattle.fkv_ops.specs.Appending.{append_ask, append_next};
ghost use Rattle.fkv_latch.specs.Latching.{latch_next_ask};
ghost use Rattle.fkv_map.specs.Keys.{as_number};

use crate::answers::{Reason, TryAnswer};
use crate::appending::AppendAnswer;
use crate::bounds::is_past_taken;
use crate::requests::{is_blind, is_read};
use crate::trying::{OldValue, Try, Trying};
use crate::values::value_of_word;
use crate::walking::WalkAnswer;
use fkv_base::{Addr, Phase, Value, Version};
use fkv_latch::LatchAnswer;
use fkv_log::{Region, seen_region};
use fkv_map::Reply;
use fkv_marks::mark;
use fkv_plane::Ask;
use fkv_words::PhaseSaid;

impl Try {
    /// In prepare an update shares the latch of its bucket.
    pub(crate) fn wants_shared(&self) -> bool
        ensures { result ≡ wants_shared self.now.state }
    {
        self.seen.phase == Phase::Prepare && !is_read(self.request.op) && !self.has_shared
    }

    /// Where one holds the latch alone, that one is of the next version already.
    #[tactic(auto, unfolding(crate::specs::Trying::shared_ledto))]
    pub(crate) fn after_shared(&mut self, reply: u64)
        ensures { self.new ≡ record self.old { state = shared_ledto self.old.places (latch_moved self.old.state reply) (latch_next_ask self.old.state.latching reply) } }
    {
        match self.latch.drive(reply) {
            Ask::Done(LatchAnswer::Taken) => {
                self.has_shared = true;
                self.latch_shared();
            }
            Ask::Done(_) => self.ends(TryAnswer::Shift),
            _ => {}
        }
    }

    /// The latch is shared. Where no mark tells whether others have gone on, the phase word is loaded before the walk.
    fn latch_shared(&mut self)
        ensures { self.new ≡ record self.old { state = latch_shared self.old.places self.old.state } }
    {
        if is_next_marked(self.request.version) {
            self.step = Trying::LoadsPhase;
        } else {
            self.walks();
        }
    }

    /// By what the phase word says now.
    #[tactic(auto, unfolding(crate::specs::Trying::phase_loaded))]
    pub(crate) fn after_phase(&mut self, said: PhaseSaid)
        ensures { self.new ≡ record self.old { state = phase_loaded self.old.places self.old.state said } }
    {
        if is_still_in(said, self.request.version) {
            self.walks();
        } else {
            self.ends(TryAnswer::Shift);
        }
    }

    /// Where the walk has ended.
    #[tactic(auto, unfolding(crate::specs::Trying::walk_ledto))]
    pub(crate) fn after_walk(&mut self, reply: u64)
        ensures { self.new ≡ record self.old { state = walk_ledto self.old.places (walk_moved self.old.places self.old.state reply) (walk_ask self.old.places (walk_next self.old.places self.old.state.walk reply)) } }
    {
        if let Ask::Done(answer) = self.walk.drive(reply) {
            self.spare = self.walk.spare();
            if has_walked(answer) && self.must_shift() {
                self.ends(TryAnswer::Shift);
            } else {
                self.walked(answer);
            }
        }
    }

    /// Whether another session has published a record of the next version at the head of the chain.
    fn must_shift(&self) -> bool
        ensures { result ≡ must_shift self.now.state }
    {
        self.seen.phase == Phase::Prepare
            && !is_read(self.request.op)
            && !is_next_marked(self.request.version)
            && is_above(self.walk.first(), self.request.version)
    }

    fn walked(&mut self, answer: WalkAnswer)
        ensures { self.new ≡ record self.old { state = walked self.old.places self.old.state answer } }
    {
        match answer {
            WalkAnswer::Found(addr, version) => self.met_record(addr, version),
            WalkAnswer::Nowhere => self.met_nowhere(),
            WalkAnswer::OnDisk(addr) => self.met_disk(addr),
            WalkAnswer::Full | WalkAnswer::Kept => self.full(TryAnswer::IndexFull),
            WalkAnswer::Value(_) | WalkAnswer::Contended => {
                self.ends(TryAnswer::Wait(Reason::Contended));
            }
        }
    }

    /// The chain has no record of the key.
    fn met_nowhere(&mut self)
        ensures { self.new ≡ record self.old { state = met_nowhere self.old.places self.old.state } }
    {
        if is_read(self.request.op) {
            self.ends(TryAnswer::Absent);
        } else if self.must_count() {
            self.step = Trying::CountsTaken;
        } else {
            self.copies(OldValue::Known(Value::ABSENT), false);
        }
    }

    /// Whether it is an update with bounds whose key has no entry, and whose empty slot is in an overflow bucket that others
    /// have linked. Such a slot may be one that a poll needs.
    fn must_count(&self) -> bool
        ensures { result ≡ must_count self.now.places self.now.state }
    {
        self.is_bounded() && self.walk.entry() == 0 && self.walk.is_beyond()
    }

    /// Where no more than the margin of the index is left, the update is refused.
    #[tactic(auto, unfolding(crate::specs::Trying::count_loaded))]
    pub(crate) fn after_count(&mut self, taken: u64)
        ensures { self.new ≡ record self.old { state = count_loaded self.old.places self.old.state taken } }
    {
        if is_past_taken(self.occasion.bounds(), taken) {
            self.ends(TryAnswer::IndexFull);
        } else {
            self.copies(OldValue::Known(Value::ABSENT), false);
        }
    }

    /// The chain leaves memory at this address. Below the request's floor it has ended there.
    fn met_disk(&mut self, addr: Addr)
        ensures { self.new ≡ record self.old { state = met_disk self.old.places self.old.state addr } }
    {
        let has_ended = self.request.is_chain_end(addr);
        if is_read(self.request.op) {
            if has_ended {
                self.ends(TryAnswer::Absent);
            } else {
                self.awaits(addr);
            }
        } else if is_blind(self.request.op) || has_ended {
            self.copies(OldValue::Known(Value::ABSENT), false);
        } else {
            self.held_used(addr, self.request.held);
        }
    }

    /// The record of the key is in memory.
    fn met_record(&mut self, addr: Addr, version: Version)
        ensures { self.new ≡ record self.old { state = met_record self.old.places self.old.state addr version } }
    {
        if is_read(self.request.op) {
            self.walk.load_value();
            self.step = Trying::LoadsAnswer;
        } else {
            self.region_met(addr, version, seen_region(addr, self.seen.offsets));
        }
    }

    /// The record lies in this region, or the safe read-only offset tells in which.
    fn region_met(&mut self, addr: Addr, version: Version, region: Option<Region>)
        ensures { self.new ≡ record self.old { state = region_met self.old.places self.old.state addr version region } }
    {
        match region {
            None => self.step = Trying::LoadsSafe(addr, version),
            Some(_) if self.is_own_version(version) => self.changes(addr),
            Some(_) => self.copies(OldValue::InMemory, false),
        }
    }

    /// Whether this is the mark of the request's version.
    fn is_own_version(&self, version: Version) -> bool
        ensures { result ≡ is_own_version self.now.state version }
    {
        version == mark(self.request.version)
    }

    /// Whether a record with this mark is of the request's version, wherever it lies.
    fn is_surely_own(&self, version: Version) -> bool
        ensures { result ≡ is_surely_own self.now.state version }
    {
        !is_marked(self.request.version) && self.is_own_version(version)
    }

    /// The record is changed in place.
    fn changes(&mut self, addr: Addr)
        ensures { self.new ≡ record self.old { state = changes self.old.state addr } }
    {
        if is_blind(self.request.op) {
            self.step = Trying::SwapsValue(addr);
        } else {
            self.walk.load_value();
            self.step = Trying::LoadsCurrent(addr);
        }
    }

    /// At or above the safe read-only offset another session may still change the record.
    pub(crate) fn after_safe(&mut self, addr: Addr, version: Version, safe: u64)
        ensures { self.new ≡ record self.old { state = safe_loaded self.old.places self.old.state addr version safe } }
    {
        if addr.0 >= safe {
            self.ends(TryAnswer::Wait(Reason::Fuzzy));
        } else {
            self.copies(OldValue::InMemory, self.is_surely_own(version));
        }
    }

    /// The value that is changed in place is loaded.
    #[tactic(auto, unfolding(crate::specs::Trying::current_ledto))]
    pub(crate) fn after_current(&mut self, addr: Addr, reply: u64)
        ensures { self.new ≡ record self.old { state = current_ledto self.old.places (walk_moved self.old.places self.old.state reply) addr (walk_ask self.old.places (walk_next self.old.places self.old.state.walk reply)) } }
    {
        match self.walk.drive(reply) {
            Ask::Done(WalkAnswer::Value(old)) => self.step = Trying::ChangesValue(addr, old),
            Ask::Done(_) => self.ends(TryAnswer::Wait(Reason::Contended)),
            _ => {}
        }
    }

    /// The Cas of the value was won where it found the old one.
    pub(crate) fn after_change(&mut self, old: u64, found: u64)
        ensures { self.new ≡ record self.old { state = value_changed self.old.places self.old.state old found } }
    {
        if found == old {
            self.takes_effect(self.request.op.reply_from(value_of_word(old)));
        } else {
            self.ends(TryAnswer::Wait(Reason::Contended));
        }
    }

    /// The value that a read is told is loaded.
    #[tactic(auto, unfolding(crate::specs::Trying::answer_ledto))]
    pub(crate) fn after_answer(&mut self, reply: u64)
        ensures { self.new ≡ record self.old { state = answer_ledto self.old.places (walk_moved self.old.places self.old.state reply) (walk_ask self.old.places (walk_next self.old.places self.old.state.walk reply)) } }
    {
        match self.walk.drive(reply) {
            Ask::Done(WalkAnswer::Value(word)) => self.ends(told_value(value_of_word(word))),
            Ask::Done(_) => self.ends(TryAnswer::Wait(Reason::Contended)),
            _ => {}
        }
    }

    /// The exclusive latch is held, or another session was quicker.
    #[tactic(auto, unfolding(crate::specs::Trying::exclusive_ledto))]
    pub(crate) fn after_exclusive(&mut self, old: OldValue, reply: u64)
        ensures { self.new ≡ record self.old { state = exclusive_ledto self.old.places (latch_moved self.old.state reply) old (latch_next_ask self.old.state.latching reply) } }
    {
        match self.latch.drive(reply) {
            Ask::Done(LatchAnswer::Taken) => {
                self.has_exclusive = true;
                self.copies_from(old);
            }
            Ask::Done(_) => self.ends(TryAnswer::Wait(Reason::Latch)),
            _ => {}
        }
    }

    /// The value is loaded of which a copy is made.
    #[tactic(auto, unfolding(crate::specs::Trying::old_ledto))]
    pub(crate) fn after_old(&mut self, reply: u64)
        ensures { self.new ≡ record self.old { state = old_ledto self.old.places (walk_moved self.old.places self.old.state reply) (walk_ask self.old.places (walk_next self.old.places self.old.state.walk reply)) } }
    {
        match self.walk.drive(reply) {
            Ask::Done(WalkAnswer::Value(word)) => self.appends(word),
            Ask::Done(_) => self.ends(TryAnswer::Wait(Reason::Contended)),
            _ => {}
        }
    }

    /// The new record is published, or none could be.
    #[tactic(auto, unfolding(crate::specs::Trying::append_ledto))]
    pub(crate) fn after_append(&mut self, told: Reply, reply: u64)
        ensures { self.new ≡ record self.old { state = append_ledto self.old.places (record self.old.state { append = append_next self.old.places self.old.room self.old.state.append reply }) told (append_ask self.old.places (append_next self.old.places self.old.room self.old.state.append reply)) } }
    {
        match self.append.drive(reply) {
            Ask::Done(AppendAnswer::Published) => self.takes_effect(told),
            Ask::Done(AppendAnswer::Full) => self.full(TryAnswer::LogFull),
            Ask::Done(AppendAnswer::NoRoom) => self.ends(TryAnswer::Wait(Reason::NoRoom)),
            Ask::Done(AppendAnswer::Contended) => self.ends(TryAnswer::Wait(Reason::Contended)),
            _ => {}
        }
    }

    /// The exclusive latch is dropped.
    #[tactic(auto, unfolding(crate::specs::Trying::exclusive_dropped))]
    pub(crate) fn after_exclusive_drop(&mut self, answer: TryAnswer, reply: u64)
        ensures { self.new ≡ record self.old { state = exclusive_dropped self.old.places (latch_moved self.old.state reply) answer (latch_next_ask self.old.state.latching reply) } }
    {
        if let Ask::Done(_) = self.latch.drive(reply) {
            self.ended_without(answer);
        }
    }

    /// The shared latch is dropped.
    #[tactic(auto, unfolding(crate::specs::Trying::shared_dropped))]
    pub(crate) fn after_shared_drop(&mut self, answer: TryAnswer, reply: u64)
        ensures { self.new ≡ record self.old { state = shared_dropped (latch_moved self.old.state reply) answer (latch_next_ask self.old.state.latching reply) } }
    {
        if let Ask::Done(_) = self.latch.drive(reply) {
            self.step = Trying::Ended(answer);
        }
    }
}

/// Whether the walk came to its end in memory or below it, and not to a full index or a lost race.
fn has_walked(answer: WalkAnswer) -> bool
    ensures { result ≡ has_walked answer }
{
    matches!(
        answer,
        WalkAnswer::Found(_, _) | WalkAnswer::Nowhere | WalkAnswer::OnDisk(_)
    )
}

/// So many versions have marks of their own: 1 to this.
const OWN_MARKS: u64 = 8191;

/// Whether an older version has the mark of this one too.
pub fn is_marked(version: Version) -> bool
    ensures { result ≡ is_marked version }
{
    version.0 > OWN_MARKS
}

/// Whether an older version has the mark of the next one, so that it isn't above this one's.
pub fn is_next_marked(version: Version) -> bool
    ensures { result ≡ is_next_marked version }
{
    version.0 >= OWN_MARKS
}

/// Whether the phase word says prepare of this version.
fn is_still_in(said: PhaseSaid, version: Version) -> bool
    ensures { result ≡ is_still_in said version }
{
    match said {
        PhaseSaid::Says(Phase::Prepare, its) => its == version,
        _ => false,
    }
}

/// Whether a record with this mark was met first, and is of a later version.
fn is_above(first: Option<Version>, version: Version) -> bool
    ensures { result ≡ is_above first version }
{
    let own = mark(version);
    first.is_some_and(|first| first > own)
}

/// What a read tells of its key's value.
pub fn told_value(value: Option<Value>) -> TryAnswer
    ensures { result ≡ told_value (as_number value) }
{
    match value {
        Some(value) => TryAnswer::Found(value),
        None => TryAnswer::Absent,
    }
}
