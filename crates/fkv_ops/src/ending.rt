//! How a try ends: its latches are dropped.
ghost use Rattle.std.specs.Prelude.{◌≡◌};
ghost use Rattle.fkv_ops.specs.Trying.{with_latch, walks, is_bounded, ends, ends_so, ended_without, takes_effect, full_at, is_wait, tail_loaded, taken_loaded};

use crate::answers::{Reason, TryAnswer, Waiting};
use crate::bounds::{is_past_tail, is_past_taken};
use crate::requests::{Occasion, is_read, purpose_at};
use crate::trying::{Try, Trying};
use fkv_latch::LatchTask;
use fkv_map::Reply;

impl Try {
    /// Begins a task with the latch of the home's bucket.
    pub(crate) fn with_latch(&mut self, task: LatchTask, step: Trying)
        ensures { self.new ≡ record self.old { state = with_latch self.old.places self.old.state task step } }
    {
        let place = self.places.bucket(self.home.bucket, 7);
        self.latch.start(task, place);
        self.step = step;
    }

    /// Begins the walk to the record of the key.
    pub(crate) fn walks(&mut self)
        ensures { self.new ≡ record self.old { state = walks self.old.places self.old.state } }
    {
        let op = self.request.op;
        let purpose = purpose_at(self.occasion, op);
        self.walk
            .start(op.key(), purpose, self.seen.offsets.head, self.spare);
        self.step = Trying::Walks;
    }

    /// The update has taken effect.
    pub(crate) fn takes_effect(&mut self, told: Reply)
        ensures { self.new ≡ record self.old { state = takes_effect self.old.places self.old.state told } }
    {
        self.effect = Some(told);
        self.ends(TryAnswer::Done(told));
    }

    /// Whether it is an update at its call, of a store whose calls have bounds.
    pub(crate) fn is_bounded(&self) -> bool
        ensures { result ≡ is_bounded self.now.state }
    {
        self.occasion.bounds().is_some() && !is_read(self.request.op)
    }

    /// An update that has bounds loads the tail before it waits.
    #[tactic(auto, unfolding(crate::specs::Trying::ends))]
    pub(crate) fn ends(&mut self, answer: TryAnswer)
        ensures { self.new ≡ record self.old { state = ends self.old.places self.old.state answer } }
    {
        match answer.waiting() {
            Some(waiting) if self.is_bounded() => self.step = Trying::LoadsTail(waiting),
            _ => self.ends_so(answer),
        }
    }

    /// Where no more than the margin of the log is left, the update is refused. Else, where its key has no entry, the count of
    /// taken overflow buckets is loaded too.
    #[tactic(auto, unfolding(crate::specs::Trying::tail_loaded))]
    pub(crate) fn after_tail(&mut self, waiting: Waiting, tail: u64)
        ensures { self.new ≡ record self.old { state = tail_loaded self.old.places self.old.state waiting tail } }
    {
        if is_past_tail(self.occasion.bounds(), tail) {
            self.ends_so(TryAnswer::LogFull);
        } else if self.walk.entry() == 0 {
            self.step = Trying::LoadsTaken(waiting);
        } else {
            self.ends_so(waiting.told());
        }
    }

    /// Where no more than the margin of the index is left, the update is refused.
    #[tactic(auto, unfolding(crate::specs::Trying::taken_loaded))]
    pub(crate) fn after_taken(&mut self, waiting: Waiting, taken: u64)
        ensures { self.new ≡ record self.old { state = taken_loaded self.old.places self.old.state waiting taken } }
    {
        if is_past_taken(self.occasion.bounds(), taken) {
            self.ends_so(TryAnswer::IndexFull);
        } else {
            self.ends_so(waiting.told());
        }
    }

    /// The exclusive latch is dropped however the try ends.
    #[tactic(auto, unfolding(crate::specs::Trying::ends_so))]
    fn ends_so(&mut self, answer: TryAnswer)
        ensures { self.new ≡ record self.old { state = ends_so self.old.places self.old.state answer } }
    {
        if self.has_exclusive {
            self.has_exclusive = false;
            self.with_latch(LatchTask::DropExclusive, Trying::DropsExclusive(answer));
        } else {
            self.ended_without(answer);
        }
    }

    /// The request keeps the shared latch exactly where it has to wait.
    pub(crate) fn ended_without(&mut self, answer: TryAnswer)
        ensures { self.new ≡ record self.old { state = ended_without self.old.places self.old.state answer } }
    {
        if self.has_shared && !is_wait(answer) {
            self.has_shared = false;
            self.with_latch(LatchTask::DropShared, Trying::DropsShared(answer));
        } else {
            self.step = Trying::Ended(answer);
        }
    }

    /// Where the index or the log is full a new request is refused, and a pending one waits.
    pub(crate) fn full(&mut self, refused: TryAnswer)
        ensures { self.new ≡ record self.old { state = ends self.old.places self.old.state (full_at self.old.state.occasion refused) } }
    {
        self.ends(full_at(self.occasion, refused));
    }
}

fn full_at(occasion: Occasion, refused: TryAnswer) -> TryAnswer
    ensures { result ≡ full_at occasion refused }
{
    match occasion {
        Occasion::Call(_) => refused,
        Occasion::Poll => TryAnswer::Wait(Reason::Full),
    }
}

fn is_wait(answer: TryAnswer) -> bool
    ensures { result ≡ is_wait answer }
{
    matches!(answer, TryAnswer::Wait(_) | TryAnswer::AwaitsDisk(_))
}
