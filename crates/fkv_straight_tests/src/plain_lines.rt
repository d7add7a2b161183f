//! A line over plain words, for one call of a session.
ghost use Rattle.std.specs.Prelude.{◌≡◌, ◌<◌, ◌++◌, ◌∷◌, [], false, length};
ghost use Rattle.fkv_session.specs.Alike.{lasting};
ghost use Rattle.fkv_session.specs.Sessions.{is_busy};
ghost use Rattle.fkv_straight.specs.Standing.{leads};
ghost use Rattle.fkv_straight_tests.specs.Lines.{standing};

use crate::rivals::{Rival, be_quicker};
use arrayvec::ArrayVec;
use fkv_map::Call;
use fkv_plane::{Ask, PlainWords, SharedWord};
use fkv_session::Told;
use fkv_straight::{Line, StraightSession};
use std::process::Abort;
use std::snapshot::Snapshot;

/// Plain words, as one call of a session steps at them.
#[derive(Drop)]
pub(crate) struct PlainLine<'w, R: Abort> {
    rt: &'w R,
    words: &'w mut PlainWords,
    /// The session that is quicker than the call, if one is.
    rival: Option<Rival>,
    /// The session's machine, as the line was made.
    machine: Snapshot<StraightSession>,
    call: Option<Call>,
    replies: ArrayVec<u64, 64>,
}

impl<'w, R: Abort> PlainLine<'w, R> {
    /// The line of this session for its next call.
    #[tactic(auto, using(crate::proofs::Led::rests_idle, crate::proofs::Led::rests_alike))]
    pub(crate) fn new(
        rt: &'w R,
        words: &'w mut PlainWords,
        rival: Option<Rival>,
        machine: &StraightSession,
    ) -> PlainLine<'w, R>
        ensures seat { result.machine.value.seat ≡ machine.now.seat }
        ensures idle { is_busy (standing result.machine.value result.call result.replies.items).step ≡ false }
        ensures alike { lasting machine.now.state ≡ lasting (standing result.machine.value result.call result.replies.items) }
    {
        PlainLine {
            rt,
            words,
            rival,
            machine: Snapshot::of(machine),
            call: None,
            replies: ArrayVec::new(),
        }
    }

    /// Makes the step, before which the rival makes its own, and keeps its reply.
    fn step(&mut self, ask: &Ask<Told>) -> u64
        requires room { length self.old.replies.items < 64 }
        ensures replies { self.new.replies.items ≡ self.old.replies.items ++ result ∷ [] }
        ensures machine { self.new.machine.value ≡ self.old.machine.value }
        ensures call { self.new.call ≡ self.old.call }
    {
        be_quicker(self.rival, self.words, ask);
        let reply = self.words.perform(ask);
        self.replies.push(reply);
        reply
    }

    /// Makes the step of a call that has begun, and keeps its reply.
    #[tactic(auto, using(crate::proofs::Led::stands_more))]
    fn go_on(&mut self, ask: &Ask<Told>) -> u64
        requires room { length self.old.replies.items < 64 }
        ensures replies { self.new.replies.items ≡ self.old.replies.items ++ result ∷ [] }
        ensures machine { self.new.machine.value ≡ self.old.machine.value }
        ensures next { standing self.new.machine.value self.new.call self.new.replies.items ≡ leads self.old.machine.value.seat (standing self.old.machine.value self.old.call self.old.replies.items) result }
    {
        let Some(_) = self.call else {
            self.rt.abort();
        };
        self.step(ask)
    }

    /// Keeps a reply of a call that has begun.
    #[tactic(auto, using(crate::proofs::Led::stands_more))]
    fn keep(&mut self, reply: u64)
        requires room { length self.old.replies.items < 64 }
        ensures replies { self.new.replies.items ≡ self.old.replies.items ++ reply ∷ [] }
        ensures machine { self.new.machine.value ≡ self.old.machine.value }
        ensures next { standing self.new.machine.value self.new.call self.new.replies.items ≡ leads self.old.machine.value.seat (standing self.old.machine.value self.old.call self.old.replies.items) reply }
    {
        let Some(_) = self.call else {
            self.rt.abort();
        };
        self.replies.push(reply);
    }
}

impl<'w, R: Abort> Line for PlainLine<'w, R> {
    ghost use Rattle.std.specs.Prelude.{◌≡◌, length};
    ghost use Rattle.fkv_straight.specs.Standing.{begins, replayed};
    ghost use Rattle.fkv_straight_tests.specs.Lines.{standing};

    ghost seat = { λ l. l.machine.value.seat };

    ghost stands = { λ l. standing l.machine.value l.call l.replies.items };

    ghost led = { λ l call m. standing m.machine.value m.call m.replies.items ≡ replayed m.machine.value.seat (begins l.machine.value.seat (standing l.machine.value l.call l.replies.items) call) m.replies.items };

    ghost kept = { λ l. length l.replies.items };

    /// A line is for one call: it doesn't begin another.
    #[tactic(auto, using(crate::proofs::Led::stands_first, crate::proofs::Led::led_first))]
    fn first(&mut self, call: Call, place: usize) -> u64 {
        if let Some(_) = self.call {
            self.rt.abort();
        }
        self.call = Some(call);
        self.replies.clear();
        self.step(&Ask::Load(place))
    }

    /// The same where its first step adds to a word.
    #[tactic(auto, using(crate::proofs::Led::stands_first, crate::proofs::Led::led_first))]
    fn first_add(&mut self, call: Call, place: usize, number: u64) -> u64 {
        if let Some(_) = self.call {
            self.rt.abort();
        }
        self.call = Some(call);
        self.replies.clear();
        self.step(&Ask::Add(place, number))
    }

    fn load(&mut self, place: usize) -> u64 {
        self.go_on(&Ask::Load(place))
    }

    fn store(&mut self, place: usize, new: u64) -> u64 {
        self.go_on(&Ask::Store(place, new))
    }

    fn swap(&mut self, place: usize, new: u64) -> u64 {
        self.go_on(&Ask::Swap(place, new))
    }

    fn cas(&mut self, place: usize, expected: u64, new: u64) -> u64 {
        self.go_on(&Ask::Cas(place, expected, new))
    }

    fn add(&mut self, place: usize, number: u64) -> u64 {
        self.go_on(&Ask::Add(place, number))
    }

    /// Where a rival is about to be quicker it makes no step, so that the call makes the two one after the other.
    fn raise(&mut self, place: usize, expected: u64) -> u64 {
        if let Some(_) = self.rival {
            return expected + 1;
        }
        let found = self.words.word(place);
        if found != expected {
            return found;
        }
        let raised: Ask<Told> = Ask::Store(place, expected + 1);
        let _ = self.words.perform(&raised);
        self.keep(expected);
        self.keep(expected);
        expected
    }

    /// By the tail's last digit it is right, or misses in one of four ways.
    fn guess(&self) -> u64 {
        let tail = self.words.word(SharedWord::Tail.place());
        match tail % 5 {
            0 => tail,
            1 => tail.wrapping_sub(1),
            2 => tail.wrapping_add(1),
            3 => 0,
            _ => u64::MAX,
        }
    }

    fn replies(&self) -> &[u64] {
        self.replies.as_slice()
    }
}
