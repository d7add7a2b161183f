//! The calls of a group, by their actors.
ghost use Rattle.std.specs.Prelude.{◌≡◌, ◌<◌, ◌≤◌, ◌∷◌, [], ◌++◌, ℕ, List, IfOk, IfSome, IfNone, OnOk, is_some, length, map, slice_get, Some, None};
ghost use Rattle.fkv_playing.specs.Queues.{AreQueuesOf, HasSteps, NobodyHasSteps, QueueState, given_up, held, is_of, next_step, queue_behind, rank_of};

use crate::calls::{ActorCall, Outcome, Stage};
use std::alloc::Global;
use std::io;
use std::marker::Model;

/// An actor's calls: the one that it has in hand, and those that are left, which are never none when the queue is made.
#[derive(Drop)]
pub struct Queue {
    first: ActorCall,
    calls: Vec<ActorCall>,
    next: usize,
    hand: Option<ActorCall>,
}

impl Model for Queue {
    ghost use Rattle.std.specs.Prelude.{◌≤◌, drop, length};
    ghost use Rattle.fkv_playing.specs.Queues.{QueueState, rank_of};

    ghost Value = { QueueState };

    ghost view = { λ m. record { rank = rank_of m.first; hand = m.hand; left = drop m.next m.calls.items } };

    ghost invariant = { λ m. m.next ≤ length m.calls.items };
}

impl Queue {
    /// A queue of one call.
    fn of(alloc: Global, call: ActorCall) -> io::Result<Queue>
        ensures { IfOk result (λ queue. queue ≡ record { rank = rank_of call; hand = None; left = call ∷ [] }) }
    {
        let mut calls = Vec::new(alloc);
        calls.push(call)?;
        Ok(Queue {
            first: call,
            calls,
            next: 0,
            hand: None,
        })
    }

    /// One call more.
    fn push(&mut self, call: ActorCall) -> io::Result<()>
        ensures { OnOk result (self.new ≡ record self.old { left = self.old.left ++ (call ∷ []) }) }
    {
        self.calls.push(call)?;
        Ok(())
    }

    /// Whether a step is left.
    pub(crate) fn has_steps(&self) -> bool
        ensures { result ≡ is_some (next_step self.now) }
    {
        self.hand.is_some() || self.next < self.calls.len()
    }

    /// Takes the next step: the call in hand goes on, or the next one is begun, and is in hand then.
    pub(crate) fn take_step(&mut self) -> Option<(ActorCall, Stage)>
        ensures step { result ≡ next_step self.old }
        ensures held { self.new ≡ held self.old }
    {
        if let Some(call) = self.hand {
            return Some((call, Stage::Moves));
        }
        let call = *self.calls.get(self.next)?;
        self.next += 1;
        self.hand = Some(call);
        Some((call, Stage::Begins))
    }

    /// Notes how the step came out: a call that doesn't go on is in hand no more.
    pub(crate) fn note(&mut self, outcome: Outcome)
        ensures { self.new ≡ queue_behind outcome self.old }
    {
        if outcome != Outcome::GoesOn {
            self.hand = None;
        }
    }
}

/// The calls by their actors: a queue for each that has one, sessions by their numbers and then the keeper, each with its calls in
/// their order.
pub fn queues_of(alloc: Global, calls: &[ActorCall]) -> io::Result<Vec<Queue>>
    ensures { IfOk result (λ queues. AreQueuesOf calls.now queues.items) }
{
    let mut queues = Vec::new(alloc);
    for call in calls {
        put(alloc, &mut queues, *call)?;
    }
    Ok(queues)
}

/// One call more, behind those that the queues have.
fn put(alloc: Global, queues: &mut Vec<Queue>, call: ActorCall) -> io::Result<()>
    ensures { OnOk result ((calls : List ActorCall) → AreQueuesOf calls queues.old.items → AreQueuesOf (calls ++ (call ∷ [])) queues.new.items) }
{
    let at = place_of(queues, call);
    if let Some(queue) = queues.get_mut(at) {
        if !call.comes_before(queue.first) {
            return queue.push(call);
        }
    }
    queues.insert(at, Queue::of(alloc, call)?)?;
    Ok(())
}

/// How many queues stand before the one of this call's actor.
fn place_of(queues: &[Queue], call: ActorCall) -> usize
    ensures within { result ≤ length queues.now }
    ensures below { (at : ℕ) (queue : QueueState) → at < result → slice_get queues.now at ≡ Some queue → queue.rank < rank_of call }
    ensures here { (queue : QueueState) → slice_get queues.now result ≡ Some queue → rank_of call ≤ queue.rank }
{
    for (at, queue) in queues.iter().enumerate() {
        if !queue.first.comes_before(call) {
            return at;
        }
    }
    queues.len()
}

/// Gives up each call in hand.
pub(crate) fn give_up(queues: &mut Vec<Queue>)
    ensures { queues.new.items ≡ map given_up queues.old.items }
{
    for queue in queues.iter_mut() {
        queue.hand = None;
    }
}

/// How many actors have a step left.
pub(crate) fn count_steps(queues: &[Queue]) -> usize {
    queues.iter().filter(|queue| queue.has_steps()).count()
}

/// Where the queue stands that is the `nth` of those with a step left, counted from 0, or the last of them where they are fewer.
pub(crate) fn picked(queues: &[Queue], nth: usize) -> Option<usize>
    ensures some { IfSome result (λ at. (queue : QueueState) × (slice_get queues.now at ≡ Some queue) × HasSteps queue) }
    ensures none { IfNone result (NobodyHasSteps queues.now) }
{
    let mut found = None;
    let mut left = nth;
    for (at, queue) in queues.iter().enumerate() {
        if queue.has_steps() {
            found = Some(at);
            if left == 0 {
                return found;
            }
            left -= 1;
        }
    }
    found
}
