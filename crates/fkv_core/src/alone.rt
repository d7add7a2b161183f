//! One actor alone, up to the end of its call.
ghost use Rattle.std.specs.Prelude.{◌≡◌, ◌↔◌};
ghost use Rattle.fkv_core.specs.Alone.{IsMovedAlone, in_hand, moving};

use crate::events::{Actor, Event, Told};
use crate::worlds::World;
use fkv_disk::Device;

impl<D: Device> World<D> {
    /// Whether the actor has a call in hand, in a life that goes on.
    pub fn is_in_hand(&self, actor: Actor) -> bool
        ensures { result ≡ in_hand self.now.now actor }
    {
        if self.crashed {
            return false;
        }
        match actor {
            Actor::Session(number) => match self.sessions.get(number) {
                Some(session) => session.busy(),
                None => false,
            },
            Actor::Keeper => self.keeper.is_in_hand(),
        }
    }

    /// Moves one actor alone until its call has ended, and tells its answer; nothing where it has none in hand.
    pub fn finish(&mut self, actor: Actor) -> Option<Told>
        ensures alone { IsMovedAlone actor self.old.now self.new.now result (D.failed self.old.device) (D.failed self.new.device) (D.refuses self.old.device) (D.refuses self.new.device) (D.honest self.old.device) (D.seen self.old.device) (D.seen self.new.device) (D.may_leave self.old.device) (D.may_leave self.new.device) }
        ensures honest { D.honest self.old.device ↔ D.honest self.new.device }
    {
        for _ in 0..u64::MAX {
            if !self.is_in_hand(actor) {
                return None;
            }
            let event = moving(actor);
            if self.advance(event) {
                return self.answer(event);
            }
        }
        None
    }
}

/// The event that moves it.
fn moving(actor: Actor) -> Event
    ensures { result ≡ moving actor }
{
    match actor {
        Actor::Session(number) => Event::Move(number),
        Actor::Keeper => Event::KeeperMove,
    }
}
