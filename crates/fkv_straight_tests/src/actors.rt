//! One step of whoever asks for steps on words.
use fkv_keeper::{Keeper, KeeperTold};
use fkv_plane::{Action, Ask, PlainWords};
use fkv_session::{Session, Told};
use fkv_straight::StraightSession;

/// Asks for steps, and goes on with their replies.
pub(crate) trait Actor {
    /// What its calls are told.
    type Ends: Drop;

    fn go_on(&mut self, reply: u64) -> Ask<Self::Ends>;

    fn take(&mut self, action: Action) -> Ask<Self::Ends>;
}

impl Actor for Session {
    type Ends = Told;

    fn go_on(&mut self, reply: u64) -> Ask<Told> {
        Session::go_on(self, reply)
    }

    fn take(&mut self, action: Action) -> Ask<Told> {
        Session::take(self, action)
    }
}

impl Actor for StraightSession {
    type Ends = Told;

    fn go_on(&mut self, reply: u64) -> Ask<Told> {
        StraightSession::go_on(self, reply)
    }

    fn take(&mut self, action: Action) -> Ask<Told> {
        StraightSession::take(self, action)
    }
}

impl Actor for Keeper {
    type Ends = KeeperTold;

    fn go_on(&mut self, reply: u64) -> Ask<KeeperTold> {
        Keeper::go_on(self, reply)
    }

    fn take(&mut self, action: Action) -> Ask<KeeperTold> {
        Keeper::take(self, action)
    }
}

/// Moves the action that goes with the step before, if one does.
fn settle<A: Actor>(words: &mut PlainWords, actor: &mut A, next: Ask<A::Ends>) -> Ask<A::Ends> {
    match next {
        Ask::Put(slot, action) => {
            let _ = words.put(slot, action);
            actor.go_on(0)
        }
        Ask::Take(slot) => match words.take(slot) {
            Some(action) => actor.take(action),
            None => Ask::Take(slot),
        },
        other => other,
    }
}

/// Does what is asked of a word, and goes on with the reply.
pub(crate) fn step<A: Actor>(
    words: &mut PlainWords,
    actor: &mut A,
    ask: &Ask<A::Ends>,
) -> Ask<A::Ends> {
    let reply = words.perform(ask);
    let next = actor.go_on(reply);
    settle(words, actor, next)
}
