//! A session's steps beside the words and the actions.
ghost use Rattle.std.specs.Prelude.{◌≡◌, ◌&&◌, not, true};
ghost use Rattle.fkv_session.specs.Sessions.{is_busy, session_ask};
ghost use Rattle.fkv_world.specs.Moves.{session_moved, session_settled};
ghost use Rattle.fkv_world.specs.World.{session_called};
ghost use Rattle.fkv_core.specs.Told.{IsSessionTold};
ghost use Rattle.fkv_core.specs.Worlds.{beside};

use fkv_map::Call;
use fkv_plane::{Ask, PlainWords};
use fkv_session::{Answer, Session, Told, answer_of};

/// Begins a call where none is in hand. Whether it has ended at once.
pub(crate) fn session_call(session: &mut Session, call: Call) -> bool
    ensures seat { session.new.seat ≡ session.old.seat }
    ensures next { session.new.state ≡ session_called session.old.seat session.old.state call }
    ensures ended { result ≡ not (is_busy session.old.state.step) && not (is_busy session.new.state.step) }
{
    if session.busy() {
        return false;
    }
    let _ = session.begin(call);
    !session.busy()
}

/// Makes the ask, and moves an action that goes with it. Whether a call has ended in it.
#[tactic(auto, unfolding(fkv_world::specs::Moves::session_asks, fkv_world::specs::Moves::session_settled))]
pub(crate) fn session_move(words: &mut PlainWords, session: &mut Session) -> bool
    ensures seat { session.new.seat ≡ session.old.seat }
    ensures next { beside words.new session.new.state ≡ session_moved session.old.seat (beside words.old session.old.state) }
    ensures ended { result ≡ is_busy session.old.state.step && not (is_busy session.new.state.step) }
{
    let was_busy = session.busy();
    match session.ask() {
        Ask::Done(_) => {}
        Ask::Put(slot, action) => {
            let _ = words.put(slot, action);
            let _ = session.go_on(0);
        }
        Ask::Take(slot) => {
            if let Some(action) = words.take(slot) {
                let _ = session.take(action);
            }
        }
        word => {
            let reply = words.perform(&word);
            let next = session.go_on(reply);
            settle(words, session, next);
        }
    }
    was_busy && !session.busy()
}

/// Moves the action that goes with the ask before.
#[tactic(auto, unfolding(fkv_world::specs::Moves::session_settled))]
fn settle(words: &mut PlainWords, session: &mut Session, next: Ask<Told>)
    requires { next ≡ session_ask session.old.seat session.old.state }
    ensures seat { session.new.seat ≡ session.old.seat }
    ensures next { beside words.new session.new.state ≡ session_settled session.old.seat (beside words.old session.old.state) (session_ask session.old.seat session.old.state) }
{
    match next {
        Ask::Put(slot, action) => {
            let _ = words.put(slot, action);
            let _ = session.go_on(0);
        }
        Ask::Take(slot) => {
            if let Some(action) = words.take(slot) {
                let _ = session.take(action);
            }
        }
        _ => {}
    }
}

/// The answer to its last call, where none is in hand.
#[tactic(auto, using(crate::proofs::Ends::busy_told))]
pub(crate) fn session_answer(session: &Session) -> Option<Answer>
    ensures { IsSessionTold true session.now.state result }
{
    if session.busy() {
        return None;
    }
    match session.ask() {
        Ask::Done(told) => Some(answer_of(told, session.finished())),
        _ => None,
    }
}
