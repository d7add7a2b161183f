//! The keeper's steps beside the words and the actions.
ghost use Rattle.std.specs.Prelude.{◌≡◌, ◌↔◌, ◌&&◌, not, Bool, true, false, List, ℕ};
ghost use Rattle.fkv_disk.specs.Device.{Elapses};
ghost use Rattle.fkv_keeper.specs.KeeperRun.{is_in_hand};
ghost use Rattle.fkv_keeper.specs.Keeping.{keeper_ask, keeper_next, commit_asked, turn_asked};
ghost use Rattle.fkv_plane.specs.Passing.{is_done};
ghost use Rattle.fkv_world.specs.Moves.{keeper_moved, keeper_settled};
ghost use Rattle.fkv_world.specs.World.{keeper_asked};
ghost use Rattle.fkv_core.specs.Told.{IsKeeperEndTold};
ghost use Rattle.fkv_core.specs.Worlds.{beside, BeginsNoSweep, IsKeeperMove};

use crate::events::Told;
use fkv_base::CommitKind;
use fkv_disk::Device;
use fkv_keeper::{Keeper, KeeperAsk, KeeperTold};
use fkv_plane::{Ask, PlainWords};

/// Begins a commit where no call is in hand. Whether it has ended at once.
pub(crate) fn keeper_commit(keeper: &mut Keeper, kind: CommitKind) -> bool
    ensures next { keeper.new ≡ record keeper.old { state = keeper_asked keeper.old.state (commit_asked keeper.old.state kind) } }
    ensures ended { result ≡ not (is_in_hand keeper.old.state.step) && not (is_in_hand keeper.new.state.step) }
{
    if keeper.is_in_hand() {
        return false;
    }
    let _ = keeper.begin_commit(kind);
    !keeper.is_in_hand()
}

/// Begins a turn where no call is in hand. Whether it has ended at once.
pub(crate) fn keeper_turn(keeper: &mut Keeper) -> bool
    ensures next { keeper.new ≡ record keeper.old { state = keeper_asked keeper.old.state (turn_asked keeper.old.state) } }
    ensures ended { result ≡ not (is_in_hand keeper.old.state.step) && not (is_in_hand keeper.new.state.step) }
{
    if keeper.is_in_hand() {
        return false;
    }
    let _ = keeper.begin_turn();
    !keeper.is_in_hand()
}

/// Makes the ask, and moves an action that goes with it, or makes the call of the device. Where it `sweeps`, a sweep may begin its turn.
/// Whether a call has ended in it.
#[tactic(auto, unfolding(fkv_world::specs::Moves::keeper_asks, fkv_world::specs::Moves::keeper_settled))]
pub(crate) fn keeper_move<D: Device>(
    words: &mut PlainWords,
    keeper: &mut Keeper,
    device: &mut D,
    sweeps: bool,
) -> bool
    ensures moved { IsKeeperMove sweeps words.old keeper.old words.new keeper.new (D.failed device.old) (D.failed device.new) (D.refuses device.old) (D.refuses device.new) (D.expects device.old) (D.expects device.new) (D.honest device.old) (D.seen device.old) (D.seen device.new) (D.may_leave device.old) (D.may_leave device.new) }
    ensures ended { result ≡ is_in_hand keeper.old.state.step && not (is_in_hand keeper.new.state.step) }
    ensures honest { D.honest device.old ↔ D.honest device.new }
    ensures time { D.honest device.old → Elapses (D.moment device.old) (D.moment device.new) (D.left_since device.old) (D.left_since device.new) (D.may_leave device.new) }
{
    let was_busy = keeper.is_in_hand();
    match keeper.ask() {
        Ask::Done(KeeperTold::Device) => {
            let _ = keeper.device_step(device);
            has_ended(keeper, was_busy)
        }
        Ask::Done(_) => has_ended(keeper, was_busy),
        ask => {
            word_asked(words, keeper, ask, sweeps);
            has_ended(keeper, was_busy)
        }
    }
}

/// Whether a call that was in hand is no more.
fn has_ended(keeper: &Keeper, was_busy: bool) -> bool
    ensures { result ≡ (was_busy && not (is_in_hand keeper.now.state.step)) }
{
    was_busy && !keeper.is_in_hand()
}

/// Makes an ask of a word, or what goes with one.
#[tactic(auto, unfolding(fkv_plane::specs::Passing::passed, fkv_world::specs::Moves::keeper_asks, fkv_world::specs::Moves::keeper_settled), using(crate::proofs::NoSweep::given_none))]
fn word_asked(words: &mut PlainWords, keeper: &mut Keeper, ask: Ask<KeeperTold>, sweeps: bool)
    requires asked { ask ≡ keeper_ask keeper.old.shape keeper.old.places keeper.old.state }
    requires word { is_done ask ≡ false }
    ensures store { (keeper.new.shape ≡ keeper.old.shape) × (keeper.new.places ≡ keeper.old.places) }
    ensures no_sweep { sweeps ≡ false → BeginsNoSweep keeper.old.state keeper.new.state }
    ensures moved { (granted : Bool) × ((done : Bool) (read : List ℕ) → beside words.new keeper.new.state ≡ keeper_moved keeper.old.shape keeper.old.places granted done read (beside words.old keeper.old.state)) }
{
    match ask {
        Ask::Put(slot, action) => {
            let _ = words.put(slot, action);
            let _ = keeper.go_on(0);
        }
        Ask::Take(slot) => {
            if let Some(action) = words.take(slot) {
                let _ = keeper.take(action);
            }
        }
        word => {
            let reply = words.perform(&word);
            let next = replied(keeper, reply, sweeps);
            settle(words, keeper, next);
        }
    }
}

/// Goes on with the reply to its ask. Where it `sweeps`, what may rest goes on, and so does a sweep of the log's front.
fn replied(keeper: &mut Keeper, reply: u64, sweeps: bool) -> Ask<KeeperTold>
    ensures next { (granted : Bool) × (keeper.new ≡ record keeper.old { state = keeper_next keeper.old.shape keeper.old.places keeper.old.state reply granted }) }
    ensures ask { result ≡ keeper_ask keeper.old.shape keeper.old.places keeper.new.state }
    ensures no_sweep { sweeps ≡ false → BeginsNoSweep keeper.old.state keeper.new.state }
{
    if sweeps {
        let room = keeper.room();
        keeper.go_on_with(reply, room, true)
    } else {
        keeper.go_on(reply)
    }
}

/// Moves the action that goes with the ask before.
#[tactic(auto, unfolding(fkv_world::specs::Moves::keeper_settled), using(crate::proofs::Granted::put_is_granted, crate::proofs::NoSweep::given_none))]
fn settle(words: &mut PlainWords, keeper: &mut Keeper, next: Ask<KeeperTold>)
    requires { next ≡ keeper_ask keeper.old.shape keeper.old.places keeper.old.state }
    ensures store { (keeper.new.shape ≡ keeper.old.shape) × (keeper.new.places ≡ keeper.old.places) }
    ensures no_sweep { BeginsNoSweep keeper.old.state keeper.new.state }
    ensures next { (granted : Bool) → beside words.new keeper.new.state ≡ keeper_settled keeper.old.shape keeper.old.places granted (beside words.old keeper.old.state) (keeper_ask keeper.old.shape keeper.old.places keeper.old.state) }
{
    match next {
        Ask::Put(slot, action) => {
            let _ = words.put(slot, action);
            let _ = keeper.go_on(0);
        }
        Ask::Take(slot) => {
            if let Some(action) = words.take(slot) {
                let _ = keeper.take(action);
            }
        }
        _ => {}
    }
}

/// The answer to its last call, where none is in hand. At rest a reply changes nothing, and the last answer is told again.
#[tactic(auto, unfolding(fkv_keeper::specs::Keeping::keeping_next), using(crate::proofs::Ends::in_hand_told, crate::proofs::Ends::ended_told))]
pub(crate) fn keeper_answer(keeper: &mut Keeper) -> Option<Told>
    ensures same { keeper.new ≡ keeper.old }
    ensures told { IsKeeperEndTold true keeper.new.state result }
{
    if keeper.is_in_hand() {
        return None;
    }
    match keeper.drive(0) {
        KeeperAsk::Turned(result) => Some(Told::Turn(result)),
        KeeperAsk::Begun(result) => Some(Told::Commit(result)),
        KeeperAsk::Word(_) | KeeperAsk::Device => None,
    }
}
