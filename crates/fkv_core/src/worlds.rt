//! The engine's world: sessions, the keeper, the words and the device, and one step of it.
ghost use Rattle.std.specs.Prelude.{◌≡◌, ◌↔◌, Option};
ghost use Rattle.fkv_disk.specs.Device.{Elapses};
ghost use Rattle.fkv_disk.specs.Fuse.{armed};
ghost use Rattle.fkv_disk.specs.Fuses.{fuse_device, fuse_state, fuse_refused};
ghost use Rattle.fkv_plane.specs.Asked.{word_at};
ghost use Rattle.fkv_core.specs.declared.events.Told.{Told};
ghost use Rattle.fkv_core.specs.Told.{IsAnswerBehind, IsLastAnswer, ends_call, numbered};
ghost use Rattle.fkv_core.specs.Worlds.{AreSeated, AreSessionCalls, AreSessionMoves, IsStep, states_of};

use crate::events::{Event, Told};
use crate::keeper_moves::{keeper_answer, keeper_commit, keeper_move, keeper_turn};
use crate::session_moves::{session_answer, session_call, session_move};
use fkv_disk::{Device, Fuse};
use fkv_keeper::Keeper;
use fkv_map::Call;
use fkv_plane::PlainWords;
use fkv_session::{Answer, Session};
use std::marker::Model;

/// The engine. Each step moves one actor, and a session, the keeper and the device meet only in it.
#[derive(Drop)]
pub struct World<D: Device> {
    pub(crate) words: PlainWords,
    pub(crate) sessions: Vec<Session>,
    pub(crate) keeper: Keeper,
    pub(crate) device: D,
    pub(crate) crashed: bool,
}

impl<D: Device> Model for World<D> {
    ghost use Rattle.fkv_core.specs.Worlds.{WorldModel, AreSeated, states_of};

    ghost Value = { WorldModel D };

    ghost view = { λ m. record { now = record { shape = m.keeper.shape; places = m.keeper.places; words = m.words.words; actions = m.words.actions; sessions = states_of m.sessions.items; keeper = m.keeper.state; crashed = m.crashed }; device = m.device } };

    ghost invariant = { λ m. AreSeated m.keeper.shape m.keeper.places m.sessions.items };
}

impl<D: Device> World<D> {
    /// What happens next. It tells the answer to the call that has ended in it; where an event finds nothing to do, nothing changes and
    /// nothing is told.
    pub fn step(&mut self, event: Event) -> Option<Told>
        ensures step { IsStep event self.old.now self.new.now result (D.failed self.old.device) (D.failed self.new.device) (D.refuses self.old.device) (D.refuses self.new.device) (D.expects self.old.device) (D.expects self.new.device) (D.honest self.old.device) (D.seen self.old.device) (D.seen self.new.device) (D.may_leave self.old.device) (D.may_leave self.new.device) }
        ensures honest { D.honest self.old.device ↔ D.honest self.new.device }
        ensures time { D.honest self.old.device → Elapses (D.moment self.old.device) (D.moment self.new.device) (D.left_since self.old.device) (D.left_since self.new.device) (D.may_leave self.new.device) }
    {
        if self.advance(event) {
            self.answer(event)
        } else {
            None
        }
    }

    /// What happens next, as in `step`, but for the answer: whether a call has ended in it. Then `answer` gives its answer, up to the
    /// next step. A caller that makes many steps saves the answer's 2 KiB in each.
    pub fn advance(&mut self, event: Event) -> bool
        ensures ended { result ≡ ends_call event self.old.now self.new.now }
        ensures step { (told : Option Told) → IsAnswerBehind result event self.new.now told → IsStep event self.old.now self.new.now told (D.failed self.old.device) (D.failed self.new.device) (D.refuses self.old.device) (D.refuses self.new.device) (D.expects self.old.device) (D.expects self.new.device) (D.honest self.old.device) (D.seen self.old.device) (D.seen self.new.device) (D.may_leave self.old.device) (D.may_leave self.new.device) }
        ensures honest { D.honest self.old.device ↔ D.honest self.new.device }
        ensures time { D.honest self.old.device → Elapses (D.moment self.old.device) (D.moment self.new.device) (D.left_since self.old.device) (D.left_since self.new.device) (D.may_leave self.new.device) }
    {
        if self.crashed {
            return false;
        }
        match event {
            Event::Call(number, call) => called(&mut self.sessions, number, call),
            Event::Move(number) => moved(&mut self.words, &mut self.sessions, number),
            Event::Commit(kind) => keeper_commit(&mut self.keeper, kind),
            Event::Turn => keeper_turn(&mut self.keeper),
            Event::KeeperMove => {
                keeper_move(&mut self.words, &mut self.keeper, &mut self.device, false)
            }
            Event::SweepMove => {
                keeper_move(&mut self.words, &mut self.keeper, &mut self.device, true)
            }
            Event::Crash => {
                self.crashed = true;
                false
            }
        }
    }

    /// The answer to the last call of the event's actor, where it has none in hand. Of an actor that there isn't, and of a crash,
    /// there is none.
    pub fn answer(&mut self, event: Event) -> Option<Told>
        ensures same { self.new ≡ self.old }
        ensures told { IsLastAnswer event self.old.now result }
    {
        match event {
            Event::Call(number, _) | Event::Move(number) => match self.sessions.get(number) {
                Some(session) => numbered(number, session_answer(session)),
                None => None,
            },
            Event::Commit(_) | Event::Turn | Event::KeeperMove | Event::SweepMove => {
                keeper_answer(&mut self.keeper)
            }
            Event::Crash => None,
        }
    }

    /// The shared word at a place. Past the last word it is 0.
    pub fn word(&self, place: usize) -> u64
        ensures { result ≡ word_at self.now.now.words place }
    {
        self.words.word(place)
    }

    /// The device as the life has left it.
    pub fn end(self) -> D
        ensures { result ≡ self.device }
    {
        let World { device, .. } = self;
        device
    }

    /// The world taken apart: the shared words with the actions of the drain slots, the sessions in the order of their numbers, the
    /// keeper, and the device, each as it stands.
    pub fn into_parts(self) -> (PlainWords, Vec<Session>, Keeper, D)
        ensures words { result.0 ≡ record { words = self.now.words; actions = self.now.actions } }
        ensures sessions { states_of result.1.items ≡ self.now.sessions }
        ensures seats { AreSeated self.now.shape self.now.places result.1.items }
        ensures keeper { result.2 ≡ record { shape = self.now.shape; places = self.now.places; state = self.now.keeper } }
        ensures device { result.3 ≡ self.device }
    {
        let World {
            words,
            sessions,
            keeper,
            device,
            ..
        } = self;
        (words, sessions, keeper, device)
    }
}

impl<D: Device> World<Fuse<D>> {
    /// From now on `k` calls of the device pass, and then each is refused. A fuse that has blown stays so.
    pub fn arm(&mut self, k: u64)
        ensures now { self.new.now ≡ self.old.now }
        ensures device { fuse_device self.new.device ≡ fuse_device self.old.device }
        ensures state { fuse_state self.new.device ≡ armed k (fuse_state self.old.device) }
        ensures refused { fuse_refused self.new.device ≡ fuse_refused self.old.device }
    {
        self.device.arm(k);
    }
}

/// A session begins a call, where there is one of this number. Whether it has ended at once.
fn called(sessions: &mut Vec<Session>, number: usize, call: Call) -> bool
    ensures { AreSessionCalls number call sessions.old.items sessions.new.items result }
{
    match sessions.get_mut(number) {
        Some(session) => session_call(session, call),
        None => false,
    }
}

/// A session makes its ask, where there is one of this number. Whether a call has ended in it.
fn moved(words: &mut PlainWords, sessions: &mut Vec<Session>, number: usize) -> bool
    ensures { AreSessionMoves number words.old words.new sessions.old.items sessions.new.items result }
{
    match sessions.get_mut(number) {
        Some(session) => session_move(words, session),
        None => false,
    }
}

/// The answer, as that of the session of this number.
fn numbered(number: usize, answer: Option<Answer>) -> Option<Told>
    ensures { result ≡ numbered number answer }
{
    match answer {
        Some(answer) => Some(Told::Session(number, answer)),
        None => None,
    }
}
