//! How pages are opened and closed as the tail goes on.
ghost use Rattle.std.specs.Prelude.{◌≡◌, ◌<◌, ◌≤◌, ◌+◌, ◌-◌, ◌/◌, nat_lt, nat_le, if◌then◌else◌};
ghost use Rattle.fkv_log.specs.Moving.{move_at_rest, move_asks_left};
ghost use Rattle.fkv_log.specs.Turning.{pages_wanted, limit_after, frame_end, frame_taken, turn_at, turn_begun, turn_ask, turn_next, turn_next_ask, turn_led, turn_told, asks_past_closed, turn_asks_left, IsTurnInRange};
ghost use Rattle.fkv_log.specs.declared.turning.Turning.TheVariants.{AtRest, LoadsClosed, RaisesLimit};

use crate::moving::{MoveAnswer, MoveOffset, Offset};
use fkv_base::{Addr, Shape};
use fkv_plane::{Ask, SharedWord, passed};
use std::marker::Model;

/// How far a turn of pages goes.
#[derive(Clone, Copy)]
pub enum TurnForm {
    /// It opens the page, or else moves the head so that the frame gets free: the background actor's turn.
    Whole,
    /// It opens the page where its frame is free already, and does no more: a session's turn.
    OpensOnly,
}

/// How far the machine has come.
#[derive(Clone, Copy)]
pub(crate) enum Turning {
    AtRest,
    /// The tail.
    LoadsLimit(TurnForm, u64),
    /// The limit, at which a page is wanted.
    LoadsClosed(TurnForm, u64),
    /// The limit, at which a page may be opened.
    RaisesLimit(u64),
    /// Where the page ends that had the frame.
    LoadsHead(u64),
    LoadsFlushed(u64),
    /// The head is moved.
    Moves,
}

/// Opens the page at the limit, where the tail comes near it and the page that had its frame is closed. Where that page is
/// flushed but not closed a whole turn moves the head past it, and the closed offset follows once every protected session
/// has seen that.
#[derive(Drop)]
pub struct TurnPage {
    shape: Shape,
    step: Turning,
    mover: MoveOffset,
}

impl Model for TurnPage {
    ghost use Rattle.fkv_log.specs.Turning.{Turner, turn_at, IsTurnInRange};

    ghost Value = { Turner };

    ghost view = { λ m. record { shape = m.shape; state = turn_at m.step m.mover } };

    ghost invariant = { λ m. IsTurnInRange m.shape m.step };
}

impl TurnPage {
    /// The machine at rest.
    pub fn new(shape: Shape) -> TurnPage
        ensures { result ≡ record { shape = shape; state = turn_at AtRest move_at_rest } }
    {
        TurnPage {
            shape,
            step: Turning::AtRest,
            mover: MoveOffset::new(),
        }
    }

    /// The first ask of a turn of this form. The tail is the one that its actor has loaded. The move inside is at rest
    /// then, whatever came before.
    #[tactic(auto, unfolding(crate::specs::Turning::turning_asks_left))]
    pub fn start(&mut self, form: TurnForm, tail: Addr) -> Ask<MoveAnswer>
        ensures next { self.new ≡ record self.old { state = turn_begun form tail.0 } }
        ensures ask { result ≡ turn_ask self.old.shape (turn_begun form tail.0) }
        ensures bounded { turn_asks_left self.new.state ≤ asks_past_closed form + 2 }
    {
        self.step = Turning::LoadsLimit(form, tail.0);
        self.mover = MoveOffset::new();
        self.ask()
    }

    /// Goes on with the reply to its ask.
    #[tactic(auto, unfolding(crate::specs::Turning::turning_next, crate::specs::Turning::turning_next_ask, crate::specs::Turning::turning_asks_left))]
    pub fn drive(&mut self, reply: u64) -> Ask<MoveAnswer>
        ensures next { self.new ≡ record self.old { state = turn_next self.old.shape self.old.state reply } }
        ensures ask { result ≡ turn_next_ask self.old.shape self.old.state reply }
        ensures fewer { turn_asks_left self.new.state ≤ turn_asks_left self.old.state - 1 }
    {
        self.step = match self.step {
            Turning::AtRest | Turning::RaisesLimit(_) => Turning::AtRest,
            Turning::LoadsLimit(form, tail) => limit_loaded(&self.shape, form, tail, reply),
            Turning::LoadsClosed(form, limit) => closed_loaded(&self.shape, form, limit, reply),
            Turning::LoadsHead(end) => {
                if reply < end {
                    Turning::LoadsFlushed(end)
                } else {
                    Turning::AtRest
                }
            }
            Turning::LoadsFlushed(end) => {
                if reply >= end {
                    self.mover.start(Offset::Head, Addr(end));
                    Turning::Moves
                } else {
                    Turning::AtRest
                }
            }
            Turning::Moves => {
                let ask = self.mover.drive(reply);
                return self.after_move(ask);
            }
        };
        self.ask()
    }

    /// Goes on by what the move asks.
    #[tactic(auto, unfolding(crate::specs::Turning::turn_led, crate::specs::Turning::turn_told, crate::specs::Turning::turning_asks_left))]
    fn after_move(&mut self, ask: Ask<MoveAnswer>) -> Ask<MoveAnswer>
        ensures next { self.new ≡ record self.old { state = turn_led self.old.state.mover ask } }
        ensures ask { result ≡ turn_told self.old.shape ask self.new.state }
        ensures bounded { turn_asks_left self.new.state ≤ move_asks_left self.old.state.mover }
    {
        if let Ask::Done(answer) = ask {
            self.step = Turning::AtRest;
            return Ask::Done(answer);
        }
        self.step = Turning::Moves;
        self.ask()
    }

    /// What it asks now.
    #[tactic(auto, unfolding(crate::specs::Turning::turning_ask))]
    pub fn ask(&self) -> Ask<MoveAnswer>
        ensures { result ≡ turn_ask self.now.shape self.now.state }
    {
        match self.step {
            Turning::AtRest => Ask::Done(MoveAnswer::Through),
            Turning::LoadsLimit(_, _) => Ask::Load(SharedWord::Limit.place()),
            Turning::LoadsClosed(_, _) => Ask::Load(SharedWord::Closed.place()),
            Turning::RaisesLimit(limit) => Ask::Cas(
                SharedWord::Limit.place(),
                limit,
                limit_after(&self.shape, limit),
            ),
            Turning::LoadsHead(_) => Ask::Load(SharedWord::Head.place()),
            Turning::LoadsFlushed(_) => Ask::Load(SharedWord::Flushed.place()),
            Turning::Moves => passed(self.mover.ask(), MoveAnswer::Through),
        }
    }
}

// A page is opened while the tail is near it, and the device has room for it.
fn limit_loaded(shape: &Shape, form: TurnForm, tail: u64, limit: u64) -> Turning
    ensures next { result ≡ (if nat_lt (limit / shape.now.page) (pages_wanted shape.now tail) then LoadsClosed form limit else AtRest) }
    ensures in_range { IsTurnInRange shape.now result }
{
    let wanted = (tail / shape.page + 2).min(shape.disk_pages);
    if limit / shape.page < wanted {
        Turning::LoadsClosed(form, limit)
    } else {
        Turning::AtRest
    }
}

// The frame of the page is free where all that had it before is closed.
fn closed_loaded(shape: &Shape, form: TurnForm, limit: u64, closed: u64) -> Turning
    requires { limit / shape.now.page < shape.now.disk_pages }
    ensures next { result ≡ (if nat_le (frame_end shape.now limit) closed then RaisesLimit limit else frame_taken form (frame_end shape.now limit)) }
    ensures in_range { IsTurnInRange shape.now result }
{
    let end = frame_end(shape, limit);
    if closed >= end {
        return Turning::RaisesLimit(limit);
    }
    match form {
        TurnForm::Whole => Turning::LoadsHead(end),
        TurnForm::OpensOnly => Turning::AtRest,
    }
}

/// The limit once the page at this one is open.
fn limit_after(shape: &Shape, limit: u64) -> u64
    requires { limit / shape.now.page < shape.now.disk_pages }
    ensures { result ≡ limit_after shape.now limit }
{
    (limit / shape.page + 1) * shape.page
}

/// Where the page ends that has the frame of the page at the limit; 0 where none has.
fn frame_end(shape: &Shape, limit: u64) -> u64
    requires { limit / shape.now.page < shape.now.disk_pages }
    ensures { result ≡ frame_end shape.now limit }
{
    (limit / shape.page + 1).saturating_sub(shape.frames) * shape.page
}
