//! The turn that a session makes where its log had no room.
ghost use Rattle.std.specs.Prelude.{◌≡◌, ◌<◌, ◌≤◌, true, false};
ghost use Rattle.fkv_epoch.specs.Claiming.{takes_action};
ghost use Rattle.fkv_plane.specs.AsksLeft.{AsksWhereLeft};
ghost use Rattle.fkv_session.specs.declared.own_turns.OwnTurning.TheVariants.{Ended};
ghost use Rattle.fkv_session.specs.AsksLeft.{own_turn_asks_left, most_own_turn_asks};
ghost use Rattle.fkv_session.specs.OwnTurns.{own_turn_begun, own_turn_ask, own_turn_next, own_turn_given, scan_ledto, claim_ledto, shift_ledto, open_ledto, tail_told};

use fkv_base::{Addr, Shape};
use fkv_epoch::{Claim, Scan};
use fkv_log::{MoveAnswer, ShiftAnswer, ShiftReadOnly, TurnForm, TurnPage};
use fkv_plane::{Action, Ask, passed};
use std::marker::Model;

/// How far the turn has come.
#[derive(Clone, Copy)]
pub(crate) enum OwnTurning {
    Ended,
    Scans,
    /// What is armed and safe is run.
    Claims,
    /// The read-only offset is shifted.
    Shifts,
    /// A page is opened.
    Opens,
}

/// Finds the safe epoch, runs the actions whose epoch is safe, shifts the read-only offset, and opens a page where its frame is
/// free. It leaves the head to the keeper.
#[derive(Drop)]
pub struct OwnTurn {
    shape: Shape,
    scan: Scan,
    claim: Claim,
    shift: ShiftReadOnly,
    turn: TurnPage,
    step: OwnTurning,
}

impl Model for OwnTurn {
    ghost use Rattle.std.specs.Prelude.{◌≡◌};
    ghost use Rattle.fkv_session.specs.OwnTurns.{OwnTurner, OwnTurnState};

    ghost Value = { OwnTurner };

    ghost view = { λ m. record { shape = m.shape; state = record { scanning = m.scan.step; claiming = m.claim.step; shift = m.shift.state; turn = m.turn.state; step = m.step } } };

    ghost invariant = { λ m. (m.scan.sessions ≡ m.shape.sessions) × (m.shift.shape ≡ m.shape) × (m.turn.shape ≡ m.shape) };
}

impl OwnTurn {
    /// The machine of a store of this shape, at rest.
    pub fn new(shape: Shape) -> OwnTurn
        ensures shape { result.shape ≡ shape }
        ensures rest { result.state.step ≡ Ended }
    {
        OwnTurn {
            shape,
            scan: Scan::new(shape.sessions as usize),
            claim: Claim::new(),
            shift: ShiftReadOnly::new(shape),
            turn: TurnPage::new(shape),
            step: OwnTurning::Ended,
        }
    }

    /// The first ask.
    #[tactic(auto, unfolding(crate::specs::OwnTurns::own_turning_ask))]
    pub fn start(&mut self) -> Ask<()>
        ensures next { self.new ≡ record self.old { state = own_turn_begun self.old.state } }
        ensures ask { result ≡ own_turn_ask self.old.shape self.new.state }
        ensures asks { AsksWhereLeft (own_turn_asks_left self.old.shape self.new.state) result }
        ensures bounded { own_turn_asks_left self.old.shape self.new.state ≤ most_own_turn_asks self.old.shape }
    {
        self.step = OwnTurning::Scans;
        passed(self.scan.start(), ())
    }

    /// Goes on with the reply to its ask. At its end it stays where it is.
    #[tactic(auto, unfolding(crate::specs::OwnTurns::own_turning_next))]
    pub fn drive(&mut self, reply: u64) -> Ask<()>
        ensures next { self.new ≡ record self.old { state = own_turn_next self.old.shape self.old.state reply } }
        ensures ask { result ≡ own_turn_ask self.old.shape self.new.state }
        ensures asks { AsksWhereLeft (own_turn_asks_left self.old.shape self.new.state) result }
        ensures fewer { takes_action (own_turn_ask self.old.shape self.old.state) ≡ false → 0 < own_turn_asks_left self.old.shape self.old.state → own_turn_asks_left self.old.shape self.new.state < own_turn_asks_left self.old.shape self.old.state }
    {
        match self.step {
            OwnTurning::Ended => {}
            OwnTurning::Scans => {
                let ask = self.scan.drive(reply);
                self.after_scan(ask);
            }
            OwnTurning::Claims => {
                let ask = self.claim.drive(reply);
                self.after_claim(ask);
            }
            OwnTurning::Shifts => {
                let ask = self.shift.drive(reply);
                self.after_shift(ask);
            }
            OwnTurning::Opens => {
                let ask = self.turn.drive(reply);
                self.after_opening(ask);
            }
        }
        self.ask()
    }

    /// Gets the action of the slot that it claimed.
    #[tactic(auto, unfolding(crate::specs::OwnTurns::own_turning_given))]
    pub fn given(&mut self, action: Action) -> Ask<()>
        ensures next { self.new ≡ record self.old { state = own_turn_given self.old.state action } }
        ensures ask { result ≡ own_turn_ask self.old.shape self.new.state }
        ensures asks { AsksWhereLeft (own_turn_asks_left self.old.shape self.new.state) result }
        ensures fewer { takes_action (own_turn_ask self.old.shape self.old.state) ≡ true → own_turn_asks_left self.old.shape self.new.state < own_turn_asks_left self.old.shape self.old.state }
    {
        if let OwnTurning::Claims = self.step {
            let ask = self.claim.given(action);
            self.after_claim(ask);
        }
        self.ask()
    }

    /// What it asks now.
    #[tactic(auto, unfolding(crate::specs::OwnTurns::own_turning_ask))]
    pub fn ask(&self) -> Ask<()>
        ensures ask { result ≡ own_turn_ask self.now.shape self.now.state }
        ensures asks { AsksWhereLeft (own_turn_asks_left self.now.shape self.now.state) result }
    {
        match self.step {
            OwnTurning::Ended => Ask::Done(()),
            OwnTurning::Scans => passed(self.scan.ask(), ()),
            OwnTurning::Claims => passed(self.claim.ask(), ()),
            OwnTurning::Shifts => passed(self.shift.ask(), ()),
            OwnTurning::Opens => passed(self.turn.ask(), ()),
        }
    }

    #[tactic(auto, unfolding(crate::specs::OwnTurns::scan_ledto))]
    fn after_scan(&mut self, ask: Ask<()>)
        ensures { self.new ≡ record self.old { state = scan_ledto self.old.state ask } }
    {
        if let Ask::Done(()) = ask {
            self.claim.start();
            self.step = OwnTurning::Claims;
        }
    }

    #[tactic(auto, unfolding(crate::specs::OwnTurns::claim_ledto))]
    fn after_claim(&mut self, ask: Ask<()>)
        ensures { self.new ≡ record self.old { state = claim_ledto self.old.state ask } }
    {
        if let Ask::Done(()) = ask {
            self.shift.start();
            self.step = OwnTurning::Shifts;
        }
    }

    #[tactic(auto, unfolding(crate::specs::OwnTurns::shift_ledto))]
    fn after_shift(&mut self, ask: Ask<ShiftAnswer>)
        ensures { self.new ≡ record self.old { state = shift_ledto self.old.state ask } }
    {
        if let Ask::Done(answer) = ask {
            self.turn.start(TurnForm::OpensOnly, tail_told(answer));
            self.step = OwnTurning::Opens;
        }
    }

    #[tactic(auto, unfolding(crate::specs::OwnTurns::open_ledto))]
    fn after_opening(&mut self, ask: Ask<MoveAnswer>)
        ensures { self.new ≡ record self.old { state = open_ledto self.old.state ask } }
    {
        if let Ask::Done(_) = ask {
            self.step = OwnTurning::Ended;
        }
    }
}

/// The tail that the shift has loaded.
fn tail_told(answer: ShiftAnswer) -> Addr
    ensures { result ≡ tail_told answer }
{
    match answer {
        ShiftAnswer::Through(tail) | ShiftAnswer::NoSlot(tail) | ShiftAnswer::Spent(tail) => tail,
    }
}
