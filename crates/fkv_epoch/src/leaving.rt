//! A session leaves: it is protected no more.
ghost use Rattle.std.specs.Prelude.{◌≡◌, ◌<◌, ◌≤◌, ◌-◌};
ghost use Rattle.fkv_base.specs.Limits.{max_sessions};

use fkv_plane::{Ask, SessionWord};
use std::marker::Model;

/// How far the machine has come.
#[derive(Clone, Copy)]
pub(crate) enum Leaving {
    AtRest,
    StoresZero,
}

/// Stores 0 as the session's epoch.
#[derive(Drop)]
pub struct Leave {
    session: usize,
    step: Leaving,
}

impl Model for Leave {
    ghost use Rattle.fkv_base.specs.Limits.{max_sessions};
    ghost use Rattle.std.specs.Prelude.{◌<◌};
    ghost use Rattle.fkv_epoch.specs.Leaving.{Leaver};

    ghost Value = { Leaver };

    ghost view = { λ m. record { session = m.session; step = m.step } };

    ghost invariant = { λ m. m.session < max_sessions };
}

impl Leave {
    ghost use Rattle.fkv_epoch.specs.Leaving.{leave_ask, leave_next, leave_asks_left};
    ghost use Rattle.fkv_epoch.specs.declared.leaving.Leaving.TheVariants.{AtRest, StoresZero};

    /// The machine of a session at rest.
    pub fn new(session: usize) -> Leave
        requires { session < max_sessions }
        ensures { result ≡ record { session = session; step = AtRest } }
    {
        Leave {
            session,
            step: Leaving::AtRest,
        }
    }

    /// The first ask.
    #[tactic(auto, unfolding(crate::specs::Leaving::leave_ask, crate::specs::Leaving::leave_asks_left))]
    pub fn start(&mut self) -> Ask<()>
        ensures next { self.new ≡ record self.old { step = StoresZero } }
        ensures ask { result ≡ leave_ask self.old.session StoresZero }
        ensures bounded { leave_asks_left self.new.step ≤ 1 }
    {
        self.step = Leaving::StoresZero;
        self.ask()
    }

    /// What it asks now.
    #[tactic(auto, unfolding(crate::specs::Leaving::leave_ask))]
    pub fn ask(&self) -> Ask<()>
        ensures { result ≡ leave_ask self.now.session self.now.step }
    {
        match self.step {
            Leaving::AtRest => Ask::Done(()),
            Leaving::StoresZero => Ask::Store(SessionWord::Epoch.place(self.session), 0),
        }
    }

    /// Goes on with the reply to its ask.
    #[tactic(auto, unfolding(crate::specs::Leaving::leave_ask, crate::specs::Leaving::leave_next, crate::specs::Leaving::leave_asks_left))]
    pub fn drive(&mut self, _reply: u64) -> Ask<()>
        ensures next { self.new ≡ record self.old { step = leave_next self.old.step } }
        ensures ask { result ≡ leave_ask self.old.session (leave_next self.old.step) }
        ensures fewer { leave_asks_left self.new.step ≤ leave_asks_left self.old.step - 1 }
    {
        self.step = Leaving::AtRest;
        self.ask()
    }
}
