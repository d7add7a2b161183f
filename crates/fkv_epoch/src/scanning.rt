//! How the safe epoch is found.
ghost use Rattle.std.specs.Prelude.{◌≡◌, ◌≤◌, ◌+◌, ◌-◌};
ghost use Rattle.fkv_base.specs.Limits.{max_sessions};

use fkv_plane::{Ask, SessionWord, SharedWord};
use std::marker::Model;

/// How far the machine has come.
#[derive(Clone, Copy)]
pub(crate) enum Scanning {
    AtRest,
    LoadsEpoch,
    /// The session that is met, and the least epoch met so far.
    LoadsSession(usize, u64),
    RaisesSafe(u64),
}

/// Loads the epoch and each session's epoch word, and raises the safe epoch to one below the least that isn't 0.
#[derive(Drop)]
pub struct Scan {
    sessions: usize,
    step: Scanning,
}

impl Model for Scan {
    ghost use Rattle.fkv_epoch.specs.Scanning.{Scanner, IsScanInRange};

    ghost Value = { Scanner };

    ghost view = { λ m. record { sessions = m.sessions; step = m.step } };

    ghost invariant = { λ m. IsScanInRange m.sessions m.step };
}

impl Scan {
    ghost use Rattle.fkv_epoch.specs.Scanning.{scan_ask, scan_next, sessions_from, scan_asks_left};
    ghost use Rattle.fkv_epoch.specs.declared.scanning.Scanning.TheVariants.{AtRest, LoadsEpoch};

    /// The machine over so many sessions, at rest.
    pub fn new(sessions: usize) -> Scan
        requires { sessions ≤ max_sessions }
        ensures { result ≡ record { sessions = sessions; step = AtRest } }
    {
        Scan {
            sessions,
            step: Scanning::AtRest,
        }
    }

    /// The first ask.
    #[tactic(auto, unfolding(crate::specs::Scanning::scan_ask, crate::specs::Scanning::scan_asks_left))]
    pub fn start(&mut self) -> Ask<()>
        ensures next { self.new ≡ record self.old { step = LoadsEpoch } }
        ensures ask { result ≡ scan_ask LoadsEpoch }
        ensures bounded { scan_asks_left self.new.sessions self.new.step ≤ self.old.sessions + 2 }
    {
        self.step = Scanning::LoadsEpoch;
        self.ask()
    }

    /// Goes on with the reply to its ask.
    #[tactic(auto, unfolding(crate::specs::Scanning::scan_next, crate::specs::Scanning::sessions_from, crate::specs::Scanning::least_of, crate::specs::Scanning::scan_asks_left))]
    pub fn drive(&mut self, reply: u64) -> Ask<()>
        ensures next { self.new ≡ record self.old { step = scan_next self.old.sessions self.old.step reply } }
        ensures ask { result ≡ scan_ask (scan_next self.old.sessions self.old.step reply) }
        ensures fewer { scan_asks_left self.new.sessions self.new.step ≤ scan_asks_left self.old.sessions self.old.step - 1 }
    {
        match self.step {
            Scanning::LoadsEpoch => self.meet(0, reply),
            Scanning::LoadsSession(session, least) => {
                let least = if reply == 0 { least } else { least.min(reply) };
                self.meet(session + 1, least);
            }
            Scanning::RaisesSafe(_) => self.step = Scanning::AtRest,
            Scanning::AtRest => {}
        }
        self.ask()
    }

    /// Meets the session of this number, if there is one.
    #[tactic(auto, unfolding(crate::specs::Scanning::sessions_from))]
    fn meet(&mut self, session: usize, least: u64)
        ensures { self.new ≡ record self.old { step = sessions_from self.old.sessions session least } }
    {
        self.step = if session < self.sessions {
            Scanning::LoadsSession(session, least)
        } else {
            Scanning::RaisesSafe(least)
        };
    }

    /// What it asks now.
    #[tactic(auto, unfolding(crate::specs::Scanning::scan_ask))]
    pub fn ask(&self) -> Ask<()>
        ensures { result ≡ scan_ask self.now.step }
    {
        match self.step {
            Scanning::AtRest => Ask::Done(()),
            Scanning::LoadsEpoch => Ask::Load(SharedWord::Epoch.place()),
            Scanning::LoadsSession(session, _) => Ask::Load(SessionWord::Epoch.place(session)),
            Scanning::RaisesSafe(least) => {
                Ask::Max(SharedWord::SafeEpoch.place(), least.saturating_sub(1))
            }
        }
    }
}
