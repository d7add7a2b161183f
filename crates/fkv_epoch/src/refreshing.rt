//! A protected session refreshes.
ghost use Rattle.std.specs.Prelude.{◌≡◌, ◌<◌, ◌≤◌, ◌+◌, ◌-◌};
ghost use Rattle.fkv_base.specs.Limits.{max_sessions};

use crate::values::Seen;
use fkv_base::Addr;
use fkv_plane::{Ask, SessionWord, SharedWord};
use std::marker::Model;

/// How far the machine has come.
#[derive(Clone, Copy)]
pub(crate) enum Refreshing {
    AtRest,
    LoadsEpoch,
    LoadsPhase(u64),
    LoadsReadOnly(u64, u64),
    LoadsHead(u64, u64, u64),
    HasLoaded(u64, Seen),
    StoresEpoch(u64),
}

/// What the machine has come to.
#[derive(Clone, Copy, Debug, PartialEq, Eq)]
pub enum RefreshAnswer {
    /// All is loaded. Before `finish` the session takes up what it has seen.
    Loaded(Seen),
    /// The session's epoch word is stored, or the machine is at rest.
    Stored,
}

/// Loads the epoch, then what the session goes by, and stores as the session's epoch the one that it loaded, last.
#[derive(Drop)]
pub struct Refresh {
    session: usize,
    step: Refreshing,
}

impl Model for Refresh {
    ghost use Rattle.fkv_base.specs.Limits.{max_sessions};
    ghost use Rattle.std.specs.Prelude.{◌<◌};
    ghost use Rattle.fkv_epoch.specs.Refreshing.{Refresher};

    ghost Value = { Refresher };

    ghost view = { λ m. record { session = m.session; step = m.step } };

    ghost invariant = { λ m. m.session < max_sessions };
}

impl Refresh {
    ghost use Rattle.fkv_epoch.specs.Refreshing.{refresh_ask, refresh_next, refresh_finish, refresh_asks_left, refresh_asks_later};
    ghost use Rattle.fkv_epoch.specs.declared.refreshing.Refreshing.TheVariants.{AtRest, LoadsEpoch};

    /// The machine of a session at rest.
    pub fn new(session: usize) -> Refresh
        requires { session < max_sessions }
        ensures { result ≡ record { session = session; step = AtRest } }
    {
        Refresh {
            session,
            step: Refreshing::AtRest,
        }
    }

    /// The first ask.
    #[tactic(auto, unfolding(crate::specs::Refreshing::refresh_ask, crate::specs::Refreshing::refresh_asks_left, crate::specs::Refreshing::refresh_asks_later))]
    pub fn start(&mut self) -> Ask<RefreshAnswer>
        ensures next { self.new ≡ record self.old { step = LoadsEpoch } }
        ensures ask { result ≡ refresh_ask self.old.session LoadsEpoch }
        ensures bounded { refresh_asks_left self.new.step + refresh_asks_later self.new.step ≤ 5 }
    {
        self.step = Refreshing::LoadsEpoch;
        self.ask()
    }

    /// Goes on to store the epoch, where all is loaded; else it stays where it is.
    #[tactic(auto, unfolding(crate::specs::Refreshing::refresh_ask, crate::specs::Refreshing::refresh_finish, crate::specs::Refreshing::refresh_asks_left, crate::specs::Refreshing::refresh_asks_later))]
    pub fn finish(&mut self) -> Ask<RefreshAnswer>
        ensures next { self.new ≡ record self.old { step = refresh_finish self.old.step } }
        ensures ask { result ≡ refresh_ask self.old.session (refresh_finish self.old.step) }
        ensures bounded { refresh_asks_left self.new.step + refresh_asks_later self.new.step ≤ refresh_asks_left self.old.step + refresh_asks_later self.old.step }
    {
        if let Refreshing::HasLoaded(epoch, _) = self.step {
            self.step = Refreshing::StoresEpoch(epoch);
        }
        self.ask()
    }

    /// Goes on with the reply to its ask. At rest, and until `finish` is called, it stays where it is.
    #[tactic(auto, unfolding(crate::specs::Refreshing::refresh_next, crate::specs::Refreshing::refresh_asks_left, crate::specs::Refreshing::refresh_asks_later))]
    pub fn drive(&mut self, reply: u64) -> Ask<RefreshAnswer>
        ensures next { self.new ≡ record self.old { step = refresh_next self.old.step reply } }
        ensures ask { result ≡ refresh_ask self.old.session (refresh_next self.old.step reply) }
        ensures fewer { refresh_asks_left self.new.step ≤ refresh_asks_left self.old.step - 1 }
        ensures later { refresh_asks_later self.new.step ≤ refresh_asks_later self.old.step }
    {
        self.step = match self.step {
            Refreshing::LoadsEpoch => Refreshing::LoadsPhase(reply),
            Refreshing::LoadsPhase(epoch) => Refreshing::LoadsReadOnly(epoch, reply),
            Refreshing::LoadsReadOnly(epoch, phase) => Refreshing::LoadsHead(epoch, phase, reply),
            Refreshing::LoadsHead(epoch, phase, read_only) => Refreshing::HasLoaded(
                epoch,
                Seen {
                    phase,
                    read_only: Addr(read_only),
                    head: Addr(reply),
                },
            ),
            Refreshing::HasLoaded(epoch, seen) => Refreshing::HasLoaded(epoch, seen),
            Refreshing::StoresEpoch(_) | Refreshing::AtRest => Refreshing::AtRest,
        };
        self.ask()
    }

    /// What it asks now.
    #[tactic(auto, unfolding(crate::specs::Refreshing::refresh_ask))]
    pub fn ask(&self) -> Ask<RefreshAnswer>
        ensures { result ≡ refresh_ask self.now.session self.now.step }
    {
        match self.step {
            Refreshing::AtRest => Ask::Done(RefreshAnswer::Stored),
            Refreshing::LoadsEpoch => Ask::Load(SharedWord::Epoch.place()),
            Refreshing::LoadsPhase(_) => Ask::Load(SharedWord::Phase.place()),
            Refreshing::LoadsReadOnly(_, _) => Ask::Load(SharedWord::ReadOnly.place()),
            Refreshing::LoadsHead(_, _, _) => Ask::Load(SharedWord::Head.place()),
            Refreshing::HasLoaded(_, seen) => Ask::Done(RefreshAnswer::Loaded(seen)),
            Refreshing::StoresEpoch(epoch) => {
                Ask::Store(SessionWord::Epoch.place(self.session), epoch)
            }
        }
    }
}
