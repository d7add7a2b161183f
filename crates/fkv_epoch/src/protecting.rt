//! A session becomes protected.
ghost use Rattle.std.specs.Prelude.{◌≡◌, ◌<◌, ◌≤◌, ◌-◌};
ghost use Rattle.fkv_base.specs.Limits.{max_sessions};

use crate::values::Seen;
use fkv_base::Addr;
use fkv_plane::{Ask, SessionWord, SharedWord};
use std::marker::Model;

/// How far the machine has come.
#[derive(Clone, Copy)]
pub(crate) enum Protecting {
    AtRest,
    LoadsEpoch,
    StoresEpoch(u64),
    LoadsPhase,
    LoadsReadOnly(u64),
    LoadsHead(u64, u64),
}

/// Loads the epoch, stores it as the session's own, and only then loads what the session goes by.
#[derive(Drop)]
pub struct Protect {
    session: usize,
    step: Protecting,
}

impl Model for Protect {
    ghost use Rattle.fkv_base.specs.Limits.{max_sessions};
    ghost use Rattle.std.specs.Prelude.{◌<◌};
    ghost use Rattle.fkv_epoch.specs.Protecting.{Protector};

    ghost Value = { Protector };

    ghost view = { λ m. record { session = m.session; step = m.step } };

    ghost invariant = { λ m. m.session < max_sessions };
}

impl Protect {
    ghost use Rattle.fkv_epoch.specs.Protecting.{protect_ask, protect_next, protect_next_ask, protect_asks_left};
    ghost use Rattle.fkv_epoch.specs.declared.protecting.Protecting.TheVariants.{AtRest, LoadsEpoch};

    /// The machine of a session at rest.
    pub fn new(session: usize) -> Protect
        requires { session < max_sessions }
        ensures { result ≡ record { session = session; step = AtRest } }
    {
        Protect {
            session,
            step: Protecting::AtRest,
        }
    }

    /// The first ask.
    #[tactic(auto, unfolding(crate::specs::Protecting::protect_ask, crate::specs::Protecting::protect_asks_left))]
    pub fn start(&mut self) -> Ask<Seen>
        ensures next { self.new ≡ record self.old { step = LoadsEpoch } }
        ensures ask { result ≡ protect_ask self.old.session LoadsEpoch }
        ensures bounded { protect_asks_left self.new.step ≤ 5 }
    {
        self.step = Protecting::LoadsEpoch;
        self.ask()
    }

    /// What it asks now. At rest it answers with zeros.
    #[tactic(auto, unfolding(crate::specs::Protecting::protect_ask))]
    pub fn ask(&self) -> Ask<Seen>
        ensures { result ≡ protect_ask self.now.session self.now.step }
    {
        match self.step {
            Protecting::AtRest => Ask::Done(seen(0, 0, 0)),
            Protecting::LoadsEpoch => Ask::Load(SharedWord::Epoch.place()),
            Protecting::StoresEpoch(epoch) => {
                Ask::Store(SessionWord::Epoch.place(self.session), epoch)
            }
            Protecting::LoadsPhase => Ask::Load(SharedWord::Phase.place()),
            Protecting::LoadsReadOnly(_) => Ask::Load(SharedWord::ReadOnly.place()),
            Protecting::LoadsHead(_, _) => Ask::Load(SharedWord::Head.place()),
        }
    }

    /// Goes on with the reply to its ask. At rest it answers with zeros.
    #[tactic(auto, unfolding(crate::specs::Protecting::protect_ask, crate::specs::Protecting::protect_next, crate::specs::Protecting::protect_next_ask, crate::specs::Protecting::protect_asks_left))]
    pub fn drive(&mut self, reply: u64) -> Ask<Seen>
        ensures next { self.new ≡ record self.old { step = protect_next self.old.step reply } }
        ensures ask { result ≡ protect_next_ask self.old.session self.old.step reply }
        ensures fewer { protect_asks_left self.new.step ≤ protect_asks_left self.old.step - 1 }
    {
        self.step = match self.step {
            Protecting::LoadsEpoch => Protecting::StoresEpoch(reply),
            Protecting::StoresEpoch(_) => Protecting::LoadsPhase,
            Protecting::LoadsPhase => Protecting::LoadsReadOnly(reply),
            Protecting::LoadsReadOnly(phase) => Protecting::LoadsHead(phase, reply),
            Protecting::LoadsHead(phase, read_only) => {
                self.step = Protecting::AtRest;
                return Ask::Done(seen(phase, read_only, reply));
            }
            Protecting::AtRest => Protecting::AtRest,
        };
        self.ask()
    }
}

fn seen(phase: u64, read_only: u64, head: u64) -> Seen
    ensures { result ≡ record { phase = phase; read_only = record { 0 = read_only }; head = record { 0 = head } } }
{
    Seen {
        phase,
        read_only: Addr(read_only),
        head: Addr(head),
    }
}
