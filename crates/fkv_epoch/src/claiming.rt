//! How armed actions are claimed and run, once their epoch is safe.
ghost use Rattle.std.specs.Prelude.{◌≡◌, ◌<◌, ◌≤◌, ◌+◌, ◌-◌, ◌*◌, None, true, false};
ghost use Rattle.fkv_base.specs.Limits.{drain_slots};
ghost use Rattle.fkv_epoch.specs.Claiming.{claim_ask, claim_next, claim_given, slot_after, slot_armed, run_of, phase_stored, takes_action, claim_asks_left, IsClaimInRange};
ghost use Rattle.fkv_epoch.specs.declared.claiming.Claiming.TheVariants.{AtRest, MeetsSlot};

use fkv_base::{DRAIN_SLOTS, Phase, Version};
use fkv_plane::{Action, Ask, SharedWord, drain_place};
use fkv_words::WidePhase;
use std::marker::Model;
use std::mem;

/// How far the machine has come: the slot that is met, and the safe epoch once it is loaded.
#[derive(Drop)]
pub(crate) enum Claiming {
    AtRest,
    MeetsSlot(usize, Option<u64>),
    /// The slot's word is loaded, and it is armed.
    LoadsSafe(usize, u64),
    /// The slot's word, and the safe epoch.
    TakesSlot(usize, u64, u64),
    /// The slot is claimed, and the machine waits for its action. The epoch at which it was armed, and the safe epoch.
    Receives(usize, u64, u64),
    Runs(usize, u64, u64, Action),
    FreesSlot(usize, u64),
}

/// Goes over the drain slots once. A slot whose epoch is safe is claimed, its action is moved out and run, and the slot is
/// freed. Nothing here says who does so.
#[derive(Drop)]
pub struct Claim {
    step: Claiming,
}

impl Model for Claim {
    ghost use Rattle.fkv_epoch.specs.Claiming.{Claimer, IsClaimInRange};

    ghost Value = { Claimer };

    ghost view = { λ m. record { step = m.step } };

    ghost invariant = { λ m. IsClaimInRange m.step };
}

impl Claim {
    /// The machine at rest.
    pub fn new() -> Claim
        ensures { result ≡ record { step = AtRest } }
    {
        Claim {
            step: Claiming::AtRest,
        }
    }

    /// The first ask: the first slot.
    #[tactic(auto, unfolding(crate::specs::Claiming::claim_ask, crate::specs::Claiming::claim_asks_left))]
    pub fn start(&mut self) -> Ask<()>
        ensures next { self.new ≡ record { step = MeetsSlot 0 None } }
        ensures ask { result ≡ claim_ask (MeetsSlot 0 None) }
        ensures bounded { claim_asks_left self.new.step ≤ 5 * drain_slots + 1 }
    {
        self.step = Claiming::MeetsSlot(0, None);
        self.ask()
    }

    /// Goes on with the reply to its ask. Where it waits for an action it stays there.
    #[tactic(auto, unfolding(crate::specs::Claiming::claim_next))]
    pub fn drive(&mut self, reply: u64) -> Ask<()>
        ensures next { self.new ≡ record { step = claim_next self.old.step reply } }
        ensures ask { result ≡ claim_ask (claim_next self.old.step reply) }
        ensures fewer { takes_action (claim_ask self.old.step) ≡ false → claim_asks_left self.new.step ≤ claim_asks_left self.old.step - 1 }
    {
        self.step = match mem::replace(&mut self.step, Claiming::AtRest) {
            Claiming::AtRest => Claiming::AtRest,
            Claiming::MeetsSlot(slot, None) => {
                if reply < 2 {
                    slot_after(slot, None)
                } else {
                    Claiming::LoadsSafe(slot, reply)
                }
            }
            Claiming::MeetsSlot(slot, Some(safe)) => {
                if reply < 2 {
                    slot_after(slot, Some(safe))
                } else {
                    slot_armed(slot, reply, safe)
                }
            }
            Claiming::LoadsSafe(slot, word) => slot_armed(slot, word, reply),
            Claiming::TakesSlot(slot, word, safe) => {
                if reply == word {
                    Claiming::Receives(slot, word.saturating_sub(2), safe)
                } else {
                    slot_after(slot, Some(safe))
                }
            }
            Claiming::Receives(slot, epoch, safe) => Claiming::Receives(slot, epoch, safe),
            Claiming::Runs(slot, _, safe, _) => Claiming::FreesSlot(slot, safe),
            Claiming::FreesSlot(slot, safe) => slot_after(slot, Some(safe)),
        };
        self.ask()
    }

    /// Gets the action of the slot that it claimed. Where it waits for none the action is let go.
    #[tactic(auto, unfolding(crate::specs::Claiming::claim_given))]
    pub fn given(&mut self, action: Action) -> Ask<()>
        ensures next { self.new ≡ record { step = claim_given self.old.step action } }
        ensures ask { result ≡ claim_ask (claim_given self.old.step action) }
        ensures fewer { takes_action (claim_ask self.old.step) ≡ true → claim_asks_left self.new.step ≤ claim_asks_left self.old.step - 1 }
    {
        if let Claiming::Receives(slot, epoch, safe) = self.step {
            self.step = Claiming::Runs(slot, epoch, safe, action);
        }
        self.ask()
    }

    /// What it asks now.
    #[tactic(auto, unfolding(crate::specs::Claiming::claim_ask))]
    pub fn ask(&self) -> Ask<()>
        ensures { result ≡ claim_ask self.now.step }
    {
        match &self.step {
            Claiming::AtRest => Ask::Done(()),
            Claiming::MeetsSlot(slot, _) => Ask::Load(drain_place(*slot)),
            Claiming::LoadsSafe(_, _) => Ask::Load(SharedWord::SafeEpoch.place()),
            Claiming::TakesSlot(slot, word, _) => Ask::Cas(drain_place(*slot), *word, 1),
            Claiming::Receives(slot, _, _) => Ask::Take(*slot),
            Claiming::Runs(_, _, _, action) => run_of(action),
            Claiming::FreesSlot(slot, _) => Ask::Store(drain_place(*slot), 0),
        }
    }
}

/// The slot after this one is met, if there is one.
#[tactic(auto, unfolding(crate::specs::Claiming::slot_after))]
fn slot_after(slot: usize, safe: Option<u64>) -> Claiming
    requires { slot < drain_slots }
    ensures next { result ≡ slot_after slot safe }
    ensures in_range { IsClaimInRange result }
{
    if slot + 1 < DRAIN_SLOTS {
        Claiming::MeetsSlot(slot + 1, safe)
    } else {
        Claiming::AtRest
    }
}

/// A slot that is armed is claimed where its epoch is safe.
#[tactic(auto, unfolding(crate::specs::Claiming::slot_armed))]
fn slot_armed(slot: usize, word: u64, safe: u64) -> Claiming
    requires { slot < drain_slots }
    ensures next { result ≡ slot_armed slot word safe }
    ensures in_range { IsClaimInRange result }
{
    if word.saturating_sub(2) <= safe {
        Claiming::TakesSlot(slot, word, safe)
    } else {
        slot_after(slot, Some(safe))
    }
}

/// What running an action asks.
fn run_of(action: &Action) -> Ask<()>
    ensures { result ≡ run_of action.now }
{
    match action {
        Action::SafeReadOnly(addr) => Ask::Max(SharedWord::SafeReadOnly.place(), addr.0),
        Action::Close(addr) => Ask::Max(SharedWord::Closed.place(), addr.0),
        Action::Phase(phase, version) => {
            Ask::Store(SharedWord::Phase.place(), phase_stored(*phase, *version))
        }
    }
}

/// The phase word of a phase and a version. For a version past the word's limits it has the nearest that there is room for.
fn phase_stored(phase: Phase, version: Version) -> u64
    ensures { result ≡ phase_stored phase version }
{
    let version = Version(version.0.min(WidePhase::LAST).max(1));
    WidePhase { version, phase }.pack()
}
